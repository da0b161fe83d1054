// Whether the tables that two parties share are handed back as they are kept: refusal 91 (request R-14).
//
// What is kept is judged by itself; then the records one by one (42); then the tables are put aside in their own words, the kept goals are
// evaluated together in the words that this leaves free, and the rows are told off against each other. A party's own rows are within its limits
// if those of the tables are; else its goal is evaluated alone. The tables come back word for word.
#![tactic(auto)]

mod aside;
mod limits;
mod rows;

ghost use Rattle.std.specs.Prelude.{◌≡◌, [], ◌*◌, ◌≤◌, length};
ghost use Rattle.steps.specs.Acceptance.{words_refusal};
ghost use Rattle.records.specs.Records.{room, call_width};
ghost use Rattle.matching.specs.Flags.{Whether};
ghost use Rattle.sharing.specs.Parties.{account_at};
ghost use Rattle.sharing.specs.Charged.{plain_call_width, AsKept};
ghost use Rattle.accounts.specs.Accounts.{Sound};
ghost use Rattle.balancing.specs.Balancing.{Lent};

use accounts::{judging, reading};
use records::bodies::Goals;

// Where the counts of records stand among the words kept.
const CALLS: usize = 42;

const ANSWERS: usize = 43;

// Whether the tables hold just the rows of the goals kept, within the limits. The words kept are sound, and these are their goals.
fn as_held<'a>(
    fluents: u64,
    actions: u64,
    rules: &'a [u16],
    goal: &'a [u16],
    second: &'a [u16],
    kept: &[u64],
    rows: &mut [u64],
    bytes: &mut [u8],
    calls: &mut [u64],
    answers: &mut [u64],
) -> bool
    requires rules_value { (words_refusal fluents actions rules.now [] ≡ 0) × Sound fluents actions kept.now calls.old answers.old
        × Lent rows.old bytes.old calls.old }
    requires goal_value { (goal.now ≡ (account_at kept.now 0).goal) × (second.now ≡ (account_at kept.now 21).goal) }
    ensures calls_unchanged { (calls.new ≡ calls.old) × (answers.new ≡ answers.old) }
    ensures rows_len_unchanged { (length rows.new ≡ length rows.old) × (length bytes.new ≡ length bytes.old) }
    ensures whether { Whether (AsKept fluents actions rules.now kept.now calls.old answers.old) result }
{
    let n = kept[CALLS] as usize;
    let m = kept[ANSWERS] as usize;
    let goals = Goals {
        first: reading::holds(kept, 0),
        second: reading::holds(kept, reading::SECOND),
    };
    let start = reading::start(kept, 0);
    let second_start = reading::start(kept, reading::SECOND);
    if !rows::good_tables(
        fluents, actions, rules, goal, second, goals, calls, n, answers, m,
    ) {
        return false;
    }
    let evaluated = aside::evaluated(
        rules,
        goal,
        second,
        goals,
        start,
        second_start,
        rows,
        bytes,
        calls,
        n,
        answers,
        m,
    );
    let Ok(found) = evaluated else {
        return false;
    };
    if !found.same {
        return false;
    }
    limits::both_within(rules, goal, second, kept, rows, bytes, calls, n, answers, m)
}

// Whether the tables and the words kept do not meet 91 under this book. Both tables come back as they were; the rows and the bytes, words lent
// for the run, may hold anything.
pub fn as_kept<'a>(
    fluents: u64,
    actions: u64,
    rules: &'a [u16],
    kept: &[u64],
    rows: &mut [u64],
    bytes: &mut [u8],
    calls: &mut [u64],
    answers: &mut [u64],
) -> bool
    requires rules_value { words_refusal fluents actions rules.now [] ≡ 0 }
    requires rows_len { (length rows.old ≡ call_width * room plain_call_width (length calls.old))
        × (room plain_call_width (length calls.old) ≤ length bytes.old) }
    ensures calls_unchanged { (calls.new ≡ calls.old) × (answers.new ≡ answers.old) }
    ensures rows_len_unchanged { (length rows.new ≡ length rows.old) × (length bytes.new ≡ length bytes.old) }
    ensures whether { Whether (AsKept fluents actions rules.now kept.now calls.old answers.old) result }
{
    if judging::bad_kept(fluents, actions, kept, calls, answers) {
        return false;
    }
    let mut goal = [0u16; 16];
    let mut second = [0u16; 16];
    let steps = reading::goal_into(kept, 0, &mut goal);
    let second_steps = reading::goal_into(kept, reading::SECOND, &mut second);
    as_held(
        fluents,
        actions,
        rules,
        &goal[..steps],
        &second[..second_steps],
        kept,
        rows,
        bytes,
        calls,
        answers,
    )
}
