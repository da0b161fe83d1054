// The rows that a run leaves, and the words kept then.
ghost use Rattle.std.specs.Prelude.{◌≡◌, ℕ, ◌*◌, length};
ghost use Rattle.steps.specs.Words.{run_of};
ghost use Rattle.steps.specs.Acceptance.{refusal_of};
ghost use Rattle.records.specs.Records.{room, call_width};
ghost use Rattle.sharing.specs.Parties.{account_of, ledger_of, party_of};
ghost use Rattle.sharing.specs.Charged.{plain_call_width, Exceeds};
ghost use Rattle.sharing.specs.Shared.{gives_up};
ghost use Rattle.accounts.specs.Accounts.{took_up};
ghost use Rattle.panel.specs.Left.{Fitting, counted, Left, Leaves};

use accounts::writing::Kept;
use accounts::{reading, writing};
use joint::Rows;
use records::bodies::Goals;
use records::tables;

// Leaves in both tables the rows of the goals that these words keep, whatever the tables held, and gives their counts.
fn settle_kept<'a>(
    rules: &'a [u16],
    kept: &[u64],
    rows: &mut [u64],
    calls: &mut [u64],
    answers: &mut [u64],
) -> Rows
    requires by_index { (fluents : ℕ) × (actions : ℕ) × Fitting fluents actions rules.now kept.now calls.old answers.old }
    requires rows_len { length rows.old ≡ call_width * room plain_call_width (length calls.old) }
    ensures { Left rules.now (counted (ledger_of kept.now) result.calls result.answers)
        calls.old answers.old calls.new answers.new }
{
    let mut first = [0u16; 16];
    let mut second = [0u16; 16];
    let n = reading::goal_into(kept, 0, &mut first);
    let m = reading::goal_into(kept, reading::SECOND, &mut second);
    let goals = Goals {
        first: reading::holds(kept, 0),
        second: reading::holds(kept, reading::SECOND),
    };
    let start = reading::start(kept, 0);
    let second_start = reading::start(kept, reading::SECOND);
    let most = tables::room_of(answers.len(), stowing::ANSWER_WORDS);
    let settled = settling::settle(
        rules,
        &first[..n],
        &second[..m],
        goals,
        start,
        second_start,
        rows,
        calls,
        answers,
        most,
    );
    match settled {
        Ok(left) => left,
        Err(_) => unreachable!(),
    }
}

// Leaves the rows of the other party alone, and gives the words that are kept then: this one holds no rows.
pub fn give_up<'a>(
    second: bool,
    rules: &'a [u16],
    kept: &[u64],
    rows: &mut [u64],
    calls: &mut [u64],
    answers: &mut [u64],
) -> Kept
    requires by_index { (fluents : ℕ) × (actions : ℕ) × Fitting fluents actions rules.now kept.now calls.old answers.old }
    requires rows_len { length rows.old ≡ call_width * room plain_call_width (length calls.old) }
    ensures { Leaves rules.now kept.now (party_of second)
        (gives_up (account_of (ledger_of kept.now) (party_of second)))
        calls.old answers.old calls.new answers.new result.words }
{
    let bare = writing::gives_up(kept, second, 0, 0);
    let words = bare.words;
    let left = settle_kept(rules, &words, rows, calls, answers);
    writing::gives_up(kept, second, left.calls, left.answers)
}

// Leaves the rows of both parties, this one's of the goal from the start, and gives the words that are kept then.
pub fn take_up<'a>(
    second: bool,
    rules: &'a [u16],
    goal: &'a [u16],
    start: u64,
    kept: &[u64],
    rows: &mut [u64],
    calls: &mut [u64],
    answers: &mut [u64],
) -> Kept
    requires by_index { (fluents : ℕ) × (actions : ℕ) × Fitting fluents actions rules.now kept.now calls.old answers.old
        × (refusal_of fluents actions rules.now goal.now start ≡ 0) }
    requires not_exceeds { ¬ Exceeds (run_of rules.now goal.now start) (account_of (ledger_of kept.now) (party_of second)) }
    requires rows_len { length rows.old ≡ call_width * room plain_call_width (length calls.old) }
    ensures { Leaves rules.now kept.now (party_of second)
        (took_up (account_of (ledger_of kept.now) (party_of second)) goal.now start)
        calls.old answers.old calls.new answers.new result.words }
{
    let bare = writing::takes_up(kept, second, start, goal, 0, 0);
    let words = bare.words;
    let left = settle_kept(rules, &words, rows, calls, answers);
    writing::takes_up(kept, second, start, goal, left.calls, left.answers)
}
