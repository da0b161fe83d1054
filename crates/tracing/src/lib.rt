// The path of an answer record of tables that two parties share (request R-14): as the path of any record, over records without rounds and with the
// goals that are kept.
#![tactic(auto)]

ghost use Rattle.std.specs.Prelude.{◌≡◌, cond, List, [], ℕ, ◌≤◌, length, eqb};
ghost use Rattle.refusals.specs.Number.{number_of, number_in};
ghost use Rattle.refusals.specs.Path.{path_refusals};
ghost use Rattle.steps.specs.Acceptance.{words_refusal};
ghost use Rattle.sharing.specs.SharedPath.{shared_fault, Traced};
ghost use Rattle.accounts.specs.Accounts.{GoalRead};
ghost use Rattle.tracing.specs.Tracing.{GoalsRead, GoalsKept};

use accounts::{judging, reading};
use checks::tables::bad_rows;
use path::list;
use path::outcome::Path;
use records::bodies::Goals;
use refusals::Refusal;
use steps::accept::words_refusal;

// Where the counts of records stand in the words kept.
const CALLS: usize = 42;

const ANSWERS: usize = 43;

// The most steps of a goal.
const MOST_STEPS: usize = 16;

// What a refused path answers.
fn refused(refusal: Refusal) -> Path
    ensures { (result.refusal ≡ number_of refusal) × (result.states ≡ 0) }
{
    Path {
        refusal: refusal.number(),
        states: 0,
    }
}

// The first of 20 to 22 that the book meets; 41 where it meets none, since nothing is kept.
fn unkept(fluents: u64, actions: u64, rules: &[u16]) -> Refusal
    ensures { number_of result ≡ cond (eqb (words_refusal fluents actions rules.now []) 0) path_refusals.no_record
        (words_refusal fluents actions rules.now []) }
{
    match words_refusal(fluents, actions, rules, &[]) {
        Err(refusal) => refusal,
        Ok(()) => Refusal::NoRecord,
    }
}

// The first of 20 to 23 that is met with a goal read into 16 places; a count over 16 says that it is a bad one.
fn goal_refusal(
    fluents: u64,
    actions: u64,
    rules: &[u16],
    goal: &[u16],
    count: usize,
) -> Result<(), Refusal>
    requires { 16 ≤ length goal.now }
    ensures { (number_in result ≡ 0 → count ≤ 16) × ((words places : List ℕ) → GoalRead words places goal.now count
        → number_in result ≡ words_refusal fluents actions rules.now words) }
{
    if count <= MOST_STEPS {
        return words_refusal(fluents, actions, rules, &goal[..count]);
    }
    words_refusal(fluents, actions, rules, &[])?;
    Err(Refusal::BadGoal)
}

// The first of 40 to 42 that is met.
fn fault<'a>(
    fluents: u64,
    actions: u64,
    rules: &'a [u16],
    goal: &'a [u16],
    second: &'a [u16],
    kept: &[u64],
    calls: &[u64],
    answers: &[u64],
    record: u64,
) -> Result<(), Refusal>
    requires { GoalsKept fluents actions rules.now kept.now goal.now second.now }
    ensures { number_in result ≡ shared_fault fluents actions rules.now kept.now calls.now answers.now
        «record» }
{
    if judging::over_rooms(kept, calls, answers) {
        return Err(Refusal::BadRecordCount);
    }
    let n = kept[CALLS];
    let m = kept[ANSWERS];
    let among = m;
    if among <= record {
        return Err(Refusal::NoRecord);
    }
    let goals = Goals {
        first: reading::holds(kept, 0),
        second: reading::holds(kept, reading::SECOND),
    };
    if bad_rows(
        fluents, actions, rules, goal, second, goals, calls, n as usize, answers, m as usize,
    ) {
        return Err(Refusal::BadRecord);
    }
    Ok(())
}

// Lists the path of a record by the goals kept, which meet none of 20 to 23.
fn trace<'a>(
    fluents: u64,
    actions: u64,
    rules: &'a [u16],
    goal: &'a [u16],
    second: &'a [u16],
    kept: &[u64],
    calls: &[u64],
    answers: &[u64],
    record: u64,
    states: &mut [u64],
) -> Path
    requires { GoalsKept fluents actions rules.now kept.now goal.now second.now }
    ensures { Traced fluents actions rules.now kept.now calls.now answers.now «record»
        states.old result.refusal result.states states.new }
{
    if let Err(refusal) = fault(
        fluents, actions, rules, goal, second, kept, calls, answers, record,
    ) {
        return refused(refusal);
    }
    let most = states.len();
    let Some(listed) = list::list_states(
        true,
        rules,
        goal,
        second,
        calls,
        answers,
        record as usize,
        most,
        states,
    ) else {
        return refused(Refusal::StatesShort);
    };
    Path {
        refusal: 0,
        states: listed as u64,
    }
}

// The same where the goals may be bad ones, each read into 16 places.
fn judge<'a>(
    fluents: u64,
    actions: u64,
    rules: &'a [u16],
    goal: &'a [u16],
    n: usize,
    second: &'a [u16],
    m: usize,
    kept: &[u64],
    calls: &[u64],
    answers: &[u64],
    record: u64,
    states: &mut [u64],
) -> Path
    requires { GoalsRead kept.now goal.now n second.now m }
    ensures { Traced fluents actions rules.now kept.now calls.now answers.now «record»
        states.old result.refusal result.states states.new }
{
    if let Err(own) = goal_refusal(fluents, actions, rules, goal, n) {
        return refused(own);
    }
    if let Err(other) = goal_refusal(fluents, actions, rules, second, m) {
        return refused(other);
    }
    trace(
        fluents,
        actions,
        rules,
        &goal[..n],
        &second[..m],
        kept,
        calls,
        answers,
        record,
        states,
    )
}

// Lists the path of an answer record of the tables that two parties share: the states come first in the list, and the list past them is
// unchanged. Refused, it lists none and changes nothing. Words kept that are not 44 keep no records.
pub fn share_path<'a>(
    fluents: u64,
    actions: u64,
    rules: &'a [u16],
    kept: &[u64],
    calls: &[u64],
    answers: &[u64],
    record: u64,
    states: &mut [u64],
) -> Path
    ensures { Traced fluents actions rules.now kept.now calls.now answers.now «record»
        states.old result.refusal result.states states.new }
{
    if kept.len() != reading::LEDGER_WORDS {
        return refused(unkept(fluents, actions, rules));
    }
    let mut goal = [0u16; 16];
    let mut second = [0u16; 16];
    let n = reading::goal_into(kept, 0, &mut goal);
    let m = reading::goal_into(kept, reading::SECOND, &mut second);
    judge(
        fluents, actions, rules, &goal, n, &second, m, kept, calls, answers, record, states,
    )
}
