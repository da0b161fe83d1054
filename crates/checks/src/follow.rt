// One step of an answer record's walk, among plain records or among records with rounds.
ghost use Rattle.std.specs.Prelude.{◌≡◌, ℕ, ◌+◌, ◌*◌, ◌<◌, ◌≤◌, cond, ◌&&◌, length, get_or, eqb};
ghost use Rattle.steps.specs.Elementary.{on, stuck};
ghost use Rattle.steps.specs.Next.{onward};
ghost use Rattle.records.specs.Records.{Calls, earlier};
ghost use Rattle.records.specs.Storage.{answers_in, answer_width_of};
ghost use Rattle.checks.specs.Readable.{Readable, taken, Leads};

use records::tables;
use steps::state::State;
use steps::word::{elementary, index, is_call};

// The round of answer record n.
fn round(plain: bool, n: usize, answers: &[u64]) -> u64
    requires { answer_width_of plain * n + answer_width_of plain ≤ length answers.now }
    ensures { (m : ℕ) → result ≡ (answers_in (answer_width_of plain) answers.now m).round n }
{
    tables::round_of(
        answers,
        tables::ANSWER_OTHERS,
        tables::answer_width(plain),
        n,
    )
}

// The state after a call of an action that takes the named answer: that answer's call must be this action at this state.
fn take(
    plain: bool,
    action: u64,
    state: State,
    named: usize,
    calls: &[u64],
    answers: &[u64],
) -> Option<State>
    requires { Readable plain calls.now answers.now (named + 1) }
    ensures { onward result ≡ taken plain calls.now answers.now action state.0 named }
{
    let width = tables::call_width(plain);
    let call = tables::call_of(answers, tables::answer_width(plain), named) as usize;
    if tables::action_of(calls, width, call) == action
        && tables::state_of(calls, width, call).0 == state.0
    {
        return Some(tables::final_of(answers, tables::answer_width(plain), named));
    }
    None
}

// Whether the answer that the evidence names comes before record n: its number is smaller, and so is its round.
fn earlier(plain: bool, evidence: u64, n: usize, answers: &[u64]) -> bool
    requires { (answer_width_of plain * n + answer_width_of plain ≤ length answers.now) × (n < 65536) }
    ensures { (calls : Calls) (m : ℕ) → result ≡ earlier calls (answers_in (answer_width_of plain) answers.now m) n evidence }
{
    if evidence < n as u64 {
        return round(plain, evidence as usize, answers) < round(plain, n, answers);
    }
    false
}

// Where a step of record n leads from a state with its evidence.
pub fn follow(
    plain: bool,
    step: u16,
    state: State,
    evidence: u64,
    n: usize,
    calls: &[u64],
    answers: &[u64],
) -> Option<State>
    requires { Readable plain calls.now answers.now (n + 1) }
    ensures { Leads plain calls.now answers.now n step state.0 evidence (onward result) }
{
    if is_call(step) {
        if earlier(plain, evidence, n, answers) {
            return take(plain, index(step), state, evidence as usize, calls, answers);
        }
        return None;
    }
    if evidence == 0 {
        return elementary(step, state);
    }
    None
}
