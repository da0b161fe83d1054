// One step of the walk of a checked record, plain or with a round. Plain records are those that two parties share, with a goal each.
ghost use Rattle.std.specs.Prelude.{◌≡◌, true, ℕ, ◌+◌, ◌*◌, ◌≤◌, ◌<◌, length};
ghost use Rattle.cells.specs.Numbers.{numbers};
ghost use Rattle.steps.specs.Words.{step_of};
ghost use Rattle.records.specs.Storage.{answer_width_of};
ghost use Rattle.checks.specs.Readable.{Readable};
ghost use Rattle.unfolding.specs.Path.{shown};
ghost use Rattle.unfolding.proofs.Walk.{lent, rows_of, ends_of, Checked, LeadsTo, words_at};
ghost use Rattle.unfolding.proofs.Sizes.{Turned};

use records::bodies::Goals;
use records::{bodies, tables};
use steps::state::{Call, State};
use steps::word::{elementary, is_call};

// The state that a step leads to, and how many states it adds to the path.
#[derive(Clone, Copy)]
pub struct Turn {
    pub state: u64,
    pub size: usize,
}

// The number of record n's call record.
fn row(plain: bool, answers: &[u64], n: usize) -> usize
    requires { answer_width_of plain * n + answer_width_of plain ≤ length answers.now }
    ensures { result ≡ (ends_of plain answers.now).call n }
{
    tables::call_of(answers, tables::answer_width(plain), n) as usize
}

// The state of record n's call.
pub fn start(plain: bool, calls: &[u64], answers: &[u64], n: usize) -> u64
    requires { Readable plain calls.now answers.now (n + 1) }
    ensures { result ≡ (rows_of plain calls.now).state ((ends_of plain answers.now).call n) }
{
    tables::state_of(calls, tables::call_width(plain), row(plain, answers, n)).0
}

// The action of record n's call where two parties have a goal each. Where there is one goal its steps do not hang on it.
fn action(plain: bool, calls: &[u64], answers: &[u64], n: usize) -> u64
    requires { Readable plain calls.now answers.now (n + 1) }
    ensures { plain ≡ true → result ≡ (rows_of plain calls.now).action ((ends_of plain answers.now).call n) }
{
    if plain {
        return tables::action_of(calls, tables::call_width(plain), row(plain, answers, n));
    }
    Call::GOAL
}

// The step words of record n.
pub fn steps_of<'a>(
    plain: bool,
    rules: &'a [u16],
    goal: &'a [u16],
    second: &'a [u16],
    calls: &[u64],
    answers: &[u64],
    n: usize,
) -> &'a [u16]
    requires { Checked (lent plain rules.now goal.now second.now calls.now answers.now) (n + 1) }
    ensures { let it = lent plain rules.now goal.now second.now calls.now answers.now in
        (result.now ≡ words_at it n) × (length result.now ≤ 16) }
{
    let goals = Goals {
        first: true,
        second: plain,
    };
    let rule = tables::rule_of(answers, tables::answer_width(plain), n);
    let of = action(plain, calls, answers, n);
    bodies::steps_for(rules, goal, second, goals, rule, of)
}

// The evidence of record n at place q.
pub fn evidence_of(plain: bool, answers: &[u64], n: usize, q: usize) -> u64
    requires { (answer_width_of plain * n + answer_width_of plain ≤ length answers.now) × (q < 16) }
    ensures { result ≡ (ends_of plain answers.now).evidence n q }
{
    tables::evidence_of(answers, tables::answer_width(plain), n, q)
}

// How many states an elementary step adds: an insert and a delete one each, any other none.
pub fn shown(step: u16) -> usize
    ensures { (t : ℕ) → result ≡ length (shown (step_of step) t) }
{
    let kind = step / 256;
    if (kind == 1) | (kind == 2) { 1 } else { 0 }
}

// The state after a step of record n that goes on: a call ends in the final state of the record that it uses.
pub fn after(
    plain: bool,
    step: u16,
    state: u64,
    evidence: u64,
    n: usize,
    calls: &[u64],
    answers: &[u64],
) -> u64
    requires { Readable plain calls.now answers.now (n + 1) × ((t : ℕ) × LeadsTo plain calls.now answers.now n step state evidence t) }
    ensures { LeadsTo plain calls.now answers.now n step state evidence result }
{
    if is_call(step) {
        return tables::final_of(answers, tables::answer_width(plain), evidence as usize).0;
    }
    let next = elementary(step, State::of(state));
    match next {
        Some(t) => t.0,
        None => state,
    }
}

// One step of record n that goes on; `sizes` has how many states each record below n adds.
pub fn take_step(
    plain: bool,
    step: u16,
    state: u64,
    evidence: u64,
    n: usize,
    calls: &[u64],
    answers: &[u64],
    sizes: &[u8],
) -> Turn
    requires { Readable plain calls.now answers.now (n + 1) × (n ≤ length (numbers sizes.now))
        × ((t : ℕ) × LeadsTo plain calls.now answers.now n step state evidence t) }
    ensures { Turned plain calls.now answers.now (numbers sizes.now) n step state evidence
        result.state result.size }
{
    let next = after(plain, step, state, evidence, n, calls, answers);
    if is_call(step) {
        return Turn {
            state: next,
            size: cells::get(sizes, evidence as usize),
        };
    }
    Turn {
        state: next,
        size: shown(step),
    }
}
