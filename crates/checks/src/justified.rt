// Whether answer records are justified, plain ones or such with rounds, where either party may have a goal.
ghost use Rattle.std.specs.Prelude.{◌≡◌, ℕ, ◌+◌, ◌-◌, ◌*◌, ◌≤◌, ◌<◌, length, get_or, eqb};
ghost use Rattle.steps.specs.Words.{body_of};
ghost use Rattle.steps.specs.Acceptance.{each_below};
ghost use Rattle.records.specs.Records.{follows, justified};
ghost use Rattle.records.specs.Storage.{calls_in, answers_in, call_width_of, answer_width_of};
ghost use Rattle.records.specs.Bodies.{Short, bodies_with};
ghost use Rattle.checks.specs.Readable.{Readable};
ghost use Rattle.checks.specs.Checks.{all_justified};

use crate::clear::clear_between;
use crate::follow::follow;
use records::bodies::Goals;
use records::{bodies, tables};
use steps::state::State;

// Whether the evidence of record n from place q on is 0.
fn unused(plain: bool, answers: &[u64], n: usize, q: usize) -> bool
    requires { (answer_width_of plain * n + answer_width_of plain ≤ length answers.now) × (n < 65536) × (q ≤ 16) }
    ensures { result ≡ each_below (16 - q) (λ i. eqb (get_or answers.now (answer_width_of plain * n + 3 + (q + i)) 0) 0) }
{
    let at = tables::answer_width(plain) * n + 3;
    clear_between(answers, at + q, at + 16)
}

// Whether walking the body from a state with the evidence of record n ends in its final state.
fn follows(
    plain: bool,
    body: &[u16],
    start: State,
    n: usize,
    calls: &[u64],
    answers: &[u64],
) -> bool
    requires { Readable plain calls.now answers.now (n + 1) × (length body.now ≤ 16) }
    ensures { (c m : ℕ) → result ≡ follows (calls_in (call_width_of plain) calls.now c)
        (answers_in (answer_width_of plain) answers.now m) n (body_of body.now) 0 start.0 }
{
    let width = tables::answer_width(plain);
    let mut state = start;
    for (q, step) in body.iter().enumerate() {
        let evidence = tables::evidence_of(answers, width, n, q);
        match follow(plain, *step, state, evidence, n, calls, answers) {
            Some(after) => state = after,
            None => return false,
        }
    }
    state.0 == tables::final_of(answers, width, n).0 && unused(plain, answers, n, body.len())
}

// Whether record n is justified by the records below it.
pub fn justified<'a>(
    plain: bool,
    rules: &'a [u16],
    goal: &'a [u16],
    second: &'a [u16],
    goals: Goals,
    calls: &[u64],
    call_count: usize,
    answers: &[u64],
    n: usize,
) -> bool
    requires { Short rules.now goal.now × Short rules.now second.now × (call_width_of plain * call_count ≤ length calls.now)
        × (n < 65536) × (answer_width_of plain * n + answer_width_of plain ≤ length answers.now) × Readable plain calls.now answers.now n }
    ensures { (m : ℕ) → result ≡ justified (calls_in (call_width_of plain) calls.now call_count)
        (answers_in (answer_width_of plain) answers.now m) n
        (bodies_with rules.now goals.first goals.second goal.now second.now) }
{
    let width = tables::answer_width(plain);
    let call = tables::call_of(answers, width, n);
    if call < call_count as u64 {
        let row = call as usize;
        let rule = tables::rule_of(answers, width, n);
        let action = tables::action_of(calls, tables::call_width(plain), row);
        if bodies::is_of(rules, goals, rule, action) {
            let start = tables::state_of(calls, tables::call_width(plain), row);
            let body = bodies::steps_for(rules, goal, second, goals, rule, action);
            return follows(plain, body, start, n, calls, answers);
        }
    }
    false
}

// Whether every answer record is justified.
pub fn all_justified<'a>(
    plain: bool,
    rules: &'a [u16],
    goal: &'a [u16],
    second: &'a [u16],
    goals: Goals,
    calls: &[u64],
    call_count: usize,
    answers: &[u64],
    answer_count: usize,
) -> bool
    requires { Short rules.now goal.now × Short rules.now second.now × (call_width_of plain * call_count ≤ length calls.now)
        × (answer_count ≤ 65536) × (answer_width_of plain * answer_count ≤ length answers.now) }
    ensures { result ≡ all_justified (calls_in (call_width_of plain) calls.now call_count)
        (answers_in (answer_width_of plain) answers.now answer_count)
        (bodies_with rules.now goals.first goals.second goal.now second.now) }
{
    for n in 0..answer_count {
        if !justified(
            plain, rules, goal, second, goals, calls, call_count, answers, n,
        ) {
            return false;
        }
    }
    true
}
