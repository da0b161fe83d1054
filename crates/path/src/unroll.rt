// The states of a long path, one after another: down the evidence, by what each record stands for.
ghost use Rattle.std.specs.Prelude.{◌≡◌, true, ◌+◌, ◌≤◌, ◌<◌, length};
ghost use Rattle.cells.specs.Numbers.{numbers};
ghost use Rattle.steps.specs.Inner.{is_call};
ghost use Rattle.steps.specs.Words.{step_of};
ghost use Rattle.unfolding.specs.Path.{shown};
ghost use Rattle.unfolding.proofs.Walk.{lent, Checked, added_by, words_at};
ghost use Rattle.unfolding.proofs.Rests.{Fresh, rest, state_at};
ghost use Rattle.unfolding.proofs.Frames.{Stopped};
ghost use Rattle.unfolding.proofs.Leads.{Led, CallLead};
ghost use Rattle.unfolding.proofs.Unrolling.{Put, Ran};
ghost use Rattle.path.specs.Inner.{down_to};

use crate::frames::{Spot, Stop, turn};
use crate::walk::{after, evidence_of, shown, start, steps_of};
use records::tables;
use steps::word::is_call;

// The state of record n before step q: its call's, or what the call before that step ended in.
fn state_before(
    plain: bool,
    rules: &[u16],
    goal: &[u16],
    second: &[u16],
    calls: &[u64],
    answers: &[u64],
    n: usize,
    q: usize,
) -> u64
    requires { let it = lent plain rules.now goal.now second.now calls.now answers.now in
        Checked it (n + 1) × Fresh it n q × (q ≤ 16) }
    ensures { let it = lent plain rules.now goal.now second.now calls.now answers.now in
        result ≡ state_at it n q }
{
    if q == 0 {
        return start(plain, calls, answers, n);
    }
    let used = evidence_of(plain, answers, n, q - 1);
    tables::final_of(answers, tables::answer_width(plain), used as usize).0
}

// The record that a call stands for, if it adds states; none for any other step.
fn call_lead(step: u16, used: u64, leads: &[u8]) -> Option<usize>
    requires { is_call step ≡ true → used < length (numbers leads.now) }
    ensures { CallLead (numbers leads.now) step used (down_to result) }
{
    if is_call(step) {
        return cells::get(leads, used as usize).checked_sub(1);
    }
    None
}

// Writes the state that a step leads to, if it is an update, and gives the place of the next one.
fn show(step: u16, state: u64, at: usize, list: &mut [u64]) -> usize
    requires { at + length (shown (step_of step) state) ≤ length list.old }
    ensures { (result ≡ at + length (shown (step_of step) state))
        × Put (shown (step_of step) state) at list.old list.new }
{
    if shown(step) == 0 {
        return at;
    }
    list[at] = state;
    at + 1
}

// Writes from a step of record n on, to the next call that adds states or to its end.
fn run<'a>(
    plain: bool,
    rules: &'a [u16],
    goal: &'a [u16],
    second: &'a [u16],
    calls: &[u64],
    answers: &[u64],
    n: usize,
    step: usize,
    found: usize,
    leads: &[u8],
    list: &mut [u64],
) -> Stop
    requires { let it = lent plain rules.now goal.now second.now calls.now answers.now in
        Checked it (n + 1) × (n ≤ length (numbers leads.now)) × Led (added_by it) (numbers leads.now) n × Fresh it n step
        × (step ≤ length (words_at it n)) × (found + length (rest it n step) ≤ length list.old) }
    ensures { let it = lent plain rules.now goal.now second.now calls.now answers.now in
        Stopped it n step result.step (down_to result.to) × Ran it n step found result.step result.found list.old list.new }
{
    let steps = steps_of(plain, rules, goal, second, calls, answers, n);
    let mut state = state_before(plain, rules, goal, second, calls, answers, n, step);
    let mut at = found;
    for q in step..steps.len() {
        let word = steps[q];
        let used = evidence_of(plain, answers, n, q);
        if let Some(lead) = call_lead(word, used, leads) {
            return Stop {
                step: q,
                found: at,
                to: Some(lead),
            };
        }
        state = after(plain, word, state, used, n, calls, answers);
        at = show(word, state, at, list);
    }
    Stop {
        step: steps.len(),
        found: at,
        to: None,
    }
}

// Writes what the asked record adds behind the first state.
pub fn unroll<'a>(
    plain: bool,
    rules: &'a [u16],
    goal: &'a [u16],
    second: &'a [u16],
    calls: &[u64],
    answers: &[u64],
    asked: usize,
    leads: &[u8],
    frames: &mut [u8],
    list: &mut [u64],
)
    requires { let it = lent plain rules.now goal.now second.now calls.now answers.now in
        Checked it (asked + 1) × (asked < length (numbers leads.now)) × (asked < length (numbers frames.old))
        × Led (added_by it) (numbers leads.now) (asked + 1) × (length (added_by it asked) < length list.old) }
    ensures { let it = lent plain rules.now goal.now second.now calls.now answers.now in
        Put (added_by it asked) 1 list.old list.new }
{
    let mut at = Spot {
        n: asked,
        step: 0,
        depth: 0,
    };
    let mut found = 1;
    loop {
        let stop = run(
            plain, rules, goal, second, calls, answers, at.n, at.step, found, leads, list,
        );
        found = stop.found;
        match turn(at.n, stop.step, at.depth, stop.to, frames) {
            Some(next) => at = next,
            None => return,
        }
    }
}
