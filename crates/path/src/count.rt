// How many states a record with a long path adds: down the evidence, a record whose size is below the cap at once.
ghost use Rattle.std.specs.Prelude.{◌≡◌, true, ℕ, ◌+◌, ◌≤◌, ◌<◌, ◌^◌, length};
ghost use Rattle.cells.specs.Numbers.{numbers};
ghost use Rattle.steps.specs.Inner.{is_call};
ghost use Rattle.unfolding.proofs.Walk.{lent, Checked, added_by, words_at};
ghost use Rattle.unfolding.proofs.Sizes.{Sized, size_of};
ghost use Rattle.unfolding.proofs.Frames.{Stopped, Tallied};
ghost use Rattle.path.specs.Inner.{down_to};

use crate::frames::{Spot, Stop, turn};
use crate::walk::{evidence_of, shown, steps_of};
use steps::word::is_call;

// How many states a step adds, by the sizes.
fn size_by(step: u16, used: u64, sizes: &[u8]) -> usize
    requires { is_call step ≡ true → used < length (numbers sizes.now) }
    ensures { (t : ℕ) → result ≡ size_of (numbers sizes.now) step t used }
{
    if is_call(step) {
        return cells::get(sizes, used as usize);
    }
    shown(step)
}

// Counts from a step of record n on to the next call of a record whose size is at the cap, or to its end.
fn tally<'a>(
    plain: bool,
    rules: &'a [u16],
    goal: &'a [u16],
    second: &'a [u16],
    calls: &[u64],
    answers: &[u64],
    n: usize,
    step: usize,
    found: usize,
    sizes: &[u8],
    cap: usize,
) -> Stop
    requires { let it = lent plain rules.now goal.now second.now calls.now answers.now in
        Checked it (n + 1) × (n ≤ length (numbers sizes.now)) × (1 < cap) × (cap < 2 ^ 24) × Sized (added_by it) (numbers sizes.now) n cap
        × (step ≤ length (words_at it n)) × (found < 2 ^ 61) }
    ensures { let it = lent plain rules.now goal.now second.now calls.now answers.now in
        Stopped it n step result.step (down_to result.to) × Tallied it n step found result.step result.found }
{
    let steps = steps_of(plain, rules, goal, second, calls, answers, n);
    let mut sum = found;
    for q in step..steps.len() {
        let used = evidence_of(plain, answers, n, q);
        let size = size_by(steps[q], used, sizes);
        if cap <= size {
            return Stop {
                step: q,
                found: sum,
                to: Some(used as usize),
            };
        }
        sum += size;
    }
    Stop {
        step: steps.len(),
        found: sum,
        to: None,
    }
}

// How many states the asked record adds; where they are `most` or more, some number from `most` on that is not over.
pub fn count<'a>(
    plain: bool,
    rules: &'a [u16],
    goal: &'a [u16],
    second: &'a [u16],
    calls: &[u64],
    answers: &[u64],
    asked: usize,
    most: usize,
    sizes: &[u8],
    cap: usize,
    frames: &mut [u8],
) -> usize
    requires { let it = lent plain rules.now goal.now second.now calls.now answers.now in
        Checked it (asked + 1) × (asked < length (numbers sizes.now)) × (asked < length (numbers frames.old)) × (0 < most)
        × (most < 2 ^ 61) × (1 < cap) × (cap < 2 ^ 24) × Sized (added_by it) (numbers sizes.now) (asked + 1) cap }
    ensures { let it = lent plain rules.now goal.now second.now calls.now answers.now in
        (length (numbers frames.new) ≡ length (numbers frames.old)) × (result ≤ length (added_by it asked))
        × (result < most → result ≡ length (added_by it asked)) }
{
    let mut at = Spot {
        n: asked,
        step: 0,
        depth: 0,
    };
    let mut found = 0;
    loop {
        let stop = tally(
            plain, rules, goal, second, calls, answers, at.n, at.step, found, sizes, cap,
        );
        found = stop.found;
        if most <= found {
            return found;
        }
        match turn(at.n, stop.step, at.depth, stop.to, frames) {
            Some(next) => at = next,
            None => return found,
        }
    }
}
