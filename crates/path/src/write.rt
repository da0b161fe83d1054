// The states of the records that have places, from the first record up: a call's states are copied from the place of the record that it uses.
ghost use Rattle.std.specs.Prelude.{◌≡◌, true, ◌+◌, ◌≤◌, ◌<◌, length, get_or};
ghost use Rattle.cells.specs.Numbers.{numbers};
ghost use Rattle.steps.specs.Inner.{is_call};
ghost use Rattle.unfolding.proofs.Walk.{lent, added_by};
ghost use Rattle.unfolding.proofs.Lies.{Copied};
ghost use Rattle.unfolding.proofs.Writing.{Stepped, Ready, Wrote, Written, Writable};

use crate::walk::{evidence_of, start, steps_of, take_step};
use steps::word::is_call;

// Copies n words of the list to another place.
fn copy(list: &mut [u64], from: usize, to: usize, n: usize)
    requires { (from + n ≤ length list.old) × (to + n ≤ length list.old) }
    ensures { Copied list.old list.new from to n n }
{
    list.copy_within(from..from + n, to);
}

// Writes what one step adds: a call's states, if they do not stand there already, or the new state.
fn write_step(step: u16, from: usize, at: usize, size: usize, state: u64, list: &mut [u64])
    requires { (at + size ≤ length list.old) × (is_call step ≡ true → from + size ≤ length list.old) }
    ensures { Stepped list.old list.new step from at size state }
{
    if is_call(step) {
        if from != at {
            copy(list, from, at, size);
        }
        return;
    }
    if size != 0 {
        list[at] = state;
    }
}

// Writes what record n adds at its place; the records below it are written.
fn write<'a>(
    plain: bool,
    rules: &'a [u16],
    goal: &'a [u16],
    second: &'a [u16],
    calls: &[u64],
    answers: &[u64],
    n: usize,
    sizes: &[u8],
    offsets: &[u8],
    list: &mut [u64],
)
    requires { let it = lent plain rules.now goal.now second.now calls.now answers.now in
        Ready it (numbers sizes.now) (numbers offsets.now) n list.old }
    ensures { let it = lent plain rules.now goal.now second.now calls.now answers.now in
        Wrote it (numbers offsets.now) n (get_or (numbers offsets.now) n 0 + length (added_by it n))
        list.old list.new }
{
    let steps = steps_of(plain, rules, goal, second, calls, answers, n);
    let mut state = start(plain, calls, answers, n);
    let mut at = cells::get(offsets, n);
    for (q, step) in steps.iter().enumerate() {
        let used = evidence_of(plain, answers, n, q);
        let t = take_step(plain, *step, state, used, n, calls, answers, sizes);
        let from = cells::get(offsets, used as usize);
        write_step(*step, from, at, t.size, t.state, list);
        at += t.size;
        state = t.state;
    }
}

// Writes what the records up to the asked one add, each that has a place.
pub fn write_all<'a>(
    plain: bool,
    rules: &'a [u16],
    goal: &'a [u16],
    second: &'a [u16],
    calls: &[u64],
    answers: &[u64],
    asked: usize,
    sizes: &[u8],
    offsets: &[u8],
    list: &mut [u64],
)
    requires { let it = lent plain rules.now goal.now second.now calls.now answers.now in
        Writable it (numbers sizes.now) (numbers offsets.now) asked list.old }
    ensures { let it = lent plain rules.now goal.now second.now calls.now answers.now in
        Written it (numbers offsets.now) (asked + 1) list.old list.new }
{
    for n in 0..asked + 1 {
        if cells::get(offsets, n) != 0 {
            write(
                plain, rules, goal, second, calls, answers, n, sizes, offsets, list,
            );
        }
    }
}
