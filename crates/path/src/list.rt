// Lists the path of a checked record, with 384 KiB of stack for two numbers of each record, three bytes each: for a path of fewer than 2^24
// states a size and an offset, for a longer one what the record stands for, and the frames of a walk down the evidence. Records are `plain`, of
// tables that two parties share with a goal each, or have rounds: then there is one goal, and the second is not looked at.
ghost use Rattle.std.specs.Prelude.{Some, ◌≡◌, ◌∷◌, ◌+◌, ◌<◌, ◌≤◌, length};
ghost use Rattle.cells.specs.Numbers.{limit, numbers, Zeros};
ghost use Rattle.unfolding.proofs.Walk.{lent, Checked, added_by, start_at};
ghost use Rattle.unfolding.proofs.Sizes.{Sized};
ghost use Rattle.unfolding.proofs.Writing.{PathListed};

use crate::count::count;
use crate::link::lead_all;
use crate::place::place_all;
use crate::size::size_all;
use crate::unroll::unroll;
use crate::walk::start;
use crate::write::write_all;

// The most states of a path that is listed by sizes and offsets: as many as a number of three bytes counts.
const SHORT: usize = 16777215;

// Lists the path of the asked record, which adds fewer states than `most`, by the sizes of the records; the offsets are all 0.
fn list_short<'a>(
    plain: bool,
    rules: &'a [u16],
    goal: &'a [u16],
    second: &'a [u16],
    calls: &[u64],
    answers: &[u64],
    asked: usize,
    most: usize,
    sizes: &[u8],
    offsets: &mut [u8],
    states: &mut [u64],
) -> usize
    requires { let it = lent plain rules.now goal.now second.now calls.now answers.now in
        Checked it (asked + 1) × (most ≤ length states.old) × (most < limit) × (asked < length (numbers sizes.now))
        × Sized (added_by it) (numbers sizes.now) (asked + 1) most × (length (added_by it asked) < most) × Zeros offsets.old }
    ensures { let it = lent plain rules.now goal.now second.now calls.now answers.now in
        PathListed (start_at it asked ∷ added_by it asked) most states.old (Some result) states.new }
{
    place_all(
        plain, rules, goal, second, calls, answers, asked, sizes, offsets,
    );
    states[0] = start(plain, calls, answers, asked);
    write_all(
        plain, rules, goal, second, calls, answers, asked, sizes, offsets, states,
    );
    cells::get(sizes, asked) + 1
}

// The same for a path of any length; none, and nothing listed, where it has more than `most` states. The sizes, counted up to a
// cap, are lost.
fn list_long<'a>(
    plain: bool,
    rules: &'a [u16],
    goal: &'a [u16],
    second: &'a [u16],
    calls: &[u64],
    answers: &[u64],
    asked: usize,
    most: usize,
    sizes: &mut [u8],
    frames: &mut [u8],
    states: &mut [u64],
) -> Option<usize>
    requires { let it = lent plain rules.now goal.now second.now calls.now answers.now in
        Checked it (asked + 1) × (most ≤ length states.old) × (0 < most) × (asked < length (numbers sizes.old))
        × Sized (added_by it) (numbers sizes.old) (asked + 1) 16777215 × (asked < length (numbers frames.old)) }
    ensures { let it = lent plain rules.now goal.now second.now calls.now answers.now in
        PathListed (start_at it asked ∷ added_by it asked) most states.old result states.new }
{
    let added = count(
        plain, rules, goal, second, calls, answers, asked, most, sizes, SHORT, frames,
    );
    if most <= added {
        return None;
    }
    lead_all(plain, rules, goal, second, calls, answers, asked + 1, sizes);
    states[0] = start(plain, calls, answers, asked);
    unroll(
        plain, rules, goal, second, calls, answers, asked, sizes, frames, states,
    );
    Some(added + 1)
}

// Lists the path of the asked record and gives the count of its states; none, and nothing listed, where it has more than `most`.
// The two rooms lent are all 0.
fn list_within<'a>(
    plain: bool,
    rules: &'a [u16],
    goal: &'a [u16],
    second: &'a [u16],
    calls: &[u64],
    answers: &[u64],
    asked: usize,
    most: usize,
    sizes: &mut [u8],
    other: &mut [u8],
    states: &mut [u64],
) -> Option<usize>
    requires { let it = lent plain rules.now goal.now second.now calls.now answers.now in
        Checked it (asked + 1) × (most ≤ length states.old) × Zeros sizes.old × Zeros other.old }
    ensures { let it = lent plain rules.now goal.now second.now calls.now answers.now in
        PathListed (start_at it asked ∷ added_by it asked) most states.old result states.new }
{
    let short = most.min(SHORT);
    size_all(
        plain,
        rules,
        goal,
        second,
        calls,
        answers,
        asked + 1,
        short,
        sizes,
    );
    if cells::get(sizes, asked) < short {
        return Some(list_short(
            plain, rules, goal, second, calls, answers, asked, short, sizes, other, states,
        ));
    }
    if most <= SHORT {
        return None;
    }
    list_long(
        plain, rules, goal, second, calls, answers, asked, most, sizes, other, states,
    )
}

// The same with rooms of its own.
pub fn list_states<'a>(
    plain: bool,
    rules: &'a [u16],
    goal: &'a [u16],
    second: &'a [u16],
    calls: &[u64],
    answers: &[u64],
    asked: usize,
    most: usize,
    states: &mut [u64],
) -> Option<usize>
    requires { let it = lent plain rules.now goal.now second.now calls.now answers.now in
        Checked it (asked + 1) × (most ≤ length states.old) }
    ensures { let it = lent plain rules.now goal.now second.now calls.now answers.now in
        PathListed (start_at it asked ∷ added_by it asked) most states.old result states.new }
{
    let mut sizes = [0u8; 196608];
    let mut other = [0u8; 196608];
    list_within(
        plain, rules, goal, second, calls, answers, asked, most, &mut sizes, &mut other, states,
    )
}
