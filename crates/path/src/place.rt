// A place in the path for what each record used adds, from the asked record down. Place 0 is the call's state, so 0 says that there is none.
ghost use Rattle.std.specs.Prelude.{◌≡◌, true, cond, ◌∷◌, ◌+◌, ◌<◌, length, get_or, set};
ghost use Rattle.cells.specs.Numbers.{limit, numbers};
ghost use Rattle.steps.specs.Inner.{is_call};
ghost use Rattle.unfolding.proofs.Walk.{lent, added_by, start_at, words_at};
ghost use Rattle.unfolding.proofs.Places.{Placing, Laying, Placeable, Laid};

use crate::walk::{evidence_of, start, steps_of, take_step};
use steps::word::is_call;

// Gives the record that a call uses its place.
fn note(step: u16, used: u64, at: usize, offsets: &mut [u8])
    requires { (is_call step ≡ true → used < length (numbers offsets.old)) × (at < limit) }
    ensures { numbers offsets.new
        ≡ cond (is_call step) (set (numbers offsets.old) used at) (numbers offsets.old) }
{
    if is_call(step) {
        cells::put(offsets, used as usize, at);
    }
}

// Gives the records that record n uses their places.
fn place<'a>(
    plain: bool,
    rules: &'a [u16],
    goal: &'a [u16],
    second: &'a [u16],
    calls: &[u64],
    answers: &[u64],
    n: usize,
    sizes: &[u8],
    offsets: &mut [u8],
)
    requires { let it = lent plain rules.now goal.now second.now calls.now answers.now in
        Placing it (numbers sizes.now) (numbers offsets.old) n × (get_or (numbers offsets.old) n 0 + length (added_by it n) < limit) }
    ensures { let it = lent plain rules.now goal.now second.now calls.now answers.now in
        Laying it n (length (words_at it n)) (numbers offsets.old) (numbers offsets.new) }
{
    let steps = steps_of(plain, rules, goal, second, calls, answers, n);
    let mut state = start(plain, calls, answers, n);
    let mut at = cells::get(offsets, n);
    for (q, step) in steps.iter().enumerate() {
        let used = evidence_of(plain, answers, n, q);
        let t = take_step(plain, *step, state, used, n, calls, answers, sizes);
        note(*step, used, at, offsets);
        at += t.size;
        state = t.state;
    }
}

// Gives the asked record and all that it uses, directly or not, their places.
pub fn place_all<'a>(
    plain: bool,
    rules: &'a [u16],
    goal: &'a [u16],
    second: &'a [u16],
    calls: &[u64],
    answers: &[u64],
    asked: usize,
    sizes: &[u8],
    offsets: &mut [u8],
)
    requires { let it = lent plain rules.now goal.now second.now calls.now answers.now in
        Placeable it (numbers sizes.now) (numbers offsets.old) asked × (length (added_by it asked) + 1 < limit) }
    ensures { let it = lent plain rules.now goal.now second.now calls.now answers.now in
        (length (numbers offsets.new) ≡ length (numbers offsets.old))
        × Laid it asked 0 (start_at it asked ∷ added_by it asked) (numbers offsets.new) }
{
    cells::put(offsets, asked, 1);
    for n in (0..asked + 1).rev() {
        if cells::get(offsets, n) != 0 {
            place(
                plain, rules, goal, second, calls, answers, n, sizes, offsets,
            );
        }
    }
}
