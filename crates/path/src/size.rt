// How many states each record adds, counted up to a cap: few records may add more than 64 bits can count.
ghost use Rattle.std.specs.Prelude.{◌≡◌, ◌+◌, ◌≤◌, ◌<◌, ◌^◌, min, length};
ghost use Rattle.cells.specs.Numbers.{limit, numbers};
ghost use Rattle.unfolding.proofs.Walk.{lent, Checked, added_by};
ghost use Rattle.unfolding.proofs.Sizes.{Sized};

use crate::walk::{evidence_of, start, steps_of, take_step};

// How many states record n adds, at most the cap.
fn size<'a>(
    plain: bool,
    rules: &'a [u16],
    goal: &'a [u16],
    second: &'a [u16],
    calls: &[u64],
    answers: &[u64],
    n: usize,
    sizes: &[u8],
    cap: usize,
) -> usize
    requires { let it = lent plain rules.now goal.now second.now calls.now answers.now in
        Checked it (n + 1) × (n ≤ length (numbers sizes.now)) × (cap < 2 ^ 61) × Sized (added_by it) (numbers sizes.now) n cap }
    ensures { let it = lent plain rules.now goal.now second.now calls.now answers.now in
        result ≡ min cap (length (added_by it n)) }
{
    let steps = steps_of(plain, rules, goal, second, calls, answers, n);
    let mut state = start(plain, calls, answers, n);
    let mut sum = 0;
    for (q, step) in steps.iter().enumerate() {
        let used = evidence_of(plain, answers, n, q);
        let t = take_step(plain, *step, state, used, n, calls, answers, sizes);
        sum = cap.min(sum + t.size);
        state = t.state;
    }
    sum
}

// Fills `sizes` with how many states each of the first `count` records adds, at most the cap.
pub fn size_all<'a>(
    plain: bool,
    rules: &'a [u16],
    goal: &'a [u16],
    second: &'a [u16],
    calls: &[u64],
    answers: &[u64],
    count: usize,
    cap: usize,
    sizes: &mut [u8],
)
    requires { let it = lent plain rules.now goal.now second.now calls.now answers.now in
        Checked it count × (count ≤ length (numbers sizes.old)) × (cap < 2 ^ 61) × (cap < limit) }
    ensures { let it = lent plain rules.now goal.now second.now calls.now answers.now in
        (length (numbers sizes.new) ≡ length (numbers sizes.old))
        × Sized (added_by it) (numbers sizes.new) count cap }
{
    for n in 0..count {
        let added = size(plain, rules, goal, second, calls, answers, n, sizes, cap);
        cells::put(sizes, n, added);
    }
}
