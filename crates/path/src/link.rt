// What each record stands for in a long path: a record that adds no state is passed over, and one whose states are all those of a record that it
// uses, by one call, stands for that one. So a walk down the evidence takes no way at which it writes nothing.
ghost use Rattle.std.specs.Prelude.{◌≡◌, true, ◌+◌, ◌≤◌, ◌<◌, length};
ghost use Rattle.cells.specs.Numbers.{limit, numbers};
ghost use Rattle.steps.specs.Inner.{is_call};
ghost use Rattle.unfolding.proofs.Walk.{lent, Checked, added_by};
ghost use Rattle.unfolding.proofs.Leads.{Lead, Led, StepLead, Together};
ghost use Rattle.path.specs.Inner.{down_to};

use crate::walk::{evidence_of, shown, steps_of};
use steps::word::is_call;

// What a step stands for: nothing if it adds nothing, a record that adds the same, or `own` if it is an update.
fn step_lead(step: u16, used: u64, own: usize, leads: &[u8]) -> Option<usize>
    requires { is_call step ≡ true → used < length (numbers leads.now) }
    ensures { StepLead (numbers leads.now) step used (own + 1) (down_to result) }
{
    if is_call(step) {
        return cells::get(leads, used as usize).checked_sub(1);
    }
    if shown(step) == 0 {
        return None;
    }
    Some(own)
}

// What two parts of a record stand for together.
fn together(first: Option<usize>, second: Option<usize>, own: usize) -> Option<usize>
    ensures { Together (down_to first) (down_to second) (own + 1) (down_to result) }
{
    match first {
        None => second,
        Some(_) => match second {
            None => first,
            Some(_) => Some(own),
        },
    }
}

// A record as the table has it: one more than its number, or 0 for none.
fn packed(to: Option<usize>) -> usize
    requires { down_to to < limit }
    ensures { result ≡ down_to to }
{
    match to {
        Some(record) => record + 1,
        None => 0,
    }
}

// The record that record n stands for, if it adds states.
fn lead<'a>(
    plain: bool,
    rules: &'a [u16],
    goal: &'a [u16],
    second: &'a [u16],
    calls: &[u64],
    answers: &[u64],
    n: usize,
    leads: &[u8],
) -> Option<usize>
    requires { let it = lent plain rules.now goal.now second.now calls.now answers.now in
        Checked it (n + 1) × (n ≤ length (numbers leads.now)) × Led (added_by it) (numbers leads.now) n }
    ensures { let it = lent plain rules.now goal.now second.now calls.now answers.now in
        Lead (added_by it) n (down_to result) }
{
    let steps = steps_of(plain, rules, goal, second, calls, answers, n);
    let mut to = None;
    for (q, step) in steps.iter().enumerate() {
        let used = evidence_of(plain, answers, n, q);
        let next = step_lead(*step, used, n, leads);
        to = together(to, next, n);
    }
    to
}

// Fills `leads` with what each of the first `count` records stands for.
pub fn lead_all<'a>(
    plain: bool,
    rules: &'a [u16],
    goal: &'a [u16],
    second: &'a [u16],
    calls: &[u64],
    answers: &[u64],
    count: usize,
    leads: &mut [u8],
)
    requires { let it = lent plain rules.now goal.now second.now calls.now answers.now in
        Checked it count × (count ≤ length (numbers leads.old)) }
    ensures { let it = lent plain rules.now goal.now second.now calls.now answers.now in
        (length (numbers leads.new) ≡ length (numbers leads.old)) × Led (added_by it) (numbers leads.new) count }
{
    for n in 0..count {
        let to = lead(plain, rules, goal, second, calls, answers, n, leads);
        cells::put(leads, n, packed(to));
    }
}
