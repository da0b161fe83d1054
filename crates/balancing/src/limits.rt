// The limits of each party, against its own calls and answers: rows that both need are charged to each.
ghost use Rattle.std.specs.Prelude.{◌≡◌, ◌+◌, ◌≤◌, length};
ghost use Rattle.invariants.proofs.Filling.{Accepted};
ghost use Rattle.matching.specs.Flags.{Whether};
ghost use Rattle.sharing.specs.Parties.{account_at};
ghost use Rattle.balancing.specs.Balancing.{call_room, answer_room, Handed, Lent, Sized, BothSized};

use crate::aside;
use accounts::reading;
use accounts::reading::Limits;
use records::bodies::Goals;

// Whether so many calls and answers are within the limits.
fn fits(calls: usize, answers: usize, limits: Limits) -> bool
    ensures { Whether ((calls ≤ limits.calls) × (answers ≤ limits.answers)) result }
{
    calls as u64 <= limits.calls && answers as u64 <= limits.answers
}

// Whether the party whose account begins at word `at`, and whose goal this is, holds no rows or has calls and answers within its limits, where the
// tables hold n calls and m answers. They are put aside for it if those are more, and come back word for word.
fn within<'a>(
    rules: &'a [u16],
    goal: &'a [u16],
    kept: &[u64],
    at: usize,
    rows: &mut [u64],
    bytes: &mut [u8],
    calls: &mut [u64],
    n: usize,
    answers: &mut [u64],
    m: usize,
) -> bool
    requires accepted { Accepted rules.now goal.now goal.now × (at + 22 ≤ length kept.now) × (goal.now ≡ (account_at kept.now at).goal) }
    requires lent { Lent rows.old bytes.old calls.old × Handed calls.old n answers.old m }
    ensures calls_unchanged { (calls.new ≡ calls.old) × (answers.new ≡ answers.old) }
    ensures rows_len_unchanged { (length rows.new ≡ length rows.old) × (length bytes.new ≡ length bytes.old) }
    ensures sized { Sized rules.now (account_at kept.now at) (call_room calls.old)
        (answer_room answers.old) n m result }
{
    if !reading::holds(kept, at) {
        return true;
    }
    let own = reading::limits_of(kept, at);
    if fits(n, m, own) {
        return true;
    }
    let start = reading::start(kept, at);
    let evaluated = aside::evaluated(
        rules,
        goal,
        goal,
        Goals::ALONE,
        start,
        start,
        rows,
        bytes,
        calls,
        n,
        answers,
        m,
    );
    match evaluated {
        Ok(found) => fits(found.calls, found.answers, own),
        Err(_) => false,
    }
}

// Whether both parties are within their limits. The goals are those of their accounts.
pub fn both_within<'a>(
    rules: &'a [u16],
    goal: &'a [u16],
    second: &'a [u16],
    kept: &[u64],
    rows: &mut [u64],
    bytes: &mut [u8],
    calls: &mut [u64],
    n: usize,
    answers: &mut [u64],
    m: usize,
) -> bool
    requires accepted { Accepted rules.now goal.now second.now × (43 ≤ length kept.now)
        × (goal.now ≡ (account_at kept.now 0).goal) × (second.now ≡ (account_at kept.now 21).goal) }
    requires lent { Lent rows.old bytes.old calls.old × Handed calls.old n answers.old m }
    ensures calls_unchanged { (calls.new ≡ calls.old) × (answers.new ≡ answers.old) }
    ensures rows_len_unchanged { (length rows.new ≡ length rows.old) × (length bytes.new ≡ length bytes.old) }
    ensures both_sized { BothSized rules.now (account_at kept.now 0) (account_at kept.now 21)
        (call_room calls.old) (answer_room answers.old) n m result }
{
    if !within(rules, goal, kept, 0, rows, bytes, calls, n, answers, m) {
        return false;
    }
    within(
        rules,
        second,
        kept,
        reading::SECOND,
        rows,
        bytes,
        calls,
        n,
        answers,
        m,
    )
}
