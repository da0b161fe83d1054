// A whole class in one go: one book and goal evaluated from many starts in turn, with the same tables and one list of ends and one list of calls.
#![tactic(auto)]

ghost use Rattle.std.specs.Prelude.{◌≡◌, ◌++◌, ◌+◌, ◌≤◌, length, take, drop};
ghost use Rattle.evaluator.specs.Evaluated.{asked, lent, told};
ghost use Rattle.class.specs.Class.{four, places, Ran};

use evaluator::Run;
use refusals::Refusal;

// The most starts of a class.
const MOST_STARTS: usize = 1024;

// Runs the goal from each start in turn. The four words of a start stand in `results` in the starts' order; the ends of unrefused starts follow
// one another in `ends`; the tables and the list of calls are those of the last start that was refused with none of 20 to 24 and 34. The result is
// 0, or 25 and nothing done.
// Stays: the number is what C sees, as `lawhemuri_class` hands it on.
pub fn class<'a>(
    fluents: u64,
    actions: u64,
    rules: &'a [u16],
    goal: &'a [u16],
    starts: &[u64],
    results: &mut [u64],
    calls: &mut [u64],
    answers: &mut [u64],
    ends: &mut [u64],
    list: &mut [u64],
) -> u64
    ensures { Ran (asked fluents actions rules.now goal.now) starts.now
        results.old (lent calls.old answers.old ends.old list.old)
        results.new (lent calls.new answers.new ends.new list.new) result }
{
    if MOST_STARTS < starts.len() {
        return Refusal::BadClass.number();
    }
    if results.len() < 4 * starts.len() {
        return Refusal::BadClass.number();
    }
    let mut used = 0;
    for (i, start) in starts.iter().enumerate() {
        let run = evaluator::evaluate(
            fluents,
            actions,
            rules,
            goal,
            *start,
            calls,
            answers,
            &mut ends[used..],
            list,
        );
        put(results, 4 * i, run);
        used += taken(run) as usize;
    }
    0
}

// How many places of the list of ends a start has taken: none if it was refused.
fn taken(run: Run) -> u64
    ensures { result ≡ places (told run.refusal run.ends run.calls run.answers run.rounds) }
{
    if run.refusal == 0 { run.ends } else { 0 }
}

// Puts the four words of a start at a place; its rounds have none.
fn put(results: &mut [u64], at: usize, run: Run)
    requires { at + 4 ≤ length results.old }
    ensures { results.new
        ≡ take at results.old ++ four (told run.refusal run.ends run.calls run.answers run.rounds)
        ++ drop (at + 4) results.old }
{
    results[at] = run.refusal;
    results[at + 1] = run.ends;
    results[at + 2] = run.calls;
    results[at + 3] = run.answers;
}
