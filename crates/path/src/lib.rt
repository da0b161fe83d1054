// The path of an answer record: the states of the execution that its evidence unfolds to. A record uses only records of smaller number, so it is
// listed without recursion: how many states each record adds (size), a place in the list for each record used, from the asked one down (place),
// and the states, from the first record up, each part that stands already copied (write). A path of 2^24 states or more is counted (count) and
// its states are written one after another (unroll), both by a walk down the evidence with a stack of its own (frames), the second by what each
// record stands for (link). Linear in records and states.
#![tactic(auto)]

mod count;
mod frames;
mod link;
pub mod list;
pub mod outcome;
mod place;
mod size;
mod unroll;
mod walk;
mod write;

ghost use Rattle.std.specs.Prelude.{◌≡◌};
ghost use Rattle.refusals.specs.Number.{number_in};
ghost use Rattle.path.specs.Answered.{handed, fault, Answered};

use crate::outcome::Path;
use checks::tables::{bad_records, over_room};
use refusals::Refusal;
use steps::accept::words_refusal;

// The first of 20 to 23 and 40 to 42 that is met.
fn fault<'a>(
    fluents: u64,
    actions: u64,
    rules: &'a [u16],
    goal: &'a [u16],
    calls: &[u64],
    call_count: u64,
    answers: &[u64],
    answer_count: u64,
    asked: u64,
) -> Result<(), Refusal>
    ensures { number_in result ≡ fault (handed fluents actions rules.now goal.now calls.now call_count
        answers.now answer_count) asked }
{
    words_refusal(fluents, actions, rules, goal)?;
    if over_room(calls, call_count, answers, answer_count) {
        return Err(Refusal::BadRecordCount);
    }
    if answer_count <= asked {
        return Err(Refusal::NoRecord);
    }
    if bad_records(
        fluents,
        actions,
        rules,
        goal,
        calls,
        call_count,
        answers,
        answer_count,
    ) {
        return Err(Refusal::BadRecord);
    }
    Ok(())
}

// Lists the path of an answer record: the states come first in the list, and the list past them is unchanged. Refused, it lists none and
// changes nothing.
pub fn path<'a>(
    fluents: u64,
    actions: u64,
    rules: &'a [u16],
    goal: &'a [u16],
    calls: &[u64],
    call_count: u64,
    answers: &[u64],
    answer_count: u64,
    record: u64,
    states: &mut [u64],
) -> Path
    ensures { Answered (handed fluents actions rules.now goal.now calls.now call_count
        answers.now answer_count)
        «record» states.old result.refusal result.states states.new }
{
    if let Err(refusal) = fault(
        fluents,
        actions,
        rules,
        goal,
        calls,
        call_count,
        answers,
        answer_count,
        record,
    ) {
        return Path {
            refusal: refusal.number(),
            states: 0,
        };
    }
    let most = states.len();
    let Some(listed) = list::list_states(
        false,
        rules,
        goal,
        goal,
        calls,
        answers,
        record as usize,
        most,
        states,
    ) else {
        return Path {
            refusal: Refusal::StatesShort.number(),
            states: 0,
        };
    };
    Path {
        refusal: 0,
        states: listed as u64,
    }
}
