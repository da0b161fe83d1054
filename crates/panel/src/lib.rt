// The run of either of two parties over one pair of tables (request R-14).
//
// A run gives nothing up record by record. It judges what is kept (crate `balancing`), evaluates the party's goal alone (crate `alone`), and fills
// both tables anew with the rows of the goals that are kept from then on (crate `settling`).
#![tactic(auto)]

mod leaving;
mod running;

ghost use Rattle.std.specs.Prelude.{◌≡◌};
ghost use Rattle.refusals.specs.Number.{number_of};
ghost use Rattle.evaluator.specs.Evaluated.{asked};
ghost use Rattle.sharing.specs.Shared.{refused, handed_back};
ghost use Rattle.panel.specs.Reply.{panel, reply, RunOf};

use accounts::writing;
use accounts::writing::Kept;
use records::tables;
use refusals::Refusal;
use steps::accept;

// The refusal, 0 for none, the party's own counts of ends, calls and answers, and the words kept from then on.
// Stays: what C sees, a number beside the counts, since 31 is told with all of them.
#[repr(C)]
#[derive(Clone, Copy)]
pub struct Shared {
    pub refusal: u64,
    pub ends: u64,
    pub calls: u64,
    pub answers: u64,
    pub kept: Kept,
}

impl Shared {
    // A refusal other than 31: no counts are given.
    fn refused(refusal: Refusal, kept: Kept) -> Shared
        ensures { reply result.refusal result.ends result.calls result.answers result.kept.words ≡ refused (number_of refusal) kept.words }
    {
        Shared {
            refusal: refusal.number(),
            ends: 0,
            calls: 0,
            answers: 0,
            kept,
        }
    }

    // A refusal that changes nothing: what is kept is handed back.
    fn unchanged(refusal: Refusal, kept: &[u64]) -> Shared
        ensures { reply result.refusal result.ends result.calls result.answers result.kept.words
            ≡ refused (number_of refusal) (handed_back kept.now) }
    {
        Shared::refused(refusal, writing::handed_back(kept))
    }
}

// Runs the goal of the second party, or else of the first, from the start, and lists its ends in rising order; both tables hold the rows of both
// parties then. 20 to 22 and 91, if they are not as kept, change nothing; after 23, 24 and 30 they hold the other party's rows alone. The words for
// the call records of an evaluation stand here, three for each that the call table has room for, and a byte for each.
pub fn share<'a>(
    second: bool,
    fluents: u64,
    actions: u64,
    rules: &'a [u16],
    goal: &'a [u16],
    start: u64,
    kept: &[u64],
    calls: &mut [u64],
    answers: &mut [u64],
    ends: &mut [u64],
) -> Shared
    ensures { RunOf second (asked fluents actions rules.now goal.now start) kept.now
        (panel calls.old answers.old ends.old)
        (panel calls.new answers.new ends.new)
        (reply result.refusal result.ends result.calls result.answers result.kept.words) }
{
    // 20 to 22 are the book's alone: a goal of no steps meets no 23.
    if let Err(refusal) = accept::words_refusal(fluents, actions, rules, &goal[..0]) {
        return Shared::unchanged(refusal, kept);
    }
    let mut rows = [0u64; 196608];
    let mut bytes = [0u8; 65536];
    let size = tables::CALL_WORDS * tables::room_of(calls.len(), stowing::CALL_WORDS);
    running::run(
        second,
        fluents,
        actions,
        rules,
        goal,
        start,
        kept,
        &mut rows[..size],
        &mut bytes,
        calls,
        answers,
        ends,
    )
}
