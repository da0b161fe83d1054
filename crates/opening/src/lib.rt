// An opening of one pair of tables for two parties (request R-14).
#![tactic(auto)]

ghost use Rattle.std.specs.Prelude.{◌≡◌};
ghost use Rattle.refusals.specs.Sharing.{sharing_refusals};
ghost use Rattle.sharing.specs.Parties.{opened, ledger_words};
ghost use Rattle.sharing.specs.Shared.{Opening};

use accounts::reading::Limits;
use accounts::writing::Kept;
use accounts::{judging, writing};
use records::tables;
use refusals::Refusal;

// The refusal, 0 for none, and the words kept beside the tables from then on.
// Stays: a number beside what is kept, since C sees both.
#[repr(C)]
#[derive(Clone, Copy)]
pub struct Opened {
    pub refusal: u64,
    pub kept: Kept,
}

// 90: nothing is kept.
fn refused() -> Opened
    ensures { (result.refusal ≡ sharing_refusals.over_limits) × (result.kept.words ≡ ledger_words (opened 0 0 0 0)) }
{
    let none = Limits {
        calls: 0,
        answers: 0,
    };
    Opened {
        refusal: Refusal::OverLimits.number(),
        kept: writing::opened(none, none),
    }
}

// Opens the tables for a limit of calls and of answers of each party: both are emptied and the limits are kept. 90, with nothing changed and
// nothing kept, if the limits of both add up to more than the room of a table.
pub fn open(
    first_calls: u64,
    first_answers: u64,
    second_calls: u64,
    second_answers: u64,
    calls: &mut [u64],
    answers: &mut [u64],
) -> Opened
    ensures { Opening (opened first_calls first_answers second_calls second_answers) calls.old answers.old
        result.refusal result.kept.words calls.new answers.new }
{
    let first = Limits {
        calls: first_calls,
        answers: first_answers,
    };
    let second = Limits {
        calls: second_calls,
        answers: second_answers,
    };
    if judging::over_limits(first, second, calls, answers) {
        return refused();
    }
    tables::clear(calls);
    tables::clear(answers);
    Opened {
        refusal: 0,
        kept: writing::opened(first, second),
    }
}
