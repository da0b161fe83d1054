// Step words: their kinds and indices, and the one elementary step.
ghost use Rattle.std.specs.Prelude.{◌≡◌};
ghost use Rattle.steps.specs.Words.{kind_of, index_of, step_of};
ghost use Rattle.steps.specs.Kinds.{number_of, kind_at};
ghost use Rattle.steps.specs.Inner.{is_call};
ghost use Rattle.steps.specs.Elementary.{elementary};
ghost use Rattle.steps.specs.Next.{onward};

use crate::state::State;

// Words of a rule: its head, the count of its steps, and 16 steps.
pub const RULE_WORDS: usize = 18;

// The kinds of steps, each with the number that a step word has it by.
#[derive(Clone, Copy, Debug, PartialEq, Eq)]
pub enum Kind {
    Query = 0,
    Insert = 1,
    Delete = 2,
    Call = 3,
    Denial = 4,
}

impl From<Kind> for u16 {
    ghost from_gives = { λ kind number. number ≡ number_of kind };

    fn from(kind: Kind) -> u16 {
        kind as u16
    }
}

impl Kind {
    // The kind of a step word, if its number is of one.
    pub fn of(word: u16) -> Option<Kind>
        ensures { result ≡ kind_at (kind_of word) }
    {
        match word / 256 {
            0 => Some(Kind::Query),
            1 => Some(Kind::Insert),
            2 => Some(Kind::Delete),
            3 => Some(Kind::Call),
            4 => Some(Kind::Denial),
            _ => None,
        }
    }
}

// The index of a step word: of a fluent, for a call of an action.
pub fn index(word: u16) -> u64
    ensures { result ≡ index_of word }
{
    u64::from(word % 256)
}

// Whether a step word is a call.
pub fn is_call(word: u16) -> bool
    ensures { result ≡ is_call word }
{
    word / 256 == Kind::Call as u16
}

// The most fluents of a state.
const FLUENTS: u64 = 64;

// The state in which one elementary step goes on, if it has a continuation: what a query, an insert, a delete and a denial
// do is said here alone.
#[tactic(auto, unfolding(crate::specs::Next::onward, crate::specs::Elementary::elementary, crate::specs::Words::step_by))]
pub fn elementary(word: u16, state: State) -> Option<State>
    ensures { onward result ≡ elementary (step_of word) state.0 }
{
    let k = index(word);
    match Kind::of(word) {
        Some(Kind::Query) if state.holds(k) => Some(state),
        Some(Kind::Insert) if k < FLUENTS => Some(state.insert(k)),
        Some(Kind::Delete) => Some(state.delete(k)),
        Some(Kind::Query | Kind::Insert | Kind::Call) => None,
        // A word of no kind is refused, so that it does what a denial does is never asked.
        Some(Kind::Denial) | None => if state.holds(k) { None } else { Some(state) },
    }
}
