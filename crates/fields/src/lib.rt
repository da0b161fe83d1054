// The fields of a line after its word: those from p up to e, none where p is past e.
#![tactic(auto)]

pub mod book;
pub mod names;

ghost use Rattle.std.specs.Prelude.{◌≡◌, ◌+◌, ◌≤◌, length};
ghost use Rattle.std.proofs.Math.Seq.{slice};
ghost use Rattle.chars.specs.Inner.{fields_from};
ghost use Rattle.fields.specs.Field.{step_words, start_name, start_names};
ghost use Rattle.fields.specs.Held.{symbols_of, answer, steps_of};

use book::{Body, Names};
use refusals::Refusal;
use steps::state::State;

// How many fields there are.
pub fn count_fields(s: &[u8], p: usize, e: usize) -> usize
    requires { (p ≤ e + 1) × (e ≤ length s.now) }
    ensures { result ≡ length (fields_from p e s.now) }
{
    let mut n = 0;
    let mut at = p;
    while at <= e {
        at = chars::field_end(s, at, e) + 1;
        n += 1;
    }
    n
}

// The words of the steps, at most 16.
pub fn steps(s: &[u8], p: usize, e: usize, n: &Names) -> Result<Body, Refusal>
    requires fields { (p ≤ e + 1) × (e ≤ length s.now) }
    requires few { length (fields_from p e s.now) ≤ 16 }
    ensures { answer steps_of result ≡ step_words (symbols_of n.now) (fields_from p e s.now) }
{
    let mut body = Body::new();
    let mut at = p;
    while at <= e {
        let q = chars::field_end(s, at, e);
        let word = n.step(&s[at..q])?;
        body.push(word);
        at = q + 1;
    }
    Ok(body)
}

// The state with a name of `start`, beside that of the names before it.
fn start_name(name: &[u8], n: &Names, state: State) -> Result<State, Refusal>
    ensures { answer (λ t. t.0) result ≡ start_name (symbols_of n.now) state.0 name.now }
{
    let k = n.fluents.used(name)? as u64;
    if state.holds(k) {
        return Err(Refusal::Repeated);
    }
    Ok(state.insert(k))
}

// The state in which the names of `start` hold.
pub fn start_names(s: &[u8], p: usize, e: usize, n: &Names) -> Result<State, Refusal>
    requires { (p ≤ e + 1) × (e ≤ length s.now) }
    ensures { answer (λ t. t.0) result ≡ start_names (symbols_of n.now) 0 (fields_from p e s.now) }
{
    let mut state = State::NOTHING;
    let mut at = p;
    while at <= e {
        let q = chars::field_end(s, at, e);
        state = start_name(&s[at..q], n, state)?;
        at = q + 1;
    }
    Ok(state)
}
