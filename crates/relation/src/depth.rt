// The rounds of a run, straight from request R-6: the goal's call stands at round 0, and each round walks every body of every
// call with only the answers of earlier rounds and adds all new calls and answers at once.
use crate::{Book, Record, Relations, has, head, place, single};

// The rounds of what is found: of calls by action and state, of answers by their call's place, 32 for the goal's, and final
// state; and how many rounds add something.
#[derive(Clone, Copy)]
pub struct Rounds {
    pub calls: [[Option<u64>; 8]; 4],
    pub answers: [[Option<u64>; 8]; 33],
    pub last: u64,
}

// The states found before a round.
fn before(found: &[Option<u64>; 8], round: u64) -> u64 {
    let mut set = 0;
    for (s, earlier) in found.iter().enumerate() {
        if earlier.is_some_and(|n| n < round) {
            set |= single(s as u64);
        }
    }
    set
}

// Gives the round to the states of a set that have none. Says whether there were any.
fn add(found: &mut [Option<u64>; 8], set: u64, round: u64) -> bool {
    let mut grew = false;
    for (s, earlier) in found.iter_mut().enumerate() {
        if has(set, s as u64) && earlier.is_none() {
            *earlier = Some(round);
            grew = true;
        }
    }
    grew
}

impl Rounds {
    // The final states of each action from each state by the answers found before a round.
    pub fn finals(&self, round: u64) -> [u64; 32] {
        let mut finals = [0; 32];
        for (set, found) in finals.iter_mut().zip(&self.answers) {
            *set = before(found, round);
        }
        finals
    }

    // Walks a body from each state in which its action was called, and adds what it ends in. Says whether an answer was new.
    fn walk_rule(
        &mut self,
        rule: &Record,
        called: &[u64; 4],
        walked: &mut Relations,
        round: u64,
    ) -> bool {
        let action = head(rule);
        let states = called[(action % 4) as usize];
        let mut grew = false;
        for s in 0..8 {
            if has(states, s) {
                let ends = walked.walk(rule, s, true);
                grew |= add(&mut self.answers[place(action, s)], ends, round);
            }
        }
        grew
    }

    // One round. What it may use is taken at its start, so what it adds is used by later rounds alone. Says whether it adds
    // anything.
    fn add_round(&mut self, book: &Book, start: u64, round: u64) -> bool {
        let called = self.calls.map(|found| before(&found, round));
        let mut walked = Relations {
            finals: self.finals(round),
            called: [0; 4],
        };
        let ends = walked.walk(&book.goal, start, true);
        let mut grew = add(&mut self.answers[32], ends, round);
        for rule in &book.rules {
            grew |= self.walk_rule(rule, &called, &mut walked, round);
        }
        for (found, set) in self.calls.iter_mut().zip(&walked.called) {
            grew |= add(found, *set, round);
        }
        grew
    }
}

// The rounds of the goal from a state below 8: at most one for each of 32 calls and 264 answers.
pub fn count(book: &Book, start: u64) -> Rounds {
    let mut found = Rounds {
        calls: [[None; 8]; 4],
        answers: [[None; 8]; 33],
        last: 0,
    };
    for n in 1..300 {
        if !found.add_round(book, start, n) {
            break;
        }
        found.last = n;
    }
    found
}
