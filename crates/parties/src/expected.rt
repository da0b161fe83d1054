// What a party's run is to give, by the other evaluator.
use crate::questions::Asked;
use crate::wanted;
use panel::Shared;
use relation::Book;
use relation::records::{self, LENT};

// The refusals that a run can meet here: counts, the goal, its start, the tables, the list of ends, and tables not as kept.
#[derive(Clone, Copy, PartialEq, Eq, Debug)]
pub enum Refusal {
    Counts = 20,
    Goal = 23,
    Start = 24,
    Full = 30,
    Short = 31,
    NotKept = 91,
}

// The refusal, the set of ends, and the counts.
#[derive(Clone, Copy, PartialEq, Eq, Debug)]
pub struct Want {
    pub refusal: Option<Refusal>,
    pub set: u64,
    pub ends: u64,
    pub calls: u64,
    pub answers: u64,
}

impl Want {
    fn refused(refusal: Refusal) -> Want {
        Want {
            refusal: Some(refusal),
            set: 0,
            ends: 0,
            calls: 0,
            answers: 0,
        }
    }

    // The number of the refusal, 0 for none.
    pub fn number(&self) -> u64 {
        match self.refusal {
            None => 0,
            Some(refusal) => refusal as u64,
        }
    }

    // Whether the party holds the rows of its goal then.
    pub fn holds(&self) -> bool {
        matches!(self.refusal, None | Some(Refusal::Short))
    }

    // Whether these are the counts given.
    pub fn has_counts_of(&self, reply: &Shared) -> bool {
        self.ends == reply.ends && self.calls == reply.calls && self.answers == reply.answers
    }

    // Whether the list is as it is to be.
    pub fn is_list(&self, ends: &[u64]) -> bool {
        match self.refusal {
            None => records::is_list_of(ends, self.set),
            Some(_) => ends.iter().all(|word| *word == LENT),
        }
    }
}

// What a run of a good goal from a good start gives, within the limits and with the places for ends that are asked for.
fn accepted(book: &Book, q: &Asked) -> Want {
    let found = wanted::found(book, &q.goal);
    if q.limits.calls < found.calls || q.limits.answers < found.answers {
        return Want::refused(Refusal::Full);
    }
    let ends = relation::ones(found.ends);
    Want {
        refusal: ((q.places as u64) < ends).then_some(Refusal::Short),
        set: found.ends,
        ends,
        calls: found.calls,
        answers: found.answers,
    }
}

// What a run gives, where the tables are as kept or not.
pub fn of_run(book: &Book, q: &Asked, as_kept: bool) -> Want {
    if 64 < q.fluents {
        Want::refused(Refusal::Counts)
    } else if !as_kept {
        Want::refused(Refusal::NotKept)
    } else if !q.goal.is_good() {
        Want::refused(Refusal::Goal)
    } else if 7 < q.goal.start {
        Want::refused(Refusal::Start)
    } else {
        accepted(book, q)
    }
}
