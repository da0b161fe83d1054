// The account of a party in the words kept, by a reading of its own, for books of 3 fluents and 4 actions.
use relation::{Book, Record};

// The limits of a party.
#[derive(Clone, Copy, PartialEq, Eq, Debug)]
pub struct Limits {
    pub calls: u64,
    pub answers: u64,
}

// A goal with its start: of the words as many count as there are steps.
#[derive(Clone, Copy, PartialEq, Eq, Debug)]
pub struct Goal {
    pub start: u64,
    pub steps: u64,
    pub words: [u64; 16],
}

// The limits, and the goal whose rows the party holds, if it holds any.
#[derive(Clone, Copy, PartialEq, Eq, Debug)]
pub struct Account {
    pub limits: Limits,
    pub goal: Option<Goal>,
}

// Whether a word is a step: a call of one of 4 actions, or another of one of 3 fluents.
fn is_step(word: u64) -> bool {
    let index = word % 256;
    match word / 256 {
        3 => index < 4,
        0..=4 => index < 3,
        _ => false,
    }
}

impl Goal {
    // The words that count.
    fn body(&self) -> &[u64] {
        &self.words[..self.steps.min(16) as usize]
    }

    // Whether it has at most 16 steps, and each is one: not 23.
    pub fn is_good(&self) -> bool {
        self.steps <= 16 && self.body().iter().all(|word| is_step(*word))
    }

    // The words as step words, and one more.
    pub fn step_words(&self) -> [u16; 17] {
        let mut words = [0; 17];
        for (word, step) in words.iter_mut().zip(&self.words) {
            *word = (*step % 65536) as u16;
        }
        words
    }

    // Its record in a book.
    pub fn record(&self) -> Record {
        let mut record = [0; 18];
        record[1] = self.steps.min(16) as u16;
        for (word, step) in record[2..].iter_mut().zip(self.body()) {
            *word = (*step % 65536) as u16;
        }
        record
    }

    // The book with it as the goal.
    pub fn book(&self, book: &Book) -> Book {
        Book {
            goal: self.record(),
            ..*book
        }
    }
}

impl Account {
    // The account with no rows.
    pub fn vacant(limits: Limits) -> Account {
        Account { limits, goal: None }
    }

    // Whether a goal that it holds is good, from a start below 8.
    pub fn is_good(&self) -> bool {
        self.goal
            .is_none_or(|goal| goal.is_good() && goal.start < 8)
    }

    // Its words among those kept: unused goal words are 0.
    fn words(&self) -> [u64; 21] {
        let mut words = [0; 21];
        words[0] = self.limits.calls;
        words[1] = self.limits.answers;
        if let Some(goal) = self.goal {
            words[2] = 1;
            words[3] = goal.start;
            words[4] = goal.steps;
            for (word, step) in words[5..].iter_mut().zip(goal.body()) {
                *word = *step;
            }
        }
        words
    }
}

// The account of a party in the words kept.
pub fn account_in(kept: &[u64; 44], second: bool) -> Account {
    let at = if second { 21 } else { 0 };
    let mut words = [0; 16];
    words.copy_from_slice(&kept[at + 5..at + 21]);
    let goal = Goal {
        start: kept[at + 3],
        steps: kept[at + 4],
        words,
    };
    Account {
        limits: Limits {
            calls: kept[at],
            answers: kept[at + 1],
        },
        goal: (kept[at + 2] != 0).then_some(goal),
    }
}

// The words kept of two accounts and the counts of records.
pub fn kept_words(first: &Account, second: &Account, n: u64, m: u64) -> [u64; 44] {
    let mut words = [0; 44];
    words[..21].copy_from_slice(&first.words());
    words[21..42].copy_from_slice(&second.words());
    words[42] = n;
    words[43] = m;
    words
}
