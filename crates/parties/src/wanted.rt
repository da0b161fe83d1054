// The rows of the goals that two parties hold, by the other evaluator.
use crate::held::{Account, Goal};
use relation::records::Rows;
use relation::{Book, Found, ones};

// What a goal gives from its start.
pub fn found(book: &Book, goal: &Goal) -> Found {
    relation::run(&goal.book(book), goal.start)
}

// The rows of both parties.
pub fn both(book: &Book, first: &Account, second: &Account) -> Rows {
    let mut rows = Rows::none();
    for (account, is_second) in [(first, false), (second, true)] {
        if let Some(goal) = account.goal {
            rows.add(&found(book, &goal), is_second, goal.start);
        }
    }
    rows
}

// How many rows sets have.
pub fn count(sets: &[u64]) -> u64 {
    sets.iter().fold(0, |n, set| n.saturating_add(ones(*set)))
}
