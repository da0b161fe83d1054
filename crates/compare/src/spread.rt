// A book's three fluents among the 64 of its sheet: fluent k is the sheet's fluent base + 21 k, for a base below 22, so that
// each bit of a state is used by some sheet.
use crate::rooms::Lent;
use evaluator::Run;
use relation::{Book, Record};

// What stands for a state of the sheet that the book has none for.
const NO_STATE: u64 = 255;

// The sheet's step word; an action has the number that it has in the book.
fn step(word: u16, base: u64) -> u16 {
    if word / 256 == 3 {
        return word;
    }
    let fluent = base % 22 + u64::from(word % 256 % 3) * 21;
    word / 256 % 8 * 256 + fluent as u16
}

// The record with the sheet's fluents: head, count and unused words are as in the other.
fn record(small: &Record, base: u64) -> Record {
    let mut wide = *small;
    let count = relation::body(small).len();
    for word in wide[2..2 + count].iter_mut() {
        *word = step(*word, base);
    }
    wide
}

// The book with the sheet's fluents.
pub fn book(small: &Book, base: u64) -> Book {
    Book {
        rules: small.rules.map(|rule| record(&rule, base)),
        goal: record(&small.goal, base),
    }
}

// A record's steps with the sheet's fluents.
pub fn steps(small: &[u16; 7], base: u64) -> [u16; 7] {
    small.map(|word| step(word, base))
}

// The sheet's state.
pub fn state(small: u64, base: u64) -> u64 {
    let b = base % 22;
    small % 2 << b | small / 2 % 2 << (b + 21) | small / 4 % 2 << (b + 42)
}

// The book's state for one of the sheet's, if no other fluent holds.
fn back(wide: u64, base: u64) -> Option<u64> {
    let b = base % 22;
    let small = (wide >> b) % 2 + (wide >> (b + 21)) % 2 * 2 + (wide >> (b + 42)) % 2 * 4;
    (state(small, base) == wide).then_some(small)
}

// Puts the book's state in the place of the sheet's.
fn put_back(word: &mut u64, base: u64) {
    *word = back(*word, base).unwrap_or(NO_STATE);
}

// The same in all records and ends that a run left.
pub fn put_all_back(lent: &mut Lent, run: Run, base: u64) {
    for call in lent
        .calls
        .as_mut_slice()
        .as_chunks_mut::<3>()
        .0
        .iter_mut()
        .take(run.calls as usize)
    {
        put_back(&mut call[1], base);
    }
    for answer in lent
        .answers
        .as_mut_slice()
        .as_chunks_mut::<20>()
        .0
        .iter_mut()
        .take(run.answers as usize)
    {
        put_back(&mut answer[1], base);
    }
    for end in lent.ends.iter_mut().take(run.ends as usize) {
        put_back(end, base);
    }
}
