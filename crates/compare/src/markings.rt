// Records at random, marked by the library and by the parts found otherwise.

use crate::{spans, spread};
use relation::records::LENT;
use relation::{Book, body, has, ones, place, random};
use sheet::Sheet;

// What was seen of one record: its steps that can run, a yes, marks; and whether the two agree.
#[derive(Clone, Copy)]
pub struct Seen {
    pub runs: u64,
    pub yes: bool,
    pub marks: u64,
    pub same: bool,
}

// A step at random: one of a rule's or the goal's that is no call, or an insert.
fn random_step(book: &Book, x: u64) -> u16 {
    let rule = random::pick(x, 7) as usize;
    let record = book.rules.get(rule).unwrap_or(&book.goal);
    let k = random::pick(random::next(x), 4) as usize;
    let word = record[2 + k];
    if word / 256 == 3 {
        256 + word % 3
    } else {
        word
    }
}

// Seven steps at random.
fn random_steps(book: &Book, seed: u64) -> [u16; 7] {
    let mut steps = [0; 7];
    let mut x = seed;
    for step in steps.iter_mut() {
        x = random::next(random::next(x));
        *step = random_step(book, x);
    }
    steps
}

// Whether a word of the table has just the ends of the parts of an action that begin at place i.
fn is_ends_of(word: u64, found: &[u64; 32], action: u64, i: u64) -> bool {
    (0..8).all(|end| has(word, end) == has(found[place(action, end)], i))
}

// Whether the words of each action's first eight places do.
fn same_words(table: &[u64], found: &[u64; 32]) -> bool {
    for (action, words) in table.chunks(64).take(4).enumerate() {
        for (i, word) in words.iter().take(8).enumerate() {
            if !is_ends_of(*word, found, action as u64, i as u64) {
                return false;
            }
        }
    }
    true
}

// How many bits a table has.
fn bits(table: &[u64]) -> u64 {
    table
        .iter()
        .fold(0, |n, word| n.saturating_add(ones(*word)))
}

// Whether a table has the marks of the parts found, and no others, and its last word is as lent.
fn same_marks(table: &[u64; 4097], found: &[u64; 32]) -> bool {
    let (marks, last) = table.split_at(4096);
    last == [LENT].as_slice() && bits(marks) == bits(found) && same_words(marks, found)
}

// Marks a record and compares it with the parts found. Of the goal words as many count as it has steps.
fn compare_marks(read: Sheet, rules: &[u16], record: &[u16], yes: bool, found: &[u64; 32]) -> bool {
    let mut table = [LENT; 4097];
    let marked = marking::mark(
        read.fluents,
        read.actions,
        rules,
        &read.goal[..read.goal_len.min(16) as usize],
        read.start,
        record,
        &mut table,
    );
    marked.refusal == 0 && marked.yes == u64::from(yes) && same_marks(&table, found)
}

// Compares the marks of a record at random over what was read from the sheet of a book with a start, by its base.
pub fn compare(book: &Book, start: u64, base: u64, read: Sheet, rules: &[u16], seed: u64) -> Seen {
    let all = random_steps(book, seed);
    let wide = spread::steps(&all, base);
    let len = random::pick(random::next(seed), 8) as usize;
    let steps = &all[..len];
    let ran = spans::ran(steps, start);
    let found = spans::solve(&book.rules, ran);
    // The goal comes from the record's beginning to its end, and all of its steps can run.
    let yes = ran.len() == len && has(spans::beginnings(&book.goal, len as u64, ran, &found), 0);
    Seen {
        runs: ran.len() as u64,
        yes,
        marks: bits(&found),
        same: compare_marks(read, rules, &wide[..len], yes, &found),
    }
}
