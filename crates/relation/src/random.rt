// Books at random, with rules that call themselves or each other first.
ghost use Rattle.std.specs.Prelude.{◌≤◌, ◌<◌};

use crate::{Book, Record};

// The next number of the generator, below 2 to the power 31.
pub fn next(x: u64) -> u64 {
    (x % 2147483648 * 1103515245 + 12345) % 2147483648
}

// A number below n, or 0, from the upper bits of x.
pub fn pick(x: u64, n: u64) -> u64
    ensures { 0 < n → result < n }
{
    (x / 65536).checked_rem(n).unwrap_or(0)
}

// An action: one of three, or seldom the fourth.
fn action(x: u64) -> u16
    ensures { result < 4 }
{
    (pick(x, 31) / 10) as u16
}

// A query, insert, delete or denial: of sixteen, one is a query and one a denial, so that most bodies go on to their ends.
fn elementary(x: u64) -> u16 {
    let fluent = pick(next(x), 3) as u16;
    match pick(x, 16) {
        0 => fluent,
        15 => 1024 + fluent,
        kind => (kind % 2 + 1) as u16 * 256 + fluent,
    }
}

// A step: a call half the time; where it is the first, seven times in eight.
fn step(x: u64, first: bool) -> u16 {
    let kind = pick(x, 8);
    let y = next(x);
    if 3 < kind || (first && 0 < kind) {
        768 + action(y)
    } else {
        elementary(y)
    }
}

// How many steps a record has: at most 4 three times in four, else at most 16.
fn length(x: u64) -> u64
    ensures { result ≤ 16 }
{
    if pick(x, 4) == 0 {
        pick(next(x), 17)
    } else {
        (pick(next(x), 9) + 1) / 2
    }
}

// A record with up to 16 steps; and the generator's next number. A base rule is of a given action and calls nothing.
pub fn record(x: u64, base: Option<u16>) -> (Record, u64) {
    let mut record = [0; 18];
    let mut seed = next(x);
    record[0] = base.unwrap_or(action(seed));
    seed = next(seed);
    let count = length(seed);
    record[1] = count as u16;
    for (k, word) in record[2..2 + count as usize].iter_mut().enumerate() {
        seed = next(next(next(seed)));
        *word = if base.is_some() {
            elementary(seed)
        } else {
            step(seed, k == 0)
        };
    }
    (record, seed)
}

// Six rules, of which some are base rules, and a goal of no steps; and the generator's next number.
pub fn rules(x: u64, bases: u16) -> (Book, u64) {
    let mut book = Book {
        rules: [[0; 18]; 6],
        goal: [0; 18],
    };
    let mut seed = x;
    for (i, rule) in book.rules.iter_mut().enumerate() {
        let number = i as u16;
        let base = (number < bases).then_some(number % 3);
        (*rule, seed) = record(seed, base);
    }
    (book, seed)
}
