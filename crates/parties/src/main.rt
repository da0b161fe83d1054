// Plays rows of runs of two parties at random (request R-14). Each opening and each run is held to an evaluator and a check of
// the tables written apart, and each run to one of the library's own evaluator alone in tables of the party's limits. The books
// have 3 fluents, 4 actions and 6 rules.
#![tactic(auto)]

mod expected;
mod held;
mod judge;
mod lone;
mod openings;
mod play;
mod questions;
mod tally;
mod wanted;

use relation::random;
use std::alloc::{AllocError, Global};
use std::io;
use tally::{Tally, count};

// The generator's number some places on.
fn later(x: u64) -> u64 {
    (0..5).fold(x, |y, _| random::next(y))
}

// Plays a row of eight runs over one book, of which so many first rules are base rules; the generator's next number.
fn play_row(alloc: Global, seed: u64, bases: u16, t: &mut Tally) -> Result<u64, AllocError> {
    let (book, next) = random::rules(seed, bases);
    let x = random::next(next);
    count(&mut t.rows, true);
    let mut panel = openings::open_row(alloc, &book, x, random::next(x), t)?;
    let mut y = x;
    for _ in 0..8 {
        y = later(y);
        panel = play::turn_at(&book, x, panel, y, t)?;
    }
    Ok(random::next(y))
}

// Plays so many rows. In turn the books have one to five base rules.
fn play_rows(alloc: Global, rows: u64, from: u64) -> Result<Tally, AllocError> {
    let mut t = Tally::default();
    let mut seed = from;
    for k in 0..rows {
        seed = play_row(alloc, seed, (k % 5 + 1) as u16, &mut t)?;
    }
    Ok(t)
}

fn main(rt: HostRuntime) -> io::Result<()> {
    let tally = play_rows(rt.alloc(), 500, 2026)?;
    for (name, n) in tally.lines() {
        println!(rt; "{name}\t{n}")?;
    }
    Ok(())
}
