// Openings of tables of 4 call records and 10 answer records, or others, whose words are 7 before.
use crate::panels::{Limits, Panel};
use std::io;

// The limits of the statement's row of runs.
pub const STATED: Limits = Limits {
    first: (2, 4),
    second: (2, 4),
};

// Opens tables of so many words that are lent for it alone.
fn opened(
    rt: &(impl Print + AllocGlobal),
    name: &str,
    calls: usize,
    answers: usize,
    limits: Limits,
) -> io::Result<()> {
    let mut panel = Panel::of(rt.alloc(), calls, answers)?;
    panel.open(rt, name, limits)
}

// Tables of 4 and 10 records.
fn shown(
    rt: &(impl Print + AllocGlobal),
    name: &str,
    first: (u64, u64),
    second: (u64, u64),
) -> io::Result<()> {
    opened(rt, name, 8, 190, Limits { first, second })
}

// A word more in each table adds no room; and no words at all have room for no record.
fn odd_words(rt: &(impl Print + AllocGlobal)) -> io::Result<()> {
    let mut odd = Panel::of(rt.alloc(), 9, 208)?;
    let over = Limits {
        first: (3, 5),
        second: (2, 5),
    };
    odd.open(rt, "90 of odd words", over)?;
    let just = Limits {
        first: (2, 5),
        ..over
    };
    odd.open(rt, "odd words", just)?;
    let mut none = Panel::of(rt.alloc(), 0, 0)?;
    let one = Limits {
        first: (0, 0),
        second: (0, 1),
    };
    none.open(rt, "90 of no words", one)?;
    let nothing = Limits {
        second: (0, 0),
        ..one
    };
    none.open(rt, "no words", nothing)
}

pub fn all(rt: &(impl Print + AllocGlobal)) -> io::Result<()> {
    shown(rt, "open 2 4 2 4", (2, 4), (2, 4))?;
    shown(rt, "open just the rooms", (1, 9), (3, 1))?;
    shown(rt, "90 of 5 calls", (3, 4), (2, 4))?;
    shown(rt, "90 of 11 answers", (2, 4), (2, 7))?;
    shown(rt, "90 of limits past a word", (u64::MAX, 4), (u64::MAX, 4))?;
    shown(rt, "90 of answers past a word", (2, u64::MAX), (2, 1))?;
    odd_words(rt)
}
