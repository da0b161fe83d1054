// Openings for limits that often just serve, or just do not, what the parties ask.
ghost use Rattle.std.specs.Prelude.{◌≤◌};

use crate::held::{self, Account, Limits};
use crate::play::Panel;
use crate::tally::{Tally, count};
use crate::{questions, wanted};
use opening::Opened;
use relation::Book;
use relation::random::{next, pick};
use relation::records::LENT;
use std::alloc::{AllocError, Global};

// The refusal of limits that add up to more than a table's room.
const OVER_LIMIT: u64 = 90;

// A limit about a count: one less to two more, and at most 100.
fn about(found: u64, x: u64) -> u64 {
    (found % 400 + pick(x, 4) % 4).saturating_sub(1).min(100)
}

// Limits for a party that asks one of the row's goals.
fn party_limits(book: &Book, row: u64, number: u64, x: u64) -> Limits {
    let goal = questions::goal(row, number, questions::start_of(row, number));
    let found = wanted::found(book, &goal);
    Limits {
        calls: about(found.calls, x),
        answers: about(found.answers, next(x)),
    }
}

// The limits of both parties.
#[derive(Clone, Copy)]
struct Both {
    first: Limits,
    second: Limits,
}

impl Both {
    fn calls(&self) -> usize
        ensures { result ≤ 254 }
    {
        (self.first.calls % 128 + self.second.calls % 128) as usize
    }

    fn answers(&self) -> usize
        ensures { result ≤ 254 }
    {
        (self.first.answers % 128 + self.second.answers % 128) as usize
    }

    // Opens tables of these words.
    fn open(&self, calls: &mut Vec<u64>, answers: &mut Vec<u64>) -> Opened {
        opening::open(
            self.first.calls,
            self.first.answers,
            self.second.calls,
            self.second.answers,
            calls.as_mut_slice(),
            answers.as_mut_slice(),
        )
    }

    // Whether an opening keeps the limits alone and empties the tables.
    fn is_good(&self, opened: &Opened, calls: &[u64], answers: &[u64]) -> bool {
        let first = Account::vacant(self.first);
        let second = Account::vacant(self.second);
        opened.refusal == 0
            && opened.kept.words == held::kept_words(&first, &second, 0, 0)
            && is_wholly(calls, 0)
            && is_wholly(answers, 0)
    }

    // Opens tables that lack a record of calls or one of answers, where the limits are not 0.
    fn open_short(&self, alloc: Global, x: u64, t: &mut Tally) -> Result<(), AllocError> {
        let n = self.calls() * 2;
        let m = self.answers() * 19;
        if n == 0 || m == 0 {
            return Ok(());
        }
        let (c, a) = if pick(x, 2) == 0 {
            (n - 1, m + 18)
        } else {
            (n + 1, m - 1)
        };
        let mut calls = vec![in alloc; LENT; c]?;
        let mut answers = vec![in alloc; LENT; a]?;
        let opened = self.open(&mut calls, &mut answers);
        let good = is_good_refusal(&opened, calls.as_slice(), answers.as_slice());
        count(&mut t.openings_refused, true);
        count(&mut t.bad_opening, !good);
        Ok(())
    }

    // Opens tables of just the limits, or for a record or two more.
    fn open_wide(&self, alloc: Global, x: u64, t: &mut Tally) -> Result<Panel, AllocError> {
        let n = self.calls() + pick(x, 3) as usize;
        let m = self.answers() + pick(next(x), 3) as usize;
        let y = next(next(x));
        let mut calls = vec![in alloc; LENT; n * 2 + pick(y, 2) as usize]?;
        let mut answers = vec![in alloc; LENT; m * 19 + pick(y, 19) as usize]?;
        let opened = self.open(&mut calls, &mut answers);
        let good = self.is_good(&opened, calls.as_slice(), answers.as_slice());
        count(&mut t.bad_opening, !good);
        let kept = opened.kept.words;
        Ok(Panel {
            kept,
            calls,
            answers,
        })
    }
}

// Whether every word of a table is this one.
fn is_wholly(table: &[u64], word: u64) -> bool {
    table.iter().all(|w| *w == word)
}

// Whether a refused opening keeps nothing and changes nothing.
fn is_good_refusal(opened: &Opened, calls: &[u64], answers: &[u64]) -> bool {
    opened.refusal == OVER_LIMIT
        && is_wholly(&opened.kept.words, 0)
        && is_wholly(calls, LENT)
        && is_wholly(answers, LENT)
}

// Opens a panel for the row; one in four openings before it is refused.
pub fn open_row(
    alloc: Global,
    book: &Book,
    row: u64,
    x: u64,
    t: &mut Tally,
) -> Result<Panel, AllocError> {
    let limits = Both {
        first: party_limits(book, row, 0, x),
        second: party_limits(book, row, 1, next(next(x))),
    };
    let y = next(next(next(next(x))));
    if pick(y, 4) == 0 {
        limits.open_short(alloc, next(y), t)?;
    }
    limits.open_wide(alloc, next(y), t)
}
