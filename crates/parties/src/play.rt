// Rows of runs of two parties at random: what each gives and leaves is held to the other evaluator and to a run alone.
use crate::expected::{self, Refusal, Want};
use crate::held::{self, Account};
use crate::questions::{self, Asked};
use crate::tally::{Tally, count};
use crate::{judge, lone, wanted};
use panel::Shared;
use relation::Book;
use relation::random::{next, pick};
use relation::records::LENT;
use std::alloc::AllocError;

// Both tables as they are lent, and the words kept.
#[derive(Clone, PartialEq, Drop)]
pub struct Panel {
    pub kept: [u64; 44],
    pub calls: Vec<u64>,
    pub answers: Vec<u64>,
}

// Runs a question with this list of ends.
fn run(book: &Book, panel: &mut Panel, q: &Asked, ends: &mut [u64]) -> Shared {
    let goal = q.goal.step_words();
    let kept = panel.kept;
    let reply = panel::share(
        q.second,
        q.fluents,
        4,
        book.rules.as_flattened(),
        &goal[..q.goal.steps.min(17) as usize],
        q.goal.start,
        &kept,
        panel.calls.as_mut_slice(),
        panel.answers.as_mut_slice(),
        ends,
    );
    let words = reply.kept.words;
    panel.kept = words;
    reply
}

// The words that are to be kept of two accounts.
fn kept_of(book: &Book, first: &Account, second: &Account) -> [u64; 44] {
    let rows = wanted::both(book, first, second);
    held::kept_words(
        first,
        second,
        wanted::count(&rows.calls),
        wanted::count(rows.answers.as_flattened()),
    )
}

// The words that are to be kept after a run that changes them.
fn wanted_words(book: &Book, panel: &Panel, q: &Asked, want: &Want) -> [u64; 44] {
    let own = Account {
        limits: q.limits,
        goal: want.holds().then_some(q.goal),
    };
    let other = held::account_in(&panel.kept, !q.second);
    if q.second {
        kept_of(book, &other, &own)
    } else {
        kept_of(book, &own, &other)
    }
}

// Whether a run changes nothing.
fn changes_nothing(refusal: u64) -> bool {
    refusal == Refusal::Counts as u64 || refusal == Refusal::NotKept as u64
}

// Holds what a run gave to what is wanted and to a run alone.
fn check_reply(book: &Book, q: &Asked, want: &Want, reply: &Shared, ends: &[u64], t: &mut Tally) {
    count(&mut t.bad_refusal, want.number() != reply.refusal);
    count(&mut t.bad_counts, !want.has_counts_of(reply));
    count(&mut t.bad_list, !want.is_list(ends));
    if !changes_nothing(reply.refusal) {
        count(&mut t.bad_lone, !lone::is_same(book, q, reply, ends));
    }
}

// Counts a run that changes the tables by what the parties held before.
fn count_beside(want: &Want, old: bool, other: bool, t: &mut Tally) {
    let full = want.refusal == Some(Refusal::Full);
    let bad = matches!(want.refusal, Some(Refusal::Goal | Refusal::Start));
    count(&mut t.beside, other);
    count(&mut t.beside_30, other && full);
    count(&mut t.beside_bad, other && bad);
    count(&mut t.given_up, old);
}

// Counts what a run that changes the tables left: if only the other party held rows, both need those that are fewer than the sum.
fn count_rows(panel: &Panel, after: &Panel, q: &Asked, want: &Want, t: &mut Tally) {
    let old = held::account_in(&panel.kept, q.second).goal.is_some();
    let other = held::account_in(&panel.kept, !q.second).goal.is_some();
    count_beside(want, old, other, t);
    if !old && other && 0 < want.calls {
        let apart = panel.kept[42].saturating_add(want.calls);
        count(&mut t.shared_rows, after.kept[42] < apart);
    }
}

// Holds what a run left to what is wanted, where it changes the tables.
fn check_change(book: &Book, panel: &Panel, after: &Panel, q: &Asked, want: &Want, t: &mut Tally) {
    let kept = wanted_words(book, panel, q, want);
    count(&mut t.bad_kept, after.kept != kept);
    count(&mut t.bad_rows, !judge::is_as_kept(book, after));
    count_rows(panel, after, q, want, t);
}

// Stays: a number, since the C interface has it in `panel::Shared`.
fn count_refusal(refusal: u64, t: &mut Tally) {
    match refusal {
        0 => count(&mut t.done, true),
        20 => count(&mut t.refused_20, true),
        23 => count(&mut t.refused_23, true),
        24 => count(&mut t.refused_24, true),
        30 => count(&mut t.refused_30, true),
        31 => count(&mut t.refused_31, true),
        91 => count(&mut t.refused_91, true),
        _ => {}
    }
}

// A run over a panel of which a word may have been changed; the panel as it is then, none where the run changes nothing.
fn turn(
    book: &Book,
    panel: &Panel,
    changed: bool,
    q: &Asked,
    t: &mut Tally,
) -> Result<Option<Panel>, AllocError> {
    let good = judge::is_as_kept(book, panel);
    let want = expected::of_run(book, q, good);
    let mut after = panel.clone()?;
    let mut places = [LENT; 8];
    let ends = &mut places[..q.places.min(8)];
    let reply = run(book, &mut after, q, ends);
    check_reply(book, q, &want, &reply, ends, t);
    count(&mut t.runs, true);
    count(&mut t.second, q.second);
    count_refusal(reply.refusal, t);
    count(&mut t.harmless, changed && good);
    count(
        &mut t.bad_91,
        !changed && reply.refusal == Refusal::NotKept as u64,
    );
    if changes_nothing(reply.refusal) {
        count(&mut t.bad_change, *panel != after);
        return Ok(None);
    }
    check_change(book, panel, &after, q, &want, t);
    Ok(Some(after))
}

// Another word in the place of one.
fn other_word(old: u64, x: u64) -> u64 {
    match pick(x, 6) {
        0 => old.wrapping_add(1),
        1 => old ^ 1,
        2 => 0,
        3 => pick(next(x), 2) + 64,
        _ => pick(next(x), 8),
    }
}

impl Panel {
    fn change_kept(&mut self, x: u64) {
        let i = pick(x, 44) as usize;
        self.kept[i] = other_word(self.kept[i], next(x));
    }

    // A word of the first records, or of the one past them.
    fn change_call(&mut self, x: u64) {
        let most = self.kept[42] % 80 * 2 + 2;
        if let Some(word) = self.calls.get_mut(pick(x, most) as usize) {
            *word = other_word(*word, next(x));
        }
    }

    // Half the time one of the first five words of a record.
    fn change_answer(&mut self, x: u64) {
        let most = self.kept[43] % 200 + 1;
        let width = if pick(x, 2) == 0 { 5 } else { 19 };
        let i = pick(x, most) * 19 + pick(next(x), width);
        if let Some(word) = self.answers.get_mut(i as usize) {
            *word = other_word(*word, next(next(x)));
        }
    }

    // Changes a word.
    fn tamper(&mut self, x: u64) {
        match pick(x, 3) {
            0 => self.change_kept(next(x)),
            1 => self.change_call(next(x)),
            _ => self.change_answer(next(x)),
        }
    }
}

fn count_tampered(x: u64, t: &mut Tally) {
    let kind = pick(x, 3);
    count(&mut t.tampered, true);
    count(&mut t.tampered_kept, kind == 0);
    count(&mut t.tampered_calls, kind == 1);
    count(&mut t.tampered_answers, kind == 2);
}

// A question at random of a party.
fn ask(panel: &Panel, row: u64, second: bool, x: u64) -> Asked {
    questions::at_random(row, second, held::account_in(&panel.kept, second).limits, x)
}

// A run at random: before one in four a word is changed.
pub fn turn_at(
    book: &Book,
    row: u64,
    panel: Panel,
    x: u64,
    t: &mut Tally,
) -> Result<Panel, AllocError> {
    let second = pick(x, 2) == 0;
    let mut handed = panel.clone()?;
    if pick(next(x), 4) == 0 {
        let y = next(next(next(x)));
        handed.tamper(y);
        if handed != panel {
            count_tampered(y, t);
        }
    }
    let q = ask(&handed, row, second, next(x));
    let changed = handed != panel;
    Ok(turn(book, &handed, changed, &q, t)?.unwrap_or(panel))
}
