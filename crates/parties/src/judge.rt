// Whether tables are as they are kept, by a check of its own: not 91.
use crate::held::{self, Account, Goal};
use crate::play::Panel;
use crate::wanted;
use relation::records::{Records, Table};
use relation::{Book, Record};

// Whether two limits add up to at most a room.
fn fits(a: u64, b: u64, room: usize) -> bool {
    a.checked_add(b).is_some_and(|sum| sum <= room as u64)
}

// Whether goals, starts and limits meet none of 23, 24 and 90.
fn is_sound(first: &Account, second: &Account, panel: &Panel) -> bool {
    first.is_good()
        && second.is_good()
        && fits(
            first.limits.calls,
            second.limits.calls,
            panel.calls.len() / 2,
        )
        && fits(
            first.limits.answers,
            second.limits.answers,
            panel.answers.len() / 19,
        )
}

// Whether a party's own rows are within its limits.
fn is_within(book: &Book, account: &Account) -> bool {
    let Some(goal) = account.goal else {
        return true;
    };
    let found = wanted::found(book, &goal);
    found.calls <= account.limits.calls && found.answers <= account.limits.answers
}

// The record of a goal that may be held; else one of no steps.
fn record(goal: Option<Goal>) -> Record {
    match goal {
        Some(goal) => goal.record(),
        None => [0; 18],
    }
}

// Whether the tables hold just the rows of these accounts, each once and every answer justified, and 0 past them.
fn is_balanced(book: &Book, first: &Account, second: &Account, panel: &Panel) -> bool {
    let Some(calls) = Table::held(panel.calls.as_slice(), 2, panel.kept[42]) else {
        return false;
    };
    let Some(answers) = Table::held(panel.answers.as_slice(), 19, panel.kept[43]) else {
        return false;
    };
    let held = Records { calls, answers };
    let rows = wanted::both(book, first, second);
    let goals = [record(first.goal), record(second.goal)];
    held.calls_held() == Some(rows.calls)
        && held.answers_held() == Some(rows.answers)
        && held.all_justified(&book.rules, &goals)
}

// Whether the tables are as kept.
pub fn is_as_kept(book: &Book, panel: &Panel) -> bool {
    let first = held::account_in(&panel.kept, false);
    let second = held::account_in(&panel.kept, true);
    is_sound(&first, &second, panel)
        && is_within(book, &first)
        && is_within(book, &second)
        && is_balanced(book, &first, &second, panel)
}
