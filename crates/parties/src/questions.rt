// Questions at random: of few goals and starts for each row, so that both parties often need the same rows.
use crate::held::{Goal, Limits};
use relation::random::{self, next, pick};

// A party's question under its limits, with so many places for ends.
// Stays: which party asks holds beside all else, so `second` is no flag of a value.
#[derive(Clone, Copy, PartialEq, Eq, Debug)]
pub struct Asked {
    pub second: bool,
    pub fluents: u64,
    pub places: usize,
    pub limits: Limits,
    pub goal: Goal,
}

// A goal of the row at random.
pub fn goal(row: u64, number: u64, start: u64) -> Goal {
    let (record, _) = random::record(next(row % 65536 + number % 4 * 104729), None);
    let mut words = [0; 16];
    for (word, step) in words.iter_mut().zip(&record[2..]) {
        *word = u64::from(*step);
    }
    Goal {
        start,
        steps: u64::from(record[1]),
        words,
    }
}

// With a step that is none, or with 17 steps.
fn spoilt(goal: Goal, x: u64) -> Goal {
    let mut words = goal.words;
    words[0] = match pick(x, 3) {
        0 => 1280 + pick(x, 2),
        1 => 3,
        _ => 772,
    };
    let steps = if pick(x, 5) == 0 {
        17
    } else {
        goal.steps.max(1)
    };
    Goal {
        start: goal.start,
        steps,
        words,
    }
}

// One of a few starts of the row.
pub fn start_of(row: u64, number: u64) -> u64 {
    pick(next(next(row % 65536 + number % 4 * 15485863)), 8)
}

// A start: one in twelve has a bit too high.
fn start(row: u64, x: u64) -> u64 {
    let start = start_of(row, pick(x, 3));
    if pick(next(x), 12) == 0 {
        start % 8 + 8
    } else {
        start
    }
}

// The goal of a question.
fn goal_asked(row: u64, x: u64) -> Goal {
    let goal = goal(row, pick(x, 3), start(row, next(x)));
    if pick(next(next(next(x))), 12) == 0 {
        spoilt(goal, x)
    } else {
        goal
    }
}

// Places for ends: often 8, which serve any goal.
fn places(x: u64) -> usize {
    if pick(x, 4) == 0 {
        pick(next(x), 3) as usize
    } else {
        8
    }
}

// A question at random: one in thirty-seven is of 65 fluents.
pub fn at_random(row: u64, second: bool, limits: Limits, x: u64) -> Asked {
    let is_wide = pick(next(next(next(x))), 37) == 0;
    Asked {
        second,
        fluents: if is_wide { 65 } else { 3 },
        places: places(next(next(x))),
        limits,
        goal: goal_asked(row, next(x)),
    }
}
