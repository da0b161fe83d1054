// The words of both tables of a run, straight from request R-7: calls by round, action and state; answers by round, call record
// and final state, each with its lowest rule and then its least evidence. The rounds are known before (`depth`). The list of
// calls (R-10) goes through all actions and states in turn. The states from which a body leads to a final state are sought from
// its end back to its beginning; a rule gives an answer if the call's state is among them.
//
// Calls stand here at the place of their action and state, 32 for the goal's.
use crate::depth::{self, Rounds};
use crate::{Book, Record, Step, body, has, head, place, single};

// The place of the goal's call.
const GOAL: usize = 32;

// Call records of action, state and round, and answer records of call record, final state, rule, evidence and round; 0 past them.
#[derive(Clone, Copy)]
pub struct Tables {
    pub calls: [[u64; 3]; 40],
    pub answers: [[u64; 20]; 300],
    pub rounds: u64,
}

// The states from which a step may leave a state of a set.
fn leading(step: Step, set: u64, finals: &[u64; 32]) -> u64 {
    let mut out = 0;
    for s in 0..8 {
        if step.image(s, finals) & set != 0 {
            out |= single(s);
        }
    }
    out
}

// For each place of a body the states from which the steps from there on lead to a final state.
fn ways(record: &Record, last: u64, finals: &[u64; 32]) -> [u64; 17] {
    let mut set = single(last);
    let mut sets = [set; 17];
    for (way, word) in sets.iter_mut().zip(body(record)).rev() {
        set = leading(Step::from(*word), set, finals);
        *way = set;
    }
    sets
}

// Of the answers of a call to the states of a set the one with the least number: its final state, and that number.
fn least(numbers: &[Option<u64>; 8], set: u64) -> Option<(u64, u64)> {
    let mut best = None;
    for (s, found) in numbers.iter().enumerate() {
        if let Some(number) = *found
            && has(set, s as u64)
            && best.is_none_or(|(_, least)| number < least)
        {
            best = Some((s as u64, number));
        }
    }
    best
}

// An answer: the number, place and state of its call record, its final state, and its round.
#[derive(Clone, Copy)]
struct Row {
    call: u64,
    place: usize,
    from: u64,
    last: u64,
    round: u64,
}

// What the answers of a round may use: the final states and the numbers of earlier answers.
#[derive(Clone, Copy)]
struct Earlier<'a> {
    finals: &'a [u64; 32],
    numbers: &'a [[Option<u64>; 8]; 33],
}

impl Earlier<'_> {
    // The lowest rule that gives an answer; none for the goal's.
    fn rule(&self, book: &Book, row: &Row) -> Option<usize> {
        if row.place == GOAL {
            return None;
        }
        let action = (row.place / 8) as u64;
        for (i, rule) in book.rules.iter().enumerate() {
            if head(rule) == action && has(ways(rule, row.last, self.finals)[0], row.from) {
                return Some(i);
            }
        }
        None
    }

    // The least evidence of a body that leads from a state to a final state.
    fn evidence(&self, record: &Record, from: u64, last: u64) -> [u64; 16] {
        let sets = ways(record, last, self.finals);
        let mut evidence = [0; 16];
        let mut s = from;
        for ((word, next), used) in body(record).iter().zip(&sets[1..]).zip(evidence.iter_mut()) {
            match Step::from(*word) {
                Step::Call(action) => {
                    let call = place(action, s);
                    let set = self.finals[call] & *next;
                    (s, *used) = least(&self.numbers[call], set).unwrap_or((s, 0));
                }
                step => s = step.after(s).unwrap_or(s),
            }
        }
        evidence
    }

    // The words of an answer record.
    fn record(&self, book: &Book, row: &Row) -> [u64; 20] {
        let rule = self.rule(book, row);
        let record = rule.map_or(&book.goal, |i| &book.rules[i % 6]);
        let mut words = [0; 20];
        words[0] = row.call;
        words[1] = row.last;
        words[2] = rule.map_or(256, |i| i as u64);
        words[3..19].copy_from_slice(&self.evidence(record, row.from, row.last));
        words[19] = row.round;
        words
    }
}

// The places of the calls in the order of their records, the goal's first.
fn places(rounds: &Rounds) -> [Option<usize>; 33] {
    let mut places = [None; 33];
    places[0] = Some(GOAL);
    let mut vacant = places[1..].iter_mut();
    for round in 0..rounds.last {
        for (at, found) in rounds.calls.as_flattened().iter().enumerate() {
            if *found == Some(round + 1)
                && let Some(next) = vacant.next()
            {
                *next = Some(at);
            }
        }
    }
    places
}

// The action and state of the call at a place.
fn call(at: usize, start: u64) -> (u64, u64) {
    if at == GOAL {
        (64, start)
    } else {
        ((at / 8) as u64, (at % 8) as u64)
    }
}

// Writes the call records at these places.
fn write_calls(
    calls: &mut [[u64; 3]; 40],
    places: &[Option<usize>; 33],
    rounds: &Rounds,
    start: u64,
) {
    for (record, at) in calls.iter_mut().zip(places.iter().flatten()) {
        let (action, s) = call(*at, start);
        let round = rounds.calls.as_flattened().get(*at).copied().flatten();
        *record = [action, s, round.unwrap_or(0)];
    }
}

// Writes the answer records, round after round and call record after call record.
fn write_answers(
    answers: &mut [[u64; 20]; 300],
    places: &[Option<usize>; 33],
    rounds: &Rounds,
    book: &Book,
    start: u64,
) {
    let mut numbers = [[None; 8]; 33];
    let mut vacant = (0..300).zip(answers.iter_mut());
    for before in 0..rounds.last {
        let round = before + 1;
        let finals = rounds.finals(round);
        for (i, at) in places.iter().flatten().enumerate() {
            let (_, from) = call(*at, start);
            for (last, found) in rounds.answers[*at % 33].iter().enumerate() {
                if *found == Some(round)
                    && let Some((number, record)) = vacant.next()
                {
                    let earlier = Earlier {
                        finals: &finals,
                        numbers: &numbers,
                    };
                    let row = Row {
                        call: i as u64,
                        place: *at,
                        from,
                        last: last as u64,
                        round,
                    };
                    *record = earlier.record(book, &row);
                    numbers[*at % 33][last] = Some(number);
                }
            }
        }
    }
}

// Both tables of the goal from a state, and the number of rounds that add something.
pub fn write(book: &Book, start: u64) -> Tables {
    let rounds = depth::count(book, start);
    let places = places(&rounds);
    let mut tables = Tables {
        calls: [[0; 3]; 40],
        answers: [[0; 20]; 300],
        rounds: rounds.last,
    };
    write_calls(&mut tables.calls, &places, &rounds, start);
    write_answers(&mut tables.answers, &places, &rounds, book, start);
    tables
}

// The numbers of call records, 0 past them: for each action, the goal's last, and each state in turn.
pub fn list(calls: &[[u64; 3]], start: u64) -> [u64; 41] {
    let mut list = [0; 41];
    let mut vacant = list.iter_mut();
    for at in 0..=GOAL {
        let (action, s) = call(at, start);
        if let Some(number) = calls.iter().position(|c| c[0] == action && c[1] == s)
            && let Some(next) = vacant.next()
        {
            *next = number as u64;
        }
    }
    list
}
