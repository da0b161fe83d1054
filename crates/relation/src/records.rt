// Tables as a run leaves them, judged apart from the library: which rows they hold, and whether each answer is justified. A call
// record begins with its action and state, an answer record with its call record, final state, rule and 16 words of evidence,
// and a round may follow. The goals are actions from 64 on.
use crate::{Found, Record, Step, body, has, head, place, single};

// What a buffer of words is filled with before it is lent.
pub const LENT: u64 = 6148914691236517205;

// The number that stands for the goal in the place of a rule's.
const GOAL_RULE: u64 = 256;

// The first goal's number among the actions.
const FIRST_GOAL: u64 = 64;

// Rows as sets of states below 8: the calls of each action, and the answers of each from each state. The two goals follow the
// four actions.
#[derive(Clone, Copy, PartialEq, Eq, Debug)]
pub struct Rows {
    pub calls: [u64; 6],
    pub answers: [[u64; 8]; 6],
}

impl Rows {
    pub fn none() -> Rows {
        Rows {
            calls: [0; 6],
            answers: [[0; 8]; 6],
        }
    }

    // Adds what a run of the first or the second goal from a state finds.
    pub fn add(&mut self, found: &Found, second: bool, start: u64) {
        for (calls, called) in self.calls.iter_mut().zip(&found.called) {
            *calls |= *called;
        }
        for (action, answers) in self.answers.iter_mut().take(4).enumerate() {
            for (s, set) in answers.iter_mut().enumerate() {
                if has(found.called[action % 4], s as u64) {
                    *set |= found.finals[place(action as u64, s as u64)];
                }
            }
        }
        let goal = if second { 5 } else { 4 };
        self.calls[goal] = single(start);
        self.answers[goal][(start % 8) as usize] = found.ends;
    }
}

// The number of an action or goal among the rows.
fn slot(action: u64) -> Option<usize> {
    match action {
        0..4 => Some(action as usize),
        64 => Some(4),
        65 => Some(5),
        _ => None,
    }
}

// Adds a state to a set. None if there is no such state, or it was there.
fn note(set: &mut u64, state: u64) -> Option<()> {
    if 7 < state || has(*set, state) {
        return None;
    }
    *set |= single(state);
    Some(())
}

// An answer record.
#[derive(Clone, Copy)]
struct Answer<'a> {
    call: u64,
    last: u64,
    rule: u64,
    evidence: &'a [u64],
    round: Option<u64>,
}

impl Answer<'_> {
    fn read(record: &[u64]) -> Option<Answer<'_>> {
        let [call, last, rule, rest @ ..] = record else {
            return None;
        };
        let (evidence, round) = rest.split_at_checked(16)?;
        Some(Answer {
            call: *call,
            last: *last,
            rule: *rule,
            evidence,
            round: round.first().copied(),
        })
    }

    // Whether it came in an earlier round than another, where the records have rounds.
    fn is_earlier(&self, other: &Answer) -> bool {
        match (self.round, other.round) {
            (Some(round), Some(later)) => round < later,
            _ => true,
        }
    }
}

// Records of a table, each of so many words.
#[derive(Clone, Copy, Debug)]
pub struct Table<'a> {
    words: &'a [u64],
    width: usize,
}

impl<'a> Table<'a> {
    // The first n records of a table; none if it has fewer, or a word past them is not 0.
    pub fn held(words: &'a [u64], width: usize, n: u64) -> Option<Table<'a>> {
        let len = width.checked_mul(n as usize)?;
        let (held, vacant) = words.split_at_checked(len)?;
        let is_clear = vacant.iter().all(|word| *word == 0);
        is_clear.then_some(Table { words: held, width })
    }

    fn get(&self, number: u64) -> Option<&'a [u64]> {
        let from = self.width.checked_mul(number as usize)?;
        let end = from.checked_add(self.width)?;
        self.words.get(from..end)
    }
}

// Whether a list begins with the states of a set in rising order, and the words past them are as lent.
pub fn is_list_of(list: &[u64], set: u64) -> bool {
    let mut rest = list;
    for s in 0..8 {
        if has(set, s) {
            match rest {
                [first, others @ ..] if *first == s => rest = others,
                _ => return false,
            }
        }
    }
    rest.iter().all(|word| *word == LENT)
}

// The records of both tables.
#[derive(Clone, Copy, Debug)]
pub struct Records<'a> {
    pub calls: Table<'a>,
    pub answers: Table<'a>,
}

impl Records<'_> {
    // The action and state of a call record.
    fn call(&self, number: u64) -> Option<(u64, u64)> {
        match self.calls.get(number)? {
            [action, state, ..] => Some((*action, *state)),
            _ => None,
        }
    }

    // The calls of each action; none if a record is bad or held twice.
    pub fn calls_held(&self) -> Option<[u64; 6]> {
        let mut seen = [0; 6];
        for record in self.calls.words.chunks(self.calls.width.max(1)) {
            let [action, state, ..] = record else {
                return None;
            };
            note(seen.get_mut(slot(*action)?)?, *state)?;
        }
        Some(seen)
    }

    // The answers of each action from each state; none if a record is bad or held twice.
    pub fn answers_held(&self) -> Option<[[u64; 8]; 6]> {
        let mut seen = [[0; 8]; 6];
        for record in self.answers.words.chunks(self.answers.width.max(1)) {
            let answer = Answer::read(record)?;
            let (action, state) = self.call(answer.call)?;
            let sets = seen.get_mut(slot(action)?)?;
            note(sets.get_mut(state as usize)?, answer.last)?;
        }
        Some(seen)
    }

    // The state that answer e leaves, if it stands before answer x, came in an earlier round and its call is of this action at
    // this state.
    fn used(&self, x: u64, answer: &Answer, e: u64, action: u64, state: u64) -> Option<u64> {
        if x <= e {
            return None;
        }
        let used = Answer::read(self.answers.get(e)?)?;
        let fits = used.is_earlier(answer) && self.call(used.call) == Some((action, state));
        fits.then_some(used.last)
    }

    // Walks the body of answer x from a state. None if it does not go to its end, or evidence past it is not 0.
    fn walked(&self, record: &Record, x: u64, answer: &Answer, from: u64) -> Option<u64> {
        let steps = body(record);
        let mut state = from;
        for (word, e) in steps.iter().zip(answer.evidence) {
            state = match Step::from(*word) {
                Step::Call(action) => self.used(x, answer, *e, action, state)?,
                step if *e == 0 => step.after(state)?,
                _ => return None,
            };
            if 7 < state {
                return None;
            }
        }
        let mut past = answer.evidence.get(steps.len()..)?.iter();
        past.all(|e| *e == 0).then_some(state)
    }

    // The final state of answer x by its rule and evidence.
    fn last(&self, rules: &[Record; 6], goals: &[Record], x: u64, answer: &Answer) -> Option<u64> {
        let (action, from) = self.call(answer.call)?;
        let record = if answer.rule == GOAL_RULE {
            goals.get(action.checked_sub(FIRST_GOAL)? as usize)?
        } else {
            let rule = rules.get(answer.rule as usize)?;
            if head(rule) != action {
                return None;
            }
            rule
        };
        self.walked(record, x, answer, from)
    }

    // Whether each answer is justified by these rules and goals.
    pub fn all_justified(&self, rules: &[Record; 6], goals: &[Record]) -> bool {
        let records = self.answers.words.chunks(self.answers.width.max(1));
        for (x, record) in records.enumerate() {
            let Some(answer) = Answer::read(record) else {
                return false;
            };
            if self.last(rules, goals, x as u64, &answer) != Some(answer.last) {
                return false;
            }
        }
        true
    }
}
