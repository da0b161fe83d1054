// Runs of a sheet's words in rooms that just serve, and in rooms one short.
use evaluator::Run;
use relation::records::LENT;
use sheet::Sheet;
use std::alloc::{AllocError, Global};

// The refusals for want of a place for a call or an answer, for an end, and for a call number.
// Stays: numbers, since the C interface has them in `evaluator::Run`.
const TABLES_FULL: u64 = 30;

const ENDS_SHORT: u64 = 31;

const LIST_SHORT: u64 = 34;

// How many calls, answers, ends and places for call numbers there is room for.
#[derive(Clone, Copy)]
pub struct Rooms {
    calls: u64,
    answers: u64,
    ends: u64,
    list: u64,
}

impl Rooms {
    // More than any book needs.
    pub const MOST: Rooms = Rooms {
        calls: 40,
        answers: 300,
        ends: 10,
        list: 41,
    };

    // Rooms that just serve a run.
    fn of(run: Run) -> Rooms {
        Rooms {
            calls: run.calls,
            answers: run.answers,
            ends: run.ends,
            list: run.calls,
        }
    }

    fn one_call_less(self) -> Rooms {
        Rooms {
            calls: self.calls.saturating_sub(1),
            ..self
        }
    }

    fn one_answer_less(self) -> Rooms {
        Rooms {
            answers: self.answers.saturating_sub(1),
            ..self
        }
    }

    fn one_end_less(self) -> Rooms {
        Rooms {
            ends: self.ends.saturating_sub(1),
            ..self
        }
    }

    fn one_place_less(self) -> Rooms {
        Rooms {
            list: self.list.saturating_sub(1),
            ..self
        }
    }
}

// The buffers lent to a run.
#[derive(Drop)]
pub struct Lent {
    pub calls: Vec<u64>,
    pub answers: Vec<u64>,
    pub ends: Vec<u64>,
    pub list: Vec<u64>,
}

impl Lent {
    // Buffers of these rooms.
    pub fn new(alloc: Global, rooms: Rooms) -> Result<Lent, AllocError> {
        let most = Rooms::MOST;
        Ok(Lent {
            calls: vec![in alloc; LENT; rooms.calls.min(most.calls) as usize * 3]?,
            answers: vec![in alloc; LENT; rooms.answers.min(most.answers) as usize * 20]?,
            ends: vec![in alloc; LENT; rooms.ends.min(most.ends) as usize]?,
            list: vec![in alloc; LENT; rooms.list.min(most.list) as usize]?,
        })
    }

    // Whether both tables and the list of calls are wholly this word.
    fn is_wholly(&self, word: u64) -> bool {
        let tables = self.calls.iter().chain(self.answers.iter());
        tables.chain(self.list.iter()).all(|w| *w == word)
    }

    // Whether the first n call records hold the goal's call first of its action, at the start.
    fn holds_goal(&self, n: u64, start: u64) -> bool {
        for record in self.calls.as_chunks::<3>().0.iter().take(n as usize) {
            if record[0] == 64 {
                return record[1] == start;
            }
        }
        false
    }
}

// Evaluates what was read from a sheet, whose rule words fill their list. Of the goal words as many count as it has steps.
pub fn evaluate(read: Sheet, rules: &[u16], lent: &mut Lent) -> Run {
    evaluator::evaluate(
        read.fluents,
        read.actions,
        rules,
        &read.goal[..read.goal_len.min(16) as usize],
        read.start,
        lent.calls.as_mut_slice(),
        lent.answers.as_mut_slice(),
        lent.ends.as_mut_slice(),
        lent.list.as_mut_slice(),
    )
}

// What was read of a sheet, its whole run, and the list of calls of that.
#[derive(Clone, Copy)]
pub struct Case<'a> {
    pub read: Sheet,
    pub rules: &'a [u16],
    pub whole: Run,
    pub listed: &'a [u64],
}

fn has_no_counts(run: Run) -> bool {
    run.ends == 0 && run.calls == 0 && run.answers == 0 && run.rounds == 0
}

fn has_counts_of(run: Run, whole: Run) -> bool {
    run.ends == whole.ends
        && run.calls == whole.calls
        && run.answers == whole.answers
        && run.rounds == whole.rounds
}

impl Case<'_> {
    // Whether the counts and the buffers of a run in smaller rooms are what they should be by its refusal.
    fn is_right(&self, run: Run, lent: &Lent) -> bool {
        let listed = self.listed.starts_with(lent.list.as_slice());
        if run.refusal == 0 {
            return listed;
        }
        let ends_kept = lent.ends.iter().all(|w| *w == LENT);
        ends_kept
            && match run.refusal {
                TABLES_FULL => has_no_counts(run) && lent.is_wholly(0),
                LIST_SHORT => has_no_counts(run) && lent.is_wholly(LENT),
                ENDS_SHORT => {
                    listed
                        && has_counts_of(run, self.whole)
                        && lent.holds_goal(run.calls, self.read.start)
                }
                _ => true,
            }
    }

    // The refusal in these rooms; none if a count or a buffer then is not what it should be.
    fn refusal_in(&self, alloc: Global, rooms: Rooms) -> Result<Option<u64>, AllocError> {
        let mut lent = Lent::new(alloc, rooms)?;
        let run = evaluate(self.read, self.rules, &mut lent);
        Ok(self.is_right(run, &lent).then_some(run.refusal))
    }
}

// Whether a sheet is refused exactly in smaller rooms: with 30 for want of a place for a call or an answer, with 31 for want of
// one for an end, and with 34 for want of one for a call number, whatever else is short.
pub fn exact(alloc: Global, case: &Case) -> Result<bool, AllocError> {
    let just = Rooms::of(case.whole);
    let answers = 0 < case.whole.answers;
    let ends = 0 < case.whole.ends;
    let short = just.one_place_less();
    let cases = [
        (true, just, 0),
        (true, short.one_call_less(), TABLES_FULL),
        (answers, just.one_answer_less(), TABLES_FULL),
        (ends, just.one_end_less(), ENDS_SHORT),
        (true, short, LIST_SHORT),
        (answers, short.one_answer_less(), LIST_SHORT),
    ];
    for (is_one, rooms, refusal) in cases {
        if is_one && case.refusal_in(alloc, rooms)? != Some(refusal) {
            return Ok(false);
        }
    }
    Ok(0 < case.whole.calls)
}
