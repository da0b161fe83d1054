// Paths of tables written here by hand: those of drills D9 and D2, of goals without calls, and questions that are refused.
use crate::walked::{Question, asked};
use print::books::{Answer, CALL, DELETE, INSERT, QUERY, answers, book, d2};
use std::alloc::{AllocError, Global};
use std::io;

// The book, the goal, the tables with the counts given with them, the record asked for and the places lent: what a drill changes.
#[derive(Drop)]
struct Handed {
    fluents: u64,
    actions: u64,
    rules: Vec<u16>,
    goal: u16,
    calls: Vec<u64>,
    call_count: u64,
    answers: Vec<u64>,
    answer_count: u64,
    record: u64,
    places: usize,
}

impl Handed {
    // Another word in the call table.
    fn call(&mut self, at: usize, word: u64) {
        if let Some(old) = self.calls.get_mut(at) {
            *old = word;
        }
    }

    // Another word in the answer table.
    fn answer(&mut self, at: usize, word: u64) {
        if let Some(old) = self.answers.get_mut(at) {
            *old = word;
        }
    }
}

// The last record of D9 over p: `+a -a`; q: `!p !p`. The calls are the goal, q and p in state 0, of rounds 0 to 2; each has one answer, p's
// the first and the goal's the last, of rounds 3 to 5.
fn handed_d9(alloc: Global) -> Result<Handed, AllocError> {
    let nothing = Answer {
        call: 2,
        last: 0,
        rule: 0,
        evidence: &[],
        round: 3,
    };
    let twice = Answer {
        call: 1,
        rule: 1,
        round: 4,
        ..nothing
    };
    let goal = Answer {
        call: 0,
        rule: 256,
        evidence: &[1],
        round: 5,
        ..nothing
    };
    let rules = book(alloc, &[(0, &[INSERT, DELETE]), (1, &[CALL, CALL])])?;
    let calls = vec![in alloc; 64, 0, 0, 1, 0, 1, 0, 0, 2]?;
    let answers = answers(alloc, &[nothing, twice, goal])?;
    Ok(Handed {
        fluents: 1,
        actions: 2,
        rules,
        goal: CALL + 1,
        calls,
        call_count: 3,
        answers,
        answer_count: 3,
        record: 2,
        places: 6,
    })
}

// Asks for the path after a change.
fn changed<F: FnOnce(&mut Handed)>(
    rt: &(impl Print + AllocGlobal),
    name: &str,
    handed: Handed,
    change: F,
) -> io::Result<()>
    requires { F.IsAlwaysCallable change }
{
    let mut handed = handed;
    change(&mut handed);
    let q = Question {
        fluents: handed.fluents,
        actions: handed.actions,
        rules: &handed.rules,
        goal: &[handed.goal],
        calls: &handed.calls,
        call_count: handed.call_count,
        answers: &handed.answers,
        answer_count: handed.answer_count,
        record: handed.record,
    };
    asked(rt, name, q, handed.places)
}

// D9 with a change.
fn d9<F: FnOnce(&mut Handed)>(
    rt: &(impl Print + AllocGlobal),
    name: &str,
    change: F,
) -> io::Result<()>
    requires { F.IsAlwaysCallable change }
{
    changed(rt, name, handed_d9(rt.alloc())?, change)
}

fn rooms(rt: &(impl Print + AllocGlobal)) -> io::Result<()> {
    d9(rt, "D9 room 5", |h| h.places = 5)?;
    d9(rt, "D9 room 6", |h| h.places = 6)?;
    d9(rt, "D9 p alone", |h| h.record = 0)?;
    d9(rt, "D9 room 4", |h| h.places = 4)?;
    d9(rt, "43 room 0", |h| (h.record, h.places) = (0, 0))
}

fn counts(rt: &(impl Print + AllocGlobal)) -> io::Result<()> {
    d9(rt, "40 of 4 calls", |h| h.call_count = 4)?;
    d9(rt, "40 of 4 answers", |h| h.answer_count = 4)?;
    d9(rt, "40 before 41", |h| (h.call_count, h.record) = (4, 3))?;
    d9(rt, "41 of 3 answers", |h| h.record = 3)?;
    d9(rt, "42 fewer calls counted", |h| h.call_count = 2)?;
    d9(rt, "42 before 43", |h| (h.call_count, h.places) = (2, 4))
}

fn changes(rt: &(impl Print + AllocGlobal)) -> io::Result<()> {
    d9(rt, "not changed", |_| {})?;
    d9(rt, "23 before 41", |h| (h.goal, h.record) = (CALL + 2, 3))?;
    d9(rt, "42 no such action", |h| h.call(3, 2))?;
    d9(rt, "42 a bit too high", |h| h.call(7, 2))?;
    d9(rt, "42 another rule", |h| h.answer(22, 0))?;
    d9(rt, "42 its own evidence", |h| h.answer(23, 1))?;
    d9(rt, "42 evidence at an update", |h| h.answer(3, 1))?;
    d9(rt, "42 another final state", |h| h.answer(1, 1))?;
    d9(rt, "41 before 42", |h| {
        h.call(3, 2);
        h.record = 3;
    })
}

// The path of a goal without calls over one fluent, whose one answer ends in this state (request R-3).
fn updates(
    rt: &(impl Print + AllocGlobal),
    name: &str,
    goal: &[u16],
    start: u64,
    end: u64,
    places: usize,
) -> io::Result<()> {
    let answer = Answer {
        call: 0,
        last: end,
        rule: 256,
        evidence: &[],
        round: 1,
    };
    let answers = answers(rt.alloc(), &[answer])?;
    let q = Question {
        fluents: 1,
        actions: 0,
        rules: &[],
        goal,
        calls: &[64, start, 0],
        call_count: 1,
        answers: &answers,
        answer_count: 1,
        record: 0,
    };
    asked(rt, name, q, places)
}

fn idle_updates(rt: &(impl Print + AllocGlobal)) -> io::Result<()> {
    updates(rt, "D5 room 2", &[INSERT], 1, 1, 2)?;
    updates(rt, "D5 room 1", &[INSERT], 1, 1, 1)?;
    let turns = [DELETE, INSERT, INSERT, QUERY];
    updates(rt, "-a +a +a ?a", &turns, 0, 1, 6)?;
    updates(rt, "a goal of no steps", &[], 1, 1, 2)
}

// The last answer of drill D2. The calls are the goal and g in state 0, of rounds 0 and 1; g and the goal have the answers 1, of rounds 2 and 3,
// and 3, of rounds 3 and 4.
fn handed_d2(alloc: Global) -> Result<Handed, AllocError> {
    let inserted = Answer {
        call: 1,
        last: 1,
        rule: 1,
        evidence: &[],
        round: 2,
    };
    let goal = Answer {
        call: 0,
        rule: 256,
        round: 3,
        ..inserted
    };
    let again = Answer {
        call: 1,
        last: 3,
        rule: 0,
        round: 3,
        ..inserted
    };
    let last = Answer {
        call: 0,
        last: 3,
        rule: 256,
        evidence: &[2],
        round: 4,
    };
    let rules = d2(alloc)?;
    let calls = vec![in alloc; 64, 0, 0, 0, 0, 1]?;
    let answers = answers(alloc, &[inserted, goal, again, last])?;
    Ok(Handed {
        fluents: 2,
        actions: 1,
        rules,
        goal: CALL,
        calls,
        call_count: 2,
        answers,
        answer_count: 4,
        record: 3,
        places: 4,
    })
}

// D2 with a change.
fn after_d2<F: FnOnce(&mut Handed)>(
    rt: &(impl Print + AllocGlobal),
    name: &str,
    change: F,
) -> io::Result<()>
    requires { F.IsAlwaysCallable change }
{
    changed(rt, name, handed_d2(rt.alloc())?, change)
}

// A call's round is at most 131,071; an answer's is bounded only from below, by those of its evidence.
fn rounds(rt: &(impl Print + AllocGlobal)) -> io::Result<()> {
    after_d2(rt, "D2 last answer", |_| {})?;
    after_d2(rt, "D2 round 131,071 of a call", |h| h.call(2, 131071))?;
    after_d2(rt, "42 round 131,072 of a call", |h| h.call(2, 131072))?;
    after_d2(
        rt,
        "42 round 131,072 of the last call",
        |h| h.call(5, 131072),
    )?;
    after_d2(
        rt,
        "any round of the last answer",
        |h| h.answer(79, u64::MAX),
    )
}

fn equal_rounds(rt: &(impl Print + AllocGlobal)) -> io::Result<()> {
    after_d2(rt, "42 evidence of an equal round", |h| h.answer(59, 2))?;
    after_d2(rt, "42 evidence of a later round", |h| h.answer(59, 1))?;
    after_d2(
        rt,
        "42 another answer's evidence of an equal round",
        |h| h.answer(39, 2),
    )?;
    after_d2(rt, "round 0 of evidence", |h| h.answer(19, 0))
}

pub fn all(rt: &(impl Print + AllocGlobal)) -> io::Result<()> {
    rooms(rt)?;
    idle_updates(rt)?;
    counts(rt)?;
    changes(rt)?;
    rounds(rt)?;
    equal_rounds(rt)
}
