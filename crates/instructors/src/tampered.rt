// Tables and words kept that are handed back otherwise: 91, which changes nothing, or accepted where they still hold just what is kept. Before each
// the first party holds the rows of `!g` at 0 and the second those of `!g ?b` at 0, which it then runs again. Which record is which is open, so a
// word is changed so that it is wrong in any record.
use crate::openings::STATED;
use crate::panels::{Panel, Party, Question, told};
use crate::turns::{first, second};
use print::Runs;
use print::books::{CALL, INSERT, QUERY, book, d2};
use std::alloc::{AllocError, Global};
use std::fmt::Display;
use std::{fmt, io, mem};

impl Panel {
    // Another word in the call table.
    pub fn put_call(&mut self, at: usize, word: u64) {
        if let Some(old) = self.calls.get_mut(at) {
            *old = word;
        }
    }

    // Another word in the answer table.
    pub fn put_answer(&mut self, at: usize, word: u64) {
        if let Some(old) = self.answers.get_mut(at) {
            *old = word;
        }
    }

    // The panel as it is before each run here.
    pub fn prepared(alloc: Global) -> Result<Panel, AllocError> {
        let mut panel = Panel::new(alloc)?;
        let mut ends = [7; 3];
        panel.opened(STATED);
        panel.run_own(alloc, first(&[CALL], 0, 3), &mut ends)?;
        panel.run_own(alloc, second(&[CALL, QUERY + 1], 0, 3), &mut ends)?;
        Ok(panel)
    }
}

// A buffer by its name: that it is as it was, or its words.
#[derive(Clone, Copy)]
struct Left<'a, 'b> {
    name: &'static str,
    before: &'a [u64],
    now: &'b [u64],
}

impl<'a, 'b> Display for Left<'a, 'b> {
    fn fmt<W: fmt::Write>(&self, f: &mut fmt::Formatter<W>) -> fmt::Result {
        if self.now == self.before {
            write!(f, "\t{} unchanged", self.name)
        } else {
            write!(f, "\t{}{}", self.name, Runs(self.now))
        }
    }
}

// Runs a question on a panel with the words kept from a place on. A refused run is told with whether the buffers are unchanged, an accepted one
// with its rows.
fn asked(rt: &impl Print, name: &str, q: Question, handed: &Panel, from: usize) -> io::Result<()> {
    let mut panel = handed.again()?;
    let kept = handed.kept.get(from..).unwrap_or(&[]);
    let mut ends = [7; 3];
    let r = panel.run(q, kept, &mut ends);
    told(rt, name, r, &ends)?;
    if r.refusal == 0 {
        let words = r.kept.words;
        panel.kept = words;
        return println!(rt; "{}", panel.rows());
    }
    let kept = Left {
        name: "kept",
        before: kept,
        now: &r.kept.words,
    };
    let calls = Left {
        name: "calls",
        before: &handed.calls,
        now: &panel.calls,
    };
    let answers = Left {
        name: "answers",
        before: &handed.answers,
        now: &panel.answers,
    };
    println!(rt; "{kept}{calls}{answers}")
}

// The second party's `!g ?b` at 0 over these rules.
fn own(rules: &[u16]) -> Question<'_> {
    Question {
        party: Party::Second,
        fluents: 2,
        rules,
        goal: &[CALL, QUERY + 1],
        start: 0,
    }
}

// Runs that after a change.
fn run<F: FnOnce(&mut Panel)>(
    rt: &(impl Print + AllocGlobal),
    name: &str,
    change: F,
) -> io::Result<()>
    requires { F.IsAlwaysCallable change }
{
    let rules = d2(rt.alloc())?;
    let mut panel = Panel::prepared(rt.alloc())?;
    change(&mut panel);
    asked(rt, name, own(&rules), &panel, 0)
}

// The limits, and whether a party holds rows.
fn limits(rt: &(impl Print + AllocGlobal)) -> io::Result<()> {
    run(rt, "91 limit of 1 call", |p| p.kept[0] = 1)?;
    run(rt, "91 limit of 3 answers", |p| p.kept[1] = 3)?;
    run(rt, "91 limits over the call room", |p| p.kept[0] = 3)?;
    run(rt, "91 limits over the answer room", |p| p.kept[22] = 7)?;
    run(rt, "a limit of 6 answers", |p| p.kept[1] = 6)?;
    run(rt, "91 the first holds no rows", |p| p.kept[2] = 0)?;
    run(rt, "91 the second holds no rows", |p| p.kept[23] = 0)?;
    run(rt, "9 says that it holds rows", |p| p.kept[2] = 9)
}

// Goals and starts. `?a` holds wherever `!g` ends, so the rows of `!g ?a` are those of `!g`.
fn goals(rt: &(impl Print + AllocGlobal)) -> io::Result<()> {
    run(rt, "91 another start", |p| p.kept[3] = 2)?;
    run(rt, "91 a start that meets 24", |p| p.kept[24] = 4)?;
    run(rt, "goal !g ?a has the same rows", |p| p.kept[4] = 2)?;
    run(rt, "91 goal of no steps", |p| p.kept[4] = 0)?;
    run(rt, "91 goal of 17 steps", |p| p.kept[4] = 17)?;
    run(rt, "91 goal !1", |p| p.kept[5] = 769)?;
    run(rt, "91 goal of a word over 65,535", |p| p.kept[26] = 66304)?;
    run(rt, "an unused goal word", |p| p.kept[6] = 5)
}

fn counts(rt: &(impl Print + AllocGlobal)) -> io::Result<()> {
    run(rt, "91 a call fewer", |p| p.kept[42] = 2)?;
    run(rt, "91 a call more", |p| p.kept[42] = 4)?;
    run(
        rt,
        "91 more calls than there is room for",
        |p| p.kept[42] = 5,
    )?;
    run(rt, "91 an answer fewer", |p| p.kept[43] = 4)?;
    run(rt, "91 an answer more", |p| p.kept[43] = 6)?;
    run(
        rt,
        "91 more answers than there is room for",
        |p| p.kept[43] = 11,
    )
}

fn records(rt: &(impl Print + AllocGlobal)) -> io::Result<()> {
    run(rt, "91 call word 0 is 63", |p| p.put_call(0, 63))?;
    run(rt, "91 a call in another state", |p| p.put_call(1, 1))?;
    run(rt, "91 a word past the calls", |p| p.put_call(6, 1))?;
    run(rt, "91 the last word of the calls", |p| p.put_call(7, 1))
}

fn answers(rt: &(impl Print + AllocGlobal)) -> io::Result<()> {
    run(rt, "91 an answer of no call", |p| p.put_answer(0, 3))?;
    run(rt, "91 another final state", |p| p.put_answer(1, 2))?;
    run(rt, "91 no such rule", |p| p.put_answer(2, 2))?;
    run(rt, "91 no such evidence", |p| p.put_answer(3, 9))?;
    run(rt, "91 evidence past the body", |p| p.put_answer(18, 1))?;
    run(rt, "91 a word past the answers", |p| p.put_answer(95, 1))?;
    run(
        rt,
        "91 the last word of the answers",
        |p| p.put_answer(189, 1),
    )
}

// A call record that stands twice.
fn call_twice(p: &mut Panel) {
    if let [action, state, .., last_action, last_state] = p.calls.as_mut_slice() {
        *last_action = *action;
        *last_state = *state;
    }
    p.kept[42] = 4;
}

// A call that nobody needs: g in state 3, which has the answer 3 by `+a` and no other.
fn call_too_many(p: &mut Panel) {
    p.put_call(7, 3);
    p.put_answer(95, 3);
    p.put_answer(96, 3);
    p.put_answer(97, 1);
    p.kept[42] = 4;
    p.kept[43] = 6;
}

// An answer record that stands twice.
fn answer_twice(p: &mut Panel) {
    if let Some((records, free)) = p.answers.split_at_mut_checked(95) {
        for (to, from) in free.iter_mut().zip(records.iter()).take(19) {
            *to = *from;
        }
    }
    p.kept[43] = 6;
}

// The first two call records in each other's place, and the answers with their numbers: the same rows in another order.
fn in_other_order(p: &mut Panel) {
    if let [first_action, first_state, second_action, second_state, ..] = p.calls.as_mut_slice() {
        mem::swap(first_action, second_action);
        mem::swap(first_state, second_state);
    }
    for record in p.answers.chunks_exact_mut(19).take(5) {
        if let Some(call) = record.first_mut() {
            *call = match *call {
                0 => 1,
                1 => 0,
                other => other,
            };
        }
    }
}

fn other_records(rt: &(impl Print + AllocGlobal)) -> io::Result<()> {
    run(rt, "91 a call twice", call_twice)?;
    run(rt, "91 a call that nobody needs", call_too_many)?;
    run(rt, "91 an answer twice", answer_twice)?;
    run(rt, "the same rows in another order", in_other_order)
}

// With the words kept from a place on: they are 44, and come back as 0 where they are not.
fn lengths(rt: &(impl Print + AllocGlobal)) -> io::Result<()> {
    let rules = d2(rt.alloc())?;
    let panel = Panel::prepared(rt.alloc())?;
    asked(rt, "91 of 43 words kept", own(&rules), &panel, 1)?;
    asked(rt, "91 of no words kept", own(&rules), &panel, 44)?;
    asked(rt, "nothing changed", own(&rules), &panel, 0)
}

// The words of D2's book of which the last, which is unused, is not 0.
fn unused(alloc: Global) -> Result<Vec<u16>, AllocError> {
    let mut rules = d2(alloc)?;
    if let Some(last) = rules.last_mut() {
        *last = 1;
    }
    Ok(rules)
}

// 20 to 22 come before 91, and 91 before 23 and 24.
fn before(rt: &(impl Print + AllocGlobal)) -> io::Result<()> {
    let rules = d2(rt.alloc())?;
    let odd = rules.get(1..).unwrap_or(&[]);
    let mut panel = Panel::prepared(rt.alloc())?;
    panel.put_call(0, 63);
    let q = own(&rules);
    asked(rt, "20 before 91", Question { fluents: 65, ..q }, &panel, 0)?;
    asked(rt, "21 before 91", own(odd), &panel, 0)?;
    asked(rt, "22 before 91", own(&unused(rt.alloc())?), &panel, 0)?;
    let other = Question {
        goal: &[CALL + 1, QUERY + 1],
        ..q
    };
    asked(rt, "91 before 23", other, &panel, 0)?;
    asked(rt, "91 before 24", Question { start: 4, ..q }, &panel, 0)
}

// 20 to 22 change nothing; and another book has other rows: g: `!g ?a +b`; g: `+b`.
fn books(rt: &(impl Print + AllocGlobal)) -> io::Result<()> {
    let rules = d2(rt.alloc())?;
    let odd = rules.get(1..).unwrap_or(&[]);
    let panel = Panel::prepared(rt.alloc())?;
    let many = Question {
        fluents: 65,
        ..own(&rules)
    };
    asked(rt, "20 of 65 fluents", many, &panel, 0)?;
    asked(rt, "21 of 35 words", own(odd), &panel, 0)?;
    asked(
        rt,
        "22 an unused word not 0",
        own(&unused(rt.alloc())?),
        &panel,
        0,
    )?;
    let other = book(
        rt.alloc(),
        &[(0, &[CALL, QUERY, INSERT + 1]), (0, &[INSERT + 1])],
    )?;
    asked(rt, "91 of another book", own(&other), &panel, 0)
}

pub fn all(rt: &(impl Print + AllocGlobal)) -> io::Result<()> {
    limits(rt)?;
    goals(rt)?;
    counts(rt)?;
    records(rt)?;
    answers(rt)?;
    other_records(rt)?;
    lengths(rt)?;
    before(rt)?;
    books(rt)
}
