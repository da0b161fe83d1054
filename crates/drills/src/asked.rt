// What is asked of an evaluation, and the tables and lists lent for it. Every word lent is 7 before.
use evaluator::Run;
use print::Runs;
use std::alloc::{AllocError, Global};
use std::io;

// A goal from a start over a book of so many fluents and actions.
#[derive(Clone, Copy)]
pub struct Question<'a> {
    pub fluents: u64,
    pub actions: u64,
    pub rules: &'a [u16],
    pub goal: &'a [u16],
    pub start: u64,
}

// How many call records, answer records and ends there is room for, and how many places the list of calls has.
#[derive(Clone, Copy)]
pub struct Rooms {
    pub calls: u8,
    pub answers: u8,
    pub ends: u8,
    pub list: u8,
}

impl Rooms {
    // With a list of as many places as the call room.
    pub fn of(calls: u8, answers: u8, ends: u8) -> Rooms {
        Rooms {
            calls,
            answers,
            ends,
            list: calls,
        }
    }
}

// The tables and lists of these rooms.
#[derive(Drop)]
pub struct Lent {
    pub calls: Vec<u64>,
    pub answers: Vec<u64>,
    pub ends: Vec<u64>,
    pub list: Vec<u64>,
}

impl Lent {
    pub fn of(alloc: Global, rooms: Rooms, word: u64) -> Result<Lent, AllocError> {
        let calls = vec![in alloc; word; usize::from(rooms.calls) * 3]?;
        let answers = vec![in alloc; word; usize::from(rooms.answers) * 20]?;
        let ends = vec![in alloc; word; usize::from(rooms.ends)]?;
        let list = vec![in alloc; word; usize::from(rooms.list)]?;
        Ok(Lent {
            calls,
            answers,
            ends,
            list,
        })
    }

    pub fn evaluate(&mut self, q: Question) -> Run {
        evaluator::evaluate(
            q.fluents,
            q.actions,
            q.rules,
            q.goal,
            q.start,
            &mut self.calls,
            &mut self.answers,
            &mut self.ends,
            &mut self.list,
        )
    }
}

// Evaluates in these rooms, and prints what that gives and leaves.
pub fn asked(
    rt: &(impl Print + AllocGlobal),
    name: &str,
    q: Question,
    rooms: Rooms,
) -> io::Result<()> {
    let mut lent = Lent::of(rt.alloc(), rooms, 7)?;
    let r = lent.evaluate(q);
    print!(rt;
        "{name}\trefusal {}\tends {}\tcalls {}",
        r.refusal, r.ends, r.calls
    )?;
    print!(rt;
        "\tanswers {}\trounds {}\tcalls{}",
        r.answers,
        r.rounds,
        Runs(&lent.calls)
    )?;
    print!(rt;
        "\tanswers{}\tlist{}",
        Runs(&lent.answers),
        Runs(&lent.ends)
    )?;
    println!(rt; "\tcall list{}", Runs(&lent.list))
}
