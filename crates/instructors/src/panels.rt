// A panel that two parties share: its tables, the words kept beside them, and what a run or an opening gives and leaves.
use crate::rows::Rows;
use panel::Shared;
use print::Runs;
use print::books::d2;
use std::alloc::{AllocError, Global};
use std::io;

#[derive(Clone, Copy, PartialEq, Eq)]
pub enum Party {
    First,
    Second,
}

// How many call records and answer records the first party may have, and the second.
#[derive(Clone, Copy)]
pub struct Limits {
    pub first: (u64, u64),
    pub second: (u64, u64),
}

// What a party asks: a goal from a start over a book of so many fluents and one action.
#[derive(Clone, Copy)]
pub struct Question<'a> {
    pub party: Party,
    pub fluents: u64,
    pub rules: &'a [u16],
    pub goal: &'a [u16],
    pub start: u64,
}

// A party's run over drill D2's book, whose list of ends has so many places.
#[derive(Clone, Copy)]
pub struct Turn<'a> {
    pub party: Party,
    pub goal: &'a [u16],
    pub start: u64,
    pub places: usize,
}

#[derive(Drop)]
pub struct Panel {
    pub kept: [u64; 44],
    pub calls: Vec<u64>,
    pub answers: Vec<u64>,
}

impl Panel {
    // Tables of so many words, each 7 before; nothing is kept yet.
    pub fn of(alloc: Global, calls: usize, answers: usize) -> Result<Panel, AllocError> {
        let calls = vec![in alloc; 7; calls]?;
        let answers = vec![in alloc; 7; answers]?;
        Ok(Panel {
            kept: [0; 44],
            calls,
            answers,
        })
    }

    // Tables of 4 call records and 10 answer records.
    pub fn new(alloc: Global) -> Result<Panel, AllocError> {
        Panel::of(alloc, 8, 190)
    }

    // The same tables and words again.
    pub fn again(&self) -> Result<Panel, AllocError> {
        let calls = self.calls.clone()?;
        let answers = self.answers.clone()?;
        Ok(Panel {
            kept: self.kept,
            calls,
            answers,
        })
    }

    pub fn rows(&self) -> Rows<'_> {
        Rows {
            kept: &self.kept,
            calls: &self.calls,
            answers: &self.answers,
        }
    }

    // Opens the tables for these limits, and prints what that gives and leaves: the tables are told word by word.
    pub fn open(&mut self, rt: &impl Print, name: &str, limits: Limits) -> io::Result<()> {
        let refusal = self.opened(limits);
        print!(rt; "{name}\trefusal {refusal}\tkept{}", Runs(&self.kept))?;
        println!(rt;
            "\tcalls{}\tanswers{}",
            Runs(&self.calls),
            Runs(&self.answers)
        )
    }

    // Opens the tables for these limits; the refusal's number.
    pub fn opened(&mut self, limits: Limits) -> u64 {
        let (first_calls, first_answers) = limits.first;
        let (second_calls, second_answers) = limits.second;
        let r = opening::open(
            first_calls,
            first_answers,
            second_calls,
            second_answers,
            &mut self.calls,
            &mut self.answers,
        );
        let words = r.kept.words;
        self.kept = words;
        r.refusal
    }

    // Runs a goal with these words kept.
    pub fn run(&mut self, q: Question, kept: &[u64], ends: &mut [u64]) -> Shared {
        panel::share(
            q.party == Party::Second,
            q.fluents,
            1,
            q.rules,
            q.goal,
            q.start,
            kept,
            &mut self.calls,
            &mut self.answers,
            ends,
        )
    }

    // Runs a goal over D2's book and keeps what is to be kept then; the ends are written to the list.
    pub fn run_own(
        &mut self,
        alloc: Global,
        turn: Turn,
        ends: &mut [u64],
    ) -> Result<Shared, AllocError> {
        let rules = d2(alloc)?;
        let q = Question {
            party: turn.party,
            fluents: 2,
            rules: &rules,
            goal: turn.goal,
            start: turn.start,
        };
        let kept = self.kept;
        let r = self.run(q, &kept, ends);
        let words = r.kept.words;
        self.kept = words;
        Ok(r)
    }

    // Runs a goal over D2's book, and prints what that gives and the rows that the tables hold then.
    pub fn turn(
        &mut self,
        rt: &(impl Print + AllocGlobal),
        name: &str,
        turn: Turn,
    ) -> io::Result<()> {
        let mut ends = vec![in rt.alloc(); 7; turn.places]?;
        let r = self.run_own(rt.alloc(), turn, &mut ends)?;
        told(rt, name, r, &ends)?;
        println!(rt; "{}", self.rows())
    }
}

// Prints what a run gives. Every place of the list of ends is 7 before.
pub fn told(rt: &impl Print, name: &str, r: Shared, ends: &[u64]) -> io::Result<()> {
    print!(rt;
        "{name}\trefusal {}\tends {}\tcalls {}",
        r.refusal, r.ends, r.calls
    )?;
    print!(rt; "\tanswers {}\tlist{}", r.answers, Runs(ends))
}
