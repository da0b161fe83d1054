// A question for a path, and what is told of it.
use print::Runs;
use std::io;

// The record whose path is asked for, over tables with counts of their own. Every word of the list is 7 before.
#[derive(Clone, Copy)]
pub struct Question<'a> {
    pub fluents: u64,
    pub actions: u64,
    pub rules: &'a [u16],
    pub goal: &'a [u16],
    pub calls: &'a [u64],
    pub call_count: u64,
    pub answers: &'a [u64],
    pub answer_count: u64,
    pub record: u64,
}

// Asks for the path in a list of so many places, and prints what that gives and leaves.
pub fn asked(
    rt: &(impl Print + AllocGlobal),
    name: &str,
    q: Question,
    places: usize,
) -> io::Result<()> {
    let mut states = vec![in rt.alloc(); 7; places]?;
    let r = path::path(
        q.fluents,
        q.actions,
        q.rules,
        q.goal,
        q.calls,
        q.call_count,
        q.answers,
        q.answer_count,
        q.record,
        &mut states,
    );
    println!(rt;
        "{name}\trefusal {}\tstates {}\tlist{}",
        r.refusal,
        r.states,
        Runs(&states)
    )
}
