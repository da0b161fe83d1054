// A goal cut in two (request R-11): `!g -a !g` over the book of drill D2, whole and cut at each place.
use crate::asked::{Lent, Question, Rooms};
use print::Runs;
use print::books::{CALL, DELETE, d2};
use std::io;

// Evaluates from a start, prints the ends and gives their list. Every place of it is 7 before, which is no state of two fluents.
fn ends(
    rt: &(impl Print + AllocGlobal),
    name: &str,
    rules: &[u16],
    goal: &[u16],
    start: u64,
) -> io::Result<Vec<u64>> {
    let mut lent = Lent::of(rt.alloc(), Rooms::of(8, 16, 2), 7)?;
    let r = lent.evaluate(Question {
        fluents: 2,
        actions: 1,
        rules,
        goal,
        start,
    });
    print!(rt;
        "{name}\tfrom {start}\trefusal {}\tends {}",
        r.refusal, r.ends
    )?;
    println!(rt; "\tlist{}", Runs(&lent.ends))?;
    Ok(lent.ends)
}

// The first half, and the second from each end of it; a place that is still 7 holds none.
fn cut(
    rt: &(impl Print + AllocGlobal),
    name: &str,
    rules: &[u16],
    goal: &[u16],
    at: usize,
) -> io::Result<()> {
    let Some((first, second)) = goal.split_at_checked(at) else {
        return Ok(());
    };
    print!(rt; "{name}")?;
    let list = ends(rt, ", first half", rules, first, 0)?;
    for start in &list {
        if *start != 7 {
            print!(rt; "{name}")?;
            ends(rt, ", second half", rules, second, *start)?;
        }
    }
    Ok(())
}

pub fn all(rt: &(impl Print + AllocGlobal)) -> io::Result<()> {
    let rules = d2(rt.alloc())?;
    let goal = [CALL, DELETE, CALL];
    ends(rt, "whole goal", &rules, &goal, 0)?;
    for (at, name) in ["cut at 0", "cut at 1", "cut at 2", "cut at 3"]
        .iter()
        .enumerate()
    {
        cut(rt, name, &rules, &goal, at)?;
    }
    Ok(())
}
