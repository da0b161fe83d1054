// How many rounds the drills take (request R-6), with the tables that show the round of each record and where it stands (R-7).
use crate::asked::{Question, Rooms, asked};
use print::books::{CALL, DELETE, INSERT, QUERY, Rule, book};
use std::io;

// A goal over two fluents and two actions, in rooms of 3 records, with a list of 1 and one for 3 calls.
fn drill(
    rt: &(impl Print + AllocGlobal),
    name: &str,
    rules: &[Rule],
    goal: &[u16],
    start: u64,
) -> io::Result<()> {
    let rules = book(rt.alloc(), rules)?;
    let q = Question {
        fluents: 2,
        actions: 2,
        rules: &rules,
        goal,
        start,
    };
    asked(rt, name, q, Rooms::of(3, 3, 1))
}

// purge: `+open`; light: `!purge ?open +lit -open`. Then g: `!g`; no rule and no step; g: `+a`.
fn few(rt: &(impl Print + AllocGlobal)) -> io::Result<()> {
    let light = [CALL, QUERY, INSERT + 1, DELETE];
    drill(
        rt,
        "D1 rounds",
        &[(0, &[INSERT]), (1, &light)],
        &[CALL + 1],
        0,
    )?;
    drill(rt, "D3 rounds", &[(0, &[CALL])], &[CALL], 0)?;
    drill(rt, "D4 rounds", &[], &[], 2)?;
    drill(rt, "stuck at once", &[], &[QUERY + 1], 0)?;
    drill(rt, "D7 rounds", &[(0, &[INSERT])], &[CALL, QUERY + 1], 0)
}

// g: `+a !g`; g: `?a`. Then p: `+a -a`; q: `!p !p`.
fn more(rt: &(impl Print + AllocGlobal)) -> io::Result<()> {
    drill(
        rt,
        "D8 rounds",
        &[(0, &[INSERT, CALL]), (0, &[QUERY])],
        &[CALL],
        0,
    )?;
    let twice = [
        (0, [INSERT, DELETE].as_slice()),
        (1, [CALL, CALL].as_slice()),
    ];
    drill(rt, "D9 rounds", &twice, &[CALL + 1], 0)
}

// g: `+b`; g: `+a`; g: `+a +b`; goal `!g !g`: calls by round and state, answers by round, call record and final state, by the lowest rule.
fn ordered(rt: &(impl Print + AllocGlobal)) -> io::Result<()> {
    let rules = book(
        rt.alloc(),
        &[
            (0, &[INSERT + 1]),
            (0, &[INSERT]),
            (0, &[INSERT, INSERT + 1]),
        ],
    )?;
    let q = Question {
        fluents: 2,
        actions: 1,
        rules: &rules,
        goal: &[CALL, CALL],
        start: 0,
    };
    asked(rt, "one order", q, Rooms::of(6, 12, 4))
}

pub fn all(rt: &(impl Print + AllocGlobal)) -> io::Result<()> {
    few(rt)?;
    more(rt)?;
    ordered(rt)
}
