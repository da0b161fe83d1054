// Other orders of the runs and other limits: what a party is given depends on its own goal, start and limits alone.
use crate::openings::STATED;
use crate::panels::{Limits, Panel};
use crate::turns::{first, second};
use print::books::{CALL, QUERY};
use std::io;

// The second party first: the tables then hold the rows that they hold after run 3.
fn second_first(rt: &(impl Print + AllocGlobal)) -> io::Result<()> {
    let mut panel = Panel::new(rt.alloc())?;
    panel.open(rt, "the second first", STATED)?;
    panel.turn(rt, "second !g ?b at 0", second(&[CALL, QUERY + 1], 0, 3))?;
    panel.turn(rt, "first !g at 0", first(&[CALL], 0, 2))
}

// One run of each party, both `!g` at 0, in tables opened for these limits.
fn limited(
    rt: &(impl Print + AllocGlobal),
    name: &str,
    first_limits: (u64, u64),
    second_limits: (u64, u64),
) -> io::Result<()> {
    let limits = Limits {
        first: first_limits,
        second: second_limits,
    };
    let mut panel = Panel::new(rt.alloc())?;
    panel.open(rt, name, limits)?;
    panel.turn(rt, "first !g at 0", first(&[CALL], 0, 2))?;
    panel.turn(rt, "second !g at 0", second(&[CALL], 0, 2))
}

// 30 takes a party's earlier rows, and none of the other's.
fn earlier_rows(rt: &(impl Print + AllocGlobal)) -> io::Result<()> {
    let fewer = Limits {
        second: (2, 3),
        ..STATED
    };
    let mut panel = Panel::new(rt.alloc())?;
    panel.open(rt, "earlier rows", fewer)?;
    panel.turn(rt, "second !g at 2", second(&[CALL], 2, 2))?;
    panel.turn(rt, "first !g at 2", first(&[CALL], 2, 2))?;
    panel.turn(rt, "second !g at 0, 30 before 31", second(&[CALL], 0, 0))?;
    panel.turn(rt, "second !g at 2 again", second(&[CALL], 2, 2))
}

pub fn all(rt: &(impl Print + AllocGlobal)) -> io::Result<()> {
    second_first(rt)?;
    limited(rt, "3 answers for the first", (2, 3), (2, 4))?;
    limited(rt, "1 call for the second", (3, 6), (1, 4))?;
    limited(rt, "nothing for either", (0, 0), (0, 0))?;
    earlier_rows(rt)
}
