// The statement's row of runs: drill D2's book, g: `!g ?a +b`; g: `+a`; tables of 4 call records and 10 answer records, limits 2 and 4 for each.
use crate::openings::STATED;
use crate::panels::{Panel, Party, Turn};
use crate::traced;
use print::books::{CALL, INSERT, QUERY};
use std::io;

// A run of the first party.
pub fn first(goal: &[u16], start: u64, places: usize) -> Turn<'_> {
    Turn {
        party: Party::First,
        goal,
        start,
        places,
    }
}

// A run of the second.
pub fn second(goal: &[u16], start: u64, places: usize) -> Turn<'_> {
    Turn {
        party: Party::Second,
        goal,
        start,
        places,
    }
}

// Runs 1 to 6. Both parties need g in state 0; then the first party's rows that the second does not need go.
fn six(rt: &(impl Print + AllocGlobal), panel: &mut Panel) -> io::Result<()> {
    panel.turn(rt, "1 first !g at 0", first(&[CALL], 0, 2))?;
    panel.turn(rt, "2 second !g at 0, 31", second(&[CALL], 0, 1))?;
    panel.turn(rt, "3 second !g ?b at 0", second(&[CALL, QUERY + 1], 0, 3))?;
    panel.turn(rt, "4 first !g at 2", first(&[CALL], 2, 2))?;
    panel.turn(rt, "5 first !1, 23", first(&[CALL + 1], 0, 2))?;
    panel.turn(rt, "6 first !g !g at 0, 30", first(&[CALL, CALL], 0, 3))
}

// The runs after them: 24 with the other's rows, and 23 before 24; goals without calls, one of no steps, and one of 17.
fn others(rt: &(impl Print + AllocGlobal), panel: &mut Panel) -> io::Result<()> {
    panel.turn(rt, "first !g at 0 again", first(&[CALL], 0, 2))?;
    panel.turn(rt, "first !g at 4, 24", first(&[CALL], 4, 2))?;
    panel.turn(
        rt,
        "second !1 at 4, 23 before 24",
        second(&[CALL + 1], 4, 2),
    )?;
    panel.turn(rt, "second +b at 1", second(&[INSERT + 1], 1, 2))?;
    panel.turn(rt, "first no steps at 3", first(&[], 3, 1))?;
    panel.turn(rt, "second ?b at 0, no end", second(&[QUERY + 1], 0, 0))?;
    panel.turn(rt, "second 17 steps, 23", second(&[INSERT; 17], 0, 2))
}

pub fn all(rt: &(impl Print + AllocGlobal)) -> io::Result<()> {
    let mut panel = Panel::new(rt.alloc())?;
    panel.open(rt, "open", STATED)?;
    six(rt, &mut panel)?;
    traced::after_six(rt, &panel)?;
    others(rt, &mut panel)
}
