// Openings over tables that hold rows.
use crate::openings::STATED;
use crate::panels::{Limits, Panel};
use crate::turns::{first, second};
use print::books::CALL;
use std::io;

pub fn all(rt: &(impl Print + AllocGlobal)) -> io::Result<()> {
    let mut panel = Panel::new(rt.alloc())?;
    panel.open(rt, "open afresh", STATED)?;
    panel.turn(rt, "first !g at 2", first(&[CALL], 2, 2))?;
    // What the tables held, with the words kept then, still serves after a refused opening.
    let kept = panel.kept;
    let over = Limits {
        first: (5, 4),
        ..STATED
    };
    let refusal = panel.opened(over);
    panel.kept = kept;
    println!(rt; "90 over rows\trefusal {refusal}{}", panel.rows())?;
    panel.turn(rt, "second !g at 0", second(&[CALL], 0, 2))?;
    // An opening empties the tables and keeps no goal.
    let more = Limits {
        second: (2, 6),
        ..STATED
    };
    panel.open(rt, "open over rows", more)?;
    panel.turn(rt, "second !g at 2", second(&[CALL], 2, 2))
}
