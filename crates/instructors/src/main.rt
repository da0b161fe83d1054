// Drills of two instructors on one panel (request R-14): openings, rows of runs of both parties, what is not as it was kept, and paths of shared
// records, with what every buffer and the words kept hold afterwards. The request leaves the order of records open, so rows are told in the order
// of their keys.
#![tactic(auto)]

mod afresh;
mod openings;
mod order;
mod panels;
mod rows;
mod tampered;
mod traced;
mod turns;

use std::io;

fn main(rt: HostRuntime) -> io::Result<()> {
    openings::all(&rt)?;
    turns::all(&rt)?;
    order::all(&rt)?;
    afresh::all(&rt)?;
    tampered::all(&rt)?;
    traced::all(&rt)
}
