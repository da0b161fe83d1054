// Drills in figures: states stored and restored, figures over a class, records marked, and each refusal 20 to 27, 60 to 62 and 80 to 82 that
// these meet, with what every buffer holds afterwards.
#![tactic(auto)]

mod marks;
mod reports;
mod stores;

use std::io;

fn main(rt: HostRuntime) -> io::Result<()> {
    stores::all(&rt)?;
    reports::all(&rt)?;
    marks::all(&rt)
}
