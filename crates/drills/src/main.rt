// Drills that run: document 01's (but those of other programs) with their rounds and lists of calls, a goal cut in two, denials, the path of D9,
// updates that change nothing, tables written by hand, classes of many starts, and the refusals of runs, classes and paths, with what every buffer
// holds afterwards.
#![tactic(auto)]

mod asked;
mod classes;
mod cuts;
mod denials;
mod depths;
mod paths;
mod runs;
mod walked;

use std::io;

fn main(rt: HostRuntime) -> io::Result<()> {
    runs::all(&rt)?;
    depths::all(&rt)?;
    cuts::all(&rt)?;
    denials::all(&rt)?;
    paths::all(&rt)?;
    classes::all(&rt)
}
