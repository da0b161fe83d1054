// Drills on paper: D12 and D13, sheets in every dress, read, written and merged, and each refusal from 10 to 19, 50 and 70, with what every
// buffer holds afterwards.
#![tactic(auto)]

mod dresses;
mod merges;
mod sheets;

use std::io;

fn main(rt: HostRuntime) -> io::Result<()> {
    sheets::all(&rt)?;
    dresses::all(&rt)?;
    merges::all(&rt)
}
