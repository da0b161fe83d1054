// States stored by fluent and words restored, and what is refused. Every word of an output is 7 before.
use print::Runs;
use std::io;

// Stores the states in an output of so many words, and prints what that gives and leaves.
fn store(
    rt: &(impl Print + AllocGlobal),
    name: &str,
    fluents: u64,
    states: &[u64],
    room: usize,
) -> io::Result<()> {
    let mut words = vec![in rt.alloc(); 7; room]?;
    let r = archive::store(fluents, states, &mut words);
    print!(rt; "{name}\trefusal {}\tcount {}", r.refusal, r.count)?;
    println!(rt; "\tstates{}\twords{}", Runs(states), Runs(&words))
}

// Restores the states in an output of so many, and prints what that gives and leaves.
fn restore(
    rt: &(impl Print + AllocGlobal),
    name: &str,
    fluents: u64,
    count: u64,
    words: &[u64],
    room: usize,
) -> io::Result<()> {
    let mut states = vec![in rt.alloc(); 7; room]?;
    let r = archive::restore(fluents, count, words, &mut states);
    print!(rt; "{name}\trefusal {}\tcount {}", r.refusal, r.count)?;
    println!(rt; "\twords{}\tstates{}", Runs(words), Runs(&states))
}

fn small(rt: &(impl Print + AllocGlobal)) -> io::Result<()> {
    store(rt, "4 states of 2 fluents", 2, &[0, 1, 3, 2], 3)?;
    restore(rt, "4 states of 2 fluents, back", 2, 4, &[6, 12], 5)?;
    store(rt, "D9's path", 2, &[0, 1, 0, 1, 0], 3)?;
    restore(rt, "D9's path, back", 2, 5, &[10, 0], 6)
}

fn blocks(rt: &(impl Print + AllocGlobal)) -> io::Result<()> {
    let more = [1; 65];
    store(rt, "a full block", 1, &more[..64], 2)?;
    restore(rt, "a full block, back", 1, 64, &[u64::MAX], 65)?;
    store(rt, "65 states", 1, &more, 3)?;
    restore(rt, "65 states, back", 1, 65, &[u64::MAX, 1], 66)
}

fn fluents(rt: &(impl Print + AllocGlobal)) -> io::Result<()> {
    let mut words = [1; 64];
    words[63] = 3;
    store(rt, "64 fluents", 64, &[u64::MAX, 1 << 63], 65)?;
    restore(rt, "64 fluents, back", 64, 2, &words, 3)?;
    store(rt, "no fluents", 0, &[0, 0, 0], 1)?;
    restore(rt, "no fluents, back", 0, 3, &[], 4)
}

fn no_states(rt: &(impl Print + AllocGlobal)) -> io::Result<()> {
    store(rt, "no states", 2, &[], 1)?;
    restore(rt, "no states, back", 2, 0, &[], 1)
}

fn refused_stores(rt: &(impl Print + AllocGlobal)) -> io::Result<()> {
    store(rt, "20 of 65 fluents, before 80", 65, &[0], 0)?;
    store(rt, "24 a bit too high", 1, &[0, 1, 2], 1)?;
    store(rt, "24 before 80", 1, &[2], 0)?;
    store(rt, "80 of 2 words", 2, &[0], 1)?;
    store(rt, "24 of no fluents", 0, &[1], 1)
}

fn bad_words(rt: &(impl Print + AllocGlobal)) -> io::Result<()> {
    restore(rt, "20 of 65 fluents, before 81", 65, 1, &[], 2)?;
    restore(rt, "81 a word missing", 2, 1, &[0], 2)?;
    restore(rt, "81 a block missing", 2, 65, &[0, 0], 66)?;
    restore(rt, "81 a word too many", 2, 1, &[0, 0, 0], 2)?;
    restore(rt, "81 a word of no fluents", 0, 3, &[0], 4)
}

fn bad_bits(rt: &(impl Print + AllocGlobal)) -> io::Result<()> {
    restore(rt, "81 before 82", 2, 1, &[2], 2)?;
    restore(rt, "82 a bit past the last state", 2, 1, &[1, 2], 2)?;
    restore(rt, "82 before 80", 2, 1, &[2, 0], 0)?;
    restore(rt, "82 in the second block", 1, 65, &[0, 2], 66)
}

fn short_outputs(rt: &(impl Print + AllocGlobal)) -> io::Result<()> {
    restore(rt, "80 of 1 state", 2, 1, &[1, 0], 0)?;
    restore(rt, "80 of 4 states", 2, 4, &[6, 12], 3)?;
    restore(rt, "81 of 2^64 - 1 states", 64, u64::MAX, &[], 2)?;
    restore(rt, "80 of 2^64 - 1 states, no fluents", 0, u64::MAX, &[], 2)
}

pub fn all(rt: &(impl Print + AllocGlobal)) -> io::Result<()> {
    small(rt)?;
    blocks(rt)?;
    fluents(rt)?;
    no_states(rt)?;
    refused_stores(rt)?;
    bad_words(rt)?;
    bad_bits(rt)?;
    short_outputs(rt)
}
