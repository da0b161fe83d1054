// Figures for the course report, from result words and ends written by hand, and what is refused. Every word of an output is 7 before,
// but in `many_starts`, whose four reports share one.
use print::Runs;
use std::io;

// Asks for the figures in an output of so many words, and prints what is given and left.
fn figures(
    rt: &(impl Print + AllocGlobal),
    name: &str,
    fluents: u64,
    results: &[u64],
    ends: &[u64],
    room: usize,
) -> io::Result<()> {
    let mut out = vec![in rt.alloc(); 7; room]?;
    let refusal = report::report(fluents, results, ends, &mut out);
    print!(rt; "{name}\trefusal {refusal}\tresults{}", Runs(results))?;
    println!(rt; "\tends{}\tout{}", Runs(ends), Runs(&out))
}

fn shares(rt: &(impl Print + AllocGlobal)) -> io::Result<()> {
    figures(
        rt,
        "3 ends of 2 starts, one refused",
        2,
        &[0, 2, 2, 4, 31, 5, 5, 5, 0, 1, 1, 1],
        &[1, 3, 1],
        9,
    )?;
    figures(
        rt,
        "6 ends of one start",
        3,
        &[0, 6, 9, 9],
        &[1, 3, 5, 7, 3, 1],
        10,
    )?;
    figures(
        rt,
        "one end twice",
        1,
        &[0, 1, 1, 1, 0, 1, 1, 1],
        &[1, 1],
        6,
    )?;
    figures(rt, "ends in any order", 2, &[0, 4, 1, 4], &[3, 0, 2, 1], 8)
}

fn nothing(rt: &(impl Print + AllocGlobal)) -> io::Result<()> {
    figures(rt, "no starts", 2, &[], &[], 9)?;
    figures(rt, "a start without ends", 1, &[0, 0, 2, 0], &[], 7)?;
    figures(rt, "all refused", 1, &[30, 4, 4, 4, 24, 0, 0, 0], &[], 7)?;
    figures(rt, "no fluents", 0, &[0, 1, 1, 1], &[0], 5)?;
    figures(rt, "0 stands over 1", 2, &[0, 2, 1, 2], &[0, 0], 8)
}

fn most(rt: &(impl Print + AllocGlobal)) -> io::Result<()> {
    figures(
        rt,
        "64 fluents, all holding",
        64,
        &[0, 1, 1, 1],
        &[u64::MAX],
        133,
    )?;
    figures(
        rt,
        "refused starts may say anything",
        1,
        &[u64::MAX, u64::MAX, 1, 1, 0, 1, u64::MAX, 0],
        &[1],
        6,
    )
}

// Figures over one fluent in an output that others have been in before; the words handed over are not told.
fn shared(
    rt: &impl Print,
    name: &str,
    results: &[u64],
    ends: &[u64],
    out: &mut [u64],
) -> io::Result<()> {
    let refusal = report::report(1, results, ends, out);
    println!(rt; "{name}\trefusal {refusal}\tout{}", Runs(out))
}

fn many_starts(rt: &(impl Print + AllocGlobal)) -> io::Result<()> {
    let none = vec![in rt.alloc(); 0; 4100]?;
    let ends = vec![in rt.alloc(); 1; 65537]?;
    let mut out = [7; 7];
    shared(rt, "1024 starts", &none[..4096], &[], &mut out)?;
    shared(rt, "26 of 1025 starts", &none, &[], &mut out)?;
    shared(
        rt,
        "65536 ends",
        &[0, 65536, 1, 1],
        &ends[..65536],
        &mut out,
    )?;
    shared(rt, "26 of 65537 ends", &[0, 65537, 1, 1], &ends, &mut out)
}

fn bad_results(rt: &(impl Print + AllocGlobal)) -> io::Result<()> {
    figures(rt, "26 of 5 result words", 1, &[0, 0, 0, 0, 0], &[], 6)?;
    figures(rt, "26 of an end too few", 1, &[0, 1, 1, 1], &[], 6)?;
    figures(rt, "26 of an end too many", 1, &[31, 1, 1, 1], &[1], 6)?;
    figures(rt, "26 of a bit too high", 1, &[0, 1, 1, 1], &[2], 6)?;
    figures(rt, "26 of a bit, no fluents", 0, &[0, 1, 1, 1], &[1], 4)
}

fn sums(rt: &(impl Print + AllocGlobal)) -> io::Result<()> {
    figures(rt, "26 of 65537 ends said", 1, &[0, 65537, 0, 0], &[], 6)?;
    figures(
        rt,
        "26 of a sum that would wrap",
        1,
        &[0, u64::MAX, 0, 0, 0, 1, 0, 0],
        &[],
        6,
    )
}

fn order(rt: &(impl Print + AllocGlobal)) -> io::Result<()> {
    figures(rt, "27 of 5 words", 1, &[0, 1, 1, 1], &[1], 5)?;
    figures(rt, "27 of 3 words, no fluents", 0, &[], &[], 3)?;
    figures(rt, "26 before 27", 1, &[0, 1, 1, 1], &[2], 0)?;
    figures(rt, "20 before 26", 65, &[0], &[1], 6)?;
    figures(rt, "20 before 27", u64::MAX, &[], &[], 0)
}

pub fn all(rt: &(impl Print + AllocGlobal)) -> io::Result<()> {
    shares(rt)?;
    nothing(rt)?;
    most(rt)?;
    many_starts(rt)?;
    bad_results(rt)?;
    sums(rt)?;
    order(rt)
}
