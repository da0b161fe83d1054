// Reads a sheet from standard input and prints the ends of its goal, or its refusal.
#![tactic(auto)]

ghost use Rattle.std.specs.Prelude.{◌≤◌, length};

use naming::Span;
use std::io;
use std::io::Read;
use steps::state::State;

fn tab(rt: &impl Print) -> io::Result<()> {
    rt.print("\t")
}

fn line_feed(rt: &impl Print) -> io::Result<()> {
    rt.print("\n")
}

fn field(rt: &impl Print, n: u64) -> io::Result<()> {
    print!(rt; "\t{n}")
}

// A part of the sheet; nothing where it has no such part.
fn part<'a>(sheet: &'a [u8], span: Span) -> &'a [u8] {
    match sheet.get(span.at..) {
        Some(rest) if span.len <= rest.len() => &rest[..span.len],
        _ => b"",
    }
}

// The name of each fluent of an accepted sheet: to find them again for each end would be slow.
fn find_names<'a>(sheet: &'a [u8]) -> [&'a [u8]; 64] {
    let mut names: [&'a [u8]; 64] = [b""; 64];
    for (k, name) in names.iter_mut().enumerate() {
        let span = naming::name_in(sheet, k as u64);
        if span.len == 0 {
            break;
        }
        *name = part(sheet, span);
    }
    names
}

// Prints the names that hold in a state, in fluent order.
fn print_names(rt: &impl Print, names: &[&[u8]; 64], state: State) -> io::Result<()> {
    for (k, name) in names.iter().enumerate() {
        if state.holds(k as u64) {
            tab(rt)?;
            rt.write_all(name)?;
        }
    }
    Ok(())
}

// Prints the first ends of the list, as many as there are.
fn print_ends(rt: &impl Print, sheet: &[u8], ends: &[u64], count: u64) -> io::Result<()> {
    let names = find_names(sheet);
    for (i, end) in ends.iter().enumerate() {
        if count <= i as u64 {
            break;
        }
        rt.print("end")?;
        field(rt, *end)?;
        print_names(rt, &names, State::of(*end))?;
        line_feed(rt)?;
    }
    Ok(())
}

// Prints the ends of a sheet, or its refusal and line.
fn print_run(rt: &impl Print, sheet: &[u8]) -> io::Result<()> {
    let mut ends = [0u64; 256];
    let run = rehearsal::rehearse(sheet, &mut ends);
    if run.refusal != 0 {
        rt.print("refused")?;
        field(rt, run.refusal)?;
        field(rt, run.line)?;
        return line_feed(rt);
    }
    rt.print("ends")?;
    field(rt, run.ends)?;
    field(rt, run.calls)?;
    field(rt, run.answers)?;
    line_feed(rt)?;
    print_ends(rt, sheet, &ends, run.ends)
}

// Reads standard input until the buffer is full, the input ends or a read fails, and gives how many bytes came.
fn read_full(rt: &impl Input, buf: &mut [u8]) -> usize
    ensures { result ≤ length buf.new }
{
    let mut reader = rt.reader();
    let mut done: usize = 0;
    while done < buf.len() {
        let n = reader.read(&mut buf[done..]).unwrap_or(0);
        if n == 0 {
            break;
        }
        done += n;
    }
    done
}

// Whether standard input, of which no byte came, cannot be read: it has not just ended.
fn unreadable(rt: &impl Input) -> bool {
    let mut more = [0u8; 1];
    rt.reader().read(&mut more).is_err()
}

fn main(rt: HostRuntime) -> io::Result<()> {
    let mut sheet = [0u8; 65537];
    let n = read_full(&rt, &mut sheet);
    if n == 0 && unreadable(&rt) {
        return rt.eprintln("ends: standard input cannot be read");
    }
    print_run(&rt, &sheet[..n])
}
