// Sheets in every dress, and the text that they are written as. Every byte lent for a text is 7 before.
use crate::sheets;
use print::Bytes;
use std::alloc::{AllocError, Global};
use std::io;

// Writes a sheet where so many bytes are lent, and prints what the writer gives and leaves.
fn in_room(
    rt: &(impl Print + AllocGlobal),
    name: &str,
    sheet: &[u8],
    room: usize,
) -> io::Result<()> {
    let mut text = vec![in rt.alloc(); 7; room]?;
    let r = writer::write(sheet, &mut text);
    print!(rt;
        "{name}\trefusal {}\tline {}\tlength {}",
        r.refusal, r.line, r.length
    )?;
    println!(rt; "\ttext{}", Bytes(&text))
}

// Where 200 bytes are lent.
fn drill(rt: &(impl Print + AllocGlobal), name: &str, sheet: &[u8]) -> io::Result<()> {
    in_room(rt, name, sheet, 200)
}

// Prints where a fluent's name stands.
fn named(rt: &impl Print, name: &str, sheet: &[u8], fluent: u64) -> io::Result<()> {
    let part = sheet::fluent_span(sheet, fluent);
    println!(rt; "{name}\tat {}\tlen {}", part.at, part.len)
}

// A sheet read, its names, and its text in rooms of 200, of just the text and of one byte less.
fn dressed(rt: &(impl Print + AllocGlobal), sheet: &[u8]) -> io::Result<()> {
    sheets::drill(rt, "read, dressed", sheet)?;
    named(rt, "dressed, fluent 0", sheet, 0)?;
    named(rt, "dressed, fluent 1", sheet, 1)?;
    drill(rt, "dressed", sheet)?;
    in_room(rt, "dressed, room 58", sheet, 58)?;
    in_room(rt, "50 dressed, room 57", sheet, 57)
}

fn texts(rt: &(impl Print + AllocGlobal)) -> io::Result<()> {
    drill(
        rt,
        "example",
        b"fluent\topen\nfluent\tlit\naction\tpurge\naction\tlight\nrule\tpurge\t+open\nrule\tlight\t!purge\t?open\t+lit\t-open\nstart\ngoal\t!light\n",
    )?;
    dressed(
        rt,
        b"# a\tb c\r\nfluent\ta\r\nfluent\tb\n#\naction\tg\r\nrule\tg\t+a\t?b\r\nstart\tb\ta\r\ngoal\t!g\r\n# end\n",
    )?;
    drill(
        rt,
        "equal rules",
        b"action\tg\nrule\tg\nrule\tg\nstart\ngoal\t!g\n",
    )?;
    drill(
        rt,
        "every kind of step",
        b"fluent\ta\naction\tg\nrule\tg\t?a\t+a\t-a\t!g\t~a\nstart\ngoal\t~a\n",
    )?;
    drill(
        rt,
        "start in fluent order",
        b"fluent\ta\nfluent\tb\nfluent\tc\nstart\tc\ta\ngoal\n",
    )
}

fn spaces(rt: &(impl Print + AllocGlobal)) -> io::Result<()> {
    drill(rt, "11 a space after start", b"start \ngoal\n")?;
    drill(rt, "11 a space before #", b" # x\n")?;
    drill(rt, "11 a space below a comment", b"# x\nb c\n")?;
    drill(rt, "11 byte 127 in a comment", b"#\x7f\n")?;
    drill(rt, "11 byte 31 in a comment", b"#\x1f\n")
}

fn returns(rt: &(impl Print + AllocGlobal)) -> io::Result<()> {
    drill(rt, "11 CR CR LF", b"start\r\r\ngoal\n")?;
    drill(rt, "11 CR at the end", b"start\ngoal\r")?;
    drill(rt, "11 CR in a line", b"sta\rrt\ngoal\n")?;
    drill(rt, "11 CR in a comment", b"#a\rb\n")?;
    drill(rt, "13 CR LF alone", b"\r\nstart\ngoal\n")
}

fn comments(rt: &(impl Print + AllocGlobal)) -> io::Result<()> {
    drill(rt, "12 a last comment without LF", b"start\ngoal\n# x y")?;
    sheets::drill(
        rt,
        "12 read, a last comment without LF",
        b"start\ngoal\n# x y",
    )?;
    drill(rt, "13 a tab before #", b"\t#x\n")?;
    drill(rt, "14 below two comments", b"# 1\n# 2\nfluent\tA\n")?;
    drill(rt, "14 # in a name", b"fluent\t#a\n")
}

fn ends_of_sheets(rt: &(impl Print + AllocGlobal)) -> io::Result<()> {
    drill(rt, "14 a tab before CR LF", b"start\r\ngoal\t\r\n")?;
    drill(rt, "18 nothing written", b"")?;
    drill(rt, "18 comments alone", b"# x\n#\n")?;
    in_room(rt, "18 before 50, room 1", b"start\n", 1)
}

// A comment of so many bytes.
fn comment(alloc: Global, bytes: usize) -> Result<Vec<u8>, AllocError> {
    let mut text = vec![in alloc; b'#']?;
    for _ in 2..bytes {
        text.push(b'x')?;
    }
    text.push(b'\n')?;
    Ok(text)
}

// A comment of 65,536 bytes, and of one more.
fn long_comments(rt: &(impl Print + AllocGlobal)) -> io::Result<()> {
    let long = comment(rt.alloc(), 65537)?;
    drill(rt, "10 a comment of 65,537 bytes", &long)?;
    let full = comment(rt.alloc(), 65536)?;
    drill(rt, "18 a comment of 65,536 bytes", &full)
}

pub fn all(rt: &(impl Print + AllocGlobal)) -> io::Result<()> {
    texts(rt)?;
    spaces(rt)?;
    returns(rt)?;
    comments(rt)?;
    ends_of_sheets(rt)?;
    long_comments(rt)
}
