// Sheets that are read or refused. 40 rule words are lent, each 7 before.
use print::{Each, Runs};
use std::io;

// Prints what the reader gives and leaves.
pub fn drill(rt: &impl Print, name: &str, text: &[u8]) -> io::Result<()> {
    let mut rules = [7; 40];
    let r = sheet::read(text, &mut rules);
    print!(rt;
        "{name}\trefusal {}\tline {}\tfluents {}",
        r.refusal, r.line, r.fluents
    )?;
    print!(rt;
        "\tactions {}\trules {}\tstart {}",
        r.actions, r.rules, r.start
    )?;
    println!(rt;
        "\tsteps {}\tgoal{}\twords{}",
        r.goal_len,
        Each(&r.goal),
        Runs(&rules)
    )
}

fn whole_sheets(rt: &impl Print) -> io::Result<()> {
    let long = [10u8; 65537];
    drill(rt, "10 of 65,537 bytes", &long)?;
    let full = [10u8; 65536];
    drill(rt, "of 65,536 bytes, all blank lines", &full)?;
    drill(rt, "11 a space", b"fluent a\n")?;
    drill(rt, "12 no LF at the end", b"start\ngoal")
}

fn first_fields(rt: &impl Print) -> io::Result<()> {
    drill(rt, "13 a blank line", b"\n")?;
    drill(rt, "13 out of order", b"action\tg\nfluent\ta\n")?;
    drill(rt, "13 a second start", b"start\nstart\n")?;
    drill(
        rt,
        "13 before 17",
        b"stop\t\t\t\t\t\t\t\t\t\t\t\t\t\t\t\t\t\t\n",
    )
}

fn bad_fields(rt: &impl Print) -> io::Result<()> {
    drill(rt, "14 goal and a tab", b"start\ngoal\t\n")?;
    drill(rt, "14 no name", b"fluent\n")?;
    drill(rt, "14 two names", b"fluent\ta\tb\n")?;
    drill(rt, "14 no head", b"rule\n")?;
    drill(rt, "14 no step", b"fluent\ta\nstart\ngoal\ta\n")
}

fn bad_names(rt: &impl Print) -> io::Result<()> {
    drill(rt, "15 defined before", b"fluent\ta\naction\ta\n")?;
    drill(rt, "15 twice in start", b"fluent\ta\nstart\ta\ta\n")?;
    drill(rt, "16 undefined", b"fluent\ta\nstart\tb\n")?;
    drill(rt, "16 of the wrong kind", b"fluent\ta\nstart\ngoal\t!a\n")?;
    drill(rt, "16 undefined twice in start", b"start\tb\tb\n")
}

fn ends_of_sheets(rt: &impl Print) -> io::Result<()> {
    drill(rt, "18 empty sheet", b"")?;
    drill(rt, "18 no start", b"goal\n")?;
    drill(rt, "18 no goal", b"start\n")?;
    drill(
        rt,
        "19 three rules",
        b"action\tg\nrule\tg\nrule\tg\nrule\tg\nstart\ngoal\n",
    )?;
    drill(
        rt,
        "read, two rules",
        b"action\tg\nrule\tg\nrule\tg\t!g\nstart\ngoal\t!g\n",
    )
}

fn many_steps(rt: &impl Print) -> io::Result<()> {
    drill(
        rt,
        "read, 16 steps",
        b"fluent\ta\nstart\ngoal\t+a\t+a\t+a\t+a\t+a\t+a\t+a\t+a\t+a\t+a\t+a\t+a\t+a\t+a\t+a\t?a\n",
    )?;
    drill(
        rt,
        "17 of 17 steps",
        b"fluent\ta\nstart\ngoal\t+a\t+a\t+a\t+a\t+a\t+a\t+a\t+a\t+a\t+a\t+a\t+a\t+a\t+a\t+a\t+a\t+a\n",
    )?;
    drill(
        rt,
        "17 before 14",
        b"action\tg\nrule\tg\t\t\t\t\t\t\t\t\t\t\t\t\t\t\t\t\t\n",
    )
}

fn long_names(rt: &impl Print) -> io::Result<()> {
    drill(
        rt,
        "read, name of 16 bytes",
        b"fluent\ta123456789012345\nstart\ta123456789012345\ngoal\n",
    )?;
    drill(
        rt,
        "14 name of 17 bytes",
        b"fluent\ta1234567890123456\nstart\ngoal\n",
    )
}

// A sheet of one line, of this byte alone.
fn one_byte(rt: &impl Print, name: &str, byte: u8) -> io::Result<()> {
    drill(rt, name, &[byte, b'\n'])
}

fn low_bytes(rt: &impl Print) -> io::Result<()> {
    one_byte(rt, "11 byte 8", 8)?;
    one_byte(rt, "11 byte 11", 11)?;
    one_byte(rt, "13 byte 13, CR directly before LF", 13)?;
    one_byte(rt, "11 byte 31", 31)?;
    one_byte(rt, "11 byte 32", 32)
}

fn high_bytes(rt: &impl Print) -> io::Result<()> {
    one_byte(rt, "11 byte 127", 127)?;
    one_byte(rt, "11 byte 128", 128)?;
    one_byte(rt, "11 byte 255", 255)?;
    one_byte(rt, "13 byte 33, the lowest but TAB and LF", 33)?;
    one_byte(rt, "13 byte 126, the highest", 126)
}

// A name with the first and the last letter and digit, and names with the bytes next to them.
fn kinds_of_bytes(rt: &impl Print) -> io::Result<()> {
    drill(
        rt,
        "read, name of each kind of byte",
        b"fluent\taz09_z\nstart\ngoal\n",
    )?;
    drill(rt, "14 a backquote", b"fluent\ta`\n")?;
    drill(rt, "14 a brace", b"fluent\ta{\n")?;
    drill(rt, "14 a slash", b"fluent\ta/\n")?;
    drill(rt, "14 a colon", b"fluent\ta:\n")
}

// Denials (request R-2): the mark `~`.
fn denials(rt: &impl Print) -> io::Result<()> {
    drill(
        rt,
        "read, ~b ?a",
        b"fluent\ta\nfluent\tb\nstart\ngoal\t~b\t?a\n",
    )?;
    drill(rt, "16 ~ of an action", b"action\tg\nstart\ngoal\t~g\n")?;
    drill(rt, "14 ~ alone", b"start\ngoal\t~\n")?;
    drill(rt, "14 two marks", b"fluent\ta\nstart\ngoal\t~~a\n")
}

fn misplaced_denials(rt: &impl Print) -> io::Result<()> {
    drill(rt, "14 ~ in start", b"fluent\ta\nstart\t~a\n")?;
    drill(rt, "14 ~ in a head", b"action\tg\nrule\t~g\n")
}

pub fn all(rt: &impl Print) -> io::Result<()> {
    whole_sheets(rt)?;
    low_bytes(rt)?;
    high_bytes(rt)?;
    kinds_of_bytes(rt)?;
    first_fields(rt)?;
    bad_fields(rt)?;
    bad_names(rt)?;
    ends_of_sheets(rt)?;
    many_steps(rt)?;
    long_names(rt)?;
    denials(rt)?;
    misplaced_denials(rt)
}
