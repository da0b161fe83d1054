// How programs that run drills tell what is given and left: numbers with how often each stands in a row, and bytes as text; and how they write
// rules (module `books`).
#![tactic(auto)]

ghost use Rattle.std.specs.Prelude.{◌<◌, ◌≤◌, length};

pub mod books;

use std::fmt;
use std::fmt::Display;

// Each number after a space.
#[derive(Clone, Copy)]
pub struct Each<'a, T>(pub &'a [T]);

impl<'a, T: Display> Display for Each<'a, T> {
    fn fmt<W: fmt::Write>(&self, f: &mut fmt::Formatter<W>) -> fmt::Result {
        for x in self.0 {
            write!(f, " {x}")?;
        }
        Ok(())
    }
}

// Each number after a space, equal neighbours told once with how often the number stands: ` 7x3 0`.
#[derive(Clone, Copy)]
pub struct Runs<'a, T>(pub &'a [T]);

// How many elements at the head are equal to the first.
fn run_of<T: PartialEq>(s: &[T]) -> usize
    requires { 0 < length s.now }
    ensures { (0 < result) × (result ≤ length s.now) }
{
    for (i, x) in s.iter().enumerate().skip(1) {
        if *x != s[0] {
            return i;
        }
    }
    s.len()
}

impl<'a, T: Display + PartialEq> Display for Runs<'a, T> {
    fn fmt<W: fmt::Write>(&self, f: &mut fmt::Formatter<W>) -> fmt::Result {
        let mut rest = self.0;
        while !rest.is_empty() {
            let count = run_of(rest);
            write!(f, " {}", rest[0])?;
            if 1 < count {
                write!(f, "x{count}")?;
            }
            rest = &rest[count..];
        }
        Ok(())
    }
}

// Bytes: text as it stands, tab, CR and LF as in a program, behind a space where it comes first; any other byte as a number, as in `Runs`.
#[derive(Clone, Copy)]
pub struct Bytes<'a>(pub &'a [u8]);

// Whether a byte is told as text.
fn is_text(b: u8) -> bool {
    matches!(b, b'\t' | b'\n' | b'\r' | b' '..=b'~')
}

// A byte of text.
fn letter<W: fmt::Write>(f: &mut fmt::Formatter<W>, b: u8) -> fmt::Result {
    match b {
        b'\t' => f.write_str("\\t"),
        b'\n' => f.write_str("\\n"),
        b'\r' => f.write_str("\\r"),
        _ => f.write_char(char::from(b)),
    }
}

impl<'a> Display for Bytes<'a> {
    fn fmt<W: fmt::Write>(&self, f: &mut fmt::Formatter<W>) -> fmt::Result {
        if self.0.first().is_some_and(|b| is_text(*b)) {
            f.write_str(" ")?;
        }
        let mut rest = self.0;
        while !rest.is_empty() {
            if is_text(rest[0]) {
                letter(f, rest[0])?;
                rest = &rest[1..];
            } else {
                let count = run_of(rest);
                write!(f, "{}", Runs(&rest[..count]))?;
                rest = &rest[count..];
            }
        }
        Ok(())
    }
}
