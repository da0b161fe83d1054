// The writer: an accepted sheet as its one fixed text. The text is the sheet's own record lines, with LF alone at their ends and the
// names of `start` in fluent order, so lines are copied and none is rebuilt from words.
#![tactic(auto)]

ghost use Rattle.std.specs.Prelude.{◌≡◌, ◌+◌, ◌≤◌, length};
ghost use Rattle.std.proofs.Math.Seq.{slice};
ghost use Rattle.chars.specs.Pieces.{lines};
ghost use Rattle.lines.specs.Reader.{read_sheet};
ghost use Rattle.writer.specs.Writer.{told, written_in, out_after};
ghost use Rattle.writer.specs.Inner.{Puts, plain_piece, plain_bytes, held_piece, held_next, held_bytes, start_bytes, line_piece, line_bytes};

use refusals::Refusal;
use steps::state::State;

// What the writer gives: the refusal, 0 for none, with its line; the length of the text, 0 if refused.
// Stays: C sees its fields and numbers (`lawhemuri_write`).
#[repr(C)]
#[derive(Clone, Copy)]
pub struct Written {
    pub refusal: u64,
    pub line: u64,
    pub length: u64,
}

// Puts a piece at a place; the place after it.
pub fn put(out: &mut [u8], at: usize, piece: &[u8]) -> usize
    requires { at + length piece.now ≤ length out.old }
    ensures { Puts out.old at piece.now out.new result }
{
    // Stays: with `copy_from_slice` the archive for C asks the C library for `memmove`.
    for k in 0..piece.len() {
        out[at + k] = piece[k];
    }
    at + piece.len()
}

// Where the text goes on, and the number of the next fluent.
#[derive(Clone, Copy)]
struct Place {
    at: usize,
    fluent: u64,
}

// Puts the tab and the name of the line from a up to e, if it is the line of fluent k and k holds.
fn put_held(out: &mut [u8], at: usize, s: &[u8], a: usize, e: usize, k: u64, start: State) -> Place
    requires a_le_e { (a ≤ e) × (e ≤ length s.now) × (k ≤ a) }
    requires s_in_bounds { at + length (held_piece k start.0 (slice a e s.now)) ≤ length out.old }
    ensures puts { Puts out.old at (held_piece k start.0 (slice a e s.now)) out.new result.at }
    ensures fluent_value { (result.fluent ≡ held_next k (slice a e s.now)) × (result.fluent ≤ k + 1) }
{
    let end = chars::bare_end(s, a, e);
    let q = chars::field_end(s, a, end);
    if !chars::is_word(s, a, q, b"fluent") {
        return Place { at, fluent: k };
    }
    if !start.holds(k) {
        return Place { at, fluent: k + 1 };
    }
    let r = put(out, at, &s[q..end]);
    Place {
        at: r,
        fluent: k + 1,
    }
}

// Puts the tabs and names of the fluents that hold, in fluent order; the place after them.
fn put_names(out: &mut [u8], at: usize, s: &[u8], start: State) -> usize
    requires { at + length (held_bytes 0 start.0 (lines s.now)) ≤ length out.old }
    ensures { Puts out.old at (held_bytes 0 start.0 (lines s.now)) out.new result }
{
    let mut p = at;
    let mut k = 0u64;
    let mut a = 0;
    while a < s.len() {
        let e = chars::line_end(s, a);
        let next = put_held(out, p, s, a, e, k, start);
        p = next.at;
        k = next.fluent;
        a = e + 1;
    }
    p
}

// Puts the `start` line; the place after it.
fn put_start(out: &mut [u8], at: usize, s: &[u8], start: State) -> usize
    requires { at + length (start_bytes start.0 (lines s.now)) ≤ length out.old }
    ensures { Puts out.old at (start_bytes start.0 (lines s.now)) out.new result }
{
    let names = put(out, at, b"start");
    let end = put_names(out, names, s, start);
    put(out, end, b"\n")
}

// Puts what the line from a up to e gives to the text; the place after it.
fn put_line(out: &mut [u8], at: usize, s: &[u8], a: usize, e: usize, start: State) -> usize
    requires a_le_e { (a ≤ e) × (e ≤ length s.now) }
    requires s_in_bounds { at + length (line_piece start.0 (lines s.now) (slice a e s.now)) ≤ length out.old }
    ensures { Puts out.old at
        (line_piece start.0 (lines s.now) (slice a e s.now)) out.new result }
{
    if chars::is_comment(s, a, e) {
        return at;
    }
    let end = chars::bare_end(s, a, e);
    let q = chars::field_end(s, a, end);
    if chars::is_word(s, a, q, b"start") {
        return put_start(out, at, s, start);
    }
    let r = put(out, at, &s[a..end]);
    put(out, r, b"\n")
}

// Puts what all lines give from the front of the output on; the place after it.
fn put_lines(out: &mut [u8], s: &[u8], start: State) -> usize
    requires { length (line_bytes start.0 (lines s.now) (lines s.now)) ≤ length out.old }
    ensures { Puts out.old 0
        (line_bytes start.0 (lines s.now) (lines s.now)) out.new result }
{
    let mut p = 0;
    let mut a = 0;
    while a < s.len() {
        let e = chars::line_end(s, a);
        p = put_line(out, p, s, a, e, start);
        a = e + 1;
    }
    p
}

// How many bytes the line from a up to e gives. That `start` is written with its names in another order changes no size.
fn line_size(s: &[u8], a: usize, e: usize) -> usize
    requires { (a ≤ e) × (e ≤ length s.now) }
    ensures value { result ≡ length (plain_piece (slice a e s.now)) }
    ensures result_bound { a + result ≤ e + 1 }
{
    if chars::is_comment(s, a, e) {
        return 0;
    }
    chars::bare_end(s, a, e) - a + 1
}

// How many bytes the text has.
fn text_size(s: &[u8]) -> usize
    ensures { result ≡ length (plain_bytes (lines s.now)) }
{
    let mut n = 0;
    let mut a = 0;
    while a < s.len() {
        let e = chars::line_end(s, a);
        n += line_size(s, a, e);
        a = e + 1;
    }
    n
}

// Why no text is written, and on which line: a sheet's own fault as `sheet::read` tells it, or line 0.
// Stays: the refusal is a number, as C's `Sheet` tells a sheet's own.
#[derive(Clone, Copy, Debug, PartialEq, Eq)]
pub struct Fault {
    pub refusal: u64,
    pub line: u64,
}

// Writes an accepted sheet's one fixed text to `out`, which is unchanged past it and by a refusal.
pub fn write(text: &[u8], out: &mut [u8]) -> Written
    ensures value { result ≡ written_in (length out.old) (read_sheet text.now) }
    ensures out_after { out.new ≡ out_after out.old (read_sheet text.now) }
{
    match write_text(text, out) {
        Ok(n) => Written {
            refusal: 0,
            line: 0,
            length: n as u64,
        },
        Err(fault) => Written {
            refusal: fault.refusal,
            line: fault.line,
            length: 0,
        },
    }
}

// The same; how long the text is.
fn write_text(text: &[u8], out: &mut [u8]) -> Result<usize, Fault>
    ensures value { told result ≡ written_in (length out.old) (read_sheet text.now) }
    ensures out_after { out.new ≡ out_after out.old (read_sheet text.now) }
{
    let mut words = [0u16; 4608];
    let got = sheet::read(text, &mut words);
    if got.refusal != 0 {
        return Err(Fault {
            refusal: got.refusal,
            line: got.line,
        });
    }
    let n = text_size(text);
    if out.len() < n {
        return Err(Fault {
            refusal: Refusal::TextShort.number(),
            line: 0,
        });
    }
    put_lines(out, text, State::of(got.start));
    Ok(n)
}
