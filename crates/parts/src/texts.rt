// The merged text out of its parts: both starts together, the names that hold, how long the text is, and the text itself.
ghost use Rattle.std.specs.Prelude.{◌≡◌, cond, List, [], ◌∷◌, ◌++◌, ℕ, ◌+◌, ◌*◌, ◌-◌, ◌≤◌, ◌<◌, length};
ghost use Rattle.steps.specs.State.{holds};
ghost use Rattle.steps.specs.Inner.{inserted};
ghost use Rattle.chars.specs.Places.{place};
ghost use Rattle.writer.specs.Text.{holding};
ghost use Rattle.writer.specs.Inner.{Puts};
ghost use Rattle.parts.specs.Parts.{At, Inside, Grows, part_at, parts_from, inserted_in, wrapped};
ghost use Rattle.parts.specs.Texts.{start_parts, text_in, Ordered};

use crate::{Layout, copy, find, part_at};
use steps::state::State;

// The state `to` of the parts from lo up to hi with part i in it, where fluent k holds in s.
fn start_one<'a>(
    first: &'a [u8],
    second: &'a [u8],
    list: &[usize],
    i: usize,
    lo: usize,
    hi: usize,
    k: u64,
    s: State,
    to: State,
) -> State
    requires at { At (length first.now) (first.now ++ second.now) list.now i }
    requires inside { Inside (length first.now) (first.now ++ second.now) list.now hi }
    requires lo_le_hi { lo ≤ hi }
    ensures { result.0 ≡ cond (holds s.0 k) (inserted to.0 (place (part_at (first.now ++ second.now) list.now i)
        (parts_from (first.now ++ second.now) list.now lo (hi - lo)))) to.0 }
{
    if s.holds(k) {
        let p = find(first, second, list, i, lo, hi).unwrap_or(hi);
        return to.insert((p - lo) as u64);
    }
    to
}

// The state `to` of the parts from lo up to hi, and in it those of the parts from `from` up to `end` that hold in s.
pub fn starts<'a>(
    first: &'a [u8],
    second: &'a [u8],
    list: &[usize],
    from: usize,
    end: usize,
    lo: usize,
    hi: usize,
    s: State,
    to: State,
) -> State
    requires inside { Inside (length first.now) (first.now ++ second.now) list.now end }
    requires inside_2 { Inside (length first.now) (first.now ++ second.now) list.now hi }
    requires lo_le_hi { (lo ≤ hi) × (from ≤ end) }
    ensures { result.0 ≡ inserted_in (parts_from (first.now ++ second.now) list.now lo (hi - lo)) 0 s.0
        (parts_from (first.now ++ second.now) list.now from (end - from)) to.0 }
{
    let mut state = to;
    for i in from..end {
        state = start_one(first, second, list, i, lo, hi, (i - from) as u64, s, state);
    }
    state
}

// Puts part i behind the n parts, where fluent k holds.
fn held_one(list: &mut [usize], i: usize, k: u64, state: State, n: usize) -> usize
    requires { (i < n) × (2 * (n + 1) ≤ length list.old) }
    ensures by_index { (cut : ℕ) (u : List ℕ) → At cut u list.old i
        → Grows cut u list.old n list.new result (holding k state.0 (part_at u list.old i ∷ [])) }
    ensures lower_bound { (n ≤ result) × (result ≤ n + 1) }
{
    if state.holds(k) {
        return copy(list, i, n);
    }
    n
}

// Puts those of the parts from lo up to hi that hold behind the n parts.
pub fn held(list: &mut [usize], lo: usize, hi: usize, state: State, at: usize) -> usize
    requires { (lo ≤ hi) × (hi ≤ at) × (2 * (at + (hi - lo)) ≤ length list.old) }
    ensures { (cut : ℕ) (u : List ℕ) → Inside cut u list.old at
        → Grows cut u list.old at list.new result (holding 0 state.0 (parts_from u list.old lo (hi - lo))) }
{
    let mut n = at;
    for i in lo..hi {
        n = held_one(list, i, (i - lo) as u64, state, n);
    }
    n
}

// How many bytes the parts from lo up to hi have, with `around` more for each.
pub fn size<'a>(
    first: &'a [u8],
    second: &'a [u8],
    list: &[usize],
    lo: usize,
    hi: usize,
    around: usize,
) -> usize
    requires inside { Inside (length first.now) (first.now ++ second.now) list.now hi }
    requires lo_le_hi { (lo ≤ hi) × (hi ≤ 1280) × (around ≤ 8) × (length (first.now ++ second.now) ≤ 131072) }
    ensures by_index { (w z : List ℕ) → length w + length z ≡ around
        → result ≡ length (wrapped w z (parts_from (first.now ++ second.now) list.now lo (hi - lo))) }
    ensures upper_bound { result ≤ 131080 * (hi - lo) }
{
    let mut n = 0;
    for i in lo..hi {
        let p = part_at(first, second, list, i);
        n += around + p.len();
    }
    n
}

// Puts part i between two words; the place after it.
fn put_one<'a>(
    first: &'a [u8],
    second: &'a [u8],
    list: &[usize],
    i: usize,
    word: &'a [u8],
    end: &'a [u8],
    out: &mut [u8],
    at: usize,
) -> usize
    requires at { At (length first.now) (first.now ++ second.now) list.now i }
    requires end_in_bounds { at + length ((word.now ++ part_at (first.now ++ second.now) list.now i) ++ end.now) ≤ length out.old }
    ensures { Puts out.old at
        ((word.now ++ part_at (first.now ++ second.now) list.now i) ++ end.now) out.new result }
{
    let p = part_at(first, second, list, i);
    let a = writer::put(out, at, word);
    let b = writer::put(out, a, p);
    writer::put(out, b, end)
}

// Puts the parts from lo up to hi, each between two words; the place after them.
pub fn put_all<'a>(
    first: &'a [u8],
    second: &'a [u8],
    list: &[usize],
    lo: usize,
    hi: usize,
    word: &'a [u8],
    end: &'a [u8],
    out: &mut [u8],
    at: usize,
) -> usize
    requires inside { Inside (length first.now) (first.now ++ second.now) list.now hi }
    requires lo_le_hi { lo ≤ hi }
    requires lo_in_bounds { at + length (wrapped word.now end.now (parts_from (first.now ++ second.now) list.now lo (hi - lo))) ≤ length out.old }
    ensures { Puts out.old at (wrapped word.now end.now
        (parts_from (first.now ++ second.now) list.now lo (hi - lo))) out.new result }
{
    let mut p = at;
    for i in lo..hi {
        p = put_one(first, second, list, i, word, end, out, p);
    }
    p
}

// How long the text is.
pub fn text_size<'a>(
    first: &'a [u8],
    second: &'a [u8],
    list: &[usize],
    l: Layout,
    held: usize,
) -> usize
    requires inside { Inside (length first.now) (first.now ++ second.now) list.now held }
    requires ordered { Ordered l held × (length (first.now ++ second.now) ≤ 131072) }
    ensures { result ≡ length (text_in (first.now ++ second.now) list.now l held) }
{
    let f = l.fluents;
    let a = l.actions;
    let r = l.rules;
    let fluents = size(first, second, list, f.own, f.end, 7);
    let actions = size(first, second, list, a.own, a.end, 7);
    let rules = size(first, second, list, r.own, r.end, 5);
    let start = size(first, second, list, l.end, held, 0);
    let goal = size(first, second, list, r.end, l.end, 5);
    fluents + (actions + (rules + ((6 + start) + goal)))
}

// Puts the `start` line with the parts from lo up to hi; the place after it.
fn put_start<'a>(
    first: &'a [u8],
    second: &'a [u8],
    list: &[usize],
    lo: usize,
    hi: usize,
    out: &mut [u8],
    at: usize,
) -> usize
    requires inside { Inside (length first.now) (first.now ++ second.now) list.now hi }
    requires lo_le_hi { lo ≤ hi }
    requires lo_in_bounds { at + length (start_parts (parts_from (first.now ++ second.now) list.now lo (hi - lo))) ≤ length out.old }
    ensures { Puts out.old at
        (start_parts (parts_from (first.now ++ second.now) list.now lo (hi - lo))) out.new result }
{
    let word = writer::put(out, at, b"start");
    let names = put_all(first, second, list, lo, hi, b"", b"", out, word);
    writer::put(out, names, b"\n")
}

// Puts the text.
pub fn put_text<'a>(
    first: &'a [u8],
    second: &'a [u8],
    list: &[usize],
    l: Layout,
    held: usize,
    out: &mut [u8],
) -> usize
    requires inside { Inside (length first.now) (first.now ++ second.now) list.now held }
    requires ordered { Ordered l held × (length (text_in (first.now ++ second.now) list.now l held) ≤ length out.old) }
    ensures { Puts out.old 0
        (text_in (first.now ++ second.now) list.now l held) out.new result }
{
    let f = l.fluents;
    let a = l.actions;
    let r = l.rules;
    let fluents = put_all(first, second, list, f.own, f.end, b"fluent", b"\n", out, 0);
    let actions = put_all(
        first, second, list, a.own, a.end, b"action", b"\n", out, fluents,
    );
    let rules = put_all(
        first, second, list, r.own, r.end, b"rule", b"\n", out, actions,
    );
    let start = put_start(first, second, list, l.end, held, out, rules);
    put_all(
        first, second, list, r.end, l.end, b"goal", b"\n", out, start,
    )
}
