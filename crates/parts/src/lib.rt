// Parts of two sheets in a list: part i begins at word 2i and ends at word 2i + 1, counted as if the second sheet stood behind the first.
#![tactic(auto)]

pub mod texts;

ghost use Rattle.std.specs.Prelude.{◌≡◌, List, [], ◌∷◌, ◌++◌, ℕ, ◌+◌, ◌*◌, ◌-◌, ◌≤◌, ◌<◌, length};
ghost use Rattle.std.proofs.Math.Seq.{slice};
ghost use Rattle.chars.specs.Pieces.{lines};
ghost use Rattle.chars.specs.Places.{same, place, meets};
ghost use Rattle.parts.specs.Parts.{Lies, At, Inside, Found, Grows, part_at, parts_from, behind_word, section, fresh, news};

// The parts of one word: the second's from `lo` on, the first's from `own` on, the new ones of the second from `new` up to `end`.
#[derive(Clone, Copy)]
pub struct Word {
    pub lo: usize,
    pub own: usize,
    pub new: usize,
    pub end: usize,
}

// The parts of all words, and the end of the goal's, which stands behind those of the rules.
#[derive(Clone, Copy)]
pub struct Layout {
    pub fluents: Word,
    pub actions: Word,
    pub rules: Word,
    pub end: usize,
}

// The part from a up to e.
pub fn part<'a>(first: &'a [u8], second: &'a [u8], a: usize, e: usize) -> &'a [u8]
    requires { Lies (length first.now) (length (first.now ++ second.now)) a e }
    ensures { result.now ≡ slice a e (first.now ++ second.now) }
{
    let n = first.len();
    if e <= n {
        return &first[a..e];
    }
    &second[a - n..e - n]
}

// Part i.
pub fn part_at<'a>(first: &'a [u8], second: &'a [u8], list: &[usize], i: usize) -> &'a [u8]
    requires { At (length first.now) (first.now ++ second.now) list.now i }
    ensures { result.now ≡ part_at (first.now ++ second.now) list.now i }
{
    part(first, second, list[2 * i], list[2 * i + 1])
}

// The place of part i among the parts from lo up to hi, where it is one of them.
pub fn find<'a>(
    first: &'a [u8],
    second: &'a [u8],
    list: &[usize],
    i: usize,
    lo: usize,
    hi: usize,
) -> Option<usize>
    requires at { At (length first.now) (first.now ++ second.now) list.now i }
    requires inside { Inside (length first.now) (first.now ++ second.now) list.now hi }
    requires lo_le_hi { lo ≤ hi }
    ensures { Found (part_at (first.now ++ second.now) list.now i)
        (parts_from (first.now ++ second.now) list.now lo (hi - lo)) lo result }
{
    let x = part_at(first, second, list, i);
    for k in lo..hi {
        let y = part_at(first, second, list, k);
        if chars::same_bytes(x, y) {
            return Some(k);
        }
    }
    None
}

// Whether some part from lo up to hi is one of those from `from` up to `to`.
pub fn meet<'a>(
    first: &'a [u8],
    second: &'a [u8],
    list: &[usize],
    lo: usize,
    hi: usize,
    from: usize,
    to: usize,
) -> bool
    requires inside { Inside (length first.now) (first.now ++ second.now) list.now hi }
    requires inside_2 { Inside (length first.now) (first.now ++ second.now) list.now to }
    requires lo_le_hi { (lo ≤ hi) × (from ≤ to) }
    ensures { result ≡ meets (parts_from (first.now ++ second.now) list.now lo (hi - lo))
        (parts_from (first.now ++ second.now) list.now from (to - from)) }
{
    for i in lo..hi {
        if find(first, second, list, i, from, to).is_some() {
            return true;
        }
    }
    false
}

// Puts a part behind the n parts; how many there are then.
pub fn push(list: &mut [usize], n: usize, a: usize, e: usize) -> usize
    requires { 2 * (n + 1) ≤ length list.old }
    ensures by_index { (cut : ℕ) (u : List ℕ) → Lies cut (length u) a e
        → Grows cut u list.old n list.new result (slice a e u ∷ []) }
    ensures value { result ≡ n + 1 }
{
    list[2 * n] = a;
    list[2 * n + 1] = e;
    n + 1
}

// Puts what stands behind the word in the line from a up to e behind the n parts, where the line has this word.
fn section_line<'a>(
    s: &'a [u8],
    base: usize,
    word: &'a [u8],
    a: usize,
    e: usize,
    list: &mut [usize],
    n: usize,
) -> usize
    requires a_le_e { (a ≤ e) × (e ≤ length s.now) × (base ≤ 65536) × (length s.now ≤ 65536) }
    requires s_in_bounds { 2 * (n + length (behind_word word.now (slice a e s.now))) ≤ length list.old }
    ensures by_index { (cut : ℕ) (b z : List ℕ) → length b ≡ base → (cut < base + length s.now → cut ≤ base)
        → Grows cut (b ++ (s.now ++ z)) list.old n list.new result
        (behind_word word.now (slice a e s.now)) }
    ensures value { result ≡ n + length (behind_word word.now (slice a e s.now)) }
{
    let end = chars::bare_end(s, a, e);
    let q = chars::field_end(s, a, end);
    if chars::is_word(s, a, q, word) {
        return push(list, n, base + q, base + end);
    }
    n
}

// Puts what stands behind the word in each line that has it behind the n parts. `base` bytes stand before the sheet.
pub fn sections<'a>(
    s: &'a [u8],
    base: usize,
    word: &'a [u8],
    list: &mut [usize],
    at: usize,
) -> usize
    requires base_bound { (base ≤ 65536) × (length s.now ≤ 65536) }
    requires s_in_bounds { 2 * (at + length (section word.now (lines s.now))) ≤ length list.old }
    ensures { (cut : ℕ) (b z : List ℕ) → length b ≡ base → (cut < base + length s.now → cut ≤ base)
        → Grows cut (b ++ (s.now ++ z)) list.old at list.new result
        (section word.now (lines s.now)) }
{
    let mut n = at;
    let mut a = 0;
    while a < s.len() {
        let e = chars::line_end(s, a);
        n = section_line(s, base, word, a, e, list, n);
        a = e + 1;
    }
    n
}

// Puts part i behind the n parts.
pub fn copy(list: &mut [usize], i: usize, n: usize) -> usize
    requires { (i < n) × (2 * (n + 1) ≤ length list.old) }
    ensures by_index { (cut : ℕ) (u : List ℕ) → At cut u list.old i
        → Grows cut u list.old n list.new result (part_at u list.old i ∷ []) }
    ensures value { result ≡ n + 1 }
{
    let a = list[2 * i];
    let e = list[2 * i + 1];
    push(list, n, a, e)
}

// Puts part i behind the n parts, where it is none of those from `base` on.
fn add_new<'a>(
    first: &'a [u8],
    second: &'a [u8],
    list: &mut [usize],
    i: usize,
    base: usize,
    n: usize,
) -> usize
    requires inside { Inside (length first.now) (first.now ++ second.now) list.old n }
    requires i_lt_n { (i < n) × (base ≤ n) × (2 * (n + 1) ≤ length list.old) }
    ensures { Grows (length first.now) (first.now ++ second.now) list.old n list.new result
        (fresh (parts_from (first.now ++ second.now) list.old base (n - base))
        (part_at (first.now ++ second.now) list.old i)) }
{
    if find(first, second, list, i, base, n).is_some() {
        return n;
    }
    copy(list, i, n)
}

// Puts those of the parts from lo up to hi behind the parts from `base` on that are none of them yet.
pub fn gather<'a>(
    first: &'a [u8],
    second: &'a [u8],
    list: &mut [usize],
    lo: usize,
    hi: usize,
    base: usize,
    at: usize,
) -> usize
    requires inside { Inside (length first.now) (first.now ++ second.now) list.old at }
    requires lo_le_hi { (lo ≤ hi) × (hi ≤ at) × (base ≤ at) × (2 * (at + (hi - lo)) ≤ length list.old) }
    ensures { Grows (length first.now) (first.now ++ second.now) list.old at list.new result
        (news (parts_from (first.now ++ second.now) list.old base (at - base))
        (parts_from (first.now ++ second.now) list.old lo (hi - lo))) }
{
    let mut n = at;
    for i in lo..hi {
        n = add_new(first, second, list, i, base, n);
    }
    n
}
