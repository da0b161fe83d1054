// Bytes of a sheet: which may stand where, names, lines and fields.
#![tactic(auto)]

ghost use Rattle.std.specs.Prelude.{◌≡◌, ◌==◌, ◌+◌, ◌≤◌, ◌<◌, length, get_or, drop, position};
ghost use Rattle.std.specs.List.{list_all};
ghost use Rattle.std.proofs.Math.Seq.{slice};
ghost use Rattle.chars.specs.Bytes.{HASH, sheet_byte, begins, may_stand, clean, lower, name_byte, is_name};
ghost use Rattle.chars.specs.Places.{same};
ghost use Rattle.chars.specs.Inner.{index_of, LineEnd, BareEnd, FieldEnd};

// The most bytes that a name has.
const NAME_LEN: usize = 16;

// Whether a byte may stand in a sheet: TAB, LF or 33 to 126.
#[tactic(auto, unfolding(crate::specs::Bytes::sheet_byte))]
fn in_sheet(b: u8) -> bool
    ensures { result ≡ sheet_byte b }
{
    matches!(b, b'\t' | b'\n' | b'!'..=b'~')
}

// Whether a byte is a lowercase letter.
#[tactic(auto, unfolding(crate::specs::Bytes::lower))]
fn is_lower(b: u8) -> bool
    ensures { result ≡ lower b }
{
    matches!(b, b'a'..=b'z')
}

// Whether a byte may stand in a name after its first: a lowercase letter, a digit or `_`.
#[tactic(auto, unfolding(crate::specs::Bytes::lower, crate::specs::Bytes::name_byte))]
fn in_name(b: u8) -> bool
    ensures { result ≡ name_byte b }
{
    is_lower(b) || matches!(b, b'0'..=b'9' | b'_')
}

// Whether the bytes from `at` on begin with b.
fn begins(s: &[u8], at: usize, b: u8) -> bool
    ensures { result ≡ begins b (drop at s.now) }
{
    at < s.len() && s[at] == b
}

// Whether byte i may stand where it does, in a comment line or another.
#[tactic(auto, unfolding(crate::specs::Bytes::may_stand))]
fn may_stand(s: &[u8], i: usize, comment: bool) -> bool
    requires { i < length s.now }
    ensures { result ≡ may_stand comment (get_or s.now i 0) (drop (i + 1) s.now) }
{
    let b = s[i];
    in_sheet(b) || (comment && b == b' ') || (b == b'\r' && begins(s, i + 1, b'\n'))
}

// Whether all bytes may stand where they do.
pub fn is_clean(s: &[u8]) -> bool
    ensures { result ≡ clean s.now }
{
    let mut comment = begins(s, 0, b'#');
    for (i, b) in s.iter().enumerate() {
        if !may_stand(s, i, comment) {
            return false;
        }
        if *b == b'\n' {
            comment = begins(s, i + 1, b'#');
        }
    }
    true
}

// Whether all bytes may stand in a name after its first.
fn all_in_name(s: &[u8]) -> bool
    ensures { result ≡ list_all name_byte s.now }
{
    s.iter().all(|b| in_name(*b))
}

// Whether the bytes are a name.
pub fn is_name(s: &[u8]) -> bool
    ensures { result ≡ is_name s.now }
{
    match s {
        [first, rest @ ..] => is_lower(*first) && rest.len() < NAME_LEN && all_in_name(rest),
        [] => false,
    }
}

// The index of the first b, if there is one.
fn first(s: &[u8], b: u8) -> Option<usize>
    ensures { result ≡ position (λ x. x == b) s.now }
{
    s.iter().position(|x| *x == b)
}

// Where the first b from `from` up to, not including, `to` stands: `to` where there is none.
fn find(s: &[u8], from: usize, to: usize, b: u8) -> usize
    requires { (from ≤ to) × (to ≤ length s.now) }
    ensures { result ≡ from + index_of b (slice from to s.now) }
{
    match first(&s[from..to], b) {
        Some(k) => from + k,
        None => to,
    }
}

// Where the line from `at` ends: at its LF, or at the sheet's end.
pub fn line_end(s: &[u8], at: usize) -> usize
    requires { at < length s.now }
    ensures { LineEnd s.now at result }
{
    find(s, at, s.len(), b'\n')
}

// Whether the line from `at` up to `to` is a comment.
pub fn is_comment(s: &[u8], at: usize, to: usize) -> bool
    requires { (at ≤ to) × (to ≤ length s.now) }
    ensures { result ≡ begins HASH (slice at to s.now) }
{
    at < to && s[at] == b'#'
}

// Where the line from `at` up to `to` ends without the CR at its end.
pub fn bare_end(s: &[u8], at: usize, to: usize) -> usize
    requires { (at ≤ to) × (to ≤ length s.now) }
    ensures { BareEnd s.now at to result }
{
    if at < to && s[to - 1] == b'\r' {
        to - 1
    } else {
        to
    }
}

// Where the field from `at` ends, in a line that ends at `to`: at its tab, or at `to`.
pub fn field_end(s: &[u8], at: usize, to: usize) -> usize
    requires { (at ≤ to) × (to ≤ length s.now) }
    ensures { FieldEnd s.now at to result }
{
    find(s, at, to, b'\t')
}

// Whether two lists are the same bytes.
pub fn same_bytes<'a>(x: &'a [u8], y: &'a [u8]) -> bool
    ensures { result ≡ same x.now y.now }
{
    x == y
}

// Whether the part from a up to e is the word w.
pub fn is_word<'a>(s: &'a [u8], a: usize, e: usize, w: &'a [u8]) -> bool
    requires { (a ≤ e) × (e ≤ length s.now) }
    ensures { result ≡ same (slice a e s.now) w.now }
{
    same_bytes(&s[a..e], w)
}
