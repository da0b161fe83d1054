// Parts of a sheet, and the part that the name of a `fluent` line is.
#![tactic(auto)]

ghost use Rattle.std.specs.Prelude.{◌≡◌, ◌≤◌, ◌<◌, length};
ghost use Rattle.chars.specs.Pieces.{lines};
ghost use Rattle.naming.specs.Spans.{name_in, field_span};

// A part of a sheet: where it begins, and how long it is.
// Stays: C sees its fields (`lawhemuri_fluent_name`).
#[repr(C)]
#[derive(Clone, Copy)]
pub struct Span {
    pub at: usize,
    pub len: usize,
}

// The field after the word that ends at q, in the line that ends at e.
fn field_span(s: &[u8], q: usize, e: usize) -> Span
    requires q_le_e { (q ≤ e) × (e ≤ length s.now) }
    requires e_bound { e < 18446744073709551615 }
    ensures { result ≡ field_span s.now q e }
{
    if q == e {
        return Span { at: q + 1, len: 0 };
    }
    let end = chars::field_end(s, q + 1, e);
    Span {
        at: q + 1,
        len: end - (q + 1),
    }
}

// The name on `fluent` line k, counted from 0: that of fluent k in an accepted sheet. The rest of the sheet is not looked at.
pub fn name_in(s: &[u8], k: u64) -> Span
    ensures { result ≡ name_in 0 k (lines s.now) }
{
    let mut at = 0;
    let mut left = k;
    while at < s.len() {
        let e = chars::line_end(s, at);
        let end = chars::bare_end(s, at, e);
        let q = chars::field_end(s, at, end);
        if chars::is_word(s, at, q, b"fluent") {
            if left == 0 {
                return field_span(s, q, end);
            }
            left -= 1;
        }
        at = e + 1;
    }
    Span { at: 0, len: 0 }
}
