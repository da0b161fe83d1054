// Where the name of a merged fluent stands: a part of whichever sheet brought it first.
#![tactic(auto)]

ghost use Rattle.std.specs.Prelude.{◌≡◌};
ghost use Rattle.origin.specs.MergedName.{part_in, merged_span, part_of_two, address_of_two};

// A part of one of two sheets: which, 1 or 2, where it begins, and how long it is. Sheet 0 is none.
// Stays: C sees its fields, and 0 for none (`lawhemuri_merged_fluent`).
#[repr(C)]
#[derive(Clone, Copy)]
pub struct Part {
    pub sheet: u64,
    pub at: usize,
    pub len: usize,
}

// No part.
const NONE: Part = Part {
    sheet: 0,
    at: 0,
    len: 0,
};

// A part of the sheet `which`.
fn part_in(which: u64, span: naming::Span) -> Part
    ensures { result ≡ part_in which span }
{
    Part {
        sheet: which,
        at: span.at,
        len: span.len,
    }
}

// Where the merged fluent's name stands, in whichever sheet brought it first; nothing for a merge refused other than
// with 50 or a number too high.
pub fn merged_span<'a>(first: &'a [u8], second: &'a [u8], number: u64) -> Part
    ensures { result ≡ merged_span first.now second.now number }
{
    let mut list = [0usize; 2560];
    let Ok(joined) = merge::join(first, second, &mut list) else {
        return NONE;
    };
    let f = joined.layout.fluents;
    if (f.end - f.own) as u64 <= number {
        return NONE;
    }
    let i = f.own + number as usize;
    if i < f.new {
        return part_in(1, sheet::fluent_span(first, number));
    }
    let k = parts::find(first, second, &list, i, f.lo, f.own).unwrap_or(f.own);
    part_in(2, sheet::fluent_span(second, (k - f.lo) as u64))
}

// The second of two sheets, by its number.
const SECOND: u64 = 2;

// The very part of the sheet that brought the merged fluent's name first; else the empty part at the first sheet's first byte.
pub fn merged_fluent<'a>(first: &'a [u8], second: &'a [u8], number: u64) -> &'a [u8]
    ensures result_value { result.now ≡ part_of_two first.now second.now
        (merged_span first.now second.now number) }
    ensures ref_ptr_value { result.ref_ptr ≡ address_of_two first.entry.ref_ptr second.entry.ref_ptr
        (merged_span first.now second.now number) }
{
    let name = merged_span(first, second, number);
    let at = name.at;
    let end = at + name.len;
    if name.sheet == SECOND {
        return &second[at..end];
    }
    &first[at..end]
}
