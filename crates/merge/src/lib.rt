// The merge of two sheets into one fixed text. What stands behind the words of the lines is kept as parts of the two sheets: for each word
// the second's, the first's, and those of the second that are new. Rules that are equal have equal lines, so no word is renumbered.
#![tactic(auto)]

ghost use Rattle.std.specs.Prelude.{◌≡◌, ◌++◌, ◌+◌, ◌*◌, ◌≤◌, length};
ghost use Rattle.refusals.specs.Number.{number_in};
ghost use Rattle.chars.specs.Bytes.{text};
ghost use Rattle.chars.specs.Pieces.{lines};
ghost use Rattle.parts.specs.Parts.{Inside, section};
ghost use Rattle.merge.specs.Merge.{merge_of, merged_in, merged_by, out_after};
ghost use Rattle.merge.specs.Inner.{Adds, Few, Laid, fault_of, of_both, Told, Answered};

use parts::{Layout, Word, texts};
use refusals::Refusal;
use sheet::Sheet;
use steps::state::State;

// What the merge says. Refusal 0 is none; a sheet's own fault has the sheet, 1 or 2, and its line; the length is that of the text written.
// Stays: C sees its fields and numbers (`lawhemuri_merge`).
#[repr(C)]
#[derive(Clone, Copy)]
pub struct Merged {
    pub refusal: u64,
    pub sheet: u64,
    pub line: u64,
    pub length: u64,
}

// Why two sheets are not merged: a sheet's own fault has the sheet, 1 or 2, and its line; else both are 0.
// Stays: the refusal is a number, as C's `Sheet` tells a sheet's own.
#[derive(Clone, Copy, Debug, PartialEq, Eq)]
pub struct Fault {
    pub refusal: u64,
    pub sheet: u64,
    pub line: u64,
}

impl From<Refusal> for Fault {
    ghost from_gives = { λ refusal fault. fault ≡ of_both refusal };

    fn from(refusal: Refusal) -> Fault {
        Fault {
            refusal: refusal.number(),
            sheet: 0,
            line: 0,
        }
    }
}

// What two sheets say together: the parts, the end of those of `start`, and how long the text is.
#[derive(Clone, Copy)]
pub struct Joined {
    pub layout: Layout,
    pub held: usize,
    pub size: usize,
}

// What a sheet, the first or the second, says beside its rule words, which are not kept.
fn told(s: &[u8], number: u64) -> Result<Sheet, Fault>
    ensures { Told number s.now result }
{
    let mut words = [0u16; 4608];
    let told = sheet::read(s, &mut words);
    if told.refusal != 0 {
        return Err(Fault {
            refusal: told.refusal,
            sheet: number,
            line: told.line,
        });
    }
    Ok(told)
}

// Puts the parts of a word into the list.
fn lay_word<'a>(
    first: &'a [u8],
    second: &'a [u8],
    word: &'a [u8],
    list: &mut [usize],
    n: usize,
) -> Word
    requires inside { Inside (length first.now) (first.now ++ second.now) list.old n }
    requires first_len_bound { (length first.now ≤ 65536) × (length second.now ≤ 65536) }
    requires second_in_bounds { 2 * (n + (length (section word.now (lines second.now))
        + (length (section word.now (lines first.now)) + length (section word.now (lines second.now))))) ≤ length list.old }
    ensures { Adds (length first.now) (first.now ++ second.now) list.old n list.new result
        (section word.now (lines first.now)) (section word.now (lines second.now)) }
{
    let own = parts::sections(second, first.len(), word, list, n);
    let new = parts::sections(first, 0, word, list, own);
    let end = parts::gather(first, second, list, n, own, own, new);
    Word {
        lo: n,
        own,
        new,
        end,
    }
}

// Puts the parts of all words into the list.
fn lay<'a>(first: &'a [u8], second: &'a [u8], list: &mut [usize]) -> Layout
    requires { Few first.now × Few second.now × (length list.old ≡ 2560) }
    ensures { Laid first.now second.now list.new result }
{
    let fluents = lay_word(first, second, b"fluent", list, 0);
    let actions = lay_word(first, second, b"action", list, fluents.end);
    let rules = lay_word(first, second, b"rule", list, actions.end);
    let end = parts::sections(first, 0, b"goal", list, rules.end);
    Layout {
        fluents,
        actions,
        rules,
        end,
    }
}

// 70 or 17, where it is met.
fn may_join<'a>(first: &'a [u8], second: &'a [u8], list: &[usize], l: Layout) -> Result<(), Refusal>
    requires { Laid first.now second.now list.now l }
    ensures { number_in result
        ≡ fault_of (section (text "fluent") (lines first.now)) (section (text "fluent") (lines second.now))
        (section (text "action") (lines first.now)) (section (text "action") (lines second.now))
        (section (text "rule") (lines first.now)) (section (text "rule") (lines second.now)) }
{
    let f = l.fluents;
    let a = l.actions;
    let r = l.rules;
    if parts::meet(first, second, list, f.own, f.new, a.lo, a.own) {
        return Err(Refusal::BothKinds);
    }
    if parts::meet(first, second, list, a.own, a.new, f.lo, f.own) {
        return Err(Refusal::BothKinds);
    }
    if 64 < f.end - f.own {
        return Err(Refusal::TooMany);
    }
    if 64 < a.end - a.own {
        return Err(Refusal::TooMany);
    }
    if 256 < r.end - r.own {
        return Err(Refusal::TooMany);
    }
    Ok(())
}

// What two sheets say together, its parts in the list, or the first refusal met.
pub fn join<'a>(first: &'a [u8], second: &'a [u8], list: &mut [usize]) -> Result<Joined, Fault>
    requires { length list.old ≡ 2560 }
    ensures { Answered first.now second.now list.new result }
{
    let a = told(first, 1)?;
    let b = told(second, 2)?;
    let layout = lay(first, second, list);
    may_join(first, second, list, layout)?;
    let f = layout.fluents;
    let state = texts::starts(
        first,
        second,
        list,
        f.lo,
        f.own,
        f.own,
        f.end,
        State::of(b.start),
        State::of(a.start),
    );
    let held = texts::held(list, f.own, f.end, state, layout.end);
    let size = texts::text_size(first, second, list, layout, held);
    if 65536 < size {
        return Err(Fault::from(Refusal::TooLong));
    }
    Ok(Joined { layout, held, size })
}

// Writes the one fixed text of two accepted sheets to `out`, which is unchanged past it and by a refusal.
pub fn merge<'a>(first: &'a [u8], second: &'a [u8], out: &mut [u8]) -> Merged
    ensures value { result ≡ merged_in (length out.old) (merge_of first.now second.now) }
    ensures out_after { out.new ≡ out_after out.old (merge_of first.now second.now) }
{
    match write_both(first, second, out) {
        Ok(size) => Merged {
            refusal: 0,
            sheet: 0,
            line: 0,
            length: size as u64,
        },
        Err(fault) => Merged {
            refusal: fault.refusal,
            sheet: fault.sheet,
            line: fault.line,
            length: 0,
        },
    }
}

// The same; how long the text is.
fn write_both<'a>(first: &'a [u8], second: &'a [u8], out: &mut [u8]) -> Result<usize, Fault>
    ensures value { merged_by result ≡ merged_in (length out.old) (merge_of first.now second.now) }
    ensures out_after { out.new ≡ out_after out.old (merge_of first.now second.now) }
{
    let mut list = [0usize; 2560];
    let j = join(first, second, &mut list)?;
    if out.len() < j.size {
        return Err(Fault::from(Refusal::TextShort));
    }
    texts::put_text(first, second, &list, j.layout, j.held, out);
    Ok(j.size)
}
