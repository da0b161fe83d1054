// The sheet reader: an author's text into rule words, counts, start and goal, or one numbered refusal and its line.
#![tactic(auto)]

ghost use Rattle.std.specs.Prelude.{◌≡◌, length};
ghost use Rattle.refusals.specs.Number.{number_of};
ghost use Rattle.fields.specs.Held.{answer};
ghost use Rattle.lines.specs.Reader.{whole_sheet, read_sheet};
ghost use Rattle.naming.specs.Spans.{part_of, address_of};
ghost use Rattle.sheet.specs.Result.{refusal, result_of, rules_after};
ghost use Rattle.sheet.specs.FluentName.{name_span};
ghost use Rattle.sheet.specs.Inner.{outcome_of};

use lines::parse::Parse;
use lines::{Fault, Stage};
use naming::Span;
use refusals::Refusal;
use steps::word::RULE_WORDS;

// What a sheet says beside its rule words. Refusal 0 is none.
// Stays: C sees its fields and numbers (`lawhemuri_read`).
#[repr(C)]
#[derive(Clone, Copy)]
pub struct Sheet {
    pub refusal: u64,
    pub line: u64,
    pub fluents: u64,
    pub actions: u64,
    pub rules: u64,
    pub start: u64,
    pub goal_len: u64,
    pub goal: [u16; 16],
}

// The sheet as a whole, before its lines are read.
fn check_whole(s: &[u8]) -> Result<(), Refusal>
    ensures { answer (λ _. tt) result ≡ whole_sheet s.now }
{
    if s.len() > 65536 {
        return Err(Refusal::TooLong);
    }
    if !chars::is_clean(s) {
        return Err(Refusal::BadByte);
    }
    if !s.is_empty() && s[s.len() - 1] != b'\n' {
        return Err(Refusal::NotEnded);
    }
    Ok(())
}

// What the sheet says, with its rule words in `words`.
fn scan_sheet<'a>(s: &'a [u8], words: &mut [u16]) -> Result<Parse<'a>, Fault>
    requires { length words.old ≡ 4608 }
    ensures { outcome_of words.new result ≡ read_sheet s.now }
{
    check_whole(s)?;
    let said = lines::read_lines(s, words)?;
    if said.started && matches!(said.stage, Stage::End) {
        return Ok(said);
    }
    Err(Fault::from(Refusal::Incomplete))
}

// A refused sheet.
fn refused(fault: Fault) -> Sheet
    ensures { result ≡ refusal (number_of fault.refusal) fault.line }
{
    Sheet {
        refusal: fault.refusal.number(),
        line: fault.line,
        fluents: 0,
        actions: 0,
        rules: 0,
        start: 0,
        goal_len: 0,
        goal: [0; 16],
    }
}

// Reads a sheet: the rule words of an accepted one go to `rules`, which is unchanged past them and by a refusal.
pub fn read(sheet: &[u8], rules: &mut [u16]) -> Sheet
    ensures value { result ≡ result_of (length rules.old) (read_sheet sheet.now) }
    ensures rules_after { rules.new ≡ rules_after rules.old (read_sheet sheet.now) }
{
    let mut words = [0u16; 4608];
    let said = match scan_sheet(sheet, &mut words) {
        Ok(said) => said,
        Err(fault) => return refused(fault),
    };
    let used = RULE_WORDS * said.rules;
    if rules.len() < used {
        return refused(Fault::from(Refusal::NoRoom));
    }
    rules[..used].copy_from_slice(&words[..used]);
    Sheet {
        refusal: 0,
        line: 0,
        fluents: said.names.fluents.len as u64,
        actions: said.names.actions.len as u64,
        rules: said.rules as u64,
        start: said.start.0,
        goal_len: said.goal.len as u64,
        goal: said.goal.words,
    }
}

// Where the fluent's name stands in the sheet; nothing at 0 for a refused sheet or a number too high.
pub fn fluent_span(sheet: &[u8], number: u64) -> Span
    ensures { result ≡ name_span sheet.now number }
{
    let mut words = [0u16; 4608];
    let Ok(said) = scan_sheet(sheet, &mut words) else {
        return Span { at: 0, len: 0 };
    };
    if number < said.names.fluents.len as u64 {
        naming::name_in(sheet, number)
    } else {
        Span { at: 0, len: 0 }
    }
}

// The very part of the lent sheet that defines the fluent; for a refused sheet or a number too high, the empty part at the sheet's first byte.
pub fn fluent_name<'a>(sheet: &'a [u8], number: u64) -> &'a [u8]
    ensures result_value { result.now ≡ part_of sheet.now (name_span sheet.now number) }
    ensures ref_ptr_value { result.ref_ptr ≡ address_of sheet.entry.ref_ptr (name_span sheet.now number) }
{
    let name = fluent_span(sheet, number);
    &sheet[name.at..name.at + name.len]
}
