// The lines of a sheet, each read by its record word.
#![tactic(auto)]

pub mod parse;

ghost use Rattle.std.specs.Prelude.{◌≡◌, List, [], ◌++◌, ◌∷◌, ℕ, ◌+◌, ◌≤◌, ◌<◌, length, take, drop};
ghost use Rattle.std.proofs.Math.Seq.{slice};
ghost use Rattle.chars.specs.Pieces.{lines};
ghost use Rattle.chars.specs.Inner.{fields_from};
ghost use Rattle.steps.specs.Widths.{rule_width};
ghost use Rattle.fields.specs.Held.{answer};
ghost use Rattle.lines.specs.Line.{empty, word_of, row, overfull, miscounted, plain_line, line};
ghost use Rattle.lines.specs.Reader.{read_lines};
ghost use Rattle.lines.specs.Kept.{in_order, stage_row, line_head, recorded, book_in, reading_in, ending};

use fields::book::{Body, Names};
use parse::Parse;
use refusals::Refusal;
use steps::state::State;
use steps::word::RULE_WORDS;

// A line's first field: a record word, or another.
#[derive(Clone, Copy, Debug, PartialEq, Eq)]
pub enum Word {
    Fluent,
    Action,
    Rule,
    Start,
    Goal,
    Other,
}

// From where in the row of record words the next line may have its word.
#[derive(Clone, Copy, Debug, PartialEq, Eq)]
pub enum Stage {
    Fluents = 0,
    Actions = 1,
    Rules = 2,
    Start = 3,
    Goal = 4,
    End = 5,
}

// Why a sheet is refused, and the line that is; 0 for the sheet as a whole.
#[derive(Clone, Copy, Debug, PartialEq, Eq)]
pub struct Fault {
    pub refusal: Refusal,
    pub line: u64,
}

impl From<Refusal> for Fault {
    ghost from_gives = { λ refusal fault. fault ≡ record { refusal = refusal; line = 0 } };

    fn from(refusal: Refusal) -> Fault {
        Fault { refusal, line: 0 }
    }
}

impl Word {
    // The record word that a field is.
    fn of(field: &[u8]) -> Word
        ensures { result ≡ word_of field.now }
    {
        if chars::same_bytes(field, b"fluent") {
            Word::Fluent
        } else if chars::same_bytes(field, b"action") {
            Word::Action
        } else if chars::same_bytes(field, b"rule") {
            Word::Rule
        } else if chars::same_bytes(field, b"start") {
            Word::Start
        } else if chars::same_bytes(field, b"goal") {
            Word::Goal
        } else {
            Word::Other
        }
    }

    // Its place in the row of record words, or 5.
    fn row(self) -> u64
        ensures { result ≡ row self }
    {
        self as u64
    }

    // Whether it has other than exactly one name, as a fluent or action, or no head, as a rule, with n fields after it.
    fn miscounted(self, n: usize) -> bool
        ensures { result ≡ miscounted self n }
    {
        match self {
            Word::Fluent | Word::Action => n != 1,
            Word::Rule => n == 0,
            Word::Start | Word::Goal | Word::Other => false,
        }
    }
}

impl Stage {
    fn row(self) -> u64
        ensures { result ≡ stage_row self }
    {
        self as u64
    }

    // Whether a line with this word may come.
    fn allows(self, w: Word) -> bool
        ensures { result ≡ in_order (stage_row self) w }
    {
        !matches!(w, Word::Other) && self.row() <= w.row()
    }
}

// Writes a rule's 18 words from `at` on.
fn put_rule(words: &mut [u16], at: usize, head: u16, body: &Body)
    requires { at + rule_width ≤ length words.old }
    ensures { words.new ≡ take at words.old ++ ((head ∷ body.now.len ∷ body.now.words) ++ drop (at + rule_width) words.old) }
{
    words[at] = head;
    words[at + 1] = body.len as u16;
    // Stays: with `copy_from_slice` the words lent are filled with 0 at each call, which takes longer than to read a small sheet.
    for k in 0..RULE_WORDS - 2 {
        words[at + 2 + k] = body.words[k];
    }
}

impl<'a> Parse<'a> {
    // Nothing said yet.
    fn new() -> Parse<'a>
        ensures { (words : List ℕ) → reading_in words result ≡ empty }
    {
        Parse {
            stage: Stage::Fluents,
            started: false,
            rules: 0,
            start: State::NOTHING,
            goal: Body::new(),
            names: Names::new(),
        }
    }

    // Whether a word with n fields after it would be the 65th fluent or action, the 257th rule, or have more than 16 steps.
    fn overfull(&self, w: Word, n: usize) -> bool
        ensures { (words : List ℕ) → result ≡ overfull (book_in words self.now) w n }
    {
        match w {
            Word::Fluent => self.names.fluents.len >= 64,
            Word::Action => self.names.actions.len >= 64,
            Word::Rule => self.rules >= 256 || n > 17,
            Word::Goal => n > 16,
            Word::Start | Word::Other => false,
        }
    }

    // Whether a line may have this word, with n fields after it: what is asked before the fields are read.
    #[tactic(auto, unfolding(crate::specs::Kept::line_head))]
    fn check_head(&self, w: Word, n: usize) -> Result<(), Refusal>
        ensures { (words : List ℕ) → answer (λ _. tt) result ≡ line_head (reading_in words self.now) w n }
    {
        if !self.stage.allows(w) {
            return Err(Refusal::BadWord);
        }
        if self.overfull(w, n) {
            return Err(Refusal::TooMany);
        }
        if w.miscounted(n) {
            return Err(Refusal::BadField);
        }
        Ok(())
    }

    // A `fluent` line's name.
    fn fluent_line(&mut self, name: &'a [u8]) -> Result<(), Refusal>
        requires room { self.old.names.fluents.len < 64 }
        requires first { self.old.stage ≡ Stage.Fluents }
        ensures { (words : List ℕ) → answer (λ _. reading_in words self.new) result
            ≡ recorded (reading_in words self.old) Word.Fluent (name.now ∷ []) }
    {
        self.names.may_define(name)?;
        self.names.fluents.push(name);
        Ok(())
    }

    // An `action` line's name.
    // Stays: one function for this and `fluent_line` would choose the row and the stage by the word, which is no plainer.
    fn action_line(&mut self, name: &'a [u8]) -> Result<(), Refusal>
        requires { self.old.names.actions.len < 64 }
        ensures { (words : List ℕ) → answer (λ _. reading_in words self.new) result
            ≡ recorded (reading_in words self.old) Word.Action (name.now ∷ []) }
    {
        self.names.may_define(name)?;
        self.stage = Stage::Actions;
        self.names.actions.push(name);
        Ok(())
    }

    // A `rule` line's head and steps, from p on.
    fn rule_line(&mut self, line: &[u8], p: usize, words: &mut [u16]) -> Result<(), Refusal>
        requires room { self.old.rules < 256 }
        requires head { 0 < length (fields_from p (length line.now) line.now) }
        requires few { length (fields_from p (length line.now) line.now) ≤ 17 }
        requires words_len { length words.old ≡ 4608 }
        ensures { answer (λ _. reading_in words.new self.new) result
            ≡ recorded (reading_in words.old self.old) Word.Rule (fields_from p (length line.now) line.now) }
    {
        let q = chars::field_end(line, p, line.len());
        let head = self.names.actions.used(&line[p..q])?;
        let body = fields::steps(line, q + 1, line.len(), &self.names)?;
        put_rule(words, RULE_WORDS * self.rules, head as u16, &body);
        self.rules += 1;
        self.stage = Stage::Rules;
        Ok(())
    }

    // A `start` line's names, from p on.
    fn start_line(&mut self, line: &[u8], p: usize) -> Result<(), Refusal>
        requires { p ≤ length line.now + 1 }
        ensures { (words : List ℕ) → answer (λ _. reading_in words self.new) result
            ≡ recorded (reading_in words self.old) Word.Start (fields_from p (length line.now) line.now) }
    {
        self.start = fields::start_names(line, p, line.len(), &self.names)?;
        self.started = true;
        self.stage = Stage::Goal;
        Ok(())
    }

    // A `goal` line's steps, from p on.
    fn goal_line(&mut self, line: &[u8], p: usize) -> Result<(), Refusal>
        requires within { p ≤ length line.now + 1 }
        requires few { length (fields_from p (length line.now) line.now) ≤ 16 }
        ensures { (words : List ℕ) → answer (λ _. reading_in words self.new) result
            ≡ recorded (reading_in words self.old) Word.Goal (fields_from p (length line.now) line.now) }
    {
        self.goal = fields::steps(line, p, line.len(), &self.names)?;
        self.stage = Stage::End;
        Ok(())
    }

    // A line that is no comment and has no CR.
    fn plain_line(&mut self, line: &'a [u8], words: &mut [u16]) -> Result<(), Refusal>
        requires { length words.old ≡ 4608 }
        ensures { answer (λ _. reading_in words.new self.new) result ≡ plain_line (reading_in words.old self.old) line.now }
    {
        let q = chars::field_end(line, 0, line.len());
        let w = Word::of(&line[..q]);
        self.check_head(w, fields::count_fields(line, q + 1, line.len()))?;
        match w {
            Word::Fluent => self.fluent_line(&line[q + 1..]),
            Word::Action => self.action_line(&line[q + 1..]),
            Word::Rule => self.rule_line(line, q + 1, words),
            Word::Start => self.start_line(line, q + 1),
            Word::Goal => self.goal_line(line, q + 1),
            Word::Other => Err(Refusal::BadWord),
        }
    }

    // The line from a up to e.
    fn next_line(
        &mut self,
        s: &'a [u8],
        a: usize,
        e: usize,
        words: &mut [u16],
    ) -> Result<(), Refusal>
        requires line { (a ≤ e) × (e ≤ length s.now) }
        requires words_len { length words.old ≡ 4608 }
        ensures { answer (λ _. reading_in words.new self.new) result ≡ line (reading_in words.old self.old) (slice a e s.now) }
    {
        if chars::is_comment(s, a, e) {
            return Ok(());
        }
        let end = chars::bare_end(s, a, e);
        self.plain_line(&s[a..end], words)
    }
}

// All lines, from the top: what they said, or the first that is refused.
pub fn read_lines<'a>(s: &'a [u8], words: &mut [u16]) -> Result<Parse<'a>, Fault>
    requires { length words.old ≡ 4608 }
    ensures outcome { ending words.new result ≡ read_lines 1 empty (lines s.now) }
    ensures words_len { length words.new ≡ 4608 }
{
    let mut said = Parse::new();
    let mut line = 1;
    let mut at = 0;
    while at < s.len() {
        let end = chars::line_end(s, at);
        if let Err(refusal) = said.next_line(s, at, end, words) {
            return Err(Fault { refusal, line });
        }
        line += 1;
        at = end + 1;
    }
    Ok(said)
}
