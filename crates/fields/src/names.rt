// The names of a sheet, and the fields that define or use one.
ghost use Rattle.std.specs.Prelude.{◌≡◌, ◌+◌, ◌<◌, [], ◌∷◌, ◌++◌, position, take, IfOk};
ghost use Rattle.chars.specs.Places.{same, byte_at};
ghost use Rattle.fields.specs.Field.{new_name, used_name, step_word, marks, names_of};
ghost use Rattle.fields.specs.Held.{row_of, symbols_of, steps_of, answer, kind_place, mark_place};

use crate::book::{Body, Names, Row};
use refusals::Refusal;

impl<'a> Row<'a> {
    // No names.
    pub fn new() -> Row<'a>
        ensures { row_of result ≡ [] }
    {
        Row {
            len: 0,
            names: [b""; 64],
        }
    }

    // The place of a name among these, if it is one of them.
    fn find(&self, name: &[u8]) -> Option<usize>
        ensures { result ≡ position (λ x. same name.now x.now) (take self.now.len self.now.names) }
    {
        self.names[..self.len]
            .iter()
            .position(|x| chars::same_bytes(name, x))
    }

    // Puts a name behind these.
    pub fn push(&mut self, name: &'a [u8])
        requires { self.old.len < 64 }
        ensures { row_of self.new ≡ row_of self.old ++ name.now ∷ [] }
    {
        self.names[self.len] = name;
        self.len += 1;
    }

    // The number of a used name among these.
    pub fn used(&self, name: &[u8]) -> Result<usize, Refusal>
        ensures number { answer (λ k. k) result ≡ used_name (row_of self.now) name.now }
        ensures small { IfOk result (λ k. k < 64) }
    {
        if !chars::is_name(name) {
            return Err(Refusal::BadField);
        }
        self.find(name).ok_or(Refusal::Undefined)
    }
}

impl<'a> Names<'a> {
    // No names.
    pub fn new() -> Names<'a>
        ensures { symbols_of result ≡ record { fluents = []; actions = [] } }
    {
        Names {
            fluents: Row::new(),
            actions: Row::new(),
        }
    }

    // Whether a line may define the name.
    pub fn may_define(&self, name: &[u8]) -> Result<(), Refusal>
        ensures { answer (λ _. name.now) result ≡ new_name (symbols_of self.now) name.now }
    {
        if !chars::is_name(name) {
            return Err(Refusal::BadField);
        }
        if self.fluents.find(name).is_some() || self.actions.find(name).is_some() {
            return Err(Refusal::Repeated);
        }
        Ok(())
    }

    // The names that a step of this kind uses.
    fn used_by(&self, kind: Kind) -> &Row<'a>
        ensures { row_of result.now ≡ names_of (symbols_of self.now) (kind_place kind) }
    {
        match kind {
            Kind::Call => &self.actions,
            _ => &self.fluents,
        }
    }

    // The word of a step.
    pub fn step(&self, field: &[u8]) -> Result<u16, Refusal>
        ensures word { answer (λ w. w) result ≡ step_word (symbols_of self.now) field.now }
        ensures small { IfOk result (λ w. w < 1280) }
    {
        let [mark, name @ ..] = field else {
            return Err(Refusal::BadField);
        };
        let Some(kind) = Kind::of(*mark) else {
            return Err(Refusal::BadField);
        };
        let index = self.used_by(kind).used(name)?;
        Ok(256 * kind.number() + index as u16)
    }
}

// What a step does, by its mark.
#[derive(Clone, Copy, Debug, PartialEq, Eq)]
enum Kind {
    Query = 0,
    Insert = 1,
    Delete = 2,
    Call = 3,
    Deny = 4,
}

impl Kind {
    // The kind of the step with this mark.
    fn of(mark: u8) -> Option<Kind>
        ensures { mark_place result ≡ byte_at mark marks }
    {
        match mark {
            b'?' => Some(Kind::Query),
            b'+' => Some(Kind::Insert),
            b'-' => Some(Kind::Delete),
            b'!' => Some(Kind::Call),
            b'~' => Some(Kind::Deny),
            _ => None,
        }
    }

    // Its number in a step's word.
    fn number(self) -> u16
        ensures place { result ≡ kind_place self }
        ensures few { result < 5 }
    {
        self as u16
    }
}

impl Body {
    // No words.
    pub fn new() -> Body
        ensures words { steps_of result ≡ [] }
        ensures count { result.len ≡ 0 }
    {
        Body {
            len: 0,
            words: [0; 16],
        }
    }

    // Puts a word behind these.
    pub fn push(&mut self, word: u16)
        requires { self.old.len < 16 }
        ensures more { steps_of self.new ≡ steps_of self.old ++ word ∷ [] }
        ensures count { self.new.len ≡ self.old.len + 1 }
    {
        self.words[self.len] = word;
        self.len += 1;
    }
}
