// The rows that both tables hold, in the order of their keys: actions 0, 64 and 65, each in the states below 4.
use print::Runs;
use std::fmt;
use std::fmt::Display;

const ACTIONS: [u64; 3] = [0, 64, 65];

// The words kept, the last two of which count the records, and both tables.
#[derive(Clone, Copy)]
pub struct Rows<'a> {
    pub kept: &'a [u64; 44],
    pub calls: &'a [u64],
    pub answers: &'a [u64],
}

// How often a record stands, where that is more than once.
#[derive(Clone, Copy)]
struct Times(usize);

impl Display for Times {
    fn fmt<W: fmt::Write>(&self, f: &mut fmt::Formatter<W>) -> fmt::Result {
        if 1 < self.0 {
            write!(f, "x{}", self.0)?;
        }
        Ok(())
    }
}

// A record's number as a place.
fn place(number: u64) -> usize {
    usize::try_from(number).unwrap_or(usize::MAX)
}

impl<'a> Rows<'a> {
    fn call_count(self) -> usize {
        place(self.kept[42])
    }

    fn answer_count(self) -> usize {
        place(self.kept[43])
    }

    // How many call records are of an action in a state.
    fn calls_of(self, action: u64, state: u64) -> usize {
        let call = [action, state];
        self.calls
            .chunks_exact(2)
            .take(self.call_count())
            .filter(|c| *c == call.as_slice())
            .count()
    }

    // Whether an answer record is of an action in a state, and has this final state.
    fn answers_with(self, record: &[u64], action: u64, state: u64, last: u64) -> bool {
        let [call, end, ..] = record else {
            return false;
        };
        let of = self.calls.chunks_exact(2).nth(place(*call));
        *end == last && of == Some([action, state].as_slice())
    }

    // How many answer records are of an action in a state, and have this final state.
    fn answers_of(self, action: u64, state: u64, last: u64) -> usize {
        let mut count = 0usize;
        for record in self.answers.chunks_exact(19).take(self.answer_count()) {
            if self.answers_with(record, action, state, last) {
                count = count.saturating_add(1);
            }
        }
        count
    }

    // The number of the first such record among the first ten, or 10.
    pub fn answer_of(self, action: u64, state: u64, last: u64) -> u64 {
        let mut number = 0;
        for record in self.answers.chunks_exact(19).take(10) {
            if self.answers_with(record, action, state, last) {
                return number;
            }
            number = u64::saturating_add(number, 1);
        }
        10
    }

    // The call records by their keys, with a word where one has none of these.
    fn tell_calls<W: fmt::Write>(self, f: &mut fmt::Formatter<W>) -> fmt::Result {
        let mut seen = 0usize;
        write!(f, "\tcall records {}", self.kept[42])?;
        for action in &ACTIONS {
            for state in 0..4 {
                let count = self.calls_of(*action, state);
                if 0 < count {
                    write!(f, " {action}@{state}{}", Times(count))?;
                }
                seen = seen.saturating_add(count);
            }
        }
        if seen != self.call_count() {
            f.write_str(" and others")?;
        }
        Ok(())
    }

    // The answer records by their keys, with a word where one has none of these.
    fn tell_answers<W: fmt::Write>(self, f: &mut fmt::Formatter<W>) -> fmt::Result {
        let mut seen = 0usize;
        write!(f, "\tanswer records {}", self.kept[43])?;
        for action in &ACTIONS {
            for key in 0..16u64 {
                let (state, last) = (key / 4, key % 4);
                let count = self.answers_of(*action, state, last);
                if 0 < count {
                    write!(f, " {action}@{state}>{last}{}", Times(count))?;
                }
                seen = seen.saturating_add(count);
            }
        }
        if seen != self.answer_count() {
            f.write_str(" and others")?;
        }
        Ok(())
    }

    // A word where what stands past the records is not 0.
    fn tell_past<W: fmt::Write>(self, f: &mut fmt::Formatter<W>) -> fmt::Result {
        if self
            .calls
            .iter()
            .skip(self.call_count().saturating_mul(2))
            .any(|w| *w != 0)
        {
            f.write_str("\tcalls not 0 past them")?;
        }
        if self
            .answers
            .iter()
            .skip(self.answer_count().saturating_mul(19))
            .any(|w| *w != 0)
        {
            f.write_str("\tanswers not 0 past them")?;
        }
        Ok(())
    }
}

impl<'a> Display for Rows<'a> {
    fn fmt<W: fmt::Write>(&self, f: &mut fmt::Formatter<W>) -> fmt::Result {
        let kept = self.kept;
        write!(f, "\tkept{}", Runs(kept))?;
        self.tell_calls(f)?;
        self.tell_answers(f)?;
        self.tell_past(f)
    }
}
