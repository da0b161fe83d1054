// Why something is refused, each refusal with its number as the tables of documents 01 and 02 have it. C sees the number,
// and 0 where nothing is refused.
#![tactic(auto)]

ghost use Rattle.std.specs.Prelude.{◌≡◌};
ghost use Rattle.refusals.specs.Number.{number_of, number_in};

use std::error::Error;
use std::fmt;

#[derive(Clone, Copy, Debug, PartialEq, Eq)]
pub enum Refusal {
    // The sheet is longer than 65,536 bytes.
    TooLong = 10,

    // A byte that may not stand where it does.
    BadByte = 11,

    // The sheet is not empty and its last byte is not LF.
    NotEnded = 12,

    // A line whose first field is no record word, or is out of order.
    BadWord = 13,

    // A fluent or action without exactly one name, a rule without head, or a field that is no name or step.
    BadField = 14,

    // A name defined before, or twice in `start`.
    Repeated = 15,

    // A used name that is undefined or of the wrong kind.
    Undefined = 16,

    // A 65th fluent or action, a 257th rule, or more than 16 steps.
    TooMany = 17,

    // A sheet that ends without `start` or without `goal`.
    Incomplete = 18,

    // Rule words lent that are fewer than the rules have.
    NoRoom = 19,

    // A count of fluents or actions over 64.
    BadCounts = 20,

    // Rule words that are not whole rules, or over 256 rules.
    BadLength = 21,

    // A bad rule.
    BadRule = 22,

    // A bad goal.
    BadGoal = 23,

    // A start, or a state to be stored, with a bit at or above the fluent count.
    BadStart = 24,

    // Over 1,024 starts of a class, or result room under 4 words each.
    BadClass = 25,

    // Result words that are not those of at most 1,024 starts, or do not fit the ends lent, or an end with a bit too high.
    BadResults = 26,

    // Fewer words lent than the figures of a report have.
    ReportShort = 27,

    // Calls outnumber the call room, or answers the answer room.
    TablesFull = 30,

    // Fewer places for ends than there are ends.
    ListShort = 31,

    // A list of calls shorter than the call room.
    CallListShort = 34,

    // A list of calls with fewer places than calls, or a place read that is not below the call count.
    BadCallList = 35,

    // A record count over its room.
    BadRecordCount = 40,

    // The record asked for is not below the count.
    NoRecord = 41,

    // A call record that is not good, or an answer record that is not justified.
    BadRecord = 42,

    // Fewer places than states in the path.
    StatesShort = 43,

    // Fewer bytes lent than the text has.
    TextShort = 50,

    // Over 63 recorded steps.
    LongRecord = 60,

    // Fewer than 4,096 words lent for the marks.
    MarksShort = 61,

    // A recorded step that is a call or bad.
    BadRecordedStep = 62,

    // A name that is a fluent in one sheet and an action in the other.
    BothKinds = 70,

    // Fewer places lent than are to be written.
    OutputShort = 80,

    // A number of stored words that does not match the count of states.
    BadWordCount = 81,

    // A stored bit past the last state.
    BitPastEnd = 82,

    // The limits of both parties add up to more than a table's room.
    OverLimits = 90,

    // What is kept meets 23, 24, 40 or 90, or the tables handed back do not hold just that, within the limits.
    NotAsKept = 91,
}

impl Refusal {
    // The number that the documents give it, from 10 on.
    pub fn number(self) -> u64
        ensures { result ≡ number_of self }
    {
        self as u64
    }
}

// The number of an answer: of its refusal, or 0 where it has a value.
pub fn number_in<T>(answer: &Result<T, Refusal>) -> u64
    ensures { result ≡ number_in answer.now }
{
    match answer {
        Ok(_) => 0,
        Err(refusal) => refusal.number(),
    }
}

impl From<Refusal> for u64 {
    ghost from_gives = { λ refusal number. number ≡ number_of refusal };

    fn from(refusal: Refusal) -> u64 {
        refusal.number()
    }
}

impl fmt::Display for Refusal {
    fn fmt<W: fmt::Write>(&self, f: &mut fmt::Formatter<W>) -> fmt::Result {
        f.write_str(match self {
            Refusal::TooLong => "the sheet is longer than 65,536 bytes",
            Refusal::BadByte => "a byte that may not stand where it does",
            Refusal::NotEnded => "the sheet is not empty and its last byte is not LF",
            Refusal::BadWord => "a line whose first field is no record word, or is out of order",
            Refusal::BadField =>
                "a fluent or action without exactly one name, a rule without head, or a field that is no name or step",
            Refusal::Repeated => "a name defined before, or twice in `start`",
            Refusal::Undefined => "a used name that is undefined or of the wrong kind",
            Refusal::TooMany => "a 65th fluent or action, a 257th rule, or more than 16 steps",
            Refusal::Incomplete => "a sheet that ends without `start` or without `goal`",
            Refusal::NoRoom => "rule words lent that are fewer than the rules have",
            Refusal::BadCounts => "a count of fluents or actions over 64",
            Refusal::BadLength => "rule words that are not whole rules, or over 256 rules",
            Refusal::BadRule => "a bad rule",
            Refusal::BadGoal => "a bad goal",
            Refusal::BadStart =>
                "a start, or a state to be stored, with a bit at or above the fluent count",
            Refusal::BadClass => "over 1,024 starts of a class, or result room under 4 words each",
            Refusal::BadResults =>
                "result words that are not those of at most 1,024 starts, or do not fit the ends lent, or an end with a bit too high",
            Refusal::ReportShort => "fewer words lent than the figures of a report have",
            Refusal::TablesFull => "calls outnumber the call room, or answers the answer room",
            Refusal::ListShort => "fewer places for ends than there are ends",
            Refusal::CallListShort => "a list of calls shorter than the call room",
            Refusal::BadCallList =>
                "a list of calls with fewer places than calls, or a place read that is not below the call count",
            Refusal::BadRecordCount => "a record count over its room",
            Refusal::NoRecord => "the record asked for is not below the count",
            Refusal::BadRecord =>
                "a call record that is not good, or an answer record that is not justified",
            Refusal::StatesShort => "fewer places than states in the path",
            Refusal::TextShort => "fewer bytes lent than the text has",
            Refusal::LongRecord => "over 63 recorded steps",
            Refusal::MarksShort => "fewer than 4,096 words lent for the marks",
            Refusal::BadRecordedStep => "a recorded step that is a call or bad",
            Refusal::BothKinds => "a name that is a fluent in one sheet and an action in the other",
            Refusal::OutputShort => "fewer places lent than are to be written",
            Refusal::BadWordCount =>
                "a number of stored words that does not match the count of states",
            Refusal::BitPastEnd => "a stored bit past the last state",
            Refusal::OverLimits => "the limits of both parties add up to more than a table's room",
            Refusal::NotAsKept =>
                "what is kept is refused, or the tables handed back do not hold just that, within the limits",
        })
    }
}

impl Error for Refusal {}
