// The words of the two tables as they are given: reading and writing records. While a run lasts records stand otherwise, and crate `desk` knows
// how; an index knows only that the first two words of a record are its key.
ghost use Rattle.std.specs.Prelude.{◌≡◌, ◌+◌, ◌*◌, ◌<◌, ◌≤◌, length, get_or, replicate};
ghost use Rattle.records.specs.Records.{room, call_table, call_width};
ghost use Rattle.records.specs.Storage.{round_in, call_width_of, answer_width_of, FoundCall, PutCall, PutAnswer};

use steps::state::{Call, State};

// Call record: action, state, round.
pub const CALL_WORDS: usize = 3;

// The words of a call record before its round.
pub const CALL_OTHERS: usize = 2;

// Answer record: call record number, final state, rule number, 16 evidence words, round.
pub const ANSWER_WORDS: usize = 20;

// The words of an answer record before its round.
pub const ANSWER_OTHERS: usize = 19;

// The words of a call record; a plain one has no round.
pub fn call_width(plain: bool) -> usize
    ensures { result ≡ call_width_of plain }
{
    if plain { CALL_OTHERS } else { CALL_WORDS }
}

// The words of an answer record; a plain one has no round.
pub fn answer_width(plain: bool) -> usize
    ensures { result ≡ answer_width_of plain }
{
    if plain { ANSWER_OTHERS } else { ANSWER_WORDS }
}

// How many records of this width a table of this length holds, at most 65,536.
pub fn room_of(len: usize, width: usize) -> usize
    requires { 0 < width }
    ensures { result ≡ room width len }
{
    (len / width).min(65536)
}

// Sets every word to 0.
pub fn clear(words: &mut [u64])
    ensures { words.new ≡ replicate (length words.old) 0 }
{
    words.fill(0);
}

// The action of call record i, of `width` words.
pub fn action_of(calls: &[u64], width: usize, i: usize) -> u64
    requires { width * i + 2 ≤ length calls.now }
    ensures { result ≡ get_or calls.now (width * i) 0 }
{
    calls[width * i]
}

// The state of call record i.
pub fn state_of(calls: &[u64], width: usize, i: usize) -> State
    requires { width * i + 2 ≤ length calls.now }
    ensures { result.0 ≡ get_or calls.now (width * i + 1) 0 }
{
    State::of(calls[width * i + 1])
}

// The round of record i, which stands in the word after its `others`; where it has no such word, its number.
pub fn round_of(words: &[u64], others: usize, width: usize, i: usize) -> u64
    requires { width * i + width ≤ length words.now }
    ensures { result ≡ round_in others width words.now i }
{
    if others < width {
        words[width * i + others]
    } else {
        i as u64
    }
}

// The number of the call record that answer record x, of `width` words, is of.
pub fn call_of(answers: &[u64], width: usize, x: usize) -> u64
    requires { width * x + 19 ≤ length answers.now }
    ensures { result ≡ get_or answers.now (width * x) 0 }
{
    answers[width * x]
}

// The final state of answer record x.
pub fn final_of(answers: &[u64], width: usize, x: usize) -> State
    requires { width * x + 19 ≤ length answers.now }
    ensures { result.0 ≡ get_or answers.now (width * x + 1) 0 }
{
    State::of(answers[width * x + 1])
}

// The rule number of answer record x.
pub fn rule_of(answers: &[u64], width: usize, x: usize) -> u64
    requires { width * x + 19 ≤ length answers.now }
    ensures { result ≡ get_or answers.now (width * x + 2) 0 }
{
    answers[width * x + 2]
}

// The evidence of answer record x at place q.
pub fn evidence_of(answers: &[u64], width: usize, x: usize, q: usize) -> u64
    requires { (width * x + 19 ≤ length answers.now) × (q < 16) }
    ensures { result ≡ get_or answers.now (width * x + 3 + q) 0 }
{
    answers[width * x + 3 + q]
}

// The record of the call among the first n, if there is one.
pub fn find_call(calls: &[u64], n: usize, call: Call) -> Option<usize>
    requires { (call_width * n ≤ length calls.now) × (n ≤ 65536) }
    ensures { FoundCall (call_table calls.now n) call.action call.state.0 result }
{
    for i in 0..n {
        if calls[CALL_WORDS * i] == call.action && calls[CALL_WORDS * i + 1] == call.state.0 {
            return Some(i);
        }
    }
    None
}

// Writes call record n, of 2 words or of 3 with its round.
pub fn put_call(calls: &mut [u64], width: usize, n: usize, call: Call, round: u64)
    requires { (2 ≤ width) × (width ≤ 3) × (width * n + width ≤ length calls.old) }
    ensures { PutCall width calls.old n call.action call.state.0 round calls.new }
{
    let at = width * n;
    calls[at] = call.action;
    calls[at + 1] = call.state.0;
    if CALL_OTHERS < width {
        calls[at + CALL_OTHERS] = round;
    }
}

// Writes answer record m, of 19 words or of 20 with its round.
pub fn put_answer(
    answers: &mut [u64],
    width: usize,
    m: usize,
    row: usize,
    last: State,
    rule: u64,
    evidence: &[u64; 16],
    round: u64,
)
    requires { (19 ≤ width) × (width ≤ 20) × (width * m + width ≤ length answers.old) }
    ensures { PutAnswer width answers.old m row last.0 rule evidence.now round answers.new }
{
    let at = width * m;
    answers[at] = row as u64;
    answers[at + 1] = last.0;
    answers[at + 2] = rule;
    answers[at + 3..at + ANSWER_OTHERS].copy_from_slice(evidence);
    if ANSWER_OTHERS < width {
        answers[at + ANSWER_OTHERS] = round;
    }
}

// Where a record stands and how many records there are then, or that there is no room for it.
#[derive(Clone, Copy)]
pub struct Put {
    pub row: usize,
    pub count: usize,
    pub full: bool,
}
