// The two tables while a run lasts: reading and writing their records, and giving them as they are promised.
#![tactic(auto)]

ghost use Rattle.std.specs.Prelude.{◌≡◌, ◌+◌, ◌*◌, ◌/◌, ◌%◌, ◌<◌, ◌≤◌, length, get_or};
ghost use Rattle.records.specs.Records.{call_width, answer_width};
ghost use Rattle.desk.specs.Desk.{action_unit, round_unit, round_top, packed_width, call_put, packed, packed_record, Written};
ghost use Rattle.desk.specs.Desk.{quarters, given_record, CallsClosed, AnswersSpread, AnswersClosed, ClearedFrom};

use steps::state::{Call, State};

// In the first word of a call record the action stands above the round, and the round above 32 bits of marks.
pub const ACTION_UNIT: u64 = 72057594037927936;

const ROUND_UNIT: u64 = 4294967296;

const ROUND_TOP: u64 = 16777216;

// An answer record has so many words while a run lasts.
pub const PACKED_WORDS: usize = 8;

// How many words of the answer table a record takes while a run lasts: its own, and one for what is noted of it.
pub const OPEN_WORDS: usize = 9;

// The action of call record i.
pub fn action_of(calls: &[u64], i: usize) -> u64
    requires { call_width * i + 3 ≤ length calls.now }
    ensures { result ≡ get_or calls.now (call_width * i) 0 / action_unit }
{
    calls[3 * i] / ACTION_UNIT
}

// The state of call record i.
pub fn state_of(calls: &[u64], i: usize) -> State
    requires { call_width * i + 3 ≤ length calls.now }
    ensures { result.0 ≡ get_or calls.now (call_width * i + 1) 0 }
{
    State::of(calls[3 * i + 1])
}

// Writes call record n; the marks and the notes in its words stay.
pub fn put_call(calls: &mut [u64], n: usize, call: Call, round: u64)
    requires { (call_width * n + 3 ≤ length calls.old) × (call.action < 256) × (round < round_top) }
    ensures { calls.new ≡ call_put calls.old n call.action call.state.0 round }
{
    let at = 3 * n;
    calls[at] = call.action * ACTION_UNIT + round * ROUND_UNIT + calls[at] % ROUND_UNIT;
    calls[at + 1] = call.state.0;
}

// The number of the call record that answer record x is of.
pub fn call_of(answers: &[u64], x: usize) -> u64
    requires { packed_width * x + 8 ≤ length answers.now }
    ensures { result ≡ get_or answers.now (packed_width * x) 0 }
{
    answers[8 * x]
}

// The final state of answer record x.
pub fn final_of(answers: &[u64], x: usize) -> State
    requires { packed_width * x + 8 ≤ length answers.now }
    ensures { result.0 ≡ get_or answers.now (packed_width * x + 1) 0 }
{
    State::of(answers[8 * x + 1])
}

// The four words of evidence from `at` on as the quarters of one word.
pub fn packed(words: &[u64], at: usize) -> u64
    requires { at + 4 ≤ length words.now }
    ensures { result ≡ packed words.now at }
{
    let low = words[at] % 65536 + words[at + 1] % 65536 * 65536;
    low + words[at + 2] % 65536 * 4294967296 + words[at + 3] % 65536 * 281474976710656
}

// Writes answer record m.
pub fn put_answer(
    answers: &mut [u64],
    m: usize,
    row: usize,
    last: State,
    rule: u64,
    evidence: &[u64; 16],
    round: u64,
)
    requires { packed_width * m + 8 ≤ length answers.old }
    ensures { Written answers.old (packed_width * m)
        (packed_record row last.0 rule evidence.now round) answers.new }
{
    let at = 8 * m;
    answers[at] = row as u64;
    answers[at + 1] = last.0;
    answers[at + 2] = rule;
    answers[at + 3] = round;
    answers[at + 4] = packed(evidence, 0);
    answers[at + 5] = packed(evidence, 4);
    answers[at + 6] = packed(evidence, 8);
    answers[at + 7] = packed(evidence, 12);
}

// Gives the first n call records: what was noted in their words goes.
pub fn close_calls(calls: &mut [u64], n: usize)
    requires { call_width * n ≤ length calls.old }
    ensures { CallsClosed calls.old n calls.new }
{
    for i in 0..n {
        let word = calls[3 * i];
        calls[3 * i] = word / ACTION_UNIT;
        calls[3 * i + 2] = word / ROUND_UNIT % ROUND_TOP;
    }
}

// Writes the quarters of a word, each in a word of its own.
fn put_quarters(words: &mut [u64], at: usize, word: u64)
    requires { at + 4 ≤ length words.old }
    ensures { Written words.old at (quarters word) words.new }
{
    words[at] = word % 65536;
    words[at + 1] = word / 65536 % 65536;
    words[at + 2] = word / 4294967296 % 65536;
    words[at + 3] = word / 281474976710656 % 65536;
}

// Gives answer record x. Its own words are read before any is written, since those of record 0 are written over.
fn spread(answers: &mut [u64], x: usize)
    requires { answer_width * x + 20 ≤ length answers.old }
    ensures { Written answers.old (answer_width * x) (given_record answers.old x) answers.new }
{
    let from = 8 * x;
    let call = answers[from];
    let last = answers[from + 1];
    let rule = answers[from + 2];
    let round = answers[from + 3];
    let first = answers[from + 4];
    let second = answers[from + 5];
    let third = answers[from + 6];
    let fourth = answers[from + 7];
    let to = 20 * x;
    answers[to] = call;
    answers[to + 1] = last;
    answers[to + 2] = rule;
    put_quarters(answers, to + 3, first);
    put_quarters(answers, to + 7, second);
    put_quarters(answers, to + 11, third);
    put_quarters(answers, to + 15, fourth);
    answers[to + 19] = round;
}

// Gives the first m answer records, the last of them first: each is written past the words of all before it.
fn spread_all(answers: &mut [u64], m: usize)
    requires { answer_width * m ≤ length answers.old }
    ensures { AnswersSpread answers.old m 0 answers.new }
{
    for x in (0..m).rev() {
        spread(answers, x);
    }
}

// Sets every word from `from` on to 0.
pub fn clear_from(words: &mut [u64], from: usize)
    requires { from ≤ length words.old }
    ensures { ClearedFrom words.old from words.new }
{
    words[from..].fill(0);
}

// Gives the first m answer records, and 0 in all words past them.
pub fn close_answers(answers: &mut [u64], m: usize)
    requires { (answer_width * m ≤ length answers.old) × (m ≤ 65536) }
    ensures { AnswersClosed answers.old m answers.new }
{
    spread_all(answers, m);
    clear_from(answers, 20 * m);
}
