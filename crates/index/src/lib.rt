// Indexes of the two tables, by which records are found without a look at each of them. No other code knows the parts of an index.
//
// A record's bucket comes from its two keys. A head is the latest record of a bucket, a link the one before it of the same bucket. Of the answers
// there are also noted the first of each call record, at that one the last, and from each the next of the same call record. All of them
// stand in quarters of the words lent: those of the calls in the list, those of the answers behind the answer records, a first answer in its
// call record. What is noted is checked against the records, so it needs neither clearing nor a word that says none.
#![tactic(auto)]

ghost use Rattle.std.specs.Prelude.{◌≡◌, List, ℕ, ◌+◌, ◌*◌, ◌/◌, ◌<◌, ◌≤◌, length, get_or};
ghost use Rattle.records.specs.Records.{room, call_width};
ghost use Rattle.records.specs.Storage.{NoCall, FindCall, FindAnswer, NextAnswer, CallPut, AnswerPut};
ghost use Rattle.desk.specs.Desk.{CallsOpen, AnswersOpen, open_calls, packed_answers, packed_width, round_top};
ghost use Rattle.index.specs.Index.{buckets, bucket, Keyed, keys_in, OfRow, CallIndex, AnswerIndex, answer_notes};
ghost use Rattle.index.specs.Index.{Noted, Forgotten, LastOf, Joined, CallsKept, AnswersKept, AnswerNoted, Rechained, AnswersKeyed};

use desk::{ACTION_UNIT, PACKED_WORDS};
use records::tables;
use records::tables::Put;
use steps::state::{Call, State};

// The quarters of a word of notes.
const NEXT: usize = 0;

const LAST: usize = 1;

const LINK: usize = 2;

const HEAD: usize = 3;

// Where a call record's first answer stands: this quarter of this word of it.
const FIRST: usize = 3;

const USES: usize = 2;

// How many buckets serve so many records: the greatest power of two among them. States next to each other come to buckets next to each other.
fn buckets(most: usize) -> u64
    requires { (0 < most) × (most ≤ 65536) }
    ensures { (result ≡ buckets most) × (0 < result) }
{
    1 << (63 - u64::leading_zeros(most as u64))
}

// The bucket, of those for `most` records, of a record with these two keys.
fn bucket(most: usize, a: u64, s: u64) -> usize
    requires { (0 < most) × (most ≤ 65536) }
    ensures value { result ≡ bucket most a s }
    ensures below { result < most }
{
    ((s % 65521 + a % 65536 * 1021) % buckets(most)) as usize
}

// The record of `width` words among the first n that has these two keys, or n. Its bucket is one of `most`, whose heads stand from `base` on.
fn find(
    words: &[u64],
    unit: u64,
    width: usize,
    n: usize,
    notes: &[u64],
    base: usize,
    most: usize,
    first: u64,
    second: u64,
) -> usize
    requires unit_nonzero { (0 < unit) × (2 ≤ width) × (width * n ≤ length words.now) × (n ≤ most) × (most ≤ 65536) × (base + most ≤ length notes.now) }
    requires keyed { Keyed most (keys_in unit width words.now n) notes.now base }
    ensures { (result ≤ n) × FindCall (keys_in unit width words.now n) first second result }
{
    if n == 0 {
        return n;
    }
    let k = bucket(most, first, second);
    let mut i = quarters::get(notes, base + k, HEAD);
    while i < n {
        if words[width * i + 1] == second && words[width * i] / unit == first {
            return i;
        }
        let before = quarters::get(notes, base + i, LINK);
        // Links go back, or else there is no record left.
        if i <= before {
            return n;
        }
        i = before;
    }
    n
}

// Notes record n as the latest of bucket k.
fn note(notes: &mut [u64], base: usize, k: usize, n: usize)
    requires { (base + k < length notes.old) × (base + n < length notes.old) × (n < 65536) }
    ensures { Noted notes.old base k n notes.new }
{
    let head = quarters::get(notes, base + k, HEAD);
    quarters::put(notes, base + n, LINK, head);
    quarters::put(notes, base + k, HEAD, n);
}

// Takes record n, the latest of bucket k, back out.
fn forget(notes: &mut [u64], base: usize, k: usize, n: usize)
    requires { (base + k < length notes.old) × (base + n < length notes.old) }
    ensures { Forgotten notes.old base k n notes.new }
{
    let before = quarters::get(notes, base + n, LINK);
    quarters::put(notes, base + k, HEAD, before);
}

// The bucket among `most` of record i, of `width` words.
fn bucket_of(words: &[u64], unit: u64, width: usize, i: usize, most: usize) -> usize
    requires { (0 < unit) × (width * i + 2 ≤ length words.now) × (0 < most) × (most ≤ 65536) }
    ensures value { result ≡ bucket most (get_or words.now (width * i) 0 / unit) (get_or words.now (width * i + 1) 0) }
    ensures below { result < most }
{
    bucket(most, words[width * i] / unit, words[width * i + 1])
}

// Takes the records from n0 up to n, of `width` words, out of heads and links, the latest first.
fn forget_records(
    words: &[u64],
    unit: u64,
    width: usize,
    n0: usize,
    n: usize,
    notes: &mut [u64],
    most: usize,
)
    requires room { (0 < unit) × (2 ≤ width) × (width * n ≤ length words.now) × (n ≤ most) × (most ≤ 65536) × (most ≤ length notes.old) }
    requires keyed { (n0 ≤ n) × Keyed most (keys_in unit width words.now n) notes.old 0 }
    ensures { Keyed most (keys_in unit width words.now n0) notes.new 0 × Rechained 0 notes.old notes.new }
{
    for i in (n0..n).rev() {
        let k = bucket_of(words, unit, width, i, most);
        forget(notes, 0, k, i);
    }
}

// Notes them in heads and links, the first of them first.
fn note_records(
    words: &[u64],
    unit: u64,
    width: usize,
    n0: usize,
    n: usize,
    notes: &mut [u64],
    most: usize,
)
    requires room { (0 < unit) × (2 ≤ width) × (width * n ≤ length words.now) × (n ≤ most) × (most ≤ 65536) × (most ≤ length notes.old) }
    requires keyed { (n0 ≤ n) × Keyed most (keys_in unit width words.now n0) notes.old 0 }
    ensures { Keyed most (keys_in unit width words.now n) notes.new 0 × Rechained 0 notes.old notes.new }
{
    for i in n0..n {
        let k = bucket_of(words, unit, width, i, most);
        note(notes, 0, k, i);
    }
}

// The record of the call among the first n, or n.
pub fn find_call(calls: &[u64], n: usize, list: &[u64], call: Call) -> usize
    requires { CallsOpen calls.now list.now n × CallIndex calls.now list.now n }
    ensures { (result ≤ n) × FindCall (open_calls calls.now n) call.action call.state.0 result }
{
    let most = tables::room_of(calls.len(), tables::CALL_WORDS);
    find(
        calls,
        ACTION_UNIT,
        tables::CALL_WORDS,
        n,
        list,
        0,
        most,
        call.action,
        call.state.0,
    )
}

// One call record more, with its round, of a call that has none yet; it is noted in the index. Or the table is full.
pub fn add_new(calls: &mut [u64], n: usize, list: &mut [u64], call: Call, round: u64) -> Put
    requires calls_open { CallsOpen calls.old list.old n × CallIndex calls.old list.old n × (call.action < 256) × (round < round_top) }
    requires no_call { NoCall (open_calls calls.old n) call.action call.state.0 }
    ensures call_put { CallPut (room call_width (length calls.old)) (open_calls calls.old n) call.action call.state.0 round
        (open_calls calls.new result.count) result.row result.full }
    ensures calls_open_2 { CallsOpen calls.new list.new result.count × CallIndex calls.new list.new result.count }
    ensures calls_kept { CallsKept calls.old list.old calls.new list.new }
{
    let most = tables::room_of(calls.len(), tables::CALL_WORDS);
    if n < most {
        note(list, 0, bucket(most, call.action, call.state.0), n);
        desk::put_call(calls, n, call, round);
        return Put {
            row: n,
            count: n + 1,
            full: false,
        };
    }
    Put {
        row: 0,
        count: n,
        full: true,
    }
}

// The record of the call, which is added to the table with its round and noted in the index if there is none.
pub fn add_call(calls: &mut [u64], n: usize, list: &mut [u64], call: Call, round: u64) -> Put
    requires { CallsOpen calls.old list.old n × CallIndex calls.old list.old n × (call.action < 256) × (round < round_top) }
    ensures call_put { CallPut (room call_width (length calls.old)) (open_calls calls.old n) call.action call.state.0 round
        (open_calls calls.new result.count) result.row result.full }
    ensures calls_open { CallsOpen calls.new list.new result.count × CallIndex calls.new list.new result.count }
    ensures calls_kept { CallsKept calls.old list.old calls.new list.new }
{
    let row = find_call(calls, n, list, call);
    if row < n {
        return Put {
            row: row,
            count: n,
            full: false,
        };
    }
    add_new(calls, n, list, call, round)
}

// Takes the call records from n0 up to n out of heads and links, the latest first. The rest of the list stays.
pub fn forget_calls(calls: &[u64], n0: usize, n: usize, list: &mut [u64])
    requires { CallsOpen calls.now list.old n × (n0 ≤ n) × CallIndex calls.now list.old n }
    ensures { CallIndex calls.now list.new n0 × Rechained 0 list.old list.new }
{
    let most = tables::room_of(calls.len(), tables::CALL_WORDS);
    forget_records(calls, ACTION_UNIT, tables::CALL_WORDS, n0, n, list, most);
}

// Notes them in heads and links. The rest of the list stays.
pub fn note_calls(calls: &[u64], n0: usize, n: usize, list: &mut [u64])
    requires { CallsOpen calls.now list.old n × (n0 ≤ n) × CallIndex calls.now list.old n0 }
    ensures { CallIndex calls.now list.new n × Rechained 0 list.old list.new }
{
    let most = tables::room_of(calls.len(), tables::CALL_WORDS);
    note_records(calls, ACTION_UNIT, tables::CALL_WORDS, n0, n, list, most);
}

// The record among the first m of this call record and final state, or m.
pub fn find_answer(answers: &[u64], m: usize, most: usize, row: usize, last: State) -> usize
    requires { AnswersOpen most answers.now m × AnswersKeyed most answers.now m }
    ensures { (result ≤ m) × FindAnswer (packed_answers answers.now m) row last.0 result }
{
    find(
        answers,
        1,
        PACKED_WORDS,
        m,
        answers,
        PACKED_WORDS * most,
        most,
        row as u64,
        last.0,
    )
}

// Takes the answer records from m0 up to m out of heads and links, the latest first. All other words and quarters stay.
pub fn forget_answers(answers: &mut [u64], m0: usize, m: usize, most: usize)
    requires { AnswersOpen most answers.old m × (m0 ≤ m) × AnswersKeyed most answers.old m }
    ensures { AnswersKeyed most answers.new m0
        × Rechained (answer_notes most) answers.old answers.new }
{
    let (records, notes) = answers.split_at_mut(PACKED_WORDS * most);
    forget_records(records, 1, PACKED_WORDS, m0, m, notes, most);
}

// Notes them in heads and links. All other words and quarters stay.
pub fn note_answers(answers: &mut [u64], m0: usize, m: usize, most: usize)
    requires { AnswersOpen most answers.old m × (m0 ≤ m) × AnswersKeyed most answers.old m0 }
    ensures { AnswersKeyed most answers.new m
        × Rechained (answer_notes most) answers.old answers.new }
{
    let (records, notes) = answers.split_at_mut(PACKED_WORDS * most);
    note_records(records, 1, PACKED_WORDS, m0, m, notes, most);
}

// Whether x is an answer record below `known` of this call record.
fn is_answer(answers: &[u64], known: usize, x: usize, row: u64) -> bool
    requires { packed_width * known ≤ length answers.now }
    ensures { OfRow (packed_answers answers.now known) x row result }
{
    x < known && desk::call_of(answers, x) == row
}

// The first answer record of this call record below `known`, or `known`.
pub fn first_answer(calls: &[u64], answers: &[u64], known: usize, row: usize) -> usize
    requires row_bound { row < room call_width (length calls.now) }
    requires by_index { (m : ℕ) × (known ≤ m) × ((most : ℕ) × AnswersOpen most answers.now m × AnswerIndex most calls.now answers.now m) }
    ensures { NextAnswer (packed_answers answers.now known) known row 0 result }
{
    let x = quarters::get(calls, tables::CALL_WORDS * row + USES, FIRST);
    if is_answer(answers, known, x, row as u64) {
        x
    } else {
        known
    }
}

// The next answer record after x of the same call record, below `known`, or `known`.
pub fn later_answer(answers: &[u64], known: usize, most: usize, x: usize) -> usize
    requires x_lt_known { x < known }
    requires by_index { (m : ℕ) × (known ≤ m) × AnswersOpen most answers.now m × ((calls : List ℕ) × AnswerIndex most calls answers.now m) }
    ensures { NextAnswer (packed_answers answers.now known) known (get_or answers.now (packed_width * x) 0) (x + 1) result }
{
    let row = desk::call_of(answers, x);
    let later = quarters::get(answers, PACKED_WORDS * most + x, NEXT);
    if x < later && is_answer(answers, known, later, row) {
        later
    } else {
        known
    }
}

// The last of the answers whose first is f, or m where f is none of the first m.
fn last_of(answers: &[u64], base: usize, f: usize, m: usize) -> usize
    requires { base + m ≤ length answers.now }
    ensures { LastOf answers.now base f m result }
{
    if f < m {
        quarters::get(answers, base + f, LAST)
    } else {
        m
    }
}

// Puts answer m behind `last`, and makes it the last of those whose first is f.
fn join(answers: &mut [u64], base: usize, f: usize, last: usize, m: usize)
    requires { (base + f < length answers.old) × (base + last < length answers.old) × (m < 65536) }
    ensures { Joined answers.old base f last m answers.new }
{
    quarters::put(answers, base + last, NEXT, m);
    quarters::put(answers, base + f, LAST, m);
}

// Notes answer m of this call record and final state, which is about to be written. The first answer of the call record is put there anew.
fn note_answer(
    calls: &mut [u64],
    answers: &mut [u64],
    m: usize,
    most: usize,
    row: usize,
    last: State,
)
    requires { (row < room call_width (length calls.old)) × AnswersOpen most answers.old (m + 1)
        × AnswerIndex most calls.old answers.old m }
    ensures { AnswerNoted most calls.old answers.old m row last.0 calls.new answers.new }
{
    let base = PACKED_WORDS * most;
    let f = first_answer(calls, answers, m, row);
    let end = last_of(answers, base, f, m);
    quarters::put(calls, tables::CALL_WORDS * row + USES, FIRST, f);
    note(answers, base, bucket(most, row as u64, last.0), m);
    join(answers, base, f, end, m);
}

// The record of the answer, which is added with its rule, evidence and round and noted in the index if there is none.
pub fn add_answer(
    calls: &mut [u64],
    answers: &mut [u64],
    m: usize,
    most: usize,
    row: usize,
    last: State,
    rule: u64,
    evidence: &[u64; 16],
    round: u64,
) -> Put
    requires answers_open { AnswersOpen most answers.old m × AnswerIndex most calls.old answers.old m × (row < room call_width (length calls.old)) }
    requires by_index { (q : ℕ) → q < 16 → get_or evidence.now q 0 < 65536 }
    ensures answer_put { AnswerPut most (packed_answers answers.old m) row last.0 rule
        evidence.now round (packed_answers answers.new result.count) result.full }
    ensures answers_open_2 { AnswersOpen most answers.new result.count × AnswerIndex most calls.new answers.new result.count }
    ensures answers_kept { AnswersKept calls.old answers.old calls.new answers.new row }
{
    let x = find_answer(answers, m, most, row, last);
    if x < m {
        return Put {
            row: x,
            count: m,
            full: false,
        };
    }
    if m < most {
        note_answer(calls, answers, m, most, row, last);
        desk::put_answer(answers, m, row, last, rule, evidence, round);
        return Put {
            row: m,
            count: m + 1,
            full: false,
        };
    }
    Put {
        row: 0,
        count: m,
        full: true,
    }
}
