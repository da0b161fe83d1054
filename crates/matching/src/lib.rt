// Whether tables put aside hold just the rows of those that a run left, each once.
//
// The rows put aside are looked up by the run's indexes and told off: a flag in a free word of the run's record says which row was found there. If
// each is found, none where another was, and in the end no flag is missing, the rows are the same. The flags are no keys, so the indexes hold.
#![tactic(auto)]

ghost use Rattle.std.specs.Prelude.{ℕ, ◌+◌, ◌*◌, ◌<◌, ◌≤◌, length, get_or};
ghost use Rattle.records.specs.Records.{call_width};
ghost use Rattle.records.specs.Storage.{FindCall};
ghost use Rattle.desk.specs.Desk.{open_calls, packed_width, CallsOpen};
ghost use Rattle.index.specs.Index.{CallIndex};
ghost use Rattle.matching.specs.Flags.{Whether, Flagged, Kept, NoFlags, AllFlags, Marked, flag, RowForRow, RowFound, ToldOff};
ghost use Rattle.matching.specs.Matching.{stowed_calls, call_row, SameRows, CallsReady, AnswersReady, stowed_tables, run_tables};
ghost use Rattle.matching.specs.Matching.{stowed_row, run_row};

use desk::PACKED_WORDS;
use records::tables::CALL_WORDS;
use steps::state::{Call, State};
use stowing::FREED_WORDS;

// The place of the flag in a call record of a run: the uses that a run notes there are done with.
const CALL_FLAG: usize = 2;

// Its place in an answer record of a run: the round.
const ANSWER_FLAG: usize = 3;

// ---- flags

// Sets the flags of the first n records to 0.
fn clear_flags(words: &mut [u64], width: usize, at: usize, n: usize)
    requires { Flagged width at n words.old }
    ensures { Kept width at n words.old words.new × NoFlags width at n words.new }
{
    for j in 0..n {
        words[width * j + at] = 0;
    }
}

// Sets the flag of record r to v, if r is one of the first n and its flag is 0; whether it did.
fn mark(words: &mut [u64], width: usize, at: usize, n: usize, r: usize, v: u64) -> bool
    requires { Flagged width at n words.old }
    ensures { Marked width at n r v words.old words.new result }
{
    if r < n {
        let place = width * r + at;
        if words[place] == 0 {
            words[place] = v;
            return true;
        }
    }
    false
}

// Whether none of the flags of the first n records is 0.
fn all_flags(words: &[u64], width: usize, at: usize, n: usize) -> bool
    requires { Flagged width at n words.now }
    ensures { Whether (AllFlags width at n words.now) result }
{
    for j in 0..n {
        if words[width * j + at] == 0 {
            return false;
        }
    }
    true
}

// ---- calls

// The run's record of call i of those put aside, or n.
fn row_of(
    rows: &[u64],
    n: usize,
    calls: &[u64],
    actions: &[u8],
    call_room: usize,
    i: usize,
) -> usize
    requires calls_open { CallsOpen rows.now calls.now n × CallIndex rows.now calls.now n }
    requires i_in_bounds { (call_room + i < length calls.now) × (i < length actions.now) }
    ensures { (result ≤ n) × FindCall (open_calls rows.now n) (get_or actions.now i 0)
        (get_or calls.now (call_room + i) 0) result }
{
    let call = Call {
        action: u64::from(actions[i]),
        state: State::of(calls[call_room + i]),
    };
    index::find_call(rows, n, calls, call)
}

// Tells the calls put aside off against those of the run, up to one that is not there or was there already.
fn match_calls(
    rows: &mut [u64],
    n: usize,
    calls: &[u64],
    actions: &[u8],
    call_room: usize,
    stowed: usize,
) -> bool
    requires { CallsReady rows.old n calls.now actions.now call_room stowed × NoFlags call_width 2 n rows.old }
    ensures { Kept call_width 2 n rows.old rows.new
        × ToldOff (call_row (stowed_calls call_room calls.now actions.now stowed)) stowed
        (call_row (open_calls rows.old n)) n (flag call_width 2 rows.new) result }
{
    for i in 0..stowed {
        let row = row_of(rows, n, calls, actions, call_room, i);
        if !mark(rows, CALL_WORDS, CALL_FLAG, n, row, i as u64 + 1) {
            return false;
        }
    }
    true
}

// Whether the calls put aside are just those of the run, each once.
fn same_calls(
    rows: &mut [u64],
    n: usize,
    calls: &[u64],
    actions: &[u8],
    call_room: usize,
    stowed: usize,
) -> bool
    requires { CallsReady rows.old n calls.now actions.now call_room stowed }
    ensures { Kept call_width 2 n rows.old rows.new
        × Whether (RowForRow (call_row (stowed_calls call_room calls.now actions.now stowed)) stowed
        (call_row (open_calls rows.old n)) n) result }
{
    clear_flags(rows, CALL_WORDS, CALL_FLAG, n);
    match_calls(rows, n, calls, actions, call_room, stowed)
        && all_flags(rows, CALL_WORDS, CALL_FLAG, n)
}

// ---- answers

// The run's record of answer x of those put aside, or m. Where the run has no record of its call, n is found, which none of its answers is of.
fn answer_of(
    rows: &[u64],
    n: usize,
    calls: &[u64],
    actions: &[u8],
    call_room: usize,
    answers: &[u64],
    m: usize,
    most: usize,
    x: usize,
) -> usize
    requires { (stowed : ℕ) × CallsReady rows.now n calls.now actions.now call_room stowed
        × AnswersReady n stowed answers.now m most (x + 1) }
    ensures { RowFound (stowed_row call_room calls.now actions.now most answers.now x)
        (run_row rows.now answers.now) m result }
{
    let from = FREED_WORDS * most + PACKED_WORDS * x;
    let row = row_of(rows, n, calls, actions, call_room, answers[from] as usize);
    index::find_answer(answers, m, most, row, State::of(answers[from + 1]))
}

// Tells the answers put aside off against those of the run, up to one that is not there or was there already.
fn match_answers(
    rows: &[u64],
    n: usize,
    calls: &[u64],
    actions: &[u8],
    call_room: usize,
    answers: &mut [u64],
    m: usize,
    most: usize,
    kept: usize,
) -> bool
    requires by_index { (stowed : ℕ) × CallsReady rows.now n calls.now actions.now call_room stowed
        × AnswersReady n stowed answers.old m most kept }
    requires no_flags { NoFlags packed_width 3 m answers.old }
    ensures { Kept packed_width 3 m answers.old answers.new
        × ToldOff (stowed_row call_room calls.now actions.now most answers.old) kept
        (run_row rows.now answers.old) m (flag packed_width 3 answers.new) result }
{
    for x in 0..kept {
        let y = answer_of(rows, n, calls, actions, call_room, answers, m, most, x);
        if !mark(answers, PACKED_WORDS, ANSWER_FLAG, m, y, x as u64 + 1) {
            return false;
        }
    }
    true
}

// Whether the answers put aside are just those of the run, each once.
fn same_answers(
    rows: &[u64],
    n: usize,
    calls: &[u64],
    actions: &[u8],
    call_room: usize,
    answers: &mut [u64],
    m: usize,
    most: usize,
    kept: usize,
) -> bool
    requires { (stowed : ℕ) × CallsReady rows.now n calls.now actions.now call_room stowed
        × AnswersReady n stowed answers.old m most kept }
    ensures { Kept packed_width 3 m answers.old answers.new
        × Whether (RowForRow (stowed_row call_room calls.now actions.now most answers.old) kept
        (run_row rows.now answers.old) m) result }
{
    clear_flags(answers, PACKED_WORDS, ANSWER_FLAG, m);
    match_answers(rows, n, calls, actions, call_room, answers, m, most, kept)
        && all_flags(answers, PACKED_WORDS, ANSWER_FLAG, m)
}

// Whether the tables put aside hold just the rows of the run's n calls and m answers, each once. The third words of the run's call records and the
// rounds of its answers are written over; all other words stay.
pub fn same_rows(
    rows: &mut [u64],
    n: usize,
    calls: &[u64],
    actions: &[u8],
    call_room: usize,
    stowed: usize,
    answers: &mut [u64],
    m: usize,
    most: usize,
    kept: usize,
) -> bool
    requires { CallsReady rows.old n calls.now actions.now call_room stowed × AnswersReady n stowed answers.old m most kept }
    ensures whether { Whether (SameRows (stowed_tables call_room calls.now actions.now stowed most answers.old kept)
        (run_tables rows.old n answers.old m)) result }
    ensures kept { Kept call_width 2 n rows.old rows.new
        × Kept packed_width 3 m answers.old answers.new }
{
    same_answers(rows, n, calls, actions, call_room, answers, m, most, kept)
        && same_calls(rows, n, calls, actions, call_room, stowed)
}
