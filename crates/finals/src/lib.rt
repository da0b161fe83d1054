// The final states of one call record's answers while a run lasts: how many, and in rising order.
//
// They are gathered in the list of ends. If they do not rise there a line is written for each, into words that are lent; the lines are sorted, and
// their second words are the list.
#![tactic(auto)]

ghost use Rattle.std.specs.Prelude.{◌≡◌, ◌++◌, ◌+◌, ◌*◌, ◌≤◌, length, drop};
ghost use Rattle.sorting.specs.Shuffled.{Sorted};
ghost use Rattle.radix.specs.Lines.{line_width, Below};
ghost use Rattle.records.specs.Records.{call_table, call_width};
ghost use Rattle.records.proofs.Growth.{AnswersOnce};
ghost use Rattle.desk.specs.Desk.{packed_answers, packed_width};
ghost use Rattle.finals.specs.Finals.{finals_below, FinalsListed, CallFinals, Lined, Taken};

use records::tables;
use steps::state::Call;

// How many of the first m answer records are of this call record.
pub fn count(answers: &[u64], m: usize, row: u64) -> u64
    requires { (packed_width * m ≤ length answers.now) × (m ≤ 65536) }
    ensures { result ≡ length (finals_below (packed_answers answers.now m) row m) }
{
    let mut found = 0;
    for x in 0..m {
        if desk::call_of(answers, x) == row {
            found += 1;
        }
    }
    found
}

// Writes their final states to the head of the list, in the order of the records; how many there are.
fn gather(answers: &[u64], m: usize, row: u64, list: &mut [u64]) -> usize
    requires { (packed_width * m ≤ length answers.now) × (m ≤ 65536)
        × (length (finals_below (packed_answers answers.now m) row m) ≤ length list.old) }
    ensures { (result ≡ length (finals_below (packed_answers answers.now m) row m))
        × (list.new ≡ finals_below (packed_answers answers.now m) row m ++ drop result list.old) }
{
    let mut found = 0;
    for x in 0..m {
        if desk::call_of(answers, x) == row {
            list[found] = desk::final_of(answers, x).0;
            found += 1;
        }
    }
    found
}

// Writes a line for each of the first n words of the list, from a place on: 0 and the word. What stands third stays.
fn put_lines(list: &[u64], n: usize, words: &mut [u64], at: usize)
    requires { (n ≤ length list.now) × (at + line_width * n ≤ length words.old) }
    ensures { Lined list.now n at words.old words.new }
{
    for (i, word) in list[..n].iter().enumerate() {
        words[at + radix::LINE_WORDS * i] = 0;
        words[at + radix::LINE_WORDS * i + 1] = *word;
    }
}

// Writes the second words of n lines to the head of the list; the list past them stays.
fn take_words(words: &[u64], at: usize, n: usize, list: &mut [u64])
    requires { (at + line_width * n ≤ length words.now) × (n ≤ length list.old) }
    ensures { Taken words.now at n list.old list.new }
{
    for (i, word) in list[..n].iter_mut().enumerate() {
        *word = words[at + radix::LINE_WORDS * i + 1];
    }
}

// Puts the first n words of the list in rising order, by way of lines in the words from a place on.
fn by_lines(list: &mut [u64], n: usize, words: &mut [u64], at: usize)
    requires { (n ≤ length list.old) × (at + line_width * n + line_width * n ≤ length words.old) }
    ensures sorted { Sorted 1 0 n list.old list.new }
    ensures below { Below at words.old words.new }
{
    put_lines(list, n, words, at);
    radix::sort(words, at, at + radix::LINE_WORDS * n, n);
    take_words(words, at, n, list);
}

// Writes the final states of this call record's answers to the head of the list in rising order; the list past them stays. The words of the
// answers from `at` on are free, and may hold anything then.
pub fn list(answers: &mut [u64], m: usize, row: u64, ends: &mut [u64], at: usize)
    requires found_fits { (packed_width * m ≤ length answers.old) × (m ≤ 65536)
        × (length (finals_below (packed_answers answers.old m) row m) ≤ length ends.old) }
    requires room { (at + line_width * m + line_width * m ≤ length answers.old) × AnswersOnce (packed_answers answers.old m) }
    ensures finals_listed { FinalsListed (packed_answers answers.old m) row ends.old ends.new }
    ensures below { Below at answers.old answers.new }
{
    let found = gather(answers, m, row, ends);
    if sorting::is_rising(ends, 1, 0, found) {
        return;
    }
    by_lines(ends, found, answers, at);
}

// How many final states the answers of the call have. They are listed if the list has places for them, else it stays. The words of the answers
// from `at` on are free, and may hold anything then.
pub fn of_call(
    calls: &[u64],
    n: usize,
    call: Call,
    answers: &mut [u64],
    m: usize,
    ends: &mut [u64],
    at: usize,
) -> u64
    requires n_in_bounds { (call_width * n ≤ length calls.now) × (n ≤ 65536) × (packed_width * m ≤ length answers.old) × (m ≤ 65536) }
    requires m_in_bounds { (at + line_width * m + line_width * m ≤ length answers.old) × AnswersOnce (packed_answers answers.old m) }
    ensures call_finals { CallFinals (call_table calls.now n) (packed_answers answers.old m) call.action call.state.0 result
        ends.old ends.new }
    ensures below { Below at answers.old answers.new }
{
    let row = tables::find_call(calls, n, call).unwrap_or(n) as u64;
    let found = count(answers, m, row);
    if (ends.len() as u64) < found {
        return found;
    }
    list(answers, m, row, ends, at);
    found
}
