// The list of calls (request R-10): the numbers of the call records, by action and then state.
//
// A line of three words is written for each call record, action, state and number, into words that are lent; the lines are sorted, and their
// numbers are the list. Where too few words are lent the numbers are sorted in the list itself, by a heap.
#![tactic(auto)]

ghost use Rattle.std.specs.Prelude.{◌≡◌, ◌+◌, ◌*◌, ◌<◌, ◌≤◌, length};
ghost use Rattle.radix.specs.Lines.{line_width, Below};
ghost use Rattle.records.specs.Records.{call_table, call_width};
ghost use Rattle.records.proofs.Growth.{CallsOnce};
ghost use Rattle.listing.specs.Listing.{Numbered, LinePut, Lined, Taken, CallsListed};

use records::tables;

// Writes the numbers below n to the first places of the list, and 0 past them.
fn number(list: &mut [u64], n: usize)
    requires { n ≤ length list.old }
    ensures { Numbered n (length list.old) list.new }
{
    for (i, place) in list.iter_mut().enumerate() {
        *place = if i < n { i as u64 } else { 0 };
    }
}

// Lists the first n call records in the list itself.
fn by_heap(calls: &[u64], n: usize, list: &mut [u64])
    requires { (call_width * n ≤ length calls.now) × (n ≤ length list.old) × CallsOnce (call_table calls.now n) }
    ensures { CallsListed (call_table calls.now n) (length list.old) list.new }
{
    number(list, n);
    sorting::numbers::sort(list, calls, tables::CALL_WORDS, 0, n);
}

// Writes the line of call record i at a place.
fn put_line(calls: &[u64], i: usize, words: &mut [u64], at: usize)
    requires { (call_width * i + 3 ≤ length calls.now) × (at + line_width ≤ length words.old) }
    ensures { LinePut calls.now i at words.old words.new }
{
    words[at] = tables::action_of(calls, tables::CALL_WORDS, i);
    words[at + 1] = tables::state_of(calls, tables::CALL_WORDS, i).0;
    words[at + 2] = i as u64;
}

// Writes the lines of the first n call records from a place on.
fn put_lines(calls: &[u64], n: usize, words: &mut [u64], at: usize)
    requires { (call_width * n ≤ length calls.now) × (at + line_width * n ≤ length words.old) }
    ensures { Lined calls.now n at words.old words.new }
{
    for i in 0..n {
        put_line(calls, i, words, at + radix::LINE_WORDS * i);
    }
}

// Writes the numbers of n lines to the head of the list, and 0 past them.
fn take_numbers(words: &[u64], at: usize, n: usize, list: &mut [u64])
    requires { (at + line_width * n ≤ length words.now) × (n ≤ length list.old) }
    ensures { Taken words.now at n (length list.old) list.new }
{
    for (i, place) in list.iter_mut().enumerate() {
        *place = if i < n {
            words[at + radix::LINE_WORDS * i + 2]
        } else {
            0
        };
    }
}

// Lists the first n call records by way of lines in the words from a place on.
fn by_lines(calls: &[u64], n: usize, list: &mut [u64], words: &mut [u64], at: usize)
    requires n_in_bounds { (call_width * n ≤ length calls.now) × (n ≤ length list.old) × CallsOnce (call_table calls.now n) }
    requires room { at + line_width * n + line_width * n ≤ length words.old }
    ensures calls_listed { CallsListed (call_table calls.now n) (length list.old) list.new }
    ensures below { Below at words.old words.new }
{
    put_lines(calls, n, words, at);
    radix::sort(words, at, at + radix::LINE_WORDS * n, n);
    take_numbers(words, at, n, list);
}

// Writes the numbers of the first n call records to the head of the list, by action and then state, and 0 past them. The words from `at` on are
// lent and may hold anything then.
pub fn list(calls: &[u64], n: usize, list: &mut [u64], words: &mut [u64], at: usize)
    requires n_in_bounds { (call_width * n ≤ length calls.now) × (n ≤ length list.old) × CallsOnce (call_table calls.now n) }
    requires at_in_bounds { at ≤ length words.old }
    ensures calls_listed { CallsListed (call_table calls.now n) (length list.old) list.new }
    ensures below { Below at words.old words.new }
{
    if n <= (words.len() - at) / (radix::LINE_WORDS + radix::LINE_WORDS) {
        by_lines(calls, n, list, words, at);
        return;
    }
    by_heap(calls, n, list);
}
