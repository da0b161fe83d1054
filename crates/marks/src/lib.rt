// Marks: the low 32 bits of the first word of each call record. Of these the low 16 are the marks of the places 0 to 15, the others the number
// of the walk that set them. A word of an earlier walk holds no mark, so a walk begins without clearing any.
#![tactic(auto)]

ghost use Rattle.std.specs.Prelude.{◌≡◌, false, ◌+◌, ◌*◌, ◌/◌, ◌<◌, ◌≤◌, length, get_or};
ghost use Rattle.records.specs.Records.{call_width};
ghost use Rattle.records.specs.Storage.{Stored};
ghost use Rattle.desk.specs.Desk.{mark_words};
ghost use Rattle.marks.specs.Marks.{Stamped, word_in, with_mark, Marked, Fresh, MarksAlone, MarksPut, Unmarked};

use records::tables;
use steps::state::State;

// The marks of a call record.
fn marks_of(calls: &[u64], row: usize) -> u64
    requires { call_width * row < length calls.now }
    ensures { result ≡ mark_words calls.now row }
{
    calls[tables::CALL_WORDS * row] % 4294967296
}

// The marks of a call record, without those of earlier walks.
#[tactic(auto, unfolding(crate::specs::Marks::word_in))]
fn word_in(calls: &[u64], walk: u64, row: usize) -> u64
    requires { Stamped (mark_words calls.now) walk × (call_width * row < length calls.now) }
    ensures { result ≡ word_in (mark_words calls.now) walk row }
{
    let word = marks_of(calls, row);
    if word / 65536 == walk {
        word
    } else {
        walk * 65536
    }
}

// Writes the marks of a call record.
fn put_marks(calls: &mut [u64], row: usize, word: u64)
    requires { (call_width * row < length calls.old) × (word < 4294967296) }
    ensures { MarksAlone (row + 1) calls.old calls.new × MarksPut calls.old row word calls.new }
{
    let first = calls[tables::CALL_WORDS * row];
    calls[tables::CALL_WORDS * row] = first / 4294967296 * 4294967296 + word;
}

// Whether the walk has marked this place of the call record.
pub fn is_marked(calls: &[u64], walk: u64, place: usize, row: usize) -> bool
    requires { Stamped (mark_words calls.now) walk × (call_width * row < length calls.now) × (place < 16) }
    ensures { Marked (mark_words calls.now) walk place row result }
{
    State::of(word_in(calls, walk, row)).holds(place as u64)
}

// Marks this place of the call record.
pub fn mark(calls: &mut [u64], walk: u64, place: usize, row: usize)
    requires { Stamped (mark_words calls.old) walk × (call_width * row < length calls.old) × (place < 16)
        × Marked (mark_words calls.old) walk place row false }
    ensures calls_after { mark_words calls.new ≡ with_mark (mark_words calls.old) walk place row }
    ensures marks_alone { MarksAlone (row + 1) calls.old calls.new }
{
    let word = State::of(word_in(calls, walk, row)).insert(place as u64);
    put_marks(calls, row, word.0);
}

// Takes all marks from the call records from n0 up to n.
pub fn unmark_from(calls: &mut [u64], n0: usize, n: usize)
    requires { (n0 ≤ n) × (call_width * n ≤ length calls.old) }
    ensures { Unmarked n0 n calls.old calls.new }
{
    for i in n0..n {
        put_marks(calls, i, 0);
    }
}

// The number of the next walk, which has no mark yet. Numbers have 16 bits: after the last one all marks of the n call records are taken away
// and walks counted anew.
pub fn next_walk(calls: &mut [u64], n: usize, walk: u64) -> u64
    requires { Stamped (mark_words calls.old) walk × Stored call_width calls.old n }
    ensures { Fresh (mark_words calls.new) result × MarksAlone n calls.old calls.new }
{
    if walk < 65535 {
        return walk + 1;
    }
    unmark_from(calls, 0, n);
    1
}
