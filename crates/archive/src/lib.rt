// Paths by valve: states stored as one word per fluent for each block of 64 states, and restored from these words.
//
// Both ways are one: a word is a column of bits of a block of states, and a state is a column of bits of a block's words (`columns`).
#![tactic(auto)]

ghost use Rattle.std.specs.Prelude.{◌≡◌, ◌++◌, ◌*◌, ◌≤◌, ◌<◌, ◌^◌, length, drop};
ghost use Rattle.refusals.specs.Number.{number_in};
ghost use Rattle.archive.specs.Archive.{column, part, columns, blocks};
ghost use Rattle.archive.specs.Archived.{bad_states, bad_words, bad_bits, store_refusal, restore_refusal, count_in, StatesStored, StatesRestored};

use refusals::Refusal;
use steps::accept;

// What an operation gives: its refusal or 0, and how many words or states it has written, 0 where refused.
// Stays: two numbers, since C sees them; the tests inside give a Result.
#[repr(C)]
#[derive(Clone, Copy)]
pub struct Archived {
    pub refusal: u64,
    pub count: u64,
}

impl Archived {
    // An answer as it is told.
    fn of(answer: Result<u64, Refusal>) -> Archived
        ensures refusal { result.refusal ≡ number_in answer }
        ensures count { result.count ≡ count_in answer }
    {
        match answer {
            Ok(count) => Archived { refusal: 0, count },
            Err(refusal) => Archived {
                refusal: refusal.number(),
                count: 0,
            },
        }
    }
}

// Stores states by fluent. The words come first in `words`, which is unchanged past them and by a refusal.
pub fn store(fluents: u64, states: &[u64], words: &mut [u64]) -> Archived
    ensures { StatesStored fluents states.now words.old result.refusal result.count words.new }
{
    Archived::of(write_words(fluents, states, words))
}

// The same; how many words are written.
fn write_words(fluents: u64, states: &[u64], words: &mut [u64]) -> Result<u64, Refusal>
    ensures { StatesStored fluents states.now words.old (number_in result) (count_in result) words.new }
{
    may_store(fluents, states, words.len())?;
    let parts = blocks(states.len() as u64);
    let count = parts * fluents;
    columns(states, 64, fluents as usize, count as usize, words);
    Ok(count)
}

// Restores `count` states. They come first in `states`, which is unchanged past them and by a refusal.
pub fn restore(fluents: u64, count: u64, words: &[u64], states: &mut [u64]) -> Archived
    ensures { StatesRestored fluents count words.now states.old result.refusal result.count states.new }
{
    Archived::of(write_states(fluents, count, words, states))
}

// The same; how many states are written.
fn write_states(fluents: u64, count: u64, words: &[u64], states: &mut [u64]) -> Result<u64, Refusal>
    ensures { StatesRestored fluents count words.now states.old (number_in result) (count_in result) states.new }
{
    may_restore(fluents, count, words, states.len())?;
    columns(words, fluents as usize, 64, count as usize, states);
    Ok(count)
}

// The first of 20, 24 and 80 that is met.
fn may_store(fluents: u64, states: &[u64], room: usize) -> Result<(), Refusal>
    ensures { number_in result ≡ store_refusal fluents states.now room }
{
    if 64 < fluents {
        return Err(Refusal::BadCounts);
    }
    if bad_states(fluents, states) {
        return Err(Refusal::BadStart);
    }
    if (room as u64) < blocks(states.len() as u64) * fluents {
        return Err(Refusal::OutputShort);
    }
    Ok(())
}

// The first of 20, 81, 82 and 80 that is met.
fn may_restore(fluents: u64, count: u64, words: &[u64], room: usize) -> Result<(), Refusal>
    ensures { number_in result ≡ restore_refusal fluents count words.now room }
{
    if 64 < fluents {
        return Err(Refusal::BadCounts);
    }
    if bad_words(fluents, count, words) {
        return Err(Refusal::BadWordCount);
    }
    if bad_bits(fluents, count, words) {
        return Err(Refusal::BitPastEnd);
    }
    if (room as u64) < count {
        return Err(Refusal::OutputShort);
    }
    Ok(())
}

// Whether some state has a bit at or above the fluent count: 24.
fn bad_states(fluents: u64, states: &[u64]) -> bool
    ensures { result ≡ bad_states fluents states.now }
{
    states
        .iter()
        .any(|&state| accept::bad_state(fluents, state))
}

// Whether the words are not one per fluent for each block of `count` states: 81. They are counted by division, since the right
// number may be over 64 bits.
fn bad_words(fluents: u64, count: u64, words: &[u64]) -> bool
    ensures { result ≡ bad_words fluents count words.now }
{
    let len = words.len() as u64;
    if fluents == 0 {
        return len != 0;
    }
    if len % fluents != 0 {
        return true;
    }
    len / fluents != blocks(count)
}

// Whether a word of the last block has a bit past the last state: 82.
fn bad_bits(fluents: u64, count: u64, words: &[u64]) -> bool
    requires { (fluents ≤ 64) × (length words.now ≡ blocks count * fluents) }
    ensures { result ≡ bad_bits fluents count words.now }
{
    let used = count % 64;
    if used == 0 {
        return false;
    }
    let last = count / 64 * fluents;
    words[last as usize..].iter().any(|&word| word >> used != 0)
}

// How many blocks of 64 states this many states make; `count + 63` might be over 64 bits.
fn blocks(count: u64) -> u64
    ensures { result ≡ blocks count }
{
    count / 64 + (count % 64 + 63) / 64
}

// Of the list, cut into parts of `size`: columns 0 to m - 1 of each part, n in all, come first in `out`, which is unchanged past them.
fn columns(list: &[u64], size: usize, m: usize, n: usize, out: &mut [u64])
    requires { (size ≤ 64) × (m ≤ 64) × (n ≤ length out.old) × (n ≤ 2 ^ 57 * m) }
    ensures { out.new ≡ columns size m n list.now ++ drop n out.old }
{
    for (j, word) in out[..n].iter_mut().enumerate() {
        *word = column(part(list, size, j / m), (j % m) as u64);
    }
}

// Part b of the list, cut into parts of `size`.
fn part(list: &[u64], size: usize, b: usize) -> &[u64]
    requires { (size ≤ 64) × (b < 2 ^ 57) }
    ensures { result.now ≡ part size b list.now }
{
    let rest = &list[list.len().min(size * b)..];
    &rest[..rest.len().min(size)]
}

// Bit k of each word, that of word i at i.
fn column(words: &[u64], k: u64) -> u64
    requires { (length words.now ≤ 64) × (k < 64) }
    ensures { result ≡ column k words.now }
{
    let mut word = 0;
    for i in (0..words.len()).rev() {
        word = 2 * word + (words[i] >> k) % 2;
    }
    word
}
