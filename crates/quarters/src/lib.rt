// Words of 64 bits as four numbers of 16 bits each, their quarters.
#![tactic(auto)]

ghost use Rattle.std.specs.Prelude.{◌≡◌, ◌<◌, ◌≤◌, ◌^◌, length, get_or};
ghost use Rattle.quarters.specs.Quarters.{quarter, Changed, QuarterPut};

// What one in quarter j of a word counts.
fn unit_of(j: usize) -> u64
    requires { j < 4 }
    ensures { (result ≡ 65536 ^ j) × (0 < result) }
{
    1 << (16 * j)
}

// Quarter j of word i.
pub fn get(words: &[u64], i: usize, j: usize) -> usize
    requires { (i < length words.now) × (j < 4) }
    ensures { (result ≡ quarter (get_or words.now i 0) j) × (result ≤ 65535) }
{
    (words[i] / unit_of(j) % 65536) as usize
}

// A word with v for its quarter j.
fn with_quarter(word: u64, j: usize, v: u64) -> u64
    requires { (j < 4) × (v ≤ 65535) }
    ensures { Changed word j v result }
{
    let unit = unit_of(j);
    word - word / unit % 65536 * unit + v * unit
}

// Puts v into quarter j of word i.
pub fn put(words: &mut [u64], i: usize, j: usize, v: usize)
    requires { (i < length words.old) × (j < 4) × (v ≤ 65535) }
    ensures { QuarterPut words.old i j v words.new }
{
    words[i] = with_quarter(words[i], j, v as u64);
}
