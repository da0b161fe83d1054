// 65,536 numbers of three bytes: the two lowest bytes of each, number after number, and behind them all the third byte of each. The two lowest
// stand by themselves so that they are written at once, as they are read: three bytes in a row would be written one by one, and a processor
// waits when it reads at once what it has just written in pieces.
#![tactic(auto)]

ghost use Rattle.std.specs.Prelude.{◌≡◌, ◌+◌, ◌<◌, ◌≤◌, length, get_or, set};
ghost use Rattle.cells.specs.Numbers.{limit, number, numbers, Kept};

// The byte at a place.
fn byte(bytes: &[u8], at: usize) -> usize
    requires { at < length bytes.now }
    ensures { (result ≡ get_or bytes.now at 0) × (result < 256) }
{
    bytes[at] as usize
}

// The number that two bytes make up.
fn get_two(bytes: &[u8], at: usize) -> usize
    requires { at + 2 ≤ length bytes.now }
    ensures { (result ≡ number 2 bytes.now at) × (result < 65536) }
{
    byte(bytes, at) + 256 * byte(bytes, at + 1)
}

// Number n.
pub fn get(bytes: &[u8], n: usize) -> usize
    requires { n < length (numbers bytes.now) }
    ensures { result ≡ get_or (numbers bytes.now) n 0 }
{
    get_two(bytes, 2 * n) + 65536 * byte(bytes, 131072 + n)
}

// Puts the lowest byte of a value at a place.
fn put_one(bytes: &mut [u8], at: usize, value: usize)
    requires { at < length bytes.old }
    ensures { Kept 1 bytes.old at value bytes.new }
{
    bytes[at] = (value % 256) as u8;
}

// Puts the two lowest bytes of a value from a place on.
fn put_two(bytes: &mut [u8], at: usize, value: usize)
    requires { at + 2 ≤ length bytes.old }
    ensures { Kept 2 bytes.old at value bytes.new }
{
    bytes[at] = (value % 256) as u8;
    bytes[at + 1] = (value / 256 % 256) as u8;
}

// Makes number n the value.
pub fn put(bytes: &mut [u8], n: usize, value: usize)
    requires { (n < length (numbers bytes.old)) × (value < limit) }
    ensures { numbers bytes.new ≡ set (numbers bytes.old) n value }
{
    put_two(bytes, 2 * n, value);
    put_one(bytes, 131072 + n, value / 65536);
}
