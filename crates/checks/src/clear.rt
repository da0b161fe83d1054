// Words that are 0.
ghost use Rattle.std.specs.Prelude.{◌≡◌, ◌≤◌, length};
ghost use Rattle.checks.specs.Checks.{clear_between, clear_past};

// Whether every word from the first place on and below the second is 0.
pub fn clear_between(words: &[u64], from: usize, to: usize) -> bool
    requires { (from ≤ to) × (to ≤ length words.now) }
    ensures { result ≡ clear_between words.now from to }
{
    words[from..to].iter().all(|word| *word == 0)
}

// Whether every word from this place on is 0.
pub fn clear_past(words: &[u64], from: usize) -> bool
    requires { from ≤ length words.now }
    ensures { result ≡ clear_past words.now from }
{
    clear_between(words, from, words.len())
}
