// Masks of places: bit j of a mask stands for place j of the record. Where the steps of a body come to, walked from a place over the record and
// a table of masks; and what is added to the table.
#![tactic(auto)]

ghost use Rattle.std.specs.Prelude.{ℕ, ◌+◌, ◌*◌, ◌/◌, ◌%◌, ◌<◌, ◌≤◌, ◌≡◌, [], ◌∷◌, length};
ghost use Rattle.steps.specs.State.{bit, holds};
ghost use Rattle.steps.specs.Words.{head_of};
ghost use Rattle.steps.specs.Widths.{rule_width};
ghost use Rattle.masks.specs.Masks.{Mask, WalkTo, Guide, GoodWord, GoodWords, Walkable, Added};

use steps::word;

// Whether place p is in a mask.
pub fn has(mask: u64, p: usize) -> bool
    requires { p < 64 }
    ensures { result ≡ holds mask p }
{
    (mask >> p) % 2 == 1
}

// The first place of a mask.
pub fn lowest(mask: u64) -> usize
    requires { 0 < mask }
    ensures { (result < 64) × (bit mask result ≡ 1) }
{
    u64::trailing_zeros(mask) as usize
}

// The places to which one step comes from place p.
pub fn reach(step: u16, p: usize, runs: usize, recorded: &[u16], table: &[u64]) -> u64
    requires { Guide recorded.now runs table.now × (p < 64) × GoodWord step }
    ensures { Mask result (WalkTo recorded.now runs table.now p (step ∷ [])) }
{
    if word::is_call(step) {
        let action = word::index(step) as usize;
        return table[64 * action + p];
    }
    if p < runs && recorded[p] == step {
        return 1 << (p + 1);
    }
    0
}

// The places to which one step comes from the places of a mask.
pub fn spread(mask: u64, step: u16, runs: usize, recorded: &[u16], table: &[u64]) -> u64
    requires { Guide recorded.now runs table.now × GoodWord step }
    ensures { Mask result (λ j. (p : ℕ) × (p < 64) × (bit mask p ≡ 1)
        × WalkTo recorded.now runs table.now p (step ∷ []) j) }
{
    let mut out: u64 = 0;
    let mut rest = mask;
    while rest != 0 {
        let p = lowest(rest);
        out |= reach(step, p, runs, recorded, table);
        rest -= 1 << p;
    }
    out
}

// The places to which a body comes from a place.
pub fn walk_mask(body: &[u16], place: usize, runs: usize, recorded: &[u16], table: &[u64]) -> u64
    requires { Guide recorded.now runs table.now × (place < 64) × GoodWords body.now }
    ensures { Mask result (WalkTo recorded.now runs table.now place body.now) }
{
    let mut mask: u64 = 1 << place;
    for step in body {
        mask = spread(mask, *step, runs, recorded, table);
    }
    mask
}

// The head of rule r.
pub fn head(rules: &[u16], r: usize) -> usize
    requires { (r < length rules.now / rule_width) × Walkable rules.now }
    ensures { (result ≡ head_of rules.now r) × (result < 64) }
{
    rules[word::RULE_WORDS * r] as usize
}

// Adds the places of a mask to the word of rule r's head at a place. Says whether the word has gained one.
pub fn add(rules: &[u16], r: usize, mask: u64, place: usize, table: &mut [u64]) -> bool
    requires { (r < length rules.now / rule_width) × Walkable rules.now × (place < 64) × (4096 ≤ length table.old) }
    ensures { Added rules.now place r mask table.old table.new result }
{
    let at = 64 * head(rules, r) + place;
    let old = table[at];
    if old | mask != old {
        table[at] = old | mask;
        return true;
    }
    false
}
