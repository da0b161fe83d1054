// Passes over the rules at a place, until one adds nothing to the table; and so at every place, from the last to the first, since a body walked from
// a place reads no word of an earlier one.
ghost use Rattle.std.specs.Prelude.{ℕ, ◌+◌, ◌*◌, ◌/◌, ◌%◌, ◌<◌, ◌≤◌, ◌≡◌, true, false, List, ◌≢◌, length};
ghost use Rattle.std.specs.Int.Bits.{bit_or};
ghost use Rattle.steps.specs.State.{bit};
ghost use Rattle.steps.specs.Widths.{rule_width};
ghost use Rattle.steps.specs.Inner.{is_call};
ghost use Rattle.masks.specs.Masks.{Guide, GoodWord, GoodWords, Walkable, NoCall};
ghost use Rattle.masks.specs.Masks.{SoundMarks, Widened, Turned, Fresh, Passed, Settled, AllSettled};

use records::bodies;
use steps::word;

// Whether a step calls one of these actions.
fn calls(step: u16, actions: u64) -> bool
    requires { GoodWord step }
    ensures { result ≡ false → is_call step ≡ true → bit actions (step % 256) ≡ 0 }
{
    word::is_call(step) && masks::has(actions, word::index(step) as usize)
}

// Whether a body has to be walked: nothing is known to have gained (0), or it calls an action that has.
fn stale(body: &[u16], gained: u64, more: u64) -> bool
    requires { GoodWords body.now }
    ensures { result ≡ false → (gained ≢ 0) × NoCall (bit_or gained more) body.now }
{
    if gained == 0 {
        return true;
    }
    for step in body {
        if calls(*step, gained | more) {
            return true;
        }
    }
    false
}

// Walks rule r at a place and adds the places to which it comes to its head's word. Says whether the word has gained one.
fn widen(
    rules: &[u16],
    r: usize,
    place: usize,
    runs: usize,
    recorded: &[u16],
    table: &mut [u64],
) -> bool
    requires { Guide recorded.now runs table.old × (place ≤ runs) × (r < length rules.now / rule_width) × Walkable rules.now }
    ensures { Widened rules.now recorded.now runs place r table.old table.new result }
{
    let mask = masks::walk_mask(bodies::rule_steps(rules, r), place, runs, recorded, table);
    masks::add(rules, r, mask, place, table)
}

// Rule r in a pass: it is walked if an action that it calls has gained in the pass before (`gained`; 0 for all) or in this one (`more`). Gives the
// actions that have gained in this pass then.
fn turn(
    rules: &[u16],
    r: usize,
    place: usize,
    runs: usize,
    recorded: &[u16],
    table: &mut [u64],
    gained: u64,
    more: u64,
) -> u64
    requires { Guide recorded.now runs table.old × (place ≤ runs) × (r < length rules.now / rule_width) × Walkable rules.now }
    ensures { (before : List ℕ) → Turned rules.now recorded.now runs place gained r before table.old more
        → Turned rules.now recorded.now runs place gained (r + 1) before table.new result }
{
    if stale(bodies::rule_steps(rules, r), gained, more)
        && widen(rules, r, place, runs, recorded, table)
    {
        return more | 1 << masks::head(rules, r);
    }
    more
}

// One pass over the rules at a place, after these actions have gained there. Gives the actions that gained in it.
fn pass(
    rules: &[u16],
    place: usize,
    runs: usize,
    recorded: &[u16],
    table: &mut [u64],
    gained: u64,
) -> u64
    requires { Guide recorded.now runs table.old × (place ≤ runs) × Walkable rules.now
        × (gained ≢ 0 → Fresh rules.now recorded.now runs place gained table.old) }
    ensures { Passed rules.now recorded.now runs place table.old table.new result }
{
    let mut more: u64 = 0;
    for r in 0..rules.len() / word::RULE_WORDS {
        more = turn(rules, r, place, runs, recorded, table, gained, more);
    }
    more
}

// Passes at a place until one adds nothing.
fn settle(rules: &[u16], place: usize, runs: usize, recorded: &[u16], table: &mut [u64])
    requires { Guide recorded.now runs table.old × (place ≤ runs) × Walkable rules.now }
    ensures { Settled rules.now recorded.now runs place table.old table.new }
{
    let mut gained = pass(rules, place, runs, recorded, table, 0);
    while gained != 0 {
        gained = pass(rules, place, runs, recorded, table, gained);
    }
}

// Settles every place up to `runs`, the last first. Gains are followed before the passes, which then have nothing to add.
fn settle_places(rules: &[u16], calls: &[u16], runs: usize, recorded: &[u16], table: &mut [u64])
    requires { Guide recorded.now runs table.old × Walkable rules.now × SoundMarks rules.now recorded.now runs table.old
        × (length calls.now ≡ 4161) }
    ensures { AllSettled rules.now recorded.now runs 0 table.old table.new }
{
    for place in (0..runs + 1).rev() {
        gains::gain(rules, calls, place, runs, recorded, table);
        settle(rules, place, runs, recorded, table);
    }
}

// Settles every place.
pub(crate) fn settle_all(rules: &[u16], runs: usize, recorded: &[u16], table: &mut [u64])
    requires { Guide recorded.now runs table.old × Walkable rules.now × SoundMarks rules.now recorded.now runs table.old }
    ensures { AllSettled rules.now recorded.now runs 0 table.old table.new }
{
    let mut calls = [0u16; 4161];
    gains::list_calls(rules, &mut calls);
    settle_places(rules, &calls, runs, recorded, table);
}
