// Gains followed at a place. For each rule and each of its steps the places come to so far are noted, and an action whose word gains has only the
// calls of it looked at, from which only places that are new there are walked on. So a place is walked on once from a step. All that is added is
// right; that nothing is missing is left to the passes, and they find nothing to add.
#![tactic(auto)]

ghost use Rattle.std.specs.Prelude.{ℕ, ◌+◌, ◌*◌, ◌/◌, ◌%◌, ◌<◌, ◌≤◌, ◌≡◌, get_or, length, set};
ghost use Rattle.std.specs.Int.Bits.{bit_or};
ghost use Rattle.steps.specs.State.{bit};
ghost use Rattle.steps.specs.Widths.{rule_width};
ghost use Rattle.masks.specs.Masks.{GoodWord, Walkable, SoundMarks, Grown, Guide, Came, Ready};

use records::bodies;
use steps::word;

// ---- the calls of each action: word 65 + n of `calls` has the number of the n-th, those of an action together, from word `action` up to the next
// word. Step p of rule r has the number 17 r + p.

// Lists the step of this number behind those listed, if it calls the action. Gives how many are listed then.
fn list_step(step: u16, number: usize, action: usize, listed: usize, calls: &mut [u16]) -> usize
    requires { (number < 4352) × (listed ≤ 4096) × (length calls.old ≡ 4161) }
    ensures { result ≤ 4096 }
{
    if listed == 4096 || !word::is_call(step) || word::index(step) as usize != action {
        return listed;
    }
    calls[65 + listed] = number as u16;
    listed + 1
}

fn list_rule(rules: &[u16], r: usize, action: usize, from: usize, calls: &mut [u16]) -> usize
    requires { (r < length rules.now / rule_width) × Walkable rules.now × (from ≤ 4096) × (length calls.old ≡ 4161) }
    ensures { result ≤ 4096 }
{
    let mut listed = from;
    for (p, step) in bodies::rule_steps(rules, r).iter().enumerate() {
        listed = list_step(*step, 17 * r + p, action, listed, calls);
    }
    listed
}

fn list_action(rules: &[u16], action: usize, from: usize, calls: &mut [u16]) -> usize
    requires { Walkable rules.now × (from ≤ 4096) × (length calls.old ≡ 4161) }
    ensures { result ≤ 4096 }
{
    let mut listed = from;
    for r in 0..rules.len() / word::RULE_WORDS {
        listed = list_rule(rules, r, action, listed, calls);
    }
    listed
}

// Lists the calls of every action.
pub fn list_calls(rules: &[u16], calls: &mut [u16])
    requires { Walkable rules.now × (length calls.old ≡ 4161) }
{
    let mut listed = 0;
    for action in 0..64 {
        calls[action] = listed as u16;
        listed = list_action(rules, action, listed, calls);
    }
    calls[64] = listed as u16;
}

// ---- gains

// Notes the places found. Gives those that were not noted before.
fn note(notes: &mut [u64], at: usize, found: u64) -> u64
    requires { at < length notes.old }
    ensures { ((j : ℕ) → bit result j ≡ 1 → bit found j ≡ 1)
        × (notes.new ≡ set notes.old at (bit_or (get_or notes.old at 0) found)) }
{
    let old = notes[at];
    notes[at] = old | found;
    found & !old
}

// Notes the places found before step p of rule r, and walks on from those that are new. Gives the rule's head, as a mask, if its word has gained.
fn walk_on(
    rules: &[u16],
    r: usize,
    from: usize,
    found: u64,
    place: usize,
    runs: usize,
    recorded: &[u16],
    table: &mut [u64],
    notes: &mut [u64],
) -> u64
    requires { Ready rules.now recorded.now runs place table.old notes.old × (r < length rules.now / rule_width) × (from ≤ 16)
        × Came rules.now recorded.now runs place r from found }
    ensures { Grown place table.old table.new
        × Ready rules.now recorded.now runs place table.new notes.new }
{
    let body = bodies::rule_steps(rules, r);
    let mut new = note(notes, 17 * r + from, found);
    for p in from..body.len() {
        if new == 0 {
            return 0;
        }
        let next = masks::spread(new, body[p], runs, recorded, table);
        new = note(notes, 17 * r + (p + 1), next);
    }
    if masks::add(rules, r, new, place, table) {
        return 1 << masks::head(rules, r);
    }
    0
}

// Walks on behind the call of this number, after the word of its action at the place has gained. Gives the head of its rule, as a mask, if that has
// gained. Nothing is done where all of the word is noted behind the call already, or where the steps before it do not come to the place itself.
fn walk_behind(
    rules: &[u16],
    number: usize,
    word: u64,
    place: usize,
    runs: usize,
    recorded: &[u16],
    table: &mut [u64],
    notes: &mut [u64],
) -> u64
    requires { Ready rules.now recorded.now runs place table.old notes.old × (number < 4351) }
    ensures { Grown place table.old table.new
        × Ready rules.now recorded.now runs place table.new notes.new }
{
    let noted = notes[number + 1];
    if noted | word == noted || !masks::has(notes[number], place) {
        return 0;
    }
    let r = number / 17;
    if rules.len() / word::RULE_WORDS <= r {
        return 0;
    }
    let body = bodies::rule_steps(rules, r);
    let p = number % 17;
    if body.len() <= p {
        return 0;
    }
    let found = masks::reach(body[p], place, runs, recorded, table);
    walk_on(rules, r, p + 1, found, place, runs, recorded, table, notes)
}

// Walks on behind every call of an action that has gained. Gives the actions that gain by it.
fn follow(
    rules: &[u16],
    action: usize,
    calls: &[u16],
    place: usize,
    runs: usize,
    recorded: &[u16],
    table: &mut [u64],
    notes: &mut [u64],
) -> u64
    requires { Ready rules.now recorded.now runs place table.old notes.old × (action < 64) × (length calls.now ≡ 4161) }
    ensures { Grown place table.old table.new
        × Ready rules.now recorded.now runs place table.new notes.new }
{
    let word = table[64 * action + place];
    let first = calls[action] as usize;
    let end = calls[action + 1] as usize;
    let mut more: u64 = 0;
    for n in first..end.min(4096) {
        let number = calls[65 + n] as usize;
        if 4350 < number {
            return more;
        }
        more |= walk_behind(rules, number, word, place, runs, recorded, table, notes);
    }
    more
}

// Walks every rule from its first step. Gives the actions that gain by it.
fn walk_all(
    rules: &[u16],
    place: usize,
    runs: usize,
    recorded: &[u16],
    table: &mut [u64],
    notes: &mut [u64],
) -> u64
    requires { Ready rules.now recorded.now runs place table.old notes.old }
    ensures { Grown place table.old table.new
        × Ready rules.now recorded.now runs place table.new notes.new }
{
    let mut more: u64 = 0;
    for r in 0..rules.len() / word::RULE_WORDS {
        more |= walk_on(rules, r, 0, 1 << place, place, runs, recorded, table, notes);
    }
    more
}

// Follows the gains of actions, one after another, until none is left. An action gains at most 64 times.
fn follow_all(
    rules: &[u16],
    actions: u64,
    calls: &[u16],
    place: usize,
    runs: usize,
    recorded: &[u16],
    table: &mut [u64],
    notes: &mut [u64],
)
    requires { Ready rules.now recorded.now runs place table.old notes.old × (length calls.now ≡ 4161) }
    ensures { Grown place table.old table.new
        × Ready rules.now recorded.now runs place table.new notes.new }
{
    let mut gained = actions;
    for _ in 0..4096 {
        if gained == 0 {
            return;
        }
        let action = masks::lowest(gained);
        let rest = gained - (1 << action);
        gained = rest | follow(rules, action, calls, place, runs, recorded, table, notes);
    }
}

// Walks every rule at a place and follows all gains there.
pub fn gain(
    rules: &[u16],
    calls: &[u16],
    place: usize,
    runs: usize,
    recorded: &[u16],
    table: &mut [u64],
)
    requires { Guide recorded.now runs table.old × (place ≤ runs) × Walkable rules.now × (length calls.now ≡ 4161)
        × SoundMarks rules.now recorded.now runs table.old }
    ensures { Grown place table.old table.new
        × SoundMarks rules.now recorded.now runs table.new }
{
    let mut notes = [0u64; 4352];
    let actions = walk_all(rules, place, runs, recorded, table, &mut notes);
    follow_all(
        rules, actions, calls, place, runs, recorded, table, &mut notes,
    );
}
