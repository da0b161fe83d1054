// Marking a trainee's record: for every action and every place of the record, the mask of the places to which some deduction of the action carries
// out just the steps between. Masks grow, place by place from the last, until a pass over the rules adds nothing.
#![tactic(auto)]

ghost use Rattle.std.specs.Prelude.{◌≤◌, ◌≡◌, length};
ghost use Rattle.refusals.specs.Number.{number_in};
ghost use Rattle.steps.specs.Words.{body_of};
ghost use Rattle.marking.specs.Marking.{question, bad_recorded_steps, refusal, RecordMarked};
ghost use Rattle.marking.specs.Inner.{Ran, Cleared};

use refusals::Refusal;
use steps::state::State;
use steps::{accept, word};

mod passes;

// What marking gives: its refusal or 0, and 1 for a yes, else 0.
// Stays: two numbers, since C sees them; the tests inside give a Result.
#[repr(C)]
#[derive(Clone, Copy)]
pub struct Marked {
    pub refusal: u64,
    pub yes: u64,
}

// Whether some complete deduction of the goal from the start carries out just the recorded steps, in order. The first 4,096 words of `table` then
// say the same of every action and any part of the record; it is unchanged past them and by a refusal.
pub fn mark(
    fluents: u64,
    actions: u64,
    rules: &[u16],
    goal: &[u16],
    start: u64,
    recorded: &[u16],
    table: &mut [u64],
) -> Marked
    ensures { RecordMarked (question fluents actions rules.now goal.now start recorded.now)
        table.old result.refusal result.yes table.new }
{
    if let Err(refusal) = record_refusal(
        fluents,
        actions,
        rules,
        goal,
        start,
        recorded,
        table.len(),
    ) {
        return Marked {
            refusal: refusal.number(),
            yes: 0,
        };
    }
    let runs = runs_of(start, recorded);
    clear(table);
    passes::settle_all(rules, runs, recorded, table);
    let ends = masks::walk_mask(goal, 0, runs, recorded, table);
    Marked {
        refusal: 0,
        yes: (ends >> recorded.len()) % 2,
    }
}

// The first of 20 to 24, 60, 61 and 62 that is met.
#[tactic(auto, unfolding(crate::specs::Marking::refusal))]
fn record_refusal(
    fluents: u64,
    actions: u64,
    rules: &[u16],
    goal: &[u16],
    start: u64,
    recorded: &[u16],
    room: usize,
) -> Result<(), Refusal>
    ensures { number_in result ≡ refusal (question fluents actions rules.now goal.now start recorded.now) room }
{
    accept::refusal(fluents, actions, rules, goal, start)?;
    if 63 < recorded.len() {
        return Err(Refusal::LongRecord);
    }
    if room < 4096 {
        return Err(Refusal::MarksShort);
    }
    if bad_record(fluents, actions, recorded) {
        return Err(Refusal::BadRecordedStep);
    }
    Ok(())
}

// Whether a recorded step is a call or bad: 62.
fn bad_record(fluents: u64, actions: u64, recorded: &[u16]) -> bool
    ensures { result ≡ bad_recorded_steps fluents actions recorded.now }
{
    !recorded.iter().all(|step| !word::is_call(*step) && accept::good_step(fluents, actions, *step))
}

// How many of the recorded steps can run, one after another from the start.
fn runs_of(start: u64, recorded: &[u16]) -> usize
    ensures { Ran (body_of recorded.now) start result }
{
    let mut state = State::of(start);
    for (i, step) in recorded.iter().enumerate() {
        match word::elementary(*step, state) {
            Some(after) => state = after,
            None => return i,
        }
    }
    recorded.len()
}

// Sets the first 4,096 words to 0.
fn clear(table: &mut [u64])
    requires { 4096 ≤ length table.old }
    ensures { Cleared table.old table.new }
{
    table[..4096].fill(0);
}
