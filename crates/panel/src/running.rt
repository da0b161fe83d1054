// A party's run under an accepted book, with words lent for the call records of an evaluation.
ghost use Rattle.std.specs.Prelude.{◌≡◌, cond, [], ◌*◌, ◌≤◌, length, ltb};
ghost use Rattle.refusals.specs.Run.{run_refusals};
ghost use Rattle.steps.specs.Acceptance.{words_refusal};
ghost use Rattle.records.specs.Records.{room, call_width};
ghost use Rattle.evaluator.specs.Evaluated.{asked};
ghost use Rattle.sharing.specs.Charged.{plain_call_width, AsKept};
ghost use Rattle.panel.specs.Reply.{panel, reply, RunOf};

use crate::{Shared, leaving};
use accounts::writing::Kept;
use accounts::{reading, writing};
use alone::Lone;
use refusals::Refusal;
use steps::accept;

// The counts of a run within its limits; 31 if the list has too few places for its ends.
fn told(lone: Lone, kept: Kept, places: usize) -> Shared
    ensures { reply result.refusal result.ends result.calls result.answers result.kept.words
        ≡ reply (cond (ltb places lone.ends) run_refusals.list_short 0) lone.ends lone.calls lone.answers kept.words }
{
    let ran = Shared {
        refusal: 0,
        ends: lone.ends,
        calls: lone.calls as u64,
        answers: lone.answers as u64,
        kept,
    };
    if (places as u64) < lone.ends {
        return Shared {
            refusal: Refusal::ListShort.number(),
            ..ran
        };
    }
    ran
}

// A run over tables that are as kept.
fn run_kept<'a>(
    second: bool,
    fluents: u64,
    actions: u64,
    rules: &'a [u16],
    goal: &'a [u16],
    start: u64,
    kept: &[u64],
    rows: &mut [u64],
    calls: &mut [u64],
    answers: &mut [u64],
    ends: &mut [u64],
) -> Shared
    requires rules_value { (words_refusal fluents actions rules.now [] ≡ 0) × AsKept fluents actions rules.now kept.now calls.old answers.old }
    requires rows_len { length rows.old ≡ call_width * room plain_call_width (length calls.old) }
    ensures { RunOf second (asked fluents actions rules.now goal.now start) kept.now
        (panel calls.old answers.old ends.old)
        (panel calls.new answers.new ends.new)
        (reply result.refusal result.ends result.calls result.answers result.kept.words) }
{
    if let Err(refusal) = accept::refusal(fluents, actions, rules, goal, start) {
        let left = leaving::give_up(second, rules, kept, rows, calls, answers);
        return Shared::refused(refusal, left);
    }
    let places = ends.len();
    let own = reading::limits_of(kept, writing::place(second));
    match alone::alone(rules, goal, start, own, rows, calls, answers, ends) {
        Ok(lone) => {
            let left = leaving::take_up(second, rules, goal, start, kept, rows, calls, answers);
            told(lone, left, places)
        }
        Err(_) => {
            let left = leaving::give_up(second, rules, kept, rows, calls, answers);
            Shared::refused(Refusal::TablesFull, left)
        }
    }
}

// A run: 91 if the tables are not as kept.
pub fn run<'a>(
    second: bool,
    fluents: u64,
    actions: u64,
    rules: &'a [u16],
    goal: &'a [u16],
    start: u64,
    kept: &[u64],
    rows: &mut [u64],
    bytes: &mut [u8],
    calls: &mut [u64],
    answers: &mut [u64],
    ends: &mut [u64],
) -> Shared
    requires rules_value { words_refusal fluents actions rules.now [] ≡ 0 }
    requires rows_len { (length rows.old ≡ call_width * room plain_call_width (length calls.old))
        × (room plain_call_width (length calls.old) ≤ length bytes.old) }
    ensures { RunOf second (asked fluents actions rules.now goal.now start) kept.now
        (panel calls.old answers.old ends.old)
        (panel calls.new answers.new ends.new)
        (reply result.refusal result.ends result.calls result.answers result.kept.words) }
{
    if balancing::as_kept(fluents, actions, rules, kept, rows, bytes, calls, answers) {
        return run_kept(
            second, fluents, actions, rules, goal, start, kept, rows, calls, answers, ends,
        );
    }
    Shared::unchanged(Refusal::NotAsKept, kept)
}
