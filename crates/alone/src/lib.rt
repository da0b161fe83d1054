// A party's goal evaluated by itself, over the words of the tables that two parties share (request R-14).
//
// It stands under 64 whichever party asks: a run has as many calls, answers and ends under either number. It is evaluated in places as many as the
// party's limits, which the rooms of the tables are no less than: where these are full the run exceeds the limits, and takes no more time for larger
// tables; else its ends are listed. The records are given up then: those that the tables are to hold are filled in together with the other party's
// (crate `settling`).
#![tactic(auto)]

ghost use Rattle.std.specs.Prelude.{◌≡◌, true, false, ◌*◌, ◌≤◌, length, MatchResult};
ghost use Rattle.steps.specs.Run.{Goal};
ghost use Rattle.steps.specs.Words.{run_of};
ghost use Rattle.records.specs.Records.{room, call_width, call_table};
ghost use Rattle.records.proofs.Growth.{AnswersOnce};
ghost use Rattle.desk.specs.Desk.{packed_answers, CallsClosed};
ghost use Rattle.finals.specs.Finals.{CallFinals};
ghost use Rattle.invariants.proofs.Filling.{Accepted};
ghost use Rattle.sharing.specs.Parties.{vacant};
ghost use Rattle.sharing.specs.Charged.{plain_call_width, plain_answer_width};
ghost use Rattle.alone.specs.Alone.{RanAlone};

use accounts::reading::Limits;
use joint::Full;
use records::bodies::Goals;
use records::tables;
use steps::state::Call;

// How many ends, calls and answers the run has.
#[derive(Clone, Copy, Debug, PartialEq, Eq)]
pub struct Lone {
    pub ends: u64,
    pub calls: usize,
    pub answers: usize,
}

// How many ends the goal has from the start, where the rounds are over. They are listed if the list has places for them, else it stays. The call
// records are given for that, and the words of the answers that are free may hold anything then.
fn ends_of(
    start: u64,
    rows: &mut [u64],
    n: usize,
    answers: &mut [u64],
    m: usize,
    most: usize,
    ends: &mut [u64],
) -> u64
    requires n_in_bounds { (call_width * n ≤ length rows.old) × (n ≤ 65536) × AnswersOnce (packed_answers answers.old m) }
    requires m_le_most { (m ≤ most) × (most ≤ 65536) × (plain_answer_width * most ≤ length answers.old) }
    ensures calls_closed { CallsClosed rows.old n rows.new × (length answers.new ≡ length answers.old) }
    ensures call_finals { CallFinals (call_table rows.new n) (packed_answers answers.old m) Goal start result
        ends.old ends.new }
{
    desk::close_calls(rows, n);
    let free = desk::OPEN_WORDS * most;
    finals::of_call(rows, n, Call::goal(start), answers, m, ends, free)
}

// Evaluates the goal from the start in places as many as the limits, or finds these full.
fn within<'a>(
    rules: &'a [u16],
    goal: &'a [u16],
    start: u64,
    limits: Limits,
    rows: &mut [u64],
    calls: &mut [u64],
    answers: &mut [u64],
    ends: &mut [u64],
) -> Result<Lone, Full>
    requires accepted { Accepted rules.now goal.now goal.now }
    requires rows_len { (length rows.old ≡ call_width * limits.calls) × (length calls.old ≡ limits.calls) × (limits.calls ≤ 65536) }
    requires answers_bound { limits.answers ≤ room plain_answer_width (length answers.old) }
    ensures rows_len_unchanged { (length rows.new ≡ length rows.old) × (length calls.new ≡ length calls.old)
        × (length answers.new ≡ length answers.old) }
    ensures ran_alone { MatchResult result
        (λ r. RanAlone (run_of rules.now goal.now start) (vacant limits.calls limits.answers) false r.ends r.calls r.answers ends.old ends.new)
        (λ r. RanAlone (run_of rules.now goal.now start) (vacant limits.calls limits.answers) true 0 0 0 ends.old ends.new) }
{
    let most = limits.answers as usize;
    let filled = joint::fill_rows(
        rules,
        goal,
        goal,
        Goals::ALONE,
        start,
        start,
        rows,
        calls,
        answers,
        most,
    )?;
    let n = filled.calls;
    let m = filled.answers;
    let found = ends_of(start, rows, n, answers, m, most, ends);
    Ok(Lone {
        ends: found,
        calls: n,
        answers: m,
    })
}

// Evaluates the goal from the start, unless its run exceeds the limits: its counts, and its ends, listed if the list has places for them. The
// other slices may hold anything before and after.
pub fn alone<'a>(
    rules: &'a [u16],
    goal: &'a [u16],
    start: u64,
    limits: Limits,
    rows: &mut [u64],
    calls: &mut [u64],
    answers: &mut [u64],
    ends: &mut [u64],
) -> Result<Lone, Full>
    requires accepted { Accepted rules.now goal.now goal.now }
    requires rows_len { (length rows.old ≡ call_width * room plain_call_width (length calls.old))
        × (limits.calls ≤ room plain_call_width (length calls.old))
        × (limits.answers ≤ room plain_answer_width (length answers.old)) }
    ensures rows_len_unchanged { (length rows.new ≡ length rows.old) × (length calls.new ≡ length calls.old)
        × (length answers.new ≡ length answers.old) }
    ensures ran_alone { MatchResult result
        (λ r. RanAlone (run_of rules.now goal.now start) (vacant limits.calls limits.answers) false r.ends r.calls r.answers ends.old ends.new)
        (λ r. RanAlone (run_of rules.now goal.now start) (vacant limits.calls limits.answers) true 0 0 0 ends.old ends.new) }
{
    let room = limits.calls as usize;
    let size = tables::CALL_WORDS * room;
    within(
        rules,
        goal,
        start,
        limits,
        &mut rows[..size],
        &mut calls[..room],
        answers,
        ends,
    )
}
