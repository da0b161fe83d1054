// The checks 40 and 42 of whole tables.
ghost use Rattle.std.specs.Prelude.{◌≡◌, true, false, not, ℕ, ◌+◌, ◌*◌, ◌≤◌, ◌<◌, length};
ghost use Rattle.steps.specs.Acceptance.{each_below, words_refusal};
ghost use Rattle.records.specs.Records.{bodies_of, call_table, answer_table};
ghost use Rattle.records.specs.Storage.{calls_in, answers_in, call_width_of, answer_width_of};
ghost use Rattle.records.specs.Bodies.{Short, bodies_with};
ghost use Rattle.checks.specs.Checks.{over_room, bad_records, good_row, good_record, bad_plain};

use crate::justified::all_justified;
use records::bodies::Goals;
use records::{bodies, tables};
use steps::accept;

// No call comes in a later round.
const LAST_ROUND: u64 = 131071;

// Whether a record count is over its room: 40.
pub fn over_room(calls: &[u64], call_count: u64, answers: &[u64], answer_count: u64) -> bool
    ensures { result ≡ over_room calls.now call_count answers.now answer_count }
{
    (tables::room_of(calls.len(), tables::CALL_WORDS) as u64) < call_count
        || (tables::room_of(answers.len(), tables::ANSWER_WORDS) as u64) < answer_count
}

// Whether call record i has a good action and a good state.
fn good_row(plain: bool, goals: Goals, fluents: u64, actions: u64, calls: &[u64], i: usize) -> bool
    requires { call_width_of plain * i + call_width_of plain ≤ length calls.now }
    ensures { (c : ℕ) → result ≡ good_row goals.first goals.second fluents actions
        (calls_in (call_width_of plain) calls.now c) i }
{
    let width = tables::call_width(plain);
    let action = tables::action_of(calls, width, i);
    if !bodies::is_goal(goals, action) && actions <= action {
        return false;
    }
    !accept::bad_state(fluents, tables::state_of(calls, width, i).0)
}

// Whether call record i is good: one that is not plain is of a run alone, and has a round.
fn good_call(plain: bool, goals: Goals, fluents: u64, actions: u64, calls: &[u64], i: usize) -> bool
    requires { call_width_of plain * i + call_width_of plain ≤ length calls.now }
    ensures { (c : ℕ) → result ≡ good_record plain goals.first goals.second fluents actions
        (calls_in (call_width_of plain) calls.now c) i }
{
    if plain {
        return good_row(true, goals, fluents, actions, calls, i);
    }
    if good_row(false, Goals::ALONE, fluents, actions, calls, i) {
        return tables::round_of(calls, tables::CALL_OTHERS, tables::CALL_WORDS, i) <= LAST_ROUND;
    }
    false
}

// Whether every call record is good.
fn good_calls(
    plain: bool,
    goals: Goals,
    fluents: u64,
    actions: u64,
    calls: &[u64],
    call_count: usize,
) -> bool
    requires { call_width_of plain * call_count ≤ length calls.now }
    ensures { result ≡ each_below call_count (good_record plain goals.first goals.second fluents actions
        (calls_in (call_width_of plain) calls.now call_count)) }
{
    for i in 0..call_count {
        if !good_call(plain, goals, fluents, actions, calls, i) {
            return false;
        }
    }
    true
}

// Whether a call record is bad or an answer is not justified: 42. The words lent meet none of 20 to 23 and the counts not 40.
pub fn bad_records<'a>(
    fluents: u64,
    actions: u64,
    rules: &'a [u16],
    goal: &'a [u16],
    calls: &[u64],
    call_count: u64,
    answers: &[u64],
    answer_count: u64,
) -> bool
    requires { (words_refusal fluents actions rules.now goal.now ≡ 0)
        × (over_room calls.now call_count answers.now answer_count ≡ false) }
    ensures { result ≡ bad_records fluents actions (bodies_of rules.now goal.now)
        (call_table calls.now call_count) (answer_table answers.now answer_count) }
{
    if good_calls(
        false,
        Goals::ALONE,
        fluents,
        actions,
        calls,
        call_count as usize,
    ) {
        return !all_justified(
            false,
            rules,
            goal,
            goal,
            Goals::ALONE,
            calls,
            call_count as usize,
            answers,
            answer_count as usize,
        );
    }
    true
}

// Whether a call record is bad or an answer is not justified in tables of plain records that two parties share: 42 there.
pub fn bad_rows<'a>(
    fluents: u64,
    actions: u64,
    rules: &'a [u16],
    goal: &'a [u16],
    second: &'a [u16],
    goals: Goals,
    calls: &[u64],
    n: usize,
    answers: &[u64],
    m: usize,
) -> bool
    requires { Short rules.now goal.now × Short rules.now second.now × (call_width_of true * n ≤ length calls.now)
        × (m ≤ 65536) × (answer_width_of true * m ≤ length answers.now) }
    ensures { result ≡ bad_plain goals.first goals.second fluents actions
        (bodies_with rules.now goals.first goals.second goal.now second.now)
        (calls_in (call_width_of true) calls.now n) (answers_in (answer_width_of true) answers.now m) }
{
    if good_calls(true, goals, fluents, actions, calls, n) {
        return !all_justified(true, rules, goal, second, goals, calls, n, answers, m);
    }
    true
}
