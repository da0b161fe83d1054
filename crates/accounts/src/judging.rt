// Whether what is kept meets 23, 24, 40 or 90, whatever the tables hold.
ghost use Rattle.std.specs.Prelude.{◌≡◌, true, false, ◌||◌, ◌+◌, ◌≤◌, length, ltb};
ghost use Rattle.steps.specs.Acceptance.{bad_goal, bad_state};
ghost use Rattle.sharing.specs.Parties.{opened, account_at, ledger_width, ledger_of};
ghost use Rattle.sharing.specs.Charged.{over_limits, over_rooms};
ghost use Rattle.accounts.specs.Accounts.{Sound};

use crate::reading;
use crate::reading::Limits;
use records::tables;
use steps::accept;

// A call record has 2 words, an answer record 19.
const CALL_WORDS: usize = 2;

const ANSWER_WORDS: usize = 19;

// Where the counts of records stand.
const CALLS: usize = 42;

const ANSWERS: usize = 43;

// Whether a goal that is kept has over 16 steps or a bad one: 23.
pub fn bad_goal(fluents: u64, actions: u64, kept: &[u64], at: usize) -> bool
    requires { at + 22 ≤ length kept.now }
    ensures { result ≡ bad_goal fluents actions (account_at kept.now at).goal }
{
    let count = reading::steps(kept, at);
    if 16 < count {
        return true;
    }
    for i in 0..count {
        let word = reading::step(kept, at, i);
        if 65535 < word {
            return true;
        }
        if !accept::good_step(fluents, actions, word as u16) {
            return true;
        }
    }
    false
}

// Whether its goal meets 23 or its start 24.
pub fn bad_account(fluents: u64, actions: u64, kept: &[u64], at: usize) -> bool
    requires { at + 22 ≤ length kept.now }
    ensures { result ≡ (bad_goal fluents actions (account_at kept.now at).goal
        || bad_state fluents (account_at kept.now at).start) }
{
    bad_goal(fluents, actions, kept, at) || accept::bad_state(fluents, reading::start(kept, at))
}

// Whether two limits add up to more than a room. They may be any words, and their sum none: so the first is taken from the room.
fn over(room: usize, first: u64, second: u64) -> bool
    ensures { result ≡ ltb room (first + second) }
{
    let places = room as u64;
    places < first || places - first < second
}

// Whether the limits of both parties add up to more than the room of a table: 90.
pub fn over_limits(first: Limits, second: Limits, calls: &[u64], answers: &[u64]) -> bool
    ensures { result ≡ over_limits (opened first.calls first.answers second.calls second.answers)
        calls.now answers.now }
{
    let call_room = tables::room_of(calls.len(), CALL_WORDS);
    let answer_room = tables::room_of(answers.len(), ANSWER_WORDS);
    over(call_room, first.calls, second.calls) || over(answer_room, first.answers, second.answers)
}

// Whether a count of records is over its room: 40.
pub fn over_rooms(kept: &[u64], calls: &[u64], answers: &[u64]) -> bool
    requires { length kept.now ≡ ledger_width }
    ensures { result ≡ over_rooms (ledger_of kept.now) calls.now answers.now }
{
    let call_room = tables::room_of(calls.len(), CALL_WORDS) as u64;
    let answer_room = tables::room_of(answers.len(), ANSWER_WORDS) as u64;
    call_room < kept[CALLS] || answer_room < kept[ANSWERS]
}

// Whether what is kept is not 44 words or meets 23, 24, 40 or 90 with tables of these lengths.
pub fn bad_kept(fluents: u64, actions: u64, kept: &[u64], calls: &[u64], answers: &[u64]) -> bool
    ensures { (result ≡ false → Sound fluents actions kept.now calls.now answers.now)
        × (result ≡ true → ¬ Sound fluents actions kept.now calls.now answers.now) }
{
    if kept.len() != reading::LEDGER_WORDS {
        return true;
    }
    if bad_account(fluents, actions, kept, 0) {
        return true;
    }
    if bad_account(fluents, actions, kept, reading::SECOND) {
        return true;
    }
    if over_rooms(kept, calls, answers) {
        return true;
    }
    let first = reading::limits_of(kept, 0);
    let second = reading::limits_of(kept, reading::SECOND);
    over_limits(first, second, calls, answers)
}
