// The accounts in the words kept. That of the first party begins at word 0, that of the second at word 21.
ghost use Rattle.std.specs.Prelude.{◌≡◌, ◌+◌, ◌≤◌, length};
ghost use Rattle.sharing.specs.Parties.{account_at};
ghost use Rattle.accounts.specs.Accounts.{StepCount, GoalWord, GoalRead};

// The words of a ledger: two accounts, the count of call records and that of answer records.
pub const LEDGER_WORDS: usize = 44;

// Where the second account begins: an account has 21 words.
pub const SECOND: usize = 21;

// Where the goal of an account begins.
const GOAL: usize = 5;

// The most steps of a goal.
const MOST_STEPS: usize = 16;

// What `goal_into` gives where there is no good goal.
const NO_GOAL: usize = 17;

// A limit of calls and one of answers.
#[derive(Clone, Copy)]
pub struct Limits {
    pub calls: u64,
    pub answers: u64,
}

// The limits of the account that begins at word `at`.
pub fn limits_of(kept: &[u64], at: usize) -> Limits
    requires { at + 22 ≤ length kept.now }
    ensures calls_value { result.calls ≡ (account_at kept.now at).call_limit }
    ensures answers_value { result.answers ≡ (account_at kept.now at).answer_limit }
{
    Limits {
        calls: kept[at],
        answers: kept[at + 1],
    }
}

// Whether it holds rows.
pub fn holds(kept: &[u64], at: usize) -> bool
    requires { at + 22 ≤ length kept.now }
    ensures { result ≡ (account_at kept.now at).holds }
{
    kept[at + 2] != 0
}

// The start that it holds rows for; 0 where it holds none.
pub fn start(kept: &[u64], at: usize) -> u64
    requires { at + 22 ≤ length kept.now }
    ensures { result ≡ (account_at kept.now at).start }
{
    if holds(kept, at) { kept[at + 3] } else { 0 }
}

// The count of steps of the goal that it holds rows for, or a number over 16 where they are more; 0 where it holds none.
pub fn steps(kept: &[u64], at: usize) -> usize
    requires { at + 22 ≤ length kept.now }
    ensures { StepCount (account_at kept.now at).goal result }
{
    if holds(kept, at) {
        kept[at + 4] as usize
    } else {
        0
    }
}

// Word i of its goal.
pub fn step(kept: &[u64], at: usize, i: usize) -> u64
    requires { (at + 22 ≤ length kept.now) × (i ≤ 16) }
    ensures { GoalWord kept.now at i result }
{
    kept[at + GOAL + i]
}

// The highest word of 16 bits.
const MOST_WORD: u64 = 65535;

// Reads its goal into 16 places and gives the count of steps; 17 where there are more than 16 or one is no word of 16 bits.
pub fn goal_into(kept: &[u64], at: usize, goal: &mut [u16]) -> usize
    requires { (at + 22 ≤ length kept.now) × (16 ≤ length goal.old) }
    ensures { GoalRead (account_at kept.now at).goal goal.old goal.new result }
{
    let count = steps(kept, at);
    if MOST_STEPS < count {
        return NO_GOAL;
    }
    for i in 0..count {
        let word = step(kept, at, i);
        if MOST_WORD < word {
            return NO_GOAL;
        }
        goal[i] = word as u16;
    }
    count
}
