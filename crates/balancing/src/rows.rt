// The records of tables handed back, each by itself: 42 of shared tables, and 0 past them.
ghost use Rattle.std.specs.Prelude.{◌≤◌};
ghost use Rattle.records.specs.Bodies.{Short, bodies_with};
ghost use Rattle.matching.specs.Flags.{Whether};
ghost use Rattle.balancing.specs.Balancing.{call_room, answer_room, GoodTables};

use checks::{clear, tables};
use records::bodies::Goals;

// Whether every call record is good, every answer justified, and all past the records 0.
pub fn good_tables<'a>(
    fluents: u64,
    actions: u64,
    rules: &'a [u16],
    goal: &'a [u16],
    second: &'a [u16],
    goals: Goals,
    calls: &[u64],
    n: usize,
    answers: &[u64],
    m: usize,
) -> bool
    requires { Short rules.now goal.now × Short rules.now second.now × (n ≤ call_room calls.now) × (m ≤ answer_room answers.now) }
    ensures { Whether (GoodTables goals.first goals.second fluents actions
        (bodies_with rules.now goals.first goals.second goal.now second.now)
        calls.now n answers.now m) result }
{
    if tables::bad_rows(
        fluents, actions, rules, goal, second, goals, calls, n, answers, m,
    ) {
        return false;
    }
    if !clear::clear_past(calls, stowing::CALL_WORDS * n) {
        return false;
    }
    clear::clear_past(answers, stowing::ANSWER_WORDS * m)
}
