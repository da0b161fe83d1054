// The bodies that answers name, by their rule numbers: those of the rules in order, and 256 for the goal.
ghost use Rattle.std.specs.Prelude.{◌≡◌, ℕ, ◌/◌, ◌≤◌, ◌<◌, [], true, cond, ◌&&◌, length, eqb};
ghost use Rattle.steps.specs.Words.{count_of, words_of};
ghost use Rattle.steps.specs.Widths.{rule_width};
ghost use Rattle.records.specs.Bodies.{number_at, Short, second_goal, is_goal, bodies_with};

use steps::state::Call;

// The number under which the goal stands among the rules. Stays: answer records hold it as a word, and the tables are part of the C interface.
pub const GOAL_RULE: u64 = 256;

// The number under which a second party's goal stands in the tables. Stays: call records hold it as a word, for the same reason.
pub const SECOND_GOAL: u64 = 65;

// Which goals stand: the first party's under 64, the second's under 65. A run alone is the first party's.
// Stays: the two are independent, so the two fields are no flag with a value, and an enum of the four cases is no plainer.
#[derive(Clone, Copy, Debug, PartialEq, Eq)]
pub struct Goals {
    pub first: bool,
    pub second: bool,
}

impl Goals {
    // The goal of a run alone.
    pub const ALONE: Goals = Goals {
        first: true,
        second: false,
    };
}

// Whether the action is that of a goal which stands.
pub fn is_goal(goals: Goals, action: u64) -> bool
    ensures { result ≡ is_goal goals.first goals.second action }
{
    match action {
        SECOND_GOAL => goals.second,
        Call::GOAL => goals.first,
        _ => false,
    }
}

// The number of the k-th body of `count` rules and the goal behind them.
#[tactic(auto, unfolding(crate::specs::Bodies::number_at))]
pub fn number_of(k: usize, count: usize) -> u64
    ensures { result ≡ number_at count k }
{
    if k < count { k as u64 } else { GOAL_RULE }
}

// Whether the rule of this number is one of the action.
pub fn is_of(rules: &[u16], goals: Goals, number: u64, action: u64) -> bool
    ensures { result ≡ (bodies_with rules.now goals.first goals.second [] []).fits number action }
{
    if number == GOAL_RULE {
        return is_goal(goals, action);
    }
    number < (rules.len() / steps::word::RULE_WORDS) as u64
        && rules[steps::word::RULE_WORDS * (number as usize)] as u64 == action
}

// Whether the k-th body, of the rules and the goals behind them, is one of the action.
#[tactic(auto, unfolding(crate::specs::Bodies::number_at))]
pub fn is_at(rules: &[u16], goals: Goals, k: usize, action: u64) -> bool
    requires { length rules.now / rule_width ≤ 256 }
    ensures { result ≡ (bodies_with rules.now goals.first goals.second [] []
        ).fits (number_at (length rules.now / rule_width) k) action }
{
    if k < rules.len() / steps::word::RULE_WORDS {
        rules[steps::word::RULE_WORDS * k] as u64 == action
    } else {
        is_goal(goals, action)
    }
}

// The steps of rule r.
pub fn rule_steps(rules: &[u16], r: usize) -> &[u16]
    requires { (r < length rules.now / rule_width) × (count_of rules.now r ≤ 16) }
    ensures { result.now ≡ words_of rules.now r }
{
    let from = steps::word::RULE_WORDS * r + 2;
    let to = from + rules[steps::word::RULE_WORDS * r + 1] as usize;
    &rules[from..to]
}

// The goal that stands under this action.
fn goal_under<'a>(goal: &'a [u16], second: &'a [u16], goals: Goals, action: u64) -> &'a [u16]
    ensures { result.now ≡ cond (goals.second && eqb action second_goal) second.now goal.now }
{
    if goals.second && action == SECOND_GOAL {
        second
    } else {
        goal
    }
}

// The step words of the rule of this number, which is one of some action; a goal's are those of the goal under this action.
pub fn steps_for<'a>(
    rules: &'a [u16],
    goal: &'a [u16],
    second: &'a [u16],
    goals: Goals,
    number: u64,
    action: u64,
) -> &'a [u16]
    requires { Short rules.now goal.now × Short rules.now second.now
        × ((a : ℕ) × ((bodies_with rules.now goals.first goals.second goal.now second.now).fits number a ≡ true)) }
    ensures { (result.now ≡ (bodies_with rules.now goals.first goals.second goal.now second.now
        ).words number action) × (length result.now ≤ 16) }
{
    if number == GOAL_RULE {
        goal_under(goal, second, goals, action)
    } else {
        rule_steps(rules, number as usize)
    }
}
