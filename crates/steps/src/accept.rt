// Acceptance of counts, rule words, goal and start: the refusals 20 to 24.
ghost use Rattle.std.specs.Prelude.{◌≡◌, ◌+◌, ◌*◌, ◌/◌, ◌≤◌, length, get_or};
ghost use Rattle.steps.specs.Acceptance.{each_below, good_step, good_word, good_rule};
ghost use Rattle.steps.specs.Acceptance.{bad_counts, bad_length, bad_rules, bad_goal, bad_state, words_refusal, refusal_of};
ghost use Rattle.steps.specs.Widths.{rule_width};
ghost use Rattle.refusals.specs.Number.{number_in};

use crate::word;
use crate::word::Kind;
use refusals::Refusal;

// Whether a step word is a step of these fluents and actions.
#[tactic(auto, unfolding(crate::specs::Acceptance::good_step))]
pub fn good_step(fluents: u64, actions: u64, step: u16) -> bool
    ensures { result ≡ good_step fluents actions step }
{
    let index = word::index(step);
    match Kind::of(step) {
        Some(Kind::Call) => index < actions,
        Some(_) => index < fluents,
        None => false,
    }
}

// Whether step word i of a rule with n steps is good, or unused and 0.
#[tactic(auto, unfolding(crate::specs::Acceptance::good_word))]
fn good_word(fluents: u64, actions: u64, n: usize, i: usize, step: u16) -> bool
    ensures { result ≡ good_word fluents actions n i step }
{
    if i < n {
        good_step(fluents, actions, step)
    } else {
        step == 0
    }
}

// Whether the 16 step words of rule r, which has n steps, are good.
fn good_body(fluents: u64, actions: u64, rules: &[u16], r: usize, n: usize) -> bool
    requires { rule_width * r + rule_width ≤ length rules.now }
    ensures { result ≡ each_below 16 (λ i. good_word fluents actions n i (get_or rules.now (rule_width * r + 2 + i) 0)) }
{
    (0..16).all(|i| good_word(fluents, actions, n, i, rules[word::RULE_WORDS * r + 2 + i]))
}

// Whether rule r is good.
#[tactic(auto, unfolding(crate::specs::Acceptance::good_rule))]
fn good_rule(fluents: u64, actions: u64, rules: &[u16], r: usize) -> bool
    requires { rule_width * r + rule_width ≤ length rules.now }
    ensures { result ≡ good_rule fluents actions rules.now r }
{
    let head = u64::from(rules[word::RULE_WORDS * r]);
    let n = usize::from(rules[word::RULE_WORDS * r + 1]);
    head < actions && n < 17 && good_body(fluents, actions, rules, r, n)
}

// Whether some rule is bad: 22.
#[tactic(auto, unfolding(crate::specs::Acceptance::bad_rules))]
fn bad_rules(fluents: u64, actions: u64, rules: &[u16]) -> bool
    ensures { result ≡ bad_rules fluents actions rules.now }
{
    !(0..rules.len() / word::RULE_WORDS).all(|r| good_rule(fluents, actions, rules, r))
}

// Whether there are over 64 fluents or over 64 actions: 20.
#[tactic(auto, unfolding(crate::specs::Acceptance::bad_counts))]
fn bad_counts(fluents: u64, actions: u64) -> bool
    ensures { result ≡ bad_counts fluents actions }
{
    64 < fluents || 64 < actions
}

// Whether the rule words are not 18 to a rule, or are of over 256 rules: 21.
#[tactic(auto, unfolding(crate::specs::Acceptance::bad_length))]
fn bad_length(rules: &[u16]) -> bool
    ensures { result ≡ bad_length rules.now }
{
    rules.len() % word::RULE_WORDS != 0 || 256 < rules.len() / word::RULE_WORDS
}

// Whether the goal has over 16 steps or a bad one: 23.
#[tactic(auto, unfolding(crate::specs::Acceptance::bad_goal))]
fn bad_goal(fluents: u64, actions: u64, goal: &[u16]) -> bool
    ensures { result ≡ bad_goal fluents actions goal.now }
{
    16 < goal.len() || !goal.iter().all(|step| good_step(fluents, actions, *step))
}

// Whether a state has a bit at or above the fluent count: of a start it is 24.
#[tactic(auto, unfolding(crate::specs::Acceptance::bad_state))]
pub fn bad_state(fluents: u64, start: u64) -> bool
    ensures { result ≡ bad_state fluents start }
{
    fluents < 64 && start >> fluents != 0
}

// The first of 20 to 23 that counts, rule words and goal meet.
#[tactic(auto, unfolding(crate::specs::Acceptance::words_refusal))]
pub fn words_refusal(fluents: u64, actions: u64, rules: &[u16], goal: &[u16]) -> Result<(), Refusal>
    ensures { number_in result ≡ words_refusal fluents actions rules.now goal.now }
{
    if bad_counts(fluents, actions) {
        return Err(Refusal::BadCounts);
    }
    if bad_length(rules) {
        return Err(Refusal::BadLength);
    }
    if bad_rules(fluents, actions, rules) {
        return Err(Refusal::BadRule);
    }
    if bad_goal(fluents, actions, goal) {
        return Err(Refusal::BadGoal);
    }
    Ok(())
}

// The first of 20 to 24 that is met; where none is, rules, goal and start are accepted.
#[tactic(auto, unfolding(crate::specs::Acceptance::refusal_of))]
pub fn refusal(
    fluents: u64,
    actions: u64,
    rules: &[u16],
    goal: &[u16],
    start: u64,
) -> Result<(), Refusal>
    ensures { number_in result ≡ refusal_of fluents actions rules.now goal.now start }
{
    words_refusal(fluents, actions, rules, goal)?;
    if bad_state(fluents, start) {
        return Err(Refusal::BadStart);
    }
    Ok(())
}
