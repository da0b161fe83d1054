// The functions of `include/lawhemuri.h` for two parties that share one pair of tables (request R-14), each by the contract of its operation. They
// are compiled apart from those of `api`, so that the code of an evaluation alone is made for it alone.
#![tactic(auto)]

ghost use Rattle.evaluator.specs.Evaluated.{asked};
ghost use Rattle.sharing.specs.Parties.{opened};
ghost use Rattle.sharing.specs.Shared.{Opening};
ghost use Rattle.sharing.specs.SharedPath.{Traced};
ghost use Rattle.panel.specs.Reply as run;

// Opens one pair of tables for two parties, with a limit of calls and of answers for each: both are emptied, and the words kept from then on are
// given. 90 changes nothing.
pub fn lawhemuri_open(
    first_calls: u64,
    first_answers: u64,
    second_calls: u64,
    second_answers: u64,
    calls: &mut [u64],
    answers: &mut [u64],
) -> opening::Opened
    ensures { Opening (opened first_calls first_answers second_calls second_answers) calls.old answers.old
        result.refusal result.kept.words calls.new answers.new }
{
    opening::open(
        first_calls,
        first_answers,
        second_calls,
        second_answers,
        calls,
        answers,
    )
}

// Runs the goal of the second party, or else of the first, from the start: both tables hold the rows of both parties then, its ends stand in rising
// order in `ends`, and the words kept from then on are given.
pub fn lawhemuri_share<'a>(
    second: bool,
    fluents: u64,
    actions: u64,
    rules: &'a [u16],
    goal: &'a [u16],
    start: u64,
    kept: &[u64],
    calls: &mut [u64],
    answers: &mut [u64],
    ends: &mut [u64],
) -> panel::Shared
    ensures { run.RunOf second (asked fluents actions rules.now goal.now start) kept.now
        (run.panel calls.old answers.old ends.old)
        (run.panel calls.new answers.new ends.new)
        (run.reply result.refusal result.ends result.calls result.answers result.kept.words) }
{
    panel::share(
        second, fluents, actions, rules, goal, start, kept, calls, answers, ends,
    )
}

// Lists the path of an answer record of tables that two parties share, and that may come from anybody: the states come first in the list, which is
// unchanged past them and by a refusal.
pub fn lawhemuri_share_path<'a>(
    fluents: u64,
    actions: u64,
    rules: &'a [u16],
    kept: &[u64],
    calls: &[u64],
    answers: &[u64],
    record: u64,
    states: &mut [u64],
) -> path::outcome::Path
    ensures { Traced fluents actions rules.now kept.now calls.now answers.now «record»
        states.old result.refusal result.states states.new }
{
    tracing::share_path(
        fluents, actions, rules, kept, calls, answers, record, states,
    )
}
