// Tabled evaluation of a goal over rule words: the call table and the list are cleared, the goal's call is put in, and rounds fill the tables
// (crate `filling`); then the ends are counted and listed (crate `finals`), the calls are listed by action and then state (crate `listing`), and
// both tables are given as they are promised.
#![tactic(auto)]

ghost use Rattle.std.specs.Prelude.{◌≡◌, true, false, [], ◌∷◌, ℕ, ◌*◌, ◌≤◌, length, replicate, MatchOption};
ghost use Rattle.records.specs.Records.{room, call_table, call_width, answer_table, answer_width};
ghost use Rattle.steps.specs.Run.{Goal};
ghost use Rattle.steps.proofs.AcceptanceLaws.{AcceptedWords};
ghost use Rattle.records.proofs.Growth.{Tables, CallsOnce, AnswersOnce};
ghost use Rattle.invariants.proofs.Tabulated.{Tabulated};
ghost use Rattle.canonical.proofs.Beginning.{Begins};
ghost use Rattle.desk.specs.Desk.{open_calls, packed_answers, CallsClosed, AnswersClosed};
ghost use Rattle.finals.specs.Finals.{CallFinals};
ghost use Rattle.listing.specs.Listing.{CallsListed};
ghost use Rattle.evaluator.specs.Evaluated.{Evaluated, asked, lent, told};
ghost use Rattle.refusals.specs.Number.{number_of};

use records::bodies::Goals;
use records::tables;
use refusals::Refusal;
use steps::accept;
use steps::state::Call;

// The refusal, 0 for none, the counts of ends, calls and answers, and the number of rounds that added something.
// Stays: numbers beside one another, since C sees them, and a list of ends that is too short is told with all counts.
#[repr(C)]
#[derive(Clone, Copy, Debug, PartialEq, Eq)]
pub struct Run {
    pub refusal: u64,
    pub ends: u64,
    pub calls: u64,
    pub answers: u64,
    pub rounds: u64,
}

impl Run {
    // A refusal with no counts.
    fn refused(refusal: Refusal) -> Run
        ensures { told result.refusal result.ends result.calls result.answers result.rounds ≡ told (number_of refusal) 0 0 0 0 }
    {
        Run {
            refusal: refusal.number(),
            ends: 0,
            calls: 0,
            answers: 0,
            rounds: 0,
        }
    }
}

// The counts of ends, calls and answers of tables that are given, and the number of rounds that added something.
#[derive(Clone, Copy, Debug, PartialEq, Eq)]
struct Tabled {
    ends: u64,
    calls: usize,
    answers: usize,
    rounds: u64,
}

// Gives the tables where the rounds are over, with the calls listed. Before that the ends are counted, and listed if their list has places for
// them, since the answer table has free words till then.
fn give(
    start: u64,
    calls: &mut [u64],
    n: usize,
    answers: &mut [u64],
    m: usize,
    ends: &mut [u64],
    list: &mut [u64],
) -> u64
    requires n_in_bounds { (call_width * n ≤ length calls.old) × (n ≤ 65536) × (n ≤ length list.old) × CallsOnce (open_calls calls.old n) }
    requires m_bound { (m ≤ room answer_width (length answers.old)) × AnswersOnce (packed_answers answers.old m) }
    ensures calls_closed { CallsClosed calls.old n calls.new × AnswersClosed answers.old m answers.new }
    ensures calls_listed { CallsListed (call_table calls.new n) (length list.old) list.new
        × CallFinals (call_table calls.new n) (answer_table answers.new m) Goal start result
        ends.old ends.new }
{
    desk::close_calls(calls, n);
    let free = desk::OPEN_WORDS * tables::room_of(answers.len(), tables::ANSWER_WORDS);
    let found = finals::of_call(calls, n, Call::goal(start), answers, m, ends, free);
    listing::list(calls, n, list, answers, free);
    desk::close_answers(answers, m);
    found
}

// Fills the tables with the calls and answers of the goal from the start, lists the calls, counts the ends, and lists them if their list has
// places for them. The call table and the list are wholly 0 before; where a table is full there is nothing to give, and all three may hold anything.
fn tabulate<'a>(
    rules: &'a [u16],
    goal: &'a [u16],
    start: u64,
    calls: &mut [u64],
    answers: &mut [u64],
    ends: &mut [u64],
    list: &mut [u64],
) -> Option<Tabled>
    requires by_index { (fluents : ℕ) × (actions : ℕ) × AcceptedWords fluents actions rules.now goal.now }
    requires calls_value { (calls.old ≡ replicate (length calls.old) 0) × (list.old ≡ replicate (length list.old) 0)
        × (room call_width (length calls.old) ≤ length list.old) }
    ensures list_long { length list.new ≡ length list.old }
    ensures tabled { MatchOption result
        ((ends.new ≡ ends.old) × ((b : Tables) × (n : ℕ) × (m : ℕ) × (rounds : ℕ)
        × Tabulated rules.now goal.now ((Goal, start) ∷ []) 0 b calls.old answers.old calls.new answers.new true n m rounds))
        (λ t. (b : Tables) × Begins start b
        × Tabulated rules.now goal.now ((Goal, start) ∷ []) 0 b calls.old answers.old calls.new answers.new false t.calls t.answers t.rounds
        × CallsListed (call_table calls.new t.calls) (length list.old) list.new
        × CallFinals (call_table calls.new t.calls) (answer_table answers.new t.answers) Goal start t.ends ends.old ends.new) }
{
    let put = index::add_new(calls, 0, list, Call::goal(start), 0);
    if put.full {
        return None;
    }
    let most = tables::room_of(answers.len(), tables::ANSWER_WORDS);
    let filled = filling::fill(
        rules,
        goal,
        goal,
        Goals::ALONE,
        calls,
        put.count,
        list,
        answers,
        0,
        most,
        0,
    );
    match filled {
        Ok(counted) => {
            let found = give(
                start,
                calls,
                counted.calls,
                answers,
                counted.answers,
                ends,
                list,
            );
            Some(Tabled {
                ends: found,
                calls: counted.calls,
                answers: counted.answers,
                rounds: counted.rounds,
            })
        }
        Err(_) => None,
    }
}

// Evaluates the goal from the start: fills the tables with its calls and answers, lists its ends in rising order in `ends`, and the
// numbers of its call records, by action and then state, in `list`.
pub fn evaluate<'a>(
    fluents: u64,
    actions: u64,
    rules: &'a [u16],
    goal: &'a [u16],
    start: u64,
    calls: &mut [u64],
    answers: &mut [u64],
    ends: &mut [u64],
    list: &mut [u64],
) -> Run
    ensures { Evaluated (asked fluents actions rules.now goal.now start)
        (lent calls.old answers.old ends.old list.old)
        (lent calls.new answers.new ends.new list.new)
        (told result.refusal result.ends result.calls result.answers result.rounds) }
{
    if let Err(refusal) = accept::refusal(fluents, actions, rules, goal, start) {
        return Run::refused(refusal);
    }
    if list.len() < tables::room_of(calls.len(), tables::CALL_WORDS) {
        return Run::refused(Refusal::CallListShort);
    }
    tables::clear(calls);
    tables::clear(list);
    let Some(run) = tabulate(rules, goal, start, calls, answers, ends, list) else {
        tables::clear(calls);
        tables::clear(answers);
        tables::clear(list);
        return Run::refused(Refusal::TablesFull);
    };
    let ran = Run {
        refusal: 0,
        ends: run.ends,
        calls: run.calls as u64,
        answers: run.answers as u64,
        rounds: run.rounds,
    };
    if (ends.len() as u64) < run.ends {
        return Run {
            refusal: Refusal::ListShort.number(),
            ..ran
        };
    }
    ran
}
