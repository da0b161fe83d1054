// The rounds of an evaluation (serial-Horn Transaction Logic, figure 4 of source document 000).
//
// A round walks every body of every call record that stood when it began, with only the answers that stood then, and adds what it finds; a
// round that adds nothing is the last. A record whose callees have gained no answer since it was walked has nothing to add, and is passed; so is
// a body that stops at its first step. A walk that was done before passes over the answers that lead to nothing new (crate `uses`). A walk is a
// depth-first search over answers in rising order (crate `search`), so that a new answer comes by the least evidence of the lowest rule; at its
// end a round's records are put in order (crate `arranging`). Tables that a round adds nothing to are closed, and every record in them is reached
// or justified: so they hold exactly the run's calls and answers.
#![tactic(auto)]

ghost use Rattle.std.specs.Prelude.{◌≡◌, true, false, List, ℕ, ◌+◌, ◌/◌, ◌<◌, ◌≤◌, length, MatchResult};
ghost use Rattle.steps.specs.Widths.{rule_width};
ghost use Rattle.records.specs.Bodies.{bodies_with};
ghost use Rattle.tabling.proofs.Evidence.{Among, Valid};
ghost use Rattle.desk.specs.Desk.{packed_answers, mark_words};
ghost use Rattle.marks.specs.Marks.{Stamped};
ghost use Rattle.uses.specs.Uses.{heat, uses_in};
ghost use Rattle.invariants.proofs.Going.{Kept, Indexed, in_words};
ghost use Rattle.invariants.proofs.Filling.{Accepted, Standing, Went, Filled};
ghost use Rattle.invariants.proofs.Rounds.{Stopped};
ghost use Rattle.filling.specs.Others.{Other};

use records::bodies;
use records::bodies::Goals;
use search::{Job, Leave, Spot};
use steps::state::State;
use steps::word;

// How many records the tables hold where one of them is full.
#[derive(Clone, Copy, Debug, PartialEq, Eq)]
pub struct Full {
    pub calls: usize,
    pub answers: usize,
}

// How many records the tables hold, and how many rounds added some.
#[derive(Clone, Copy, Debug, PartialEq, Eq)]
pub struct Counted {
    pub calls: usize,
    pub answers: usize,
    pub rounds: u64,
}

// How far the rounds have come: how many records the tables hold, up to which call record and with which answers records were walked, the
// number of the last walk, and that of the round which is now.
#[derive(Clone, Copy)]
struct Stage {
    calls: usize,
    answers: usize,
    walked: usize,
    seen: usize,
    walk: u64,
    round: u64,
}

// What a round leaves: how many records there are then, and the number of its last walk.
#[derive(Clone, Copy)]
struct Ended {
    calls: usize,
    answers: usize,
    walk: u64,
}

// Whether a walk of the body goes past its first step, or comes to a call there or to the end.
fn goes_on(body: &[u16], state: State) -> bool
    ensures { result ≡ false → Stopped body.now state.0 }
{
    if body.len() == 0 {
        return true;
    }
    let step = body[0];
    if word::is_call(step) {
        return true;
    }
    match word::elementary(step, state) {
        Some(_) => true,
        None => false,
    }
}

// The first of the bodies, the goals' behind the rules', that is one of the action; or one more than there are.
fn first_body(rules: &[u16], goals: Goals, action: u64) -> usize
    requires { length rules.now / rule_width ≤ 256 }
    ensures { (result ≤ length rules.now / rule_width + 1) × ((k : ℕ) → k < result
        → Other rules.now goals.first goals.second k action) }
{
    let end = rules.len() / word::RULE_WORDS + 1;
    for k in 0..end {
        if bodies::is_at(rules, goals, k, action) {
            return k;
        }
    }
    end
}

// One more than the last of them that is, or 0.
fn past_body(rules: &[u16], goals: Goals, action: u64) -> usize
    requires { length rules.now / rule_width ≤ 256 }
    ensures { (result ≤ length rules.now / rule_width + 1) × ((k : ℕ) → result ≤ k
        → k < length rules.now / rule_width + 1 → Other rules.now goals.first goals.second k action) }
{
    let end = rules.len() / word::RULE_WORDS + 1;
    for k in (0..end).rev() {
        if bodies::is_at(rules, goals, k, action) {
            return k + 1;
        }
    }
    0
}

// One round: walks every body of the call records from `first` on, but for those that have nothing to add, with the answers that stood at its
// start, and adds what it finds.
fn round<'a>(
    rules: &'a [u16],
    goal: &'a [u16],
    second: &'a [u16],
    goals: Goals,
    most: usize,
    first: usize,
    stage: Stage,
    calls: &mut [u64],
    list: &mut [u64],
    answers: &mut [u64],
) -> Result<Ended, Full>
    requires accepted { Accepted rules.now goal.now second.now }
    requires standing { Standing (bodies_with rules.now goals.first goals.second goal.now second.now) most stage.round first stage.walked
        stage.seen calls.old list.old stage.calls answers.old stage.answers stage.walk }
    ensures { MatchResult result
        (λ r. Went (bodies_with rules.now goals.first goals.second goal.now second.now) most stage.round first stage.walked stage.seen
        calls.old list.old stage.calls answers.old stage.answers false calls.new list.new r.calls answers.new r.answers r.walk)
        (λ r. Went (bodies_with rules.now goals.first goals.second goal.now second.now) most stage.round first stage.walked stage.seen
        calls.old list.old stage.calls answers.old stage.answers true calls.new list.new r.calls answers.new r.answers 0) }
{
    let count = rules.len() / word::RULE_WORDS;
    let rows = stage.calls;
    let known = stage.answers;
    let walked = stage.walked;
    let seen = stage.seen;
    let round = stage.round;
    let span = uses::span_of(calls, list, answers, seen, known, walked, rows);
    let low = span.low;
    let high = span.high;
    let top = span.top;
    let mut n = rows;
    let mut m = known;
    let mut walk = stage.walk;
    // A full table breaks out of the rows, rules and steps by this label, to what follows.
    'round: {
        for row in low..top {
            if high <= row && row < walked {
                continue;
            }
            let own = desk::action_of(calls, row);
            let from = first_body(rules, goals, own);
            let past = past_body(rules, goals, own);
            for rule in from..past {
                let action = desk::action_of(calls, row);
                if !bodies::is_at(rules, goals, rule, action) {
                    continue;
                }
                let number = bodies::number_of(rule, count);
                let body = bodies::steps_for(rules, goal, second, goals, number, action);
                if !goes_on(body, desk::state_of(calls, row)) {
                    continue;
                }
                walk = marks::next_walk(calls, n, walk);
                let job = Job {
                    rule: number,
                    row: row,
                    known: known,
                    most: most,
                    walk: walk,
                    first: first,
                    old: span.old,
                    seen: seen,
                    warm: span.warm,
                    round: round,
                };
                let mut chosen = [0u64; 16];
                let mut rest = body;
                let mut spot = Spot {
                    state: desk::state_of(calls, row),
                    last: 0,
                };
                loop {
                    let turn = search::turn(
                        body,
                        rest,
                        job,
                        calls,
                        n,
                        list,
                        answers,
                        m,
                        &mut chosen,
                        spot,
                    );
                    n = turn.calls;
                    m = turn.answers;
                    match turn.leave {
                        Leave::On(after) => {
                            rest = &rest[1..];
                            spot = after;
                        }
                        Leave::Back(place, after) => {
                            rest = &body[place..];
                            spot = after;
                        }
                        Leave::Done => break,
                        Leave::Full => break 'round,
                    }
                }
            }
        }
        return Ok(Ended {
            calls: n,
            answers: m,
            walk: walk,
        });
    }
    Err(Full {
        calls: n,
        answers: m,
    })
}

// Rounds over the call records from `first` on until one adds nothing, under the rules and the goals that stand, or until a table is full. The
// tables hold n0 call records and m0 answers at first, which have come in no round; the call table can hold what its length allows, the answer
// table `most`. The rounds are counted from 1, and each record gets the number of the round that adds it; at a round's end its records are put in
// order.
pub fn fill<'a>(
    rules: &'a [u16],
    goal: &'a [u16],
    second: &'a [u16],
    goals: Goals,
    calls: &mut [u64],
    n0: usize,
    list: &mut [u64],
    answers: &mut [u64],
    m0: usize,
    most: usize,
    first: usize,
) -> Result<Counted, Full>
    requires kept { Kept most calls.old list.old n0 answers.old m0 × Indexed most calls.old list.old n0 answers.old m0
        × Stamped (mark_words calls.old) 0 × (first ≤ n0) × ((k : ℕ) → heat (uses_in calls.old list.old) k ≡ 0)
        × ((x : ℕ) → x < m0 → (packed_answers answers.old m0).round x ≡ 0) }
    requires accepted { Accepted rules.now goal.now second.now }
    requires by_index { (roots : List (ℕ × ℕ)) × Valid (bodies_with rules.now goals.first goals.second goal.now second.now) (Among roots)
        (in_words calls.old n0 answers.old m0) }
    ensures { (roots : List (ℕ × ℕ)) → Valid (bodies_with rules.now goals.first goals.second goal.now
        second.now) (Among roots) (in_words calls.old n0 answers.old m0)
        → MatchResult result
        (λ r. Filled (bodies_with rules.now goals.first goals.second goal.now second.now) most roots first (in_words calls.old n0 answers.old m0)
        calls.old list.old answers.old calls.new list.new answers.new false r.calls r.answers r.rounds)
        (λ r. Filled (bodies_with rules.now goals.first goals.second goal.now second.now) most roots first (in_words calls.old n0 answers.old m0)
        calls.old list.old answers.old calls.new list.new answers.new true r.calls r.answers 0) }
{
    let mut n = n0;
    let mut m = m0;
    let mut walked = first;
    let mut seen = 0;
    let mut walk: u64 = 0;
    let mut rounds: u64 = 0;
    loop {
        let stage = Stage {
            calls: n,
            answers: m,
            walked: walked,
            seen: seen,
            walk: walk,
            round: rounds + 1,
        };
        let done = round(
            rules, goal, second, goals, most, first, stage, calls, list, answers,
        )?;
        let rows = done.calls;
        let known = done.answers;
        if rows + known == n + m {
            return Ok(Counted {
                calls: rows,
                answers: known,
                rounds: rounds,
            });
        }
        arranging::order(calls, n, rows, list, answers, m, known, most);
        walked = n;
        seen = m;
        n = rows;
        m = known;
        walk = done.walk;
        rounds += 1;
    }
}
