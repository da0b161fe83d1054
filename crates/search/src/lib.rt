// One walk of a body: a depth-first search over the answers of its calls, in rising order.
//
// A step that goes on is passed, a step that does not sends the walk back to the latest call step with an answer left. The call in front is
// found or added, and its answers are taken in turn; a call step that the walk comes to again in the same state has been searched already,
// so it is marked and never entered twice. At the body's end the state is added as an answer, with the answers on the way as its evidence.
#![tactic(auto)]

ghost use Rattle.std.specs.Prelude.{◌≡◌, true, false, List, ℕ, ◌+◌, ◌-◌, ◌<◌, ◌≤◌, length, get_or, drop, MatchOption};
ghost use Rattle.steps.specs.Inner.{is_call};
ghost use Rattle.records.specs.Records.{Bodies, room, call_width};
ghost use Rattle.records.proofs.Growth.{Tables};
ghost use Rattle.desk.specs.Desk.{packed_answers, mark_words, round_top, AnswersOpen};
ghost use Rattle.marks.specs.Marks.{Stamped};
ghost use Rattle.uses.specs.Uses.{uses_in};
ghost use Rattle.index.specs.Index.{AnswerIndex};
ghost use Rattle.tabling.proofs.Moves.{Chosen};
ghost use Rattle.tabling.proofs.Evidence.{Among};
ghost use Rattle.invariants.proofs.Turn.{Begin, RetreatRow, Turning, Picked};
ghost use Rattle.invariants.proofs.Going.{Kept, Indexed, WentBack, Going, in_words};
ghost use Rattle.search.specs.Leaving.{spot_of, past_of, Stepped, Leaving, Stays};

use steps::state::{Call, State};
use steps::word;

// What does not change while a body is walked: its rule's number, the call record that it is of, how many answers may serve and how many
// there is room for, and the walk's own number; the records from `first` up to `old` were walked before, with the answers below `seen`;
// whether the round has noted all that it has to look at again; and the round's number.
// Stays: `warm` is a fact of its own, and every number holds whatever it says.
#[derive(Clone, Copy)]
pub struct Job {
    pub rule: u64,
    pub row: usize,
    pub known: usize,
    pub most: usize,
    pub walk: u64,
    pub first: usize,
    pub old: usize,
    pub seen: usize,
    pub warm: bool,
    pub round: u64,
}

// Where a walk is: a state, and one more than the number of the answer taken last, or 0.
#[derive(Clone, Copy)]
pub struct Spot {
    pub state: State,
    pub last: usize,
}

// How the step in front comes out: the walk goes on in a state, has nothing left from here on, or a table is full.
#[derive(Clone, Copy)]
pub enum Front {
    On(Spot),
    Spent,
    Full,
}

// How the step in front comes out, and how many records the two tables then hold.
#[derive(Clone, Copy)]
pub struct Advanced {
    pub calls: usize,
    pub answers: usize,
    pub front: Front,
}

// The body's end: the state is an answer.
fn finish(
    job: Job,
    calls: &mut [u64],
    n: usize,
    list: &[u64],
    answers: &mut [u64],
    m: usize,
    chosen: &[u64; 16],
    spot: Spot,
) -> Advanced
    requires kept { Kept job.most calls.old list.now n answers.old m × Indexed job.most calls.old list.now n answers.old m
        × (job.row < n) }
    requires by_index { (q : ℕ) → q < 16 → get_or chosen.now q 0 < 65536 }
    ensures stays { Stays job.most calls.old list.now answers.old calls.new
        list.now result.calls answers.new result.answers × (result.calls ≡ n) }
    ensures stepped { (bodies : Bodies) (roots : List (ℕ × ℕ)) (b : Tables) (begun : Begin) (body : List ℕ) (at : ℕ) → length body ≤ at
        → Turning bodies (Among roots) b job.known job.rule job.row job.walk (past_of job begun) body
        (in_words calls.old n answers.old m) (mark_words calls.old)
        (uses_in calls.old list.now) chosen.now at (spot_of spot)
        → Stepped result.front bodies (Among roots) b begun job body (length calls.old) job.most
        chosen.now at (spot_of spot)
        (in_words calls.new n answers.new result.answers) (mark_words calls.new)
        (uses_in calls.new list.now) chosen.now }
{
    let put = index::add_answer(
        calls, answers, m, job.most, job.row, spot.state, job.rule, chosen, job.round,
    );
    if put.full {
        return Advanced {
            calls: n,
            answers: put.count,
            front: Front::Full,
        };
    }
    Advanced {
        calls: n,
        answers: put.count,
        front: Front::Spent,
    }
}

// Whether all answers chosen before this place are below `seen`. The latest is looked at first: a new one is most often there.
fn is_old(chosen: &[u64; 16], at: usize, seen: usize) -> bool
    requires { at ≤ 16 }
    ensures { result ≡ true → (q : ℕ) → q < at → get_or chosen.now q 0 < seen }
{
    chosen[..at]
        .iter()
        .rev()
        .all(|answer| *answer < seen as u64)
}

// Whether no call comes after the step in front.
fn is_last(rest: &[u16]) -> bool
    ensures { result ≡ true → (q : ℕ) → 0 < q → q < length rest.now → is_call (get_or rest.now q 0) ≡ false }
{
    !rest.iter().skip(1).any(|step| word::is_call(*step))
}

// The answer of call record `row` that a walk takes first, or `known`: where a record is walked again and the walk has come by old answers, the
// first that is new at the last call of the body, else the first that the round looks at; otherwise the first of all.
fn first_of(
    rest: &[u16],
    job: Job,
    at: usize,
    calls: &[u64],
    list: &[u64],
    answers: &[u64],
    chosen: &[u64; 16],
    row: usize,
) -> usize
    requires row_bound { (row < room call_width (length calls.now)) × (row < length list.now) × (at ≤ 16) }
    requires by_index { (m : ℕ) × (job.known ≤ m) × AnswersOpen job.most answers.now m × AnswerIndex job.most calls.now answers.now m }
    ensures { (result ≤ job.known) × ((begun : Begin) (body : List ℕ) → rest.now ≡ drop at body
        → Picked (packed_answers answers.now job.known) (uses_in calls.now list.now) job.known job.row
        (past_of job begun) body chosen.now at row result) }
{
    let first = index::first_answer(calls, answers, job.known, row);
    if job.row < job.old {
        if job.first <= job.row {
            if is_last(rest) {
                if is_old(chosen, at, job.seen) {
                    return uses::first_new(list, answers, job.seen, job.known, row);
                }
            } else if job.warm {
                if is_old(chosen, at, job.seen) {
                    return uses::first_looked(list, answers, job.seen, job.known, row, first);
                }
            }
        }
    }
    first
}

// A call in front: it is found or added, and its first answer is taken.
fn enter(
    rest: &[u16],
    step: u16,
    at: usize,
    job: Job,
    calls: &mut [u64],
    n: usize,
    list: &mut [u64],
    answers: &[u64],
    m: usize,
    chosen: &mut [u64; 16],
    spot: Spot,
) -> Advanced
    requires { Kept job.most calls.old list.old n answers.now m × Indexed job.most calls.old list.old n answers.now m
        × Stamped (mark_words calls.old) job.walk × (at < 16) × (job.known ≤ m) × (job.row < n) × (job.round < round_top) }
    ensures stays { Stays job.most calls.old list.old answers.now calls.new
        list.new result.calls answers.now result.answers × (result.answers ≡ m) }
    ensures stepped { (bodies : Bodies) (roots : List (ℕ × ℕ)) (b : Tables) (begun : Begin) (body : List ℕ) → at < length body
        → is_call (get_or body at 0) ≡ true → get_or body at 0 ≡ step → rest.now ≡ drop at body
        → Turning bodies (Among roots) b job.known job.rule job.row job.walk (past_of job begun) body
        (in_words calls.old n answers.now m) (mark_words calls.old)
        (uses_in calls.old list.old) chosen.old at (spot_of spot)
        → Stepped result.front bodies (Among roots) b begun job body (length calls.old) job.most
        chosen.old at (spot_of spot)
        (in_words calls.new result.calls answers.now m) (mark_words calls.new)
        (uses_in calls.new list.new) chosen.new }
{
    let state = spot.state;
    let call = Call {
        action: word::index(step),
        state: state,
    };
    let put = index::add_call(calls, n, list, call, job.round);
    let row = put.row;
    let count = put.count;
    if put.full {
        return Advanced {
            calls: count,
            answers: m,
            front: Front::Full,
        };
    }
    uses::note(calls, job.row, row, spot.last);
    if marks::is_marked(calls, job.walk, at, row) {
        return Advanced {
            calls: count,
            answers: m,
            front: Front::Spent,
        };
    }
    marks::mark(calls, job.walk, at, row);
    let first = first_of(rest, job, at, calls, list, answers, chosen, row);
    if first == job.known {
        return Advanced {
            calls: count,
            answers: m,
            front: Front::Spent,
        };
    }
    chosen[at] = first as u64;
    let after = Spot {
        state: desk::final_of(answers, first),
        last: first + 1,
    };
    Advanced {
        calls: count,
        answers: m,
        front: Front::On(after),
    }
}

// The step in front, or the body's end, with the record that it adds.
fn advance(
    rest: &[u16],
    at: usize,
    job: Job,
    calls: &mut [u64],
    n: usize,
    list: &mut [u64],
    answers: &mut [u64],
    m: usize,
    chosen: &mut [u64; 16],
    spot: Spot,
) -> Advanced
    requires kept { Kept job.most calls.old list.old n answers.old m × Indexed job.most calls.old list.old n answers.old m
        × Stamped (mark_words calls.old) job.walk × (at + length rest.now ≤ 16) × (job.known ≤ m) × (job.row < n)
        × (job.round < round_top) }
    requires q_bound { length rest.now ≡ 0 → (q : ℕ) → q < 16 → get_or chosen.old q 0 < 65536 }
    ensures stays { Stays job.most calls.old list.old answers.old calls.new
        list.new result.calls answers.new result.answers }
    ensures stepped { (bodies : Bodies) (roots : List (ℕ × ℕ)) (b : Tables) (begun : Begin) (body : List ℕ) → rest.now ≡ drop at body
        → Turning bodies (Among roots) b job.known job.rule job.row job.walk (past_of job begun) body
        (in_words calls.old n answers.old m) (mark_words calls.old)
        (uses_in calls.old list.old) chosen.old at (spot_of spot)
        → Stepped result.front bodies (Among roots) b begun job body (length calls.old) job.most
        chosen.old at (spot_of spot)
        (in_words calls.new result.calls answers.new result.answers) (mark_words calls.new)
        (uses_in calls.new list.new) chosen.new }
{
    if rest.len() == 0 {
        return finish(job, calls, n, list, answers, m, chosen, spot);
    }
    let step = rest[0];
    if word::is_call(step) {
        return enter(
            rest, step, at, job, calls, n, list, answers, m, chosen, spot,
        );
    }
    let state = spot.state;
    let next = word::elementary(step, state);
    match next {
        Some(after) => {
            chosen[at] = 0;
            let there = Spot {
                state: after,
                last: spot.last,
            };
            Advanced {
                calls: n,
                answers: m,
                front: Front::On(there),
            }
        }
        None => Advanced {
            calls: n,
            answers: m,
            front: Front::Spent,
        },
    }
}

// The place of a call step, and an answer to take there.
#[derive(Clone, Copy)]
struct Later {
    place: usize,
    answer: usize,
}

// The latest call step with an answer left, and that answer.
fn retreat(
    body: &[u16],
    answers: &[u64],
    known: usize,
    most: usize,
    chosen: &[u64; 16],
    at: usize,
) -> Option<Later>
    requires at_in_bounds { (at ≤ length body.now) × (at ≤ 16) × Chosen body.now known chosen.now at }
    requires by_index { (m : ℕ) × (known ≤ m) × AnswersOpen most answers.now m × ((calls : List ℕ) × AnswerIndex most calls answers.now m) }
    ensures { MatchOption result (RetreatRow body.now (packed_answers answers.now known) known chosen.now at 0 0)
        (λ r. RetreatRow body.now (packed_answers answers.now known) known chosen.now at (r.place + 1) r.answer) }
{
    for place in (0..at).rev() {
        if word::is_call(body[place]) {
            let last = chosen[place] as usize;
            let later = index::later_answer(answers, known, most, last);
            if later < known {
                return Some(Later {
                    place: place,
                    answer: later,
                });
            }
        }
    }
    None
}

// A place and where the walk is then.
#[derive(Clone, Copy)]
struct Went {
    at: usize,
    spot: Spot,
}

// Takes the next answer of the latest call step that has one left: the place after it and its final state.
fn go_back(
    body: &[u16],
    answers: &[u64],
    known: usize,
    most: usize,
    chosen: &mut [u64; 16],
    at: usize,
) -> Option<Went>
    requires at_in_bounds { (at ≤ length body.now) × (at ≤ 16) × Chosen body.now known chosen.old at }
    requires by_index { (m : ℕ) × (known ≤ m) × AnswersOpen most answers.now m × ((calls : List ℕ) × AnswerIndex most calls answers.now m) }
    ensures { MatchOption result (WentBack body.now answers.now known chosen.old at chosen.new 0 (0, 0))
        (λ r. (0 < r.at) × WentBack body.now answers.now known chosen.old at chosen.new r.at (spot_of r.spot)) }
{
    let later = retreat(body, answers, known, most, chosen, at)?;
    chosen[later.place] = later.answer as u64;
    Some(Went {
        at: later.place + 1,
        spot: Spot {
            state: desk::final_of(answers, later.answer),
            last: later.answer + 1,
        },
    })
}

// How a turn comes out: on after the step in front, back at a place of the body, done, or a table is full.
#[derive(Clone, Copy)]
pub enum Leave {
    On(Spot),
    Back(usize, Spot),
    Done,
    Full,
}

// How a turn comes out, and how many records the two tables then hold.
#[derive(Clone, Copy)]
pub struct Moved {
    pub calls: usize,
    pub answers: usize,
    pub leave: Leave,
}

// One turn of the walk whose steps still to do are `rest`, the tail of the body, with the record that it adds.
pub fn turn(
    body: &[u16],
    rest: &[u16],
    job: Job,
    calls: &mut [u64],
    n: usize,
    list: &mut [u64],
    answers: &mut [u64],
    m: usize,
    chosen: &mut [u64; 16],
    spot: Spot,
) -> Moved
    requires kept { Kept job.most calls.old list.old n answers.old m × Indexed job.most calls.old list.old n answers.old m
        × (job.round < round_top) }
    requires by_index { (bodies : Bodies) × (roots : List (ℕ × ℕ)) × (b : Tables) × (begun : Begin)
        × Going bodies (Among roots) b job.known job.rule job.row job.walk (past_of job begun) body.now
        (in_words calls.old n answers.old m) (mark_words calls.old) (uses_in calls.old list.old) chosen.old rest.now (spot_of spot) }
    ensures stays { Stays job.most calls.old list.old answers.old calls.new
        list.new result.calls answers.new result.answers }
    ensures leaving { (bodies : Bodies) (roots : List (ℕ × ℕ)) (b : Tables) (begun : Begin)
        → Going bodies (Among roots) b job.known job.rule job.row job.walk (past_of job begun) body.now
        (in_words calls.old n answers.old m) (mark_words calls.old)
        (uses_in calls.old list.old) chosen.old rest.now (spot_of spot)
        → Leaving result.leave bodies (Among roots) b begun job body.now (length calls.old) job.most
        chosen.old (length body.now - length rest.now)
        (in_words calls.new result.calls answers.new result.answers) (mark_words calls.new)
        (uses_in calls.new list.new) chosen.new }
{
    let at = body.len() - rest.len();
    let a = advance(rest, at, job, calls, n, list, answers, m, chosen, spot);
    match a.front {
        Front::On(after) => Moved {
            calls: a.calls,
            answers: a.answers,
            leave: Leave::On(after),
        },
        Front::Full => Moved {
            calls: a.calls,
            answers: a.answers,
            leave: Leave::Full,
        },
        Front::Spent => match go_back(body, answers, job.known, job.most, chosen, at) {
            Some(went) => Moved {
                calls: a.calls,
                answers: a.answers,
                leave: Leave::Back(went.at, went.spot),
            },
            None => Moved {
                calls: a.calls,
                answers: a.answers,
                leave: Leave::Done,
            },
        },
    }
}
