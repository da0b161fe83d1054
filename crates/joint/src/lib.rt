// The tables of one or two goals.
//
// Two parties on one panel have a goal each, over the same rules. The goals that stand are put in as roots, the first party's under 64 and the
// second's under 65, and rounds fill the tables from them (crate `filling`): so a call or an answer that serves both has one record.
#![tactic(auto)]

ghost use Rattle.std.specs.Prelude.{true, false, ◌*◌, ◌<◌, ◌≤◌, length, MatchResult};
ghost use Rattle.records.specs.Records.{room, call_width};
ghost use Rattle.records.specs.Storage.{NoCall};
ghost use Rattle.records.specs.Bodies.{bodies_with};
ghost use Rattle.desk.specs.Desk.{open_calls, open_width, CallsOpen};
ghost use Rattle.index.specs.Index.{CallIndex, CallsKept};
ghost use Rattle.invariants.proofs.Filling.{Accepted};
ghost use Rattle.joint.specs.Joint.{roots_of, RootPut, RowsFilled};

pub use filling::Full;
use records::bodies::Goals;
use records::tables::Put;
use records::{bodies, tables};
use steps::state::{Call, State};

// How many records the tables hold.
#[derive(Clone, Copy, Debug, PartialEq, Eq)]
pub struct Rows {
    pub calls: usize,
    pub answers: usize,
}

// Puts the call in as a root, if its goal stands: no record is one of it yet. A root has come in no round.
fn add_root(stands: bool, call: Call, calls: &mut [u64], n: usize, list: &mut [u64]) -> Put
    requires calls_open { CallsOpen calls.old list.old n × CallIndex calls.old list.old n × (call.action < 256) }
    requires no_call { NoCall (open_calls calls.old n) call.action call.state.0 }
    ensures root_put { RootPut stands (room call_width (length calls.old)) (open_calls calls.old n)
        call.action call.state.0 (open_calls calls.new result.count) result.row result.full }
    ensures calls_open_2 { CallsOpen calls.new list.new result.count × CallIndex calls.new list.new result.count }
    ensures calls_kept { CallsKept calls.old list.old calls.new list.new }
{
    if stands {
        return index::add_new(calls, n, list, call, 0);
    }
    Put {
        row: 0,
        count: n,
        full: false,
    }
}

// Fills the tables with the calls and answers of the goals that stand, each from its start: the first party's under 64, the second's under 65.
// The three slices may hold anything before; the answer table can hold `most` records. Where a table is full they may hold anything again.
pub fn fill_rows<'a>(
    rules: &'a [u16],
    goal: &'a [u16],
    second: &'a [u16],
    goals: Goals,
    start: u64,
    second_start: u64,
    calls: &mut [u64],
    list: &mut [u64],
    answers: &mut [u64],
    most: usize,
) -> Result<Rows, Full>
    requires accepted { Accepted rules.now goal.now second.now }
    requires calls_in_bounds { (room call_width (length calls.old) ≤ length list.old) × (most ≤ 65536) × (open_width * most ≤ length answers.old) }
    ensures { MatchResult result
        (λ r. RowsFilled (bodies_with rules.now goals.first goals.second goal.now second.now) (roots_of goals.first goals.second start second_start)
        most calls.old list.old answers.old calls.new list.new answers.new false r.calls r.answers)
        (λ r. RowsFilled (bodies_with rules.now goals.first goals.second goal.now second.now) (roots_of goals.first goals.second start second_start)
        most calls.old list.old answers.old calls.new list.new answers.new true r.calls r.answers) }
{
    tables::clear(calls);
    tables::clear(list);
    let one = add_root(goals.first, Call::goal(start), calls, 0, list);
    if one.full {
        return Err(Full {
            calls: one.count,
            answers: 0,
        });
    }
    let other = Call {
        action: bodies::SECOND_GOAL,
        state: State::of(second_start),
    };
    let two = add_root(goals.second, other, calls, one.count, list);
    if two.full {
        return Err(Full {
            calls: two.count,
            answers: 0,
        });
    }
    let run = filling::fill(
        rules, goal, second, goals, calls, two.count, list, answers, 0, most, 0,
    )?;
    Ok(Rows {
        calls: run.calls,
        answers: run.answers,
    })
}
