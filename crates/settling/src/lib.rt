// The rows of the goals that two parties keep, filled in and given as records of 2 and 19 words (request R-14).
//
// A run's call records stand in words of their own, three for each that there is room for, and its index of the calls in the call table; its
// answers stand in the answer table. When it is over both tables are given.
#![tactic(auto)]

ghost use Rattle.std.specs.Prelude.{◌≡◌, true, false, ◌*◌, ◌≤◌, length, MatchResult};
ghost use Rattle.records.specs.Records.{room, call_width};
ghost use Rattle.records.specs.Bodies.{bodies_with};
ghost use Rattle.invariants.proofs.Filling.{Accepted};
ghost use Rattle.stowing.specs.Stowing.{call_words, answer_words};
ghost use Rattle.joint.specs.Joint.{roots_of};
ghost use Rattle.settling.specs.Given.{RowsGiven};

use joint::{Full, Rows};
use records::bodies::Goals;
use records::tables;

// Fills both tables with the rows of the goals that stand, each from its start, and gives them. They may hold anything before, and anything again
// where a table is full.
pub fn settle<'a>(
    rules: &'a [u16],
    goal: &'a [u16],
    second: &'a [u16],
    goals: Goals,
    start: u64,
    second_start: u64,
    rows: &mut [u64],
    calls: &mut [u64],
    answers: &mut [u64],
    most: usize,
) -> Result<Rows, Full>
    requires accepted { Accepted rules.now goal.now second.now }
    requires rows_len { (length rows.old ≡ call_width * room call_words (length calls.old)) × (most ≤ 65536)
        × (answer_words * most ≤ length answers.old) }
    ensures { MatchResult result
        (λ r. RowsGiven (bodies_with rules.now goals.first goals.second goal.now second.now) (roots_of goals.first goals.second start second_start)
        most calls.old answers.old calls.new answers.new false r.calls r.answers)
        (λ r. RowsGiven (bodies_with rules.now goals.first goals.second goal.now second.now) (roots_of goals.first goals.second start second_start)
        most calls.old answers.old calls.new answers.new true r.calls r.answers) }
{
    let room = tables::room_of(calls.len(), stowing::CALL_WORDS);
    let filled = joint::fill_rows(
        rules,
        goal,
        second,
        goals,
        start,
        second_start,
        rows,
        &mut calls[..room],
        answers,
        most,
    )?;
    let n = filled.calls;
    let m = filled.answers;
    stowing::give_calls(rows, n, calls);
    stowing::give_answers(answers, m, most);
    Ok(filled)
}
