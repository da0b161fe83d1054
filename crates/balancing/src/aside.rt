// Goals evaluated while the tables are put aside: a run's answers and the index of its calls stand in the words that the tables leave free, its
// call records in words of their own.
ghost use Rattle.std.specs.Prelude.{◌≡◌, true, false, ◌*◌, length, MatchResult};
ghost use Rattle.records.specs.Records.{call_width};
ghost use Rattle.records.specs.Bodies.{bodies_with};
ghost use Rattle.invariants.proofs.Filling.{Accepted};
ghost use Rattle.joint.specs.Joint.{roots_of};
ghost use Rattle.matching.specs.Matching.{stowed_tables};
ghost use Rattle.balancing.specs.Balancing.{call_room, answer_room, plain_tables, Handed, Lent, Aside, Spared, FilledAside, Compared};

use joint::{Full, Rows};
use records::bodies::Goals;
use records::tables;

// The words that each answer record put aside leaves free.
const FREED_WORDS: usize = 11;

// How many calls and answers there are, and whether the tables that were put aside hold just these.
// Stays: the counts hold whatever `same` says, so it is no flag of a value.
#[derive(Clone, Copy, Debug, PartialEq, Eq)]
pub struct Found {
    pub calls: usize,
    pub answers: usize,
    pub same: bool,
}

// Fills the free words with the rows of the goals that stand, each from its start.
fn fill_aside<'a>(
    rules: &'a [u16],
    goal: &'a [u16],
    second: &'a [u16],
    goals: Goals,
    start: u64,
    second_start: u64,
    rows: &mut [u64],
    calls: &mut [u64],
    answers: &mut [u64],
) -> Result<Rows, Full>
    requires accepted { Accepted rules.now goal.now second.now }
    requires rows_len { length rows.old ≡ call_width * call_room calls.old }
    ensures { MatchResult result
        (λ r. FilledAside (bodies_with rules.now goals.first goals.second goal.now second.now) (roots_of goals.first goals.second start second_start)
        rows.old calls.old answers.old rows.new calls.new answers.new false r.calls r.answers)
        (λ r. FilledAside (bodies_with rules.now goals.first goals.second goal.now second.now) (roots_of goals.first goals.second start second_start)
        rows.old calls.old answers.old rows.new calls.new answers.new true r.calls r.answers) }
{
    let places = tables::room_of(calls.len(), stowing::CALL_WORDS);
    let most = tables::room_of(answers.len(), stowing::ANSWER_WORDS);
    let free = FREED_WORDS * most;
    joint::fill_rows(
        rules,
        goal,
        second,
        goals,
        start,
        second_start,
        rows,
        &mut calls[..places],
        &mut answers[..free],
        most,
    )
}

// The same, and whether the n call records and m answer records put aside hold just these rows, each once.
fn compare_aside<'a>(
    rules: &'a [u16],
    goal: &'a [u16],
    second: &'a [u16],
    goals: Goals,
    start: u64,
    second_start: u64,
    rows: &mut [u64],
    bytes: &[u8],
    calls: &mut [u64],
    n: usize,
    answers: &mut [u64],
    m: usize,
) -> Result<Found, Full>
    requires accepted { Accepted rules.now goal.now second.now }
    requires rows_len { (length rows.old ≡ call_width * call_room calls.old) × Aside bytes.now calls.old n answers.old m }
    ensures spared { Spared rows.old calls.old answers.old rows.new calls.new
        answers.new }
    ensures compared { MatchResult result
        (λ r. Compared (bodies_with rules.now goals.first goals.second goal.now second.now) (roots_of goals.first goals.second start second_start)
        (call_room calls.old) (answer_room answers.old)
        (stowed_tables (call_room calls.old) calls.old bytes.now n (answer_room answers.old) answers.old m) false r.calls r.answers r.same)
        (λ r. Compared (bodies_with rules.now goals.first goals.second goal.now second.now) (roots_of goals.first goals.second start second_start)
        (call_room calls.old) (answer_room answers.old)
        (stowed_tables (call_room calls.old) calls.old bytes.now n (answer_room answers.old) answers.old m) true r.calls r.answers false) }
{
    let filled = fill_aside(
        rules,
        goal,
        second,
        goals,
        start,
        second_start,
        rows,
        calls,
        answers,
    )?;
    let found = filled.calls;
    let given = filled.answers;
    let places = tables::room_of(calls.len(), stowing::CALL_WORDS);
    let most = tables::room_of(answers.len(), stowing::ANSWER_WORDS);
    let same = matching::same_rows(
        rows, found, calls, bytes, places, n, answers, given, most, m,
    );
    Ok(Found {
        calls: found,
        answers: given,
        same: same,
    })
}

// The calls and answers of the goals that stand, each from its start, counted, and whether the n call records and m answer records of the tables
// are just these, each once. The tables are put aside for it and come back word for word.
pub fn evaluated<'a>(
    rules: &'a [u16],
    goal: &'a [u16],
    second: &'a [u16],
    goals: Goals,
    start: u64,
    second_start: u64,
    rows: &mut [u64],
    bytes: &mut [u8],
    calls: &mut [u64],
    n: usize,
    answers: &mut [u64],
    m: usize,
) -> Result<Found, Full>
    requires accepted { Accepted rules.now goal.now second.now }
    requires lent { Lent rows.old bytes.old calls.old × Handed calls.old n answers.old m }
    ensures calls_unchanged { (calls.new ≡ calls.old) × (answers.new ≡ answers.old) }
    ensures rows_len_unchanged { (length rows.new ≡ length rows.old) × (length bytes.new ≡ length bytes.old) }
    ensures compared { MatchResult result
        (λ r. Compared (bodies_with rules.now goals.first goals.second goal.now second.now) (roots_of goals.first goals.second start second_start)
        (call_room calls.old) (answer_room answers.old) (plain_tables calls.old n answers.old m) false r.calls r.answers r.same)
        (λ r. Compared (bodies_with rules.now goals.first goals.second goal.now second.now) (roots_of goals.first goals.second start second_start)
        (call_room calls.old) (answer_room answers.old) (plain_tables calls.old n answers.old m) true r.calls r.answers false) }
{
    let places = tables::room_of(calls.len(), stowing::CALL_WORDS);
    let most = tables::room_of(answers.len(), stowing::ANSWER_WORDS);
    stowing::stow_calls(calls, n, places, bytes);
    stowing::stow_answers(answers, m, most);
    let found = compare_aside(
        rules,
        goal,
        second,
        goals,
        start,
        second_start,
        rows,
        bytes,
        calls,
        n,
        answers,
        m,
    );
    stowing::unstow_answers(answers, m, most);
    stowing::unstow_calls(calls, n, places, bytes);
    found
}
