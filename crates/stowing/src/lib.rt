// The tables that two parties share, put aside within the words lent for them while a run has the others, and given back; or new ones given in
// their place.
#![tactic(auto)]

ghost use Rattle.std.specs.Prelude.{◌≡◌, ℕ, ◌+◌, ◌*◌, ◌/◌, ◌%◌, ◌<◌, ◌≤◌, length, get_or};
ghost use Rattle.records.specs.Records.{call_width};
ghost use Rattle.desk.specs.Desk.{Written};
ghost use Rattle.quarters.specs.Quarters.{quarter};
ghost use Rattle.stowing.specs.Stowing.{call_words, answer_words, stow_words, stowed_record, AnswersFit, CallsFit};
ghost use Rattle.stowing.specs.Stowing.{EvidenceSmall, ActionsSmall, Stowed, Unstowed, AnswersGiven, CallsStowed, CallsUnstowed, CallsGiven};
ghost use Rattle.stowing.specs.Stowing.{AnswerLaid};

use records::tables;
use steps::state::{Call, State};

// A call record: action, state.
pub const CALL_WORDS: usize = 2;

// An answer record: call record number, final state, rule number, 16 evidence words.
pub const ANSWER_WORDS: usize = 19;

// An answer record that is put aside: its call record number, final state and rule number, a word that is free, four words of evidence.
const STOWED_WORDS: usize = desk::PACKED_WORDS;

// The words that each answer record put aside leaves free.
pub const FREED_WORDS: usize = 11;

// ---- answers

// The words of an answer record put aside, but for the free one.
#[derive(Clone, Copy)]
struct Stow {
    call: u64,
    last: u64,
    rule: u64,
    first: u64,
    second: u64,
    third: u64,
    fourth: u64,
}

// Answer record x as it is put aside.
fn stow_of(answers: &[u64], x: usize) -> Stow
    requires { answer_words * x + 19 ≤ length answers.now }
    ensures { stow_words result.call result.last result.rule result.first result.second result.third result.fourth
        ≡ stowed_record answers.now x }
{
    let from = ANSWER_WORDS * x;
    Stow {
        call: answers[from],
        last: answers[from + 1],
        rule: answers[from + 2],
        first: desk::packed(answers, from + 3),
        second: desk::packed(answers, from + 7),
        third: desk::packed(answers, from + 11),
        fourth: desk::packed(answers, from + 15),
    }
}

// Writes an answer record put aside from `to` on.
fn put_stow(answers: &mut [u64], to: usize, stow: Stow)
    requires { to + 8 ≤ length answers.old }
    ensures { Written answers.old to (stow_words stow.call stow.last stow.rule stow.first stow.second
        stow.third stow.fourth) answers.new }
{
    answers[to] = stow.call;
    answers[to + 1] = stow.last;
    answers[to + 2] = stow.rule;
    answers[to + 3] = 0;
    answers[to + 4] = stow.first;
    answers[to + 5] = stow.second;
    answers[to + 6] = stow.third;
    answers[to + 7] = stow.fourth;
}

// Puts the first m answer records aside, the last of them first: each is written past the words of all before it. The words below are free then.
pub fn stow_answers(answers: &mut [u64], m: usize, most: usize)
    requires { AnswersFit most m answers.old × EvidenceSmall answers.old m }
    ensures { Stowed most m answers.old answers.new }
{
    let from = FREED_WORDS * most;
    for x in (0..m).rev() {
        let stow = stow_of(answers, x);
        put_stow(answers, from + STOWED_WORDS * x, stow);
    }
}

// The quarters of the four words from `at` on.
fn evidence_at(words: &[u64], at: usize) -> [u64; 16]
    requires { at + 4 ≤ length words.now }
    ensures { (q : ℕ) → q < 16 → get_or result q 0 ≡ quarter (get_or words.now (at + q / 4) 0) (q % 4) }
{
    std::array::from_fn(|q| quarters::get(words, at + q / 4, q % 4) as u64)
}

// Gives the answer record that is put aside from `from` on as record x.
fn unstow_answer(answers: &mut [u64], x: usize, from: usize)
    requires { (answer_words * x + 19 ≤ length answers.old) × (from + 8 ≤ length answers.old) }
    ensures { AnswerLaid answers.old from x answers.new }
{
    let call = answers[from] as usize;
    let last = State::of(answers[from + 1]);
    let rule = answers[from + 2];
    let evidence = evidence_at(answers, from + 4);
    tables::put_answer(answers, ANSWER_WORDS, x, call, last, rule, &evidence, 0);
}

// Gives the m answer records that are put aside, the first of them first: each is written before the words of all after it. Past them all is 0.
pub fn unstow_answers(answers: &mut [u64], m: usize, most: usize)
    requires { AnswersFit most m answers.old }
    ensures { Unstowed most m answers.old answers.new }
{
    let from = FREED_WORDS * most;
    for x in 0..m {
        unstow_answer(answers, x, from + STOWED_WORDS * x);
    }
    desk::clear_from(answers, ANSWER_WORDS * m);
}

// Gives the first m answer records that a run left in 8 words each, in words that nothing is put aside in. Past them all is 0.
pub fn give_answers(answers: &mut [u64], m: usize, most: usize)
    requires { AnswersFit most m answers.old }
    ensures { AnswersGiven m answers.old answers.new }
{
    radix::copy(answers, 0, FREED_WORDS * most, STOWED_WORDS * m);
    unstow_answers(answers, m, most);
}

// ---- calls

// Puts the first n call records aside, the last of them first: the actions, and the states in the words from `most` on. The words below are free.
pub fn stow_calls(calls: &mut [u64], n: usize, most: usize, actions: &mut [u8])
    requires { CallsFit most n calls.old actions.old × ActionsSmall calls.old n }
    ensures calls_stowed { CallsStowed most n calls.old calls.new actions.new }
    ensures actions_len_unchanged { length actions.new ≡ length actions.old }
{
    for i in (0..n).rev() {
        actions[i] = calls[CALL_WORDS * i] as u8;
        calls[most + i] = calls[CALL_WORDS * i + 1];
    }
}

// Gives the n call records that are put aside, the first of them first. Past them all is 0.
pub fn unstow_calls(calls: &mut [u64], n: usize, most: usize, actions: &[u8])
    requires { CallsFit most n calls.old actions.now }
    ensures { CallsUnstowed most n calls.old actions.now calls.new }
{
    for i in 0..n {
        let call = Call {
            action: u64::from(actions[i]),
            state: State::of(calls[most + i]),
        };
        tables::put_call(calls, CALL_WORDS, i, call, 0);
    }
    desk::clear_from(calls, CALL_WORDS * n);
}

// Gives the n call records that a run left in 3 words each. Past them all is 0.
pub fn give_calls(rows: &[u64], n: usize, calls: &mut [u64])
    requires { (call_width * n ≤ length rows.now) × (call_words * n ≤ length calls.old) }
    ensures { CallsGiven n rows.now calls.old calls.new }
{
    for i in 0..n {
        let call = Call {
            action: desk::action_of(rows, i),
            state: desk::state_of(rows, i),
        };
        tables::put_call(calls, CALL_WORDS, i, call, 0);
    }
    desk::clear_from(calls, CALL_WORDS * n);
}
