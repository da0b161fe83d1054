// A party's run beside one alone, in tables of its limits.
use crate::questions::Asked;
use panel::Shared;
use relation::Book;
use relation::records::LENT;

// Whether a party's run gave the refusal, the counts and the list that a run alone gives in tables of its limits, or of as many
// records as no run of these books exceeds.
pub fn is_same(book: &Book, q: &Asked, reply: &Shared, ends: &[u64]) -> bool {
    let mut calls = [LENT; 120];
    let mut answers = [LENT; 5600];
    let mut list = [LENT; 9];
    let mut call_list = [LENT; 40];
    let n = q.limits.calls.min(40) as usize;
    let m = q.limits.answers.min(280) as usize;
    let list = &mut list[..ends.len().min(9)];
    let goal = q.goal.step_words();
    let run = evaluator::evaluate(
        3,
        4,
        book.rules.as_flattened(),
        &goal[..q.goal.steps.min(17) as usize],
        q.goal.start,
        &mut calls[..n * 3],
        &mut answers[..m * 20],
        list,
        &mut call_list[..n],
    );
    run.refusal == reply.refusal
        && run.ends == reply.ends
        && run.calls == reply.calls
        && run.answers == reply.answers
        && ends == list
}
