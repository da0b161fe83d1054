// One rehearsal: a sheet is read and its goal evaluated from its start, in rooms of 512 calls and 256 answers.
#![tactic(auto)]

ghost use Rattle.rehearsal.specs.Rehearsed.{Rehearsed};

// The refusal, 0 for none, and its line; the counts of ends, calls, answers and rounds.
// Stays: the counts hold beside a refusal of the evaluator too (`evaluated` of `Rehearsed`), which a Result would lose.
#[derive(Clone, Copy)]
pub struct Rehearsal {
    pub refusal: u64,
    pub line: u64,
    pub ends: u64,
    pub calls: u64,
    pub answers: u64,
    pub rounds: u64,
}

// Reads the sheet and lists the ends of its goal in rising order; the list past them stays.
pub fn rehearse(text: &[u8], ends: &mut [u64]) -> Rehearsal
    ensures { Rehearsed text.now ends.old ends.new result }
{
    let mut words = [0u16; 4608];
    let read = sheet::read(text, &mut words);
    if read.refusal != 0 {
        return Rehearsal {
            refusal: read.refusal,
            line: read.line,
            ends: 0,
            calls: 0,
            answers: 0,
            rounds: 0,
        };
    }
    let mut calls = [0u64; 1536];
    let mut answers = [0u64; 5120];
    let mut list = [0u64; 512];
    let goal = read.goal;
    let used = steps::word::RULE_WORDS * read.rules as usize;
    let steps = read.goal_len as usize;
    let run = evaluator::evaluate(
        read.fluents,
        read.actions,
        &words[..used],
        &goal[..steps],
        read.start,
        &mut calls,
        &mut answers,
        ends,
        &mut list,
    );
    Rehearsal {
        refusal: run.refusal,
        line: 0,
        ends: run.ends,
        calls: run.calls,
        answers: run.answers,
        rounds: run.rounds,
    }
}
