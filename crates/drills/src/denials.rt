// Denials (request R-2): the step `~`, kind 4, in goals, rules and paths.
use crate::asked::{Question, Rooms, asked};
use crate::walked;
use print::books::{Answer, CALL, DELETE, DENY, INSERT, QUERY, Rule, answers, book};
use std::io;

// A question over one action, in rooms of 4 records, with lists of 4.
fn drill(
    rt: &(impl Print + AllocGlobal),
    name: &str,
    fluents: u64,
    rules: &[Rule],
    goal: &[u16],
    start: u64,
) -> io::Result<()> {
    let rules = book(rt.alloc(), rules)?;
    let q = Question {
        fluents,
        actions: 1,
        rules: &rules,
        goal,
        start,
    };
    asked(rt, name, q, Rooms::of(4, 4, 4))
}

fn goals(rt: &(impl Print + AllocGlobal)) -> io::Result<()> {
    let last = [DENY + 63];
    drill(rt, "~b where b does not hold", 2, &[], &[DENY + 1], 0)?;
    drill(rt, "~b where b holds", 2, &[], &[DENY + 1], 2)?;
    drill(
        rt,
        "the last of 64 fluents does not hold",
        64,
        &[],
        &last,
        0,
    )?;
    drill(rt, "the last of 64 fluents holds", 64, &[], &last, 1 << 63)
}

// A step of kind 5.
const NO_KIND: u16 = 1280;

fn refused(rt: &(impl Print + AllocGlobal)) -> io::Result<()> {
    drill(rt, "23 ~ of no fluent", 2, &[], &[DENY + 2], 0)?;
    drill(rt, "23 of kind 5", 2, &[], &[NO_KIND], 0)?;
    drill(rt, "22 of kind 5", 2, &[(0, &[NO_KIND])], &[CALL], 0)
}

// In each state just one of the two rules goes on.
fn one_of_two(rt: &(impl Print + AllocGlobal)) -> io::Result<()> {
    let rules = [
        (0, [DENY, INSERT].as_slice()),
        (0, [QUERY, DELETE].as_slice()),
    ];
    drill(
        rt,
        "g: ~a +a; g: ?a -a; goal !g !g",
        2,
        &rules,
        &[CALL, CALL],
        0,
    )
}

// D15: a denial in a rule that calls itself first.
fn after_itself(rt: &(impl Print + AllocGlobal)) -> io::Result<()> {
    let rules = [
        (0, [CALL, DENY, INSERT].as_slice()),
        (0, [INSERT + 1].as_slice()),
    ];
    drill(rt, "D15 g: !g ~a +a; g: +b; goal !g", 2, &rules, &[CALL], 0)
}

// The path of the goal's answer where g is `~a +a ~b`, with this evidence at g's first step.
fn path_of(rt: &(impl Print + AllocGlobal), name: &str, evidence: u64) -> io::Result<()> {
    let rules = book(rt.alloc(), &[(0, &[DENY, INSERT, DENY + 1])])?;
    let g = Answer {
        call: 1,
        last: 1,
        rule: 0,
        evidence: &[evidence],
        round: 2,
    };
    let goal = Answer {
        call: 0,
        last: 1,
        rule: 256,
        evidence: &[],
        round: 3,
    };
    let words = answers(rt.alloc(), &[g, goal])?;
    let q = walked::Question {
        fluents: 2,
        actions: 1,
        rules: &rules,
        goal: &[CALL],
        calls: &[64, 0, 0, 0, 0, 1],
        call_count: 2,
        answers: &words,
        answer_count: 2,
        record: 1,
    };
    walked::asked(rt, name, q, 4)
}

pub fn all(rt: &(impl Print + AllocGlobal)) -> io::Result<()> {
    goals(rt)?;
    refused(rt)?;
    one_of_two(rt)?;
    after_itself(rt)?;
    path_of(rt, "path of ~a +a ~b", 0)?;
    path_of(rt, "42 evidence at ~", 1)
}
