// Records marked, and what is refused. The table has 4,097 words or fewer, each 9 before; its last word stays 9.
use print::Runs;
use print::books::{CALL, DELETE, DENY, INSERT, QUERY, Rule, book};
use std::io;

// What a trainee is held to: a goal at 0 over a book of two fluents.
#[derive(Clone, Copy)]
struct Procedure<'a> {
    actions: u64,
    rules: &'a [Rule<'a>],
    goal: &'a [u16],
}

// D2's book and goal, g: `!g ?a +b`; g: `+a`.
const OWN_FIRST: Procedure<'static> = Procedure {
    actions: 1,
    rules: &[(0, &[CALL, QUERY, INSERT + 1]), (0, &[INSERT])],
    goal: &[CALL],
};

// g: `+a !g`; g: nothing to do.
const AGAIN: Procedure<'static> = Procedure {
    actions: 1,
    rules: &[(0, &[INSERT, CALL]), (0, &[])],
    goal: &[CALL],
};

// g: `~a +a`; g: `?a -a`.
const TURNS: Procedure<'static> = Procedure {
    actions: 1,
    rules: &[(0, &[DENY, INSERT]), (0, &[QUERY, DELETE])],
    goal: &[CALL],
};

// No rules; the goal is the steps.
const STEPS: Procedure<'static> = Procedure {
    actions: 0,
    rules: &[],
    goal: &[DENY, INSERT],
};

// Marks the record over these rule words in a table of so many words, and prints what that gives and leaves.
fn marked(
    rt: &(impl Print + AllocGlobal),
    name: &str,
    p: Procedure,
    words: &[u16],
    record: &[u16],
    room: usize,
) -> io::Result<()> {
    let mut table = vec![in rt.alloc(); 9; room]?;
    let r = marking::mark(2, p.actions, words, p.goal, 0, record, &mut table);
    println!(rt;
        "{name}\trefusal {}\tyes {}\ttable{}",
        r.refusal,
        r.yes,
        Runs(&table)
    )
}

// Over the procedure's own rules.
fn mark(
    rt: &(impl Print + AllocGlobal),
    name: &str,
    p: Procedure,
    record: &[u16],
    room: usize,
) -> io::Result<()> {
    let words = book(rt.alloc(), p.rules)?;
    marked(rt, name, p, &words, record, room)
}

fn own_first(rt: &(impl Print + AllocGlobal)) -> io::Result<()> {
    let more = [INSERT, QUERY, INSERT + 1, QUERY, INSERT + 1];
    mark(rt, "D2: +a", OWN_FIRST, &more[..1], 4097)?;
    mark(rt, "D2: +a ?a +b", OWN_FIRST, &more[..3], 4097)?;
    mark(rt, "D2: +a ?a +b ?a +b", OWN_FIRST, &more, 4097)?;
    mark(rt, "D2: +a ?a, cut short", OWN_FIRST, &more[..2], 4097)?;
    mark(
        rt,
        "D2: +a ?b, which cannot run",
        OWN_FIRST,
        &[INSERT, QUERY + 1],
        4097,
    )
}

fn empty_records(rt: &(impl Print + AllocGlobal)) -> io::Result<()> {
    mark(rt, "D2: nothing done", OWN_FIRST, &[], 4097)?;
    let nothing = Procedure {
        goal: &[],
        ..OWN_FIRST
    };
    mark(rt, "D2: nothing done, nothing to do", nothing, &[], 4097)?;
    let itself = Procedure {
        rules: &[(0, &[CALL])],
        ..OWN_FIRST
    };
    mark(rt, "D3: nothing done", itself, &[], 4097)?;
    let twice = Procedure {
        actions: 2,
        rules: &[(0, &[]), (1, &[CALL, CALL])],
        goal: &[CALL + 1],
    };
    mark(
        rt,
        "nothing twice, then ?a, which cannot run",
        twice,
        &[QUERY],
        4097,
    )
}

fn denials(rt: &(impl Print + AllocGlobal)) -> io::Result<()> {
    let turns = Procedure {
        goal: &[CALL, CALL],
        ..TURNS
    };
    let record = [DENY, INSERT, QUERY, DELETE];
    mark(rt, "~a +a ?a -a by turns", turns, &record, 4097)?;
    mark(
        rt,
        "?a -a, which cannot run first",
        TURNS,
        &record[2..],
        4097,
    )?;
    mark(rt, "no goal but the steps", STEPS, &[DENY, INSERT], 4096)?;
    mark(
        rt,
        "the steps in another order",
        STEPS,
        &[INSERT, DENY],
        4096,
    )
}

fn long_records(rt: &(impl Print + AllocGlobal)) -> io::Result<()> {
    mark(rt, "63 steps", AGAIN, &[INSERT; 63], 4097)?;
    mark(rt, "60 of 64 steps", AGAIN, &[INSERT; 64], 4097)?;
    mark(rt, "60 before 61 and 62", AGAIN, &[CALL; 64], 4095)
}

fn refused(rt: &(impl Print + AllocGlobal)) -> io::Result<()> {
    mark(rt, "61 of 4,095 words", AGAIN, &[INSERT], 4095)?;
    mark(rt, "61 before 62", AGAIN, &[CALL], 0)?;
    mark(rt, "62 a call", AGAIN, &[INSERT, CALL], 4097)?;
    mark(rt, "62 fluent 2 of 2", AGAIN, &[INSERT, INSERT + 2], 4097)?;
    mark(rt, "62 of kind 5", AGAIN, &[1280], 4097)
}

fn refused_words(rt: &(impl Print + AllocGlobal)) -> io::Result<()> {
    let many = Procedure {
        actions: 65,
        ..AGAIN
    };
    mark(rt, "20 of 65 actions, before 60", many, &[INSERT; 64], 0)?;
    let nothing = Procedure { goal: &[], ..AGAIN };
    marked(rt, "21 of 17 words", nothing, &[0; 17], &[], 0)?;
    let none = Procedure {
        actions: 0,
        ..nothing
    };
    mark(rt, "22 an action too high", none, &[], 0)?;
    let other = Procedure {
        goal: &[CALL + 1],
        ..AGAIN
    };
    mark(rt, "23 an action too high", other, &[], 0)
}

pub fn all(rt: &(impl Print + AllocGlobal)) -> io::Result<()> {
    own_first(rt)?;
    empty_records(rt)?;
    denials(rt)?;
    long_records(rt)?;
    refused(rt)?;
    refused_words(rt)
}
