// Drill D2 in several rooms, and questions that are refused.
use crate::asked::{Question, Rooms, asked};
use print::books::{CALL, book, d2};
use std::io;

// Drill D2 in these rooms.
fn in_rooms(rt: &(impl Print + AllocGlobal), name: &str, rooms: Rooms) -> io::Result<()> {
    let rules = d2(rt.alloc())?;
    let q = Question {
        fluents: 2,
        actions: 1,
        rules: &rules,
        goal: &[CALL],
        start: 0,
    };
    asked(rt, name, q, rooms)
}

fn rooms(rt: &(impl Print + AllocGlobal)) -> io::Result<()> {
    in_rooms(rt, "D11 rooms 2 and 4", Rooms::of(2, 4, 2))?;
    in_rooms(rt, "rooms 3 and 5, list of 3", Rooms::of(3, 5, 3))?;
    in_rooms(rt, "D11 rooms 1 and 4", Rooms::of(1, 4, 2))?;
    in_rooms(rt, "D11 rooms 2 and 3", Rooms::of(2, 3, 2))?;
    in_rooms(rt, "D11 call room 0", Rooms::of(0, 4, 2))
}

fn lists(rt: &(impl Print + AllocGlobal)) -> io::Result<()> {
    in_rooms(rt, "D11 list of 1", Rooms::of(2, 4, 1))?;
    in_rooms(rt, "list of 0", Rooms::of(2, 4, 0))?;
    in_rooms(rt, "30 before 31", Rooms::of(2, 3, 1))
}

// With a list of calls of so many places.
fn listed(rt: &(impl Print + AllocGlobal), name: &str, rooms: Rooms, list: u8) -> io::Result<()> {
    in_rooms(rt, name, Rooms { list, ..rooms })
}

// The list of calls (request R-10): longer than the call room, just as long, and one place short, 34, which comes before 30 and 31.
fn call_lists(rt: &(impl Print + AllocGlobal)) -> io::Result<()> {
    listed(rt, "call list of 4", Rooms::of(2, 4, 2), 4)?;
    listed(rt, "30, call list of 3", Rooms::of(2, 3, 2), 3)?;
    listed(rt, "31, call list of 3", Rooms::of(2, 4, 1), 3)?;
    listed(rt, "34 of 1 place", Rooms::of(2, 4, 2), 1)?;
    listed(rt, "34 of no place", Rooms::of(2, 4, 2), 0)
}

fn refused_lists(rt: &(impl Print + AllocGlobal)) -> io::Result<()> {
    listed(rt, "34 before 30", Rooms::of(2, 3, 2), 1)?;
    listed(rt, "34 before 31", Rooms::of(2, 4, 1), 1)?;
    listed(rt, "34 of 2 places, room 3", Rooms::of(3, 5, 3), 2)
}

// One rule, of g, with no step.
const NO_STEP: [u16; 18] = [0; 18];

// The question of its goal `!g` at 0, of which a drill changes what is wrong then.
const PLAIN: Question<'static> = Question {
    fluents: 2,
    actions: 1,
    rules: &NO_STEP,
    goal: &[CALL],
    start: 0,
};

// A question in rooms 2 and 4, with lists of 2.
fn refused(rt: &(impl Print + AllocGlobal), name: &str, q: Question) -> io::Result<()> {
    asked(rt, name, q, Rooms::of(2, 4, 2))
}

fn bad_rules(rt: &(impl Print + AllocGlobal)) -> io::Result<()> {
    let many = Question {
        fluents: 65,
        ..PLAIN
    };
    refused(rt, "20 of 65 fluents", many)?;
    let mut words = book(rt.alloc(), &[(0, &[]), (0, &[])])?;
    let odd = Question {
        rules: words.get(1..).unwrap_or(&[]),
        ..PLAIN
    };
    refused(rt, "21 of 35 words", odd)?;
    if let Some(last) = words.last_mut() {
        *last = 1;
    }
    let unused = Question {
        rules: &words,
        ..PLAIN
    };
    refused(rt, "22 an unused word not 0", unused)
}

fn bad_goals(rt: &(impl Print + AllocGlobal)) -> io::Result<()> {
    refused(
        rt,
        "23 no such action",
        Question {
            goal: &[CALL + 1],
            ..PLAIN
        },
    )?;
    refused(
        rt,
        "23 of 17 steps",
        Question {
            goal: &[0; 17],
            ..PLAIN
        },
    )?;
    refused(rt, "24 a bit too high", Question { start: 4, ..PLAIN })?;
    refused(
        rt,
        "23 before 24",
        Question {
            goal: &[CALL + 1],
            start: 4,
            ..PLAIN
        },
    )?;
    refused(rt, "accepted", Question { start: 3, ..PLAIN })
}

// A start with a bit too high, with a list for no call.
fn bad_start(rt: &(impl Print + AllocGlobal)) -> io::Result<()> {
    let rooms = Rooms {
        list: 0,
        ..Rooms::of(2, 4, 2)
    };
    asked(rt, "24 before 34", Question { start: 4, ..PLAIN }, rooms)
}

pub fn all(rt: &(impl Print + AllocGlobal)) -> io::Result<()> {
    rooms(rt)?;
    lists(rt)?;
    call_lists(rt)?;
    refused_lists(rt)?;
    bad_rules(rt)?;
    bad_goals(rt)?;
    bad_start(rt)
}
