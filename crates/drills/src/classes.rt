// A whole class in one go: drill D2's goal from several starts in turn, and what is refused. Every word lent is 9 before.
use crate::asked::{Lent, Rooms};
use print::Runs;
use print::books::{CALL, d2};
use std::io;

// Runs a goal of D2's book from these starts, with so many result words, and prints what that gives and leaves.
fn class_of(
    rt: &(impl Print + AllocGlobal),
    name: &str,
    fluents: u64,
    goal: &[u16],
    starts: &[u64],
    words: u8,
    rooms: Rooms,
) -> io::Result<()> {
    let rules = d2(rt.alloc())?;
    let mut results = vec![in rt.alloc(); 9; usize::from(words)]?;
    let mut lent = Lent::of(rt.alloc(), rooms, 9)?;
    let refusal = class::class(
        fluents,
        1,
        &rules,
        goal,
        starts,
        &mut results,
        &mut lent.calls,
        &mut lent.answers,
        &mut lent.ends,
        &mut lent.list,
    );
    print!(rt; "{name}\trefusal {refusal}\tresults{}", Runs(&results))?;
    print!(rt;
        "\tcalls{}\tanswers{}",
        Runs(&lent.calls),
        Runs(&lent.answers)
    )?;
    println!(rt; "\tlist{}\tcall list{}", Runs(&lent.ends), Runs(&lent.list))
}

// D2's goal from these starts.
fn from(
    rt: &(impl Print + AllocGlobal),
    name: &str,
    starts: &[u64],
    words: u8,
    rooms: Rooms,
) -> io::Result<()> {
    class_of(rt, name, 2, &[CALL], starts, words, rooms)
}

fn lists(rt: &(impl Print + AllocGlobal)) -> io::Result<()> {
    from(
        rt,
        "class of 4, list of 4",
        &[0, 2, 4, 1],
        17,
        Rooms::of(8, 8, 4),
    )?;
    from(
        rt,
        "class of 4, list of 3",
        &[0, 2, 4, 1],
        17,
        Rooms::of(8, 8, 3),
    )?;
    from(
        rt,
        "class of 4, no list",
        &[0, 2, 4, 1],
        17,
        Rooms::of(8, 8, 0),
    )?;
    from(rt, "31 takes no places", &[0, 0, 2], 13, Rooms::of(2, 4, 3))?;
    from(rt, "31 twice", &[0, 0], 8, Rooms::of(2, 4, 2))
}

fn tables(rt: &(impl Print + AllocGlobal)) -> io::Result<()> {
    from(
        rt,
        "30, and a later start runs",
        &[0, 2],
        8,
        Rooms::of(2, 3, 2),
    )?;
    from(rt, "30 last", &[2, 0], 8, Rooms::of(2, 3, 2))?;
    from(rt, "24 last", &[2, 4], 9, Rooms::of(2, 3, 2))?;
    from(rt, "24 alone", &[4, 8], 9, Rooms::of(2, 3, 2))
}

// Rooms for 2 calls, 4 answers and 2 ends.
const SMALL: Rooms = Rooms {
    calls: 2,
    answers: 4,
    ends: 2,
    list: 2,
};

// The list of calls is lent whole to each start; one that is short is told for each.
fn call_lists(rt: &(impl Print + AllocGlobal)) -> io::Result<()> {
    let short = Rooms { list: 1, ..SMALL };
    from(rt, "34 from each start", &[0, 2], 8, short)?;
    from(rt, "24 before 34", &[4, 0], 9, short)?;
    from(rt, "25 before 34", &[0], 3, short)?;
    from(rt, "call list of 3", &[0, 4], 9, Rooms { list: 3, ..SMALL })
}

// No starts at all; result words that are too few, so that the whole class is refused; and just enough of them.
fn rooms(rt: &(impl Print + AllocGlobal)) -> io::Result<()> {
    from(rt, "no starts", &[], 1, Rooms::of(2, 2, 1))?;
    from(rt, "25 of 3 words", &[0], 3, SMALL)?;
    from(rt, "25 of 7 words", &[0, 2], 7, SMALL)?;
    from(rt, "25 before 24", &[4], 0, SMALL)?;
    from(rt, "4 words", &[0], 4, SMALL)
}

// Another count of fluents or step of the goal.
fn books(rt: &(impl Print + AllocGlobal)) -> io::Result<()> {
    class_of(rt, "20 from two starts", 65, &[CALL], &[0, 1], 9, SMALL)?;
    class_of(rt, "23 from two starts", 2, &[CALL + 1], &[0, 1], 9, SMALL)?;
    class_of(rt, "20 from no start", 65, &[CALL], &[], 9, SMALL)
}

// The empty goal from many starts: what is given, the words of some starts, the word past the last of 1,024, and some of the list.
fn many(rt: &(impl Print + AllocGlobal), name: &str, starts: &[u64]) -> io::Result<()> {
    let mut results = [9; 4100];
    let mut ends = [9; 1025];
    let mut lent = Lent::of(rt.alloc(), Rooms::of(1, 1, 0), 9)?;
    let refusal = class::class(
        2,
        0,
        &[],
        &[],
        starts,
        &mut results,
        &mut lent.calls,
        &mut lent.answers,
        &mut ends,
        &mut lent.list,
    );
    print!(rt;
        "{name}\trefusal {refusal}\tends of the first {}",
        results[1]
    )?;
    print!(rt; "\trefusal of the second {}", results[4])?;
    print!(rt;
        "\tends of the last {}\tpast it {}",
        results[4093], results[4096]
    )?;
    println!(rt;
        "\tthe first end {}\tthe last {}\tpast it {}",
        ends[0], ends[1022], ends[1023]
    )
}

// 1,024 starts, of which the second has a bit too high, and one start more.
fn most(rt: &(impl Print + AllocGlobal)) -> io::Result<()> {
    let mut starts = [2; 1024];
    starts[1] = 4;
    starts[1023] = 1;
    many(rt, "1,024 starts", &starts)?;
    many(rt, "25 of 1,025 starts", &[2; 1025])
}

pub fn all(rt: &(impl Print + AllocGlobal)) -> io::Result<()> {
    lists(rt)?;
    tables(rt)?;
    call_lists(rt)?;
    rooms(rt)?;
    books(rt)?;
    most(rt)
}
