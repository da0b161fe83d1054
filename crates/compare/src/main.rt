// Compares reader, writer and evaluator with a separately written evaluator on sheets at random and in some dress: the words
// read, the text written and what it reads to, ends, calls, answers, rounds, justifications, the words of both tables and of the
// list of calls, rooms, and a record's marks. The other evaluator works on the words of a book of three fluents, from which a
// sheet of 64 was written.
#![tactic(auto)]

mod markings;
mod rooms;
mod sheets;
mod spans;
mod spread;
mod tally;
mod text;

use evaluator::Run;
use relation::records::{self, Records, Rows, Table};
use relation::{Book, Found, Record, random};
use rooms::{Case, Lent, Rooms};
use sheet::Sheet;
use std::alloc::{AllocError, Global};
use std::io;
use tally::{Tally, count, miss};

// Whether a rule's first step calls an action.
fn calls_first(rule: &Record, action: u64) -> bool {
    match relation::body(rule) {
        [first, ..] => u64::from(*first) == action % 4 + 768,
        [] => false,
    }
}

// How many rules call their own action first.
fn own_first(book: &Book) -> u64 {
    let rules = book.rules.iter();
    rules
        .filter(|rule| calls_first(*rule, relation::head(*rule)))
        .count() as u64
}

// Whether two rules of different actions call each other's action first.
fn is_mutual(a: &Record, b: &Record) -> bool {
    let p = relation::head(a);
    let q = relation::head(b);
    p != q && calls_first(a, q) && calls_first(b, p)
}

// Whether some two rules are such.
fn mutual_first(book: &Book) -> bool {
    for a in &book.rules {
        for b in &book.rules {
            if is_mutual(a, b) {
                return true;
            }
        }
    }
    false
}

// A run and what of it is the other evaluator's.
#[derive(Clone, Copy)]
struct Verdict {
    run: Run,
    ends: bool,
    calls: bool,
    answers: bool,
    justified: bool,
    rounds: bool,
    tables: bool,
    list: bool,
    rooms: bool,
}

// The rows of a run of the goal.
fn rows(found: &Found, start: u64) -> Rows {
    let mut rows = Rows::none();
    rows.add(found, false, start);
    rows
}

// Which of calls, answers and justifications of the records of a run are the other evaluator's.
fn same_records(
    book: &Book,
    start: u64,
    found: &Found,
    run: Run,
    lent: &Lent,
) -> (bool, bool, bool) {
    let wanted = rows(found, start);
    let Some(calls) = Table::held(lent.calls.as_slice(), 3, run.calls) else {
        return (false, false, false);
    };
    let Some(answers) = Table::held(lent.answers.as_slice(), 20, run.answers) else {
        return (run.calls == found.calls, false, false);
    };
    let held = Records { calls, answers };
    (
        run.calls == found.calls && held.calls_held() == Some(wanted.calls),
        run.answers == found.answers && held.answers_held() == Some(wanted.answers),
        held.all_justified(&book.rules, &[book.goal]),
    )
}

// Evaluates what was read from the sheet of one book from one state, and compares what it gives and leaves.
fn judged(
    alloc: Global,
    book: &Book,
    start: u64,
    base: u64,
    read: Sheet,
    rules: &[u16],
) -> Result<Verdict, AllocError> {
    let found = relation::run(book, start);
    let wanted = relation::order::write(book, start);
    let list = relation::order::list(&wanted.calls[..found.calls.min(40) as usize], start);
    let mut lent = Lent::new(alloc, Rooms::MOST)?;
    let run = rooms::evaluate(read, rules, &mut lent);
    let case = Case {
        read,
        rules,
        whole: run,
        listed: lent.list.as_slice(),
    };
    let rooms = rooms::exact(alloc, &case)?;
    spread::put_all_back(&mut lent, run, base);
    let (calls, answers, justified) = same_records(book, start, &found, run, &lent);
    Ok(Verdict {
        run,
        ends: run.refusal == 0
            && run.ends == relation::ones(found.ends)
            && records::is_list_of(lent.ends.as_slice(), found.ends),
        calls,
        answers,
        justified,
        rounds: run.rounds == wanted.rounds,
        tables: lent.calls.as_slice() == wanted.calls.as_flattened()
            && lent.answers.as_slice() == wanted.answers.as_flattened(),
        list: lent.list.as_slice() == list.as_slice(),
        rooms,
    })
}

// Counts what the runs of a sheet showed.
fn count_verdict(tally: &mut Tally, good: &Verdict) {
    count(&mut tally.ends, good.run.ends);
    count(&mut tally.calls, good.run.calls);
    count(&mut tally.answers, good.run.answers);
    count(&mut tally.rounds, good.run.rounds);
    miss(&mut tally.inner, good.run.answers == good.run.ends);
    miss(&mut tally.bad_ends, good.ends);
    miss(&mut tally.bad_calls, good.calls);
    miss(&mut tally.bad_answers, good.answers);
    miss(&mut tally.bad_rounds, good.rounds);
    miss(&mut tally.bad_tables, good.tables);
    miss(&mut tally.bad_list, good.list);
    miss(&mut tally.bad_evidence, good.justified);
    miss(&mut tally.bad_rooms, good.rooms);
}

// Counts what a record's marks showed.
fn count_marks(tally: &mut Tally, seen: markings::Seen) {
    count(&mut tally.runs, seen.runs);
    count(&mut tally.yes, u64::from(seen.yes));
    count(&mut tally.marks, seen.marks);
    miss(&mut tally.bad_marks, seen.same);
}

// Compares the sheet of one book from one state in a dress.
fn compare(
    alloc: Global,
    tally: &mut Tally,
    book: &Book,
    start: u64,
    dress: u64,
) -> Result<(), AllocError> {
    let base = random::pick(random::next(dress), 22);
    let wide = spread::book(book, base);
    let from = spread::state(start, base);
    let text = text::write(alloc, &wide, from, dress)?;
    let plain = text::write(alloc, &wide, from, 0)?;
    let mut rules = [0; 108];
    let read = sheet::read(text.as_bytes(), &mut rules);
    let good = judged(alloc, book, start, base, read, &rules)?;
    count(&mut tally.sheets, 1);
    count(&mut tally.comments, sheets::count(text.as_bytes(), b'#'));
    count(&mut tally.returns, sheets::count(text.as_bytes(), b'\r'));
    count(&mut tally.own, own_first(book));
    count(&mut tally.mutual, u64::from(mutual_first(book)));
    miss(
        &mut tally.bad_words,
        sheets::as_written(&wide, from, read, &rules),
    );
    miss(
        &mut tally.bad_text,
        sheets::same_text(alloc, text.as_bytes(), plain.as_bytes())?,
    );
    miss(
        &mut tally.bad_again,
        sheets::same_again(&wide, from, text.as_bytes()),
    );
    count_verdict(tally, &good);
    count_marks(
        tally,
        markings::compare(book, start, base, read, &rules, dress),
    );
    Ok(())
}

// A book at random, of which so many first rules are base rules; and the generator's next number.
fn random_book(seed: u64, bases: u16) -> (Book, u64) {
    let (mut book, next) = random::rules(seed, bases);
    let (goal, next) = random::record(next, None);
    book.goal = goal;
    (book, random::next(next))
}

// Compares so many sheets. In turn they have one to five base rules.
fn compare_all(alloc: Global, sheets: u64, from: u64) -> Result<Tally, AllocError> {
    let mut tally = Tally::default();
    let mut seed = from;
    for k in 0..sheets {
        let (book, next) = random_book(seed, (k % 5 + 1) as u16);
        seed = next;
        let dress = random::pick(random::next(seed), 32768);
        compare(alloc, &mut tally, &book, random::pick(seed, 8), dress)?;
    }
    Ok(tally)
}

fn main(rt: HostRuntime) -> io::Result<()> {
    let tally = compare_all(rt.alloc(), 5000, 2026)?;
    for (name, n) in tally.lines() {
        println!(rt; "{name}\t{n}")?;
    }
    Ok(())
}
