// Paths of shared records, and what is refused. Each answer here is justified by one walk only, so that its path is the same in any tables.
// Every word of the list is 7 before.
use crate::panels::Panel;
use print::Runs;
use print::books::d2;
use std::io;

// Where a path is asked for: the words kept, both tables, and the book, over so many fluents and one action.
#[derive(Clone, Copy)]
struct Tables<'a> {
    fluents: u64,
    rules: &'a [u16],
    kept: &'a [u64],
    calls: &'a [u64],
    answers: &'a [u64],
}

impl<'a> Tables<'a> {
    // Those of a panel.
    fn of(panel: &'a Panel, rules: &'a [u16]) -> Tables<'a> {
        Tables {
            fluents: 2,
            rules,
            kept: &panel.kept,
            calls: &panel.calls,
            answers: &panel.answers,
        }
    }

    // Asks for the path of a record in a list of so many places, and prints what that gives and leaves.
    fn path(
        self,
        rt: &(impl Print + AllocGlobal),
        name: &str,
        record: u64,
        places: usize,
    ) -> io::Result<()> {
        let mut states = vec![in rt.alloc(); 7; places]?;
        let r = tracing::share_path(
            self.fluents,
            1,
            self.rules,
            self.kept,
            self.calls,
            self.answers,
            record,
            &mut states,
        );
        println!(rt;
            "{name}\trefusal {}\tstates {}\tlist{}",
            r.refusal,
            r.states,
            Runs(&states)
        )
    }
}

// The path of the record with a call and a final state.
fn of_answer(
    rt: &(impl Print + AllocGlobal),
    name: &str,
    panel: &Panel,
    call: (u64, u64),
    last: u64,
) -> io::Result<()> {
    let rules = d2(rt.alloc())?;
    let (action, state) = call;
    let record = panel.rows().answer_of(action, state, last);
    Tables::of(panel, &rules).path(rt, name, record, 4)
}

// After run 6 of the statement's row: the second party's rows alone.
pub fn after_six(rt: &(impl Print + AllocGlobal), panel: &Panel) -> io::Result<()> {
    of_answer(rt, "path of g at 0 to 1", panel, (0, 0), 1)?;
    of_answer(rt, "path of g at 0 to 3", panel, (0, 0), 3)?;
    of_answer(rt, "path of 65 at 0 to 3", panel, (65, 0), 3)?;
    let rules = d2(rt.alloc())?;
    Tables::of(panel, &rules).path(rt, "41 record 3", 3, 4)
}

// Where both parties hold rows.
fn both(rt: &(impl Print + AllocGlobal)) -> io::Result<()> {
    let panel = Panel::prepared(rt.alloc())?;
    of_answer(rt, "path of 64 at 0 to 1", &panel, (64, 0), 1)?;
    of_answer(rt, "path of 64 at 0 to 3", &panel, (64, 0), 3)?;
    of_answer(rt, "path of 65 at 0 to 3", &panel, (65, 0), 3)?;
    let rules = d2(rt.alloc())?;
    let tables = Tables::of(&panel, &rules);
    tables.path(rt, "41 record 5", 5, 4)?;
    let fewer = Tables {
        kept: &panel.kept[1..],
        ..tables
    };
    fewer.path(rt, "41 of 43 words kept", 0, 4)
}

// The path of record 0, whichever it is, where something is amiss.
fn amiss<F: FnOnce(&mut Panel)>(
    rt: &(impl Print + AllocGlobal),
    name: &str,
    change: F,
) -> io::Result<()>
    requires { F.IsAlwaysCallable change }
{
    let rules = d2(rt.alloc())?;
    let mut panel = Panel::prepared(rt.alloc())?;
    change(&mut panel);
    Tables::of(&panel, &rules).path(rt, name, 0, 4)
}

fn words_kept(rt: &(impl Print + AllocGlobal)) -> io::Result<()> {
    amiss(rt, "23 goal !1 of the first", |p| p.kept[5] = 769)?;
    amiss(rt, "23 goal !1 of the second", |p| p.kept[26] = 769)?;
    amiss(rt, "23 of 17 steps", |p| p.kept[25] = 17)?;
    amiss(rt, "40 of 5 calls", |p| p.kept[42] = 5)?;
    amiss(rt, "40 of 11 answers", |p| p.kept[43] = 11)?;
    amiss(rt, "41 of no answers", |p| p.kept[43] = 0)
}

// 64 and 65 are good only where their goals are kept.
fn records(rt: &(impl Print + AllocGlobal)) -> io::Result<()> {
    amiss(rt, "42 of 64 that is not kept", |p| p.kept[2] = 0)?;
    amiss(rt, "42 of 65 that is not kept", |p| p.kept[23] = 0)?;
    amiss(rt, "42 call word 0 is 63", |p| p.put_call(0, 63))?;
    amiss(rt, "42 no such rule", |p| p.put_answer(2, 2))?;
    amiss(rt, "42 evidence past the body", |p| p.put_answer(18, 1))
}

// The path of a goal of no steps at 3, whose record stands under this action, where this word kept says which party holds rows.
fn of_no_steps(
    rt: &(impl Print + AllocGlobal),
    name: &str,
    action: u64,
    word: usize,
    holds: u64,
) -> io::Result<()> {
    let rules = d2(rt.alloc())?;
    let mut kept = [0; 44];
    kept[word % 44] = holds;
    kept[42] = 1;
    kept[43] = 1;
    let mut answer = [0; 19];
    answer[1] = 3;
    answer[2] = 256;
    let tables = Tables {
        fluents: 2,
        rules: &rules,
        kept: &kept,
        calls: &[action, 3],
        answers: &answer,
    };
    tables.path(rt, name, 0, 4)
}

// It is justified under either number, and yet refused where its goal is not kept.
fn goals(rt: &(impl Print + AllocGlobal)) -> io::Result<()> {
    of_no_steps(rt, "path of 64 at 3, no steps", 64, 2, 1)?;
    of_no_steps(rt, "path of 65 at 3, no steps", 65, 23, 1)?;
    of_no_steps(rt, "42 of 64 at 3, kept by nobody", 64, 2, 0)?;
    of_no_steps(rt, "42 of 64 at 3, kept by the second alone", 64, 23, 1)?;
    of_no_steps(rt, "42 of 65 at 3, kept by the first alone", 65, 2, 1)
}

// The path of 64 at 0 to 3, which has three states; and books that meet 20 to 22.
fn refused(rt: &(impl Print + AllocGlobal)) -> io::Result<()> {
    let panel = Panel::prepared(rt.alloc())?;
    let mut rules = d2(rt.alloc())?;
    let record = panel.rows().answer_of(64, 0, 3);
    let tables = Tables::of(&panel, &rules);
    tables.path(rt, "43 of 2 places", record, 2)?;
    tables.path(rt, "just 3 places", record, 3)?;
    Tables {
        fluents: 65,
        ..tables
    }
    .path(rt, "20 before 41", 9, 4)?;
    Tables::of(&panel, rules.get(1..).unwrap_or(&[])).path(rt, "21 before 41", 9, 4)?;
    if let Some(last) = rules.last_mut() {
        *last = 1;
    }
    Tables::of(&panel, &rules).path(rt, "22 before 41", 9, 4)
}

pub fn all(rt: &(impl Print + AllocGlobal)) -> io::Result<()> {
    both(rt)?;
    words_kept(rt)?;
    records(rt)?;
    goals(rt)?;
    refused(rt)
}
