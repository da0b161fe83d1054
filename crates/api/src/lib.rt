// The functions that a host in C, Rust or Python calls: each is one operation of the library, under a name of its own.
#![tactic(auto)]

ghost use Rattle.std.specs.Prelude.{◌≡◌, length};
ghost use Rattle.lines.specs.Reader.{read_sheet};
ghost use Rattle.sheet.specs.Result.{result_of, rules_after};
ghost use Rattle.sheet.specs.FluentName.{name_span};
ghost use Rattle.writer.specs.Writer.{written_in, out_after};
ghost use Rattle.merge.specs.Merge as merged;
ghost use Rattle.origin.specs.MergedName.{merged_span};
ghost use Rattle.evaluator.specs.Evaluated.{Evaluated, asked, lent, told};
ghost use Rattle.class.specs.Class.{Ran};
ghost use Rattle.path.specs.Answered.{handed, Answered};
ghost use Rattle.lookup.specs.Lookup.{looked_up};
ghost use Rattle.archive.specs.Archived.{StatesStored, StatesRestored};
ghost use Rattle.report.specs.Report.{refusal, output_after};
ghost use Rattle.marking.specs.Marking.{question, RecordMarked};

// The version, as a host compares it with its header's: 10,000 times the first number, 100 times the second and the third.
pub fn lawhemuri_version() -> u64
    ensures { result ≡ 200 }
{
    200
}

// Reads a sheet: the rule words of an accepted one go to `rules`, which is unchanged past them and by a refusal.
pub fn lawhemuri_read(sheet: &[u8], rules: &mut [u16]) -> sheet::Sheet
    ensures value { result ≡ result_of (length rules.old) (read_sheet sheet.now) }
    ensures rules_after { rules.new ≡ rules_after rules.old (read_sheet sheet.now) }
{
    sheet::read(sheet, rules)
}

// Where a fluent's name stands in the sheet; nothing at 0 for a refused sheet or a number too high.
pub fn lawhemuri_fluent_name(sheet: &[u8], fluent: u64) -> naming::Span
    ensures { result ≡ name_span sheet.now fluent }
{
    sheet::fluent_span(sheet, fluent)
}

// Writes an accepted sheet's one fixed text to `text`, which is unchanged past it and by a refusal.
pub fn lawhemuri_write(sheet: &[u8], text: &mut [u8]) -> writer::Written
    ensures value { result ≡ written_in (length text.old) (read_sheet sheet.now) }
    ensures text_after { text.new ≡ out_after text.old (read_sheet sheet.now) }
{
    writer::write(sheet, text)
}

// Writes the one fixed text of two accepted sheets merged to `text`, which is unchanged past it and by a refusal.
pub fn lawhemuri_merge<'a>(first: &'a [u8], second: &'a [u8], text: &mut [u8]) -> merge::Merged
    ensures value { result ≡ merged.merged_in (length text.old) (merged.merge_of first.now second.now) }
    ensures text_after { text.new ≡ merged.out_after text.old (merged.merge_of first.now second.now) }
{
    merge::merge(first, second, text)
}

// Where a merged fluent's name stands, in whichever sheet brought it first; nothing for a merge refused other than with 50 or a number too high.
pub fn lawhemuri_merged_fluent<'a>(first: &'a [u8], second: &'a [u8], fluent: u64) -> origin::Part
    ensures { result ≡ merged_span first.now second.now fluent }
{
    origin::merged_span(first, second, fluent)
}

// Evaluates the goal from the start: fills the tables with its calls and answers, lists its ends in rising order in `ends`, and the
// numbers of its call records, by action and then state, in `list`.
pub fn lawhemuri_evaluate<'a>(
    fluents: u64,
    actions: u64,
    rules: &'a [u16],
    goal: &'a [u16],
    start: u64,
    calls: &mut [u64],
    answers: &mut [u64],
    ends: &mut [u64],
    list: &mut [u64],
) -> evaluator::Run
    ensures { Evaluated (asked fluents actions rules.now goal.now start)
        (lent calls.old answers.old ends.old list.old)
        (lent calls.new answers.new ends.new list.new)
        (told result.refusal result.ends result.calls result.answers result.rounds) }
{
    evaluator::evaluate(
        fluents, actions, rules, goal, start, calls, answers, ends, list,
    )
}

// Runs the goal from each start in turn, with the same tables, one list of ends and one list of calls: four words for each start go to `results`.
pub fn lawhemuri_class<'a>(
    fluents: u64,
    actions: u64,
    rules: &'a [u16],
    goal: &'a [u16],
    starts: &[u64],
    results: &mut [u64],
    calls: &mut [u64],
    answers: &mut [u64],
    ends: &mut [u64],
    list: &mut [u64],
) -> u64
    ensures { Ran (asked fluents actions rules.now goal.now) starts.now
        results.old (lent calls.old answers.old ends.old list.old)
        results.new (lent calls.new answers.new ends.new list.new) result }
{
    class::class(
        fluents, actions, rules, goal, starts, results, calls, answers, ends, list,
    )
}

// Lists the path of an answer record, which may come from anybody: the states come first in the list, which is unchanged past them and by a
// refusal.
pub fn lawhemuri_path<'a>(
    fluents: u64,
    actions: u64,
    rules: &'a [u16],
    goal: &'a [u16],
    calls: &[u64],
    call_count: u64,
    answers: &[u64],
    answer_count: u64,
    record: u64,
    states: &mut [u64],
) -> path::outcome::Path
    ensures { Answered (handed fluents actions rules.now goal.now calls.now call_count
        answers.now answer_count)
        «record» states.old result.refusal result.states states.new }
{
    path::path(
        fluents,
        actions,
        rules,
        goal,
        calls,
        call_count,
        answers,
        answer_count,
        record,
        states,
    )
}

// Finds the record of a call by the list of call record numbers; table and list may come from anybody, and nothing is written.
pub fn lawhemuri_lookup(
    calls: &[u64],
    count: u64,
    list: &[u64],
    action: u64,
    state: u64,
) -> lookup::Found
    ensures { result ≡ looked_up calls.now count list.now action state }
{
    lookup::lookup(calls, count, list, action, state)
}

// Stores states by fluent. The words come first in `words`, which is unchanged past them and by a refusal.
pub fn lawhemuri_store(fluents: u64, states: &[u64], words: &mut [u64]) -> archive::Archived
    ensures { StatesStored fluents states.now words.old result.refusal result.count words.new }
{
    archive::store(fluents, states, words)
}

// Restores `count` states. They come first in `states`, which is unchanged past them and by a refusal.
pub fn lawhemuri_restore(
    fluents: u64,
    count: u64,
    words: &[u64],
    states: &mut [u64],
) -> archive::Archived
    ensures { StatesRestored fluents count words.now states.old result.refusal result.count states.new }
{
    archive::restore(fluents, count, words, states)
}

// Gives the refusal, or 0. The figures of a class run, two words each, come first in `out`, which is unchanged past them and by a refusal.
pub fn lawhemuri_report(fluents: u64, results: &[u64], ends: &[u64], out: &mut [u64]) -> u64
    ensures value { result ≡ refusal fluents results.now ends.now (length out.old) }
    ensures out_after { out.new ≡ output_after fluents results.now ends.now out.old }
{
    report::report(fluents, results, ends, out)
}

// Marks a trainee's record: whether some complete deduction of the goal from the start carries out just the recorded steps, in order. The first
// 4,096 words of `table` say the same of every action and any part of the record; it is unchanged past them and by a refusal.
pub fn lawhemuri_mark(
    fluents: u64,
    actions: u64,
    rules: &[u16],
    goal: &[u16],
    start: u64,
    recorded: &[u16],
    table: &mut [u64],
) -> marking::Marked
    ensures { RecordMarked (question fluents actions rules.now goal.now start recorded.now)
        table.old result.refusal result.yes table.new }
{
    marking::mark(fluents, actions, rules, goal, start, recorded, table)
}
