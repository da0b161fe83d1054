// What a run notes of its call records, five numbers of 16 bits for each. No other code knows the parts.
//
// From which call records it is called, the least and the greatest of their numbers: a record is walked again only if it lies between the
// callers of a record that has gained an answer. After which answer it is called, and from which of its own answers on a round looks at it: an
// answer is taken again only if it is new, if a record called after it has an answer that is, or if a smaller answer of its own record is.
#![tactic(auto)]

ghost use Rattle.std.specs.Prelude.{◌≡◌, true, List, ℕ, ◌+◌, ◌-◌, ◌*◌, ◌<◌, ◌≤◌, min, max, length, get_or};
ghost use Rattle.quarters.specs.Quarters.{quarter};
ghost use Rattle.records.specs.Records.{call_width};
ghost use Rattle.records.specs.Storage.{NextAnswer};
ghost use Rattle.desk.specs.Desk.{packed_answers, packed_width};
ghost use Rattle.uses.specs.Uses.{Uses, third, uses_in, heat, UseAdded, ViaNoted, StartPut, after_both};
ghost use Rattle.uses.specs.Uses.{Used, Came, Noted, Spans, FirstHot, FirstNew, Lighted, Looked, Begun};
ghost use Rattle.uses.specs.Uses.{UsesAlone, LooksAlone, AnswersHeld};

use records::tables;

// The third word of a call record: in its quarters 65,535 less the least caller, the greatest caller, and one more than the answer after which
// walks come to the record (0 for none, or SEVERAL). The last quarter is not ours.
const THIRD: usize = 2;

const LEAST: usize = 0;

const GREATEST: usize = 1;

const VIA: usize = 2;

// The word of the list for a call record: in its first two quarters the first of the record's answers that a round looks at, and the new answer
// for which it does, the record's own first where it has any.
const START: usize = 0;

const HEAT: usize = 1;

// Several answers, or one of the last two, for whose numbers there is no room beside it; and the most that stands for a single answer.
const SEVERAL: usize = 65535;

const SINGLE: usize = 65534;

// The number of the call record that answer record x is of.
fn call_of(answers: &[u64], x: usize) -> usize
    requires { packed_width * x + 8 ≤ length answers.now }
    ensures { result ≡ get_or answers.now (packed_width * x) 0 }
{
    desk::call_of(answers, x) as usize
}

// The least number of a record's callers.
fn least_of(calls: &[u64], k: usize) -> usize
    requires { call_width * k + 2 < length calls.now }
    ensures { (result ≡ 65535 - third calls.now k 0) × (result ≤ 65535) }
{
    65535 - quarters::get(calls, tables::CALL_WORDS * k + THIRD, LEAST)
}

// The greatest.
fn greatest_of(calls: &[u64], k: usize) -> usize
    requires { call_width * k + 2 < length calls.now }
    ensures { (result ≡ third calls.now k 1) × (result ≤ 65535) }
{
    quarters::get(calls, tables::CALL_WORDS * k + THIRD, GREATEST)
}

// One more than the answer after which walks come to record k.
fn via_of(calls: &[u64], k: usize) -> usize
    requires { call_width * k + 2 < length calls.now }
    ensures { (result ≡ third calls.now k 2) × (result ≤ 65535) }
{
    quarters::get(calls, tables::CALL_WORDS * k + THIRD, VIA)
}

// The first of its answers that a round looks at.
fn start_of(list: &[u64], k: usize) -> usize
    requires { k < length list.now }
    ensures { (result ≡ quarter (get_or list.now k 0) 0) × (result ≤ 65535) }
{
    quarters::get(list, k, START)
}

// The new answer for which it does.
fn heat_of(list: &[u64], k: usize) -> usize
    requires { k < length list.now }
    ensures { (result ≡ quarter (get_or list.now k 0) 1) × (result ≤ 65535) }
{
    quarters::get(list, k, HEAT)
}

// Notes that a walk of record `row` has come to record `callee`.
fn note_caller(calls: &mut [u64], row: usize, callee: usize)
    requires { (call_width * callee + 2 < length calls.old) × (row < 65536) }
    ensures use_added { (list : List ℕ) → UseAdded (uses_in calls.old list) row callee (uses_in calls.new list) }
    ensures uses_alone { UsesAlone (callee + 1) calls.old calls.new }
{
    let low = least_of(calls, callee).min(row);
    let high = greatest_of(calls, callee).max(row);
    quarters::put(
        calls,
        tables::CALL_WORDS * callee + THIRD,
        LEAST,
        65535 - low,
    );
    quarters::put(calls, tables::CALL_WORDS * callee + THIRD, GREATEST, high);
}

// What is noted where walks have come after `was` and now come after `last`.
#[tactic(auto, unfolding(crate::specs::Uses::after_both))]
fn after_both(was: usize, last: usize) -> usize
    ensures { result ≡ after_both was last }
{
    if was == 0 {
        last.min(SEVERAL)
    } else if was == last {
        last
    } else {
        SEVERAL
    }
}

// Notes that walks come to record `callee` after the answer `last - 1`.
fn note_via(calls: &mut [u64], callee: usize, last: usize)
    requires { call_width * callee + 2 < length calls.old }
    ensures via_noted { (list : List ℕ) → ViaNoted (uses_in calls.old list) last callee (uses_in calls.new list) }
    ensures uses_alone { UsesAlone (callee + 1) calls.old calls.new }
{
    let was = via_of(calls, callee);
    let after = after_both(was, last);
    quarters::put(calls, tables::CALL_WORDS * callee + THIRD, VIA, after);
}

// Whether it is noted that a walk of record `row` has come to record `callee` after the answer `last - 1`, or after none.
fn is_noted(calls: &[u64], row: usize, callee: usize, last: usize) -> bool
    requires { (call_width * callee + 2 < length calls.now) × (callee < 65536) }
    ensures { (list : List ℕ) → result ≡ true
        → Used (uses_in calls.now list) row callee × Came (uses_in calls.now list) last callee }
{
    if row < least_of(calls, callee) || greatest_of(calls, callee) < row {
        return false;
    }
    let via = via_of(calls, callee);
    last == 0 || via == last || via == SEVERAL
}

// Notes that a walk of record `row` has come to record `callee`, after the answer `last - 1` or, where `last` is 0, after none. Most often it
// is noted already, and nothing is written.
pub fn note(calls: &mut [u64], row: usize, callee: usize, last: usize)
    requires { (call_width * callee + 2 < length calls.old) × (callee < 65536) × (row < 65536) }
    ensures by_index { (list : List ℕ) → Noted (uses_in calls.old list) (uses_in calls.new list) row last callee }
    ensures uses_alone { UsesAlone (callee + 1) calls.old calls.new }
{
    if is_noted(calls, row, callee, last) {
        return;
    }
    note_caller(calls, row, callee);
    if last != 0 {
        note_via(calls, callee, last);
    }
}

// Has the round look at the answers of record k from y on, for the new answer `heat`.
fn put_start(list: &mut [u64], k: usize, y: usize, heat: usize)
    requires { (k < length list.old) × (y ≤ 65535) × (heat ≤ 65535) }
    ensures start_put { (calls : List ℕ) → StartPut (uses_in calls list.old) k y heat (uses_in calls list.new) }
    ensures looks_alone { LooksAlone list.old list.new }
{
    quarters::put(list, k, START, y);
    quarters::put(list, k, HEAT, heat);
}

// The callers of all records with answers from `seen` up to `known`: from `low` up to `high`; and up to where a round looks at records.
#[derive(Clone, Copy)]
pub struct Within {
    pub low: usize,
    pub high: usize,
    pub top: usize,
}

// Has the round look at the answers from `seen` on, each record from its first of them on, and gives the callers of their records.
fn look_at_new(
    calls: &[u64],
    list: &mut [u64],
    answers: &[u64],
    seen: usize,
    known: usize,
    walked: usize,
    rows: usize,
) -> Within
    requires answers_held { AnswersHeld calls.now list.old answers.now known rows × (seen ≤ known) × (walked ≤ rows) }
    requires stale { (k : ℕ) → heat (uses_in calls.now list.old) k ≤ seen - 1 }
    ensures spans { Spans (packed_answers answers.now known) (uses_in calls.now list.old)
        walked seen known rows result.low result.high result.top }
    ensures lighted { Lighted (packed_answers answers.now known) (uses_in calls.now list.old)
        (uses_in calls.now list.new) seen known seen }
    ensures looks_alone { LooksAlone list.old list.new }
{
    let mut low = walked;
    let mut high: usize = 0;
    for x in (seen..known).rev() {
        let k = call_of(answers, x);
        low = low.min(least_of(calls, k));
        high = high.max(greatest_of(calls, k) + 1);
        put_start(list, k, x, x);
    }
    let top = if walked < rows { rows } else { high.min(rows) };
    Within { low, high, top }
}

// Where x is the first new answer of its record: has the round look at the answer after which walks come to that record, and so on; false
// where there are several.
fn look_before(
    calls: &[u64],
    list: &mut [u64],
    answers: &[u64],
    seen: usize,
    known: usize,
    x: usize,
    rows: usize,
) -> bool
    requires { AnswersHeld calls.now list.old answers.now known rows × (seen ≤ x) × (x < known) }
    ensures looked { (uses₀ : Uses)
        → Looked (packed_answers answers.now known) uses₀ (uses_in calls.now list.old) seen known x true
        → Looked (packed_answers answers.now known) uses₀ (uses_in calls.now list.new) seen known (x + 1) result }
    ensures looks_alone { LooksAlone list.old list.new }
{
    let first = call_of(answers, x);
    if heat_of(list, first) != x {
        return true;
    }
    let most = known.min(SINGLE);
    let mut via = via_of(calls, first);
    'back: for _ in 0..65536 {
        if via == 0 {
            return true;
        }
        if most < via {
            return false;
        }
        let y = via - 1;
        let k = call_of(answers, y);
        let heat = heat_of(list, k);
        if seen <= heat {
            let start = start_of(list, k).min(y);
            put_start(list, k, start, heat);
            return true;
        }
        via = via_of(calls, k);
        put_start(list, k, y, x);
    }
    false
}

// Has the round look at the answers before those from `seen` on; whether all that it has to look at is known. Where as many answers are new as
// are old it is not worth the search.
fn look_back(
    calls: &[u64],
    list: &mut [u64],
    answers: &[u64],
    seen: usize,
    known: usize,
    rows: usize,
) -> bool
    requires { AnswersHeld calls.now list.old answers.now known rows × (seen ≤ known) }
    ensures looked { Looked (packed_answers answers.now known) (uses_in calls.now list.old)
        (uses_in calls.now list.new) seen known known result }
    ensures looks_alone { LooksAlone list.old list.new }
{
    if seen + seen <= known {
        return false;
    }
    for x in seen..known {
        if !look_before(calls, list, answers, seen, known, x, rows) {
            return false;
        }
    }
    true
}

// The first answer of record `row` that the round looks at, or `known`; `first` is its first answer, or `known`.
pub fn first_looked(
    list: &[u64],
    answers: &[u64],
    seen: usize,
    known: usize,
    row: usize,
    first: usize,
) -> usize
    requires { (row < length list.now) × (packed_width * known ≤ length answers.now)
        × NextAnswer (packed_answers answers.now known) known row 0 first }
    ensures { (calls : List ℕ)
        → FirstHot (packed_answers answers.now known) (uses_in calls list.now) seen known row result }
{
    if heat_of(list, row) < seen {
        return known;
    }
    let x = start_of(list, row);
    if x < known && call_of(answers, x) == row {
        x
    } else {
        first
    }
}

// The first answer of record `row` from `seen` on, or `known`.
pub fn first_new(list: &[u64], answers: &[u64], seen: usize, known: usize, row: usize) -> usize
    requires { (row < length list.now) × (packed_width * known ≤ length answers.now) }
    ensures { (calls : List ℕ)
        → FirstNew (packed_answers answers.now known) (uses_in calls list.now) seen known row result }
{
    let x = heat_of(list, row);
    if seen <= x && x < known && call_of(answers, x) == row {
        x
    } else {
        known
    }
}

// The records that a round looks at: from `low` up to `top`; those from `high` on only if they were never walked. The walks of those below
// `old` may pass over answers: at the last call of a body over those that are not new, and if `warm` over those that the round does not
// look at. Stays: `warm` is a fact of its own, and every number holds whatever it says.
#[derive(Clone, Copy)]
pub struct Span {
    pub low: usize,
    pub high: usize,
    pub top: usize,
    pub old: usize,
    pub warm: bool,
}

// The span of a round: all callers of records with answers from `seen` up to `known`, and the records from `walked` on. While no answer is
// old nothing is passed over.
pub fn span_of(
    calls: &[u64],
    list: &mut [u64],
    answers: &[u64],
    seen: usize,
    known: usize,
    walked: usize,
    rows: usize,
) -> Span
    requires answers_held { AnswersHeld calls.now list.old answers.now known rows × (seen ≤ known) × (walked ≤ rows) }
    requires by_index { (k : ℕ) → heat (uses_in calls.now list.old) k ≤ seen - 1 }
    ensures spans { Spans (packed_answers answers.now known) (uses_in calls.now list.new)
        walked seen known rows result.low result.high result.top }
    ensures begun { Begun (packed_answers answers.now known) (uses_in calls.now list.old)
        (uses_in calls.now list.new) walked seen known result.old result.warm }
    ensures looks_alone { LooksAlone list.old list.new }
{
    let within = look_at_new(calls, list, answers, seen, known, walked, rows);
    let (old, warm) = if 0 < seen {
        (walked, look_back(calls, list, answers, seen, known, rows))
    } else {
        (0, false)
    };
    Span {
        low: within.low,
        high: within.high,
        top: within.top,
        old,
        warm,
    }
}
