// The words kept after an opening and after a run.
ghost use Rattle.std.specs.Prelude.{◌≡◌, cond, [], ◌∷◌, ◌++◌, ◌+◌, ◌≤◌, length};
ghost use Rattle.sharing.specs.Parties.{Account, vacant, opened, account_of, entered, account_words, ledger_words, party_of};
ghost use Rattle.sharing.specs.Parties.{account_at, ledger_width, ledger_of};
ghost use Rattle.sharing.specs.Shared.{gives_up, handed_back};
ghost use Rattle.accounts.specs.Accounts.{account_width, place_of, holding, took_up, ShortGoals};

use crate::reading;
use crate::reading::Limits;

// What is kept beside the tables: of each party the limits of calls and of answers, 1 if it holds rows, the start, the count of goal steps and
// 16 step words; then the counts of call records and of answer records.
#[repr(C)]
#[derive(Clone, Copy)]
pub struct Kept {
    pub words: [u64; 44],
}

// The words of one account.
#[derive(Clone, Copy)]
struct Entry {
    words: [u64; 21],
}

// 1 for true, 0 for false.
fn flag(holds: bool) -> u64
    ensures { result ≡ cond holds 1 0 }
{
    u64::from(holds)
}

// Where a party's account begins.
pub fn place(second: bool) -> usize
    ensures { result ≡ place_of (party_of second) }
{
    if second { reading::SECOND } else { 0 }
}

// An account that holds no rows.
fn vacant(limits: Limits) -> Entry
    ensures { result.words ≡ account_words (vacant limits.calls limits.answers) }
{
    let mut words = [0u64; 21];
    words[0] = limits.calls;
    words[1] = limits.answers;
    Entry { words: words }
}

// The account that begins at word `at`, as it is kept from now on: unused words are 0.
fn entry_at(kept: &[u64], at: usize) -> Entry
    requires { (at + 22 ≤ length kept.now) × (length (account_at kept.now at).goal ≤ 16) }
    ensures { result.words ≡ account_words (account_at kept.now at) }
{
    let own = reading::limits_of(kept, at);
    let count = reading::steps(kept, at);
    let mut words = [0u64; 21];
    words[0] = own.calls;
    words[1] = own.answers;
    words[2] = flag(reading::holds(kept, at));
    words[3] = reading::start(kept, at);
    words[4] = count as u64;
    for i in 0..count {
        words[5 + i] = reading::step(kept, at, i);
    }
    Entry { words: words }
}

// An account that holds the rows of this goal from this start.
fn holding(limits: Limits, start: u64, goal: &[u16]) -> Entry
    requires { length goal.now ≤ 16 }
    ensures { result.words ≡ account_words (holding limits.calls limits.answers goal.now start) }
{
    let mut words = [0u64; 21];
    words[0] = limits.calls;
    words[1] = limits.answers;
    words[2] = 1;
    words[3] = start;
    words[4] = goal.len() as u64;
    for (i, step) in goal.iter().enumerate() {
        words[5 + i] = u64::from(*step);
    }
    Entry { words: words }
}

// Two accounts and the counts of records.
fn ledger(first: Entry, second: Entry, calls: usize, answers: usize) -> Kept
    requires { (length first.words ≡ account_width) × (length second.words ≡ account_width) }
    ensures { result.words ≡ first.words ++ (second.words ++ (calls ∷ answers ∷ [])) }
{
    let mut words = [0u64; 44];
    words[..21].copy_from_slice(&first.words);
    words[21..42].copy_from_slice(&second.words);
    words[42] = calls as u64;
    words[43] = answers as u64;
    Kept { words: words }
}

// What is kept with another account of one party and other counts.
fn entered(kept: &[u64], second: bool, entry: Entry, calls: usize, answers: usize) -> Kept
    requires { ShortGoals kept.now × (length entry.words ≡ account_width) }
    ensures { (a : Account) → entry.words ≡ account_words a
        → result.words ≡ ledger_words (entered (ledger_of kept.now) (party_of second) a calls answers) }
{
    if second {
        ledger(entry_at(kept, 0), entry, calls, answers)
    } else {
        ledger(entry, entry_at(kept, reading::SECOND), calls, answers)
    }
}

// What is kept after an opening.
pub fn opened(first: Limits, second: Limits) -> Kept
    ensures { result.words ≡ ledger_words (opened first.calls first.answers second.calls second.answers) }
{
    ledger(vacant(first), vacant(second), 0, 0)
}

// What is kept after a run whose party holds no rows then.
pub fn gives_up(kept: &[u64], second: bool, calls: usize, answers: usize) -> Kept
    requires { ShortGoals kept.now }
    ensures { result.words ≡ ledger_words (entered (ledger_of kept.now) (party_of second)
        (gives_up (account_of (ledger_of kept.now) (party_of second))) calls answers) }
{
    let own = reading::limits_of(kept, place(second));
    entered(kept, second, vacant(own), calls, answers)
}

// What is kept after a run whose party holds the rows of this goal from this start.
pub fn takes_up(
    kept: &[u64],
    second: bool,
    start: u64,
    goal: &[u16],
    calls: usize,
    answers: usize,
) -> Kept
    requires { ShortGoals kept.now × (length goal.now ≤ 16) }
    ensures { result.words ≡ ledger_words (entered (ledger_of kept.now) (party_of second)
        (took_up (account_of (ledger_of kept.now) (party_of second)) goal.now start) calls answers) }
{
    let own = reading::limits_of(kept, place(second));
    entered(kept, second, holding(own, start, goal), calls, answers)
}

// The same words.
fn copied(kept: &[u64]) -> Kept
    requires { length kept.now ≡ ledger_width }
    ensures { result.words ≡ kept.now }
{
    let mut words = [0u64; 44];
    words.copy_from_slice(kept);
    Kept { words: words }
}

// What is kept after a run that changes nothing: the words as they went in, 44 of 0 where they were not 44.
pub fn handed_back(kept: &[u64]) -> Kept
    ensures { result.words ≡ handed_back kept.now }
{
    if kept.len() == reading::LEDGER_WORDS {
        copied(kept)
    } else {
        Kept { words: [0u64; 44] }
    }
}
