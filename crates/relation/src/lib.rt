// A separately written evaluator, by another method, for at most 3 fluents (8 states), 4 actions and 6 rules. The relation of an
// action holds, for each state, the set of its final states as bits of a word; all relations grow together until nothing is
// added. Calls come afterwards, by reachability. How many rounds that takes is told apart (`depth`),
// and so are the words of the tables (`order`).
//
// Only safety is proved here, so the numbers of actions and states in a book are taken modulo what there is.
#![tactic(auto)]

pub mod depth;
pub mod order;
pub mod random;
pub mod records;

ghost use Rattle.std.specs.Prelude.{◌≤◌, length};

// A rule or the goal: its action, the number of its steps, and 16 words for them.
pub type Record = [u16; 18];

// The rules, and the goal, whose action is not read.
#[derive(Clone, Copy, PartialEq, Eq, Debug)]
pub struct Book {
    pub rules: [Record; 6],
    pub goal: Record,
}

// The action of a rule.
pub fn head(record: &Record) -> u64 {
    u64::from(record[0])
}

// The words of a body's steps.
pub fn body(record: &Record) -> &[u16]
    ensures { length result.now ≤ 16 }
{
    let count = usize::from(record[1]).min(16);
    &record[2..2 + count]
}

// A step, with the number of its fluent or action. A word of no kind changes nothing.
#[derive(Clone, Copy, PartialEq, Eq, Debug)]
pub enum Step {
    Query(u64),
    Insert(u64),
    Delete(u64),
    Call(u64),
    Deny(u64),
    Idle,
}

impl From<u16> for Step {
    fn from(word: u16) -> Step {
        let index = u64::from(word % 256);
        match word / 256 {
            0 => Step::Query(index),
            1 => Step::Insert(index),
            2 => Step::Delete(index),
            3 => Step::Call(index),
            4 => Step::Deny(index),
            _ => Step::Idle,
        }
    }
}

impl Step {
    // The state after an elementary step, none if it does not go on. A call is not one, and changes nothing here.
    pub fn after(self, s: u64) -> Option<u64> {
        match self {
            Step::Query(fluent) => has(s, fluent).then_some(s),
            Step::Deny(fluent) => (!has(s, fluent)).then_some(s),
            Step::Insert(fluent) => Some(s | single(fluent)),
            Step::Delete(fluent) => Some(s & !single(fluent)),
            Step::Call(_) | Step::Idle => Some(s),
        }
    }

    // The states after it from one state, by the final states of calls.
    fn image(self, s: u64, finals: &[u64; 32]) -> u64 {
        match self {
            Step::Call(action) => finals[place(action, s)],
            _ => self.after(s).map_or(0, single),
        }
    }

    // The states after it from a set of states.
    fn image_of(self, set: u64, finals: &[u64; 32]) -> u64 {
        let mut out = 0;
        for s in 0..8 {
            if has(set, s) {
                out |= self.image(s, finals);
            }
        }
        out
    }
}

// The set with one number below 8.
fn single(s: u64) -> u64 {
    1 << (s % 8)
}

// Whether a set of states has a state, or a state a fluent.
pub fn has(set: u64, s: u64) -> bool {
    (set >> (s % 64)) % 2 == 1
}

// The place of an action and a state in a table of final states.
pub fn place(action: u64, s: u64) -> usize
    ensures { result ≤ 31 }
{
    (action % 4 * 8 + s % 8) as usize
}

// How many bits are set.
pub fn ones(x: u64) -> u64
    ensures { result ≤ 127 }
{
    u64::from(x.count_ones() % 128)
}

// What grows: the final states of each action from each state, by `place`, and the states in which each action is called.
#[derive(Clone, Copy, PartialEq, Eq, Debug)]
struct Relations {
    finals: [u64; 32],
    called: [u64; 4],
}

impl Relations {
    // The final states of a body from one state. The calls that it comes to are noted if it is reached from the goal.
    fn walk(&mut self, record: &Record, s: u64, reached: bool) -> u64 {
        let mut set = single(s);
        for word in body(record) {
            let step = Step::from(*word);
            if let Step::Call(action) = step
                && reached
            {
                self.called[(action % 4) as usize] |= set;
            }
            set = step.image_of(set, &self.finals);
        }
        set
    }

    // Adds the final states of a rule from one state to its action's; it is reached if its head is called there.
    fn add_rule(&mut self, rule: &Record, s: u64) {
        let action = head(rule);
        let reached = has(self.called[(action % 4) as usize], s);
        let set = self.walk(rule, s, reached);
        self.finals[place(action, s)] |= set;
    }

    // One round over all rules and states. Says whether anything is new.
    fn round(&mut self, book: &Book) -> bool {
        let old = *self;
        for rule in &book.rules {
            for s in 0..8 {
                self.add_rule(rule, s);
            }
        }
        *self != old
    }

    // Rounds until nothing is added: the 32 sets of final states and the 4 of calls have at most 288 states to gain.
    fn solve(&mut self, book: &Book) {
        for _ in 0..300 {
            if !self.round(book) {
                return;
            }
        }
    }

    fn calls(&self) -> u64 {
        self.called
            .iter()
            .fold(0, |n, set| n.saturating_add(ones(*set)))
    }

    // The answers of all calls.
    fn answers(&self) -> u64 {
        let mut n = 0u64;
        for (finals, called) in self.finals.chunks(8).zip(&self.called) {
            for (s, set) in finals.iter().enumerate() {
                if has(*called, s as u64) {
                    n = n.saturating_add(ones(*set));
                }
            }
        }
        n
    }
}

// What a run finds: the set of ends, the counts of calls and answers, the goal's with them, the final states of each action from
// each state, by `place`, and the states in which each action is called.
#[derive(Clone, Copy)]
pub struct Found {
    pub ends: u64,
    pub calls: u64,
    pub answers: u64,
    pub finals: [u64; 32],
    pub called: [u64; 4],
}

// Runs the goal from a state below 8. While nothing is called only the relations grow; after the goal's walk they are whole and
// only the calls do.
pub fn run(book: &Book, start: u64) -> Found {
    let mut all = Relations {
        finals: [0; 32],
        called: [0; 4],
    };
    all.solve(book);
    let ends = all.walk(&book.goal, start, true);
    all.solve(book);
    Found {
        ends,
        calls: all.calls().saturating_add(1),
        answers: all.answers().saturating_add(ones(ends)),
        finals: all.finals,
        called: all.called,
    }
}
