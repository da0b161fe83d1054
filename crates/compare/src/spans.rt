// What a record's parts are, by another method than the library's: for each action and each end of a part the set of its
// beginnings. A body is walked backwards from the end, and all rules in rounds over all ends until a round adds nothing. A
// record has at most seven steps.

use relation::{Record, Step, body, has, head, place};

// The first steps of a record that can run, from a state.
pub fn ran(steps: &[u16], start: u64) -> &[u16] {
    let mut state = start;
    for (i, word) in steps.iter().enumerate() {
        match Step::from(*word).after(state) {
            Some(next) => state = next,
            None => return &steps[..i],
        }
    }
    steps
}

// The places from which one step comes to one of some places: a call by the parts found, another where the record has this step.
fn before(word: u16, set: u64, ran: &[u16], spans: &[u64; 32]) -> u64 {
    let mut out = 0;
    if let Step::Call(action) = Step::from(word) {
        for end in 0..8 {
            if has(set, end) {
                out |= spans[place(action, end)];
            }
        }
    } else {
        for (i, step) in ran.iter().take(7).enumerate() {
            if *step == word && has(set / 2, i as u64) {
                out |= 1 << i;
            }
        }
    }
    out
}

// The places from which a body comes to an end.
pub fn beginnings(record: &Record, end: u64, ran: &[u16], spans: &[u64; 32]) -> u64 {
    let mut set = 1 << (end % 8);
    for word in body(record).iter().rev() {
        set = before(*word, set, ran, spans);
    }
    set
}

// One round over the ends of parts. Says whether it adds a beginning.
fn round(rules: &[Record; 6], ran: &[u16], spans: &mut [u64; 32]) -> bool {
    let old = *spans;
    for end in 0..8 {
        if end <= ran.len() as u64 {
            for rule in rules {
                let set = beginnings(rule, end, ran, spans);
                spans[place(head(rule), end)] |= set;
            }
        }
    }
    *spans != old
}

// The parts of a record. There are 256 bits to add.
pub fn solve(rules: &[Record; 6], ran: &[u16]) -> [u64; 32] {
    let mut spans = [0; 32];
    for _ in 0..257 {
        if !round(rules, ran, &mut spans) {
            break;
        }
    }
    spans
}
