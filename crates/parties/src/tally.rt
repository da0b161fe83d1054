// What was seen, counted, and the runs that differ.
#[derive(Clone, Copy, Default)]
pub struct Tally {
    pub rows: u64,
    pub openings_refused: u64,
    pub runs: u64,
    pub second: u64,
    pub done: u64,
    pub refused_20: u64,
    pub refused_23: u64,
    pub refused_24: u64,
    pub refused_30: u64,
    pub refused_31: u64,
    pub refused_91: u64,
    pub beside: u64,
    pub beside_30: u64,
    pub beside_bad: u64,
    pub shared_rows: u64,
    pub given_up: u64,
    pub tampered: u64,
    pub tampered_kept: u64,
    pub tampered_calls: u64,
    pub tampered_answers: u64,
    pub harmless: u64,
    pub bad_opening: u64,
    pub bad_refusal: u64,
    pub bad_counts: u64,
    pub bad_list: u64,
    pub bad_lone: u64,
    pub bad_change: u64,
    pub bad_kept: u64,
    pub bad_rows: u64,
    pub bad_91: u64,
}

// Counts one more, if it is so.
pub fn count(n: &mut u64, so: bool) {
    *n = n.saturating_add(u64::from(so));
}

impl Tally {
    // The lines to print.
    pub fn lines(&self) -> [(&'static str, u64); 30] {
        [
            ("rows of runs", self.rows),
            ("openings refused with 90", self.openings_refused),
            ("runs", self.runs),
            ("of the second party", self.second),
            ("not refused", self.done),
            ("refused with 20", self.refused_20),
            ("refused with 23", self.refused_23),
            ("refused with 24", self.refused_24),
            ("refused with 30", self.refused_30),
            ("refused with 31", self.refused_31),
            ("refused with 91", self.refused_91),
            ("while the other party holds rows", self.beside),
            ("of these refused with 30", self.beside_30),
            ("of these refused with 23 or 24", self.beside_bad),
            ("that leave rows that both need", self.shared_rows),
            ("that give earlier rows up", self.given_up),
            ("with a word changed before", self.tampered),
            ("of the words kept", self.tampered_kept),
            ("of the calls", self.tampered_calls),
            ("of the answers", self.tampered_answers),
            ("and yet as kept", self.harmless),
            ("openings that differ", self.bad_opening),
            ("runs that differ in the refusal", self.bad_refusal),
            ("runs that differ in the counts", self.bad_counts),
            ("runs that differ in the list of ends", self.bad_list),
            ("runs that differ from a run alone", self.bad_lone),
            (
                "runs refused with 20 or 91 that change a word",
                self.bad_change,
            ),
            ("runs that differ in a word kept", self.bad_kept),
            ("runs that leave tables not as kept", self.bad_rows),
            ("runs refused with 91 and no word changed", self.bad_91),
        ]
    }
}
