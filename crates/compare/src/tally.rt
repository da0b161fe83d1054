// What was seen: sheets; their comment lines and lines ended by CR LF; rules that call their own action first; sheets in which
// two actions call each other first; ends, calls, answers and rounds; sheets in which an action called has an answer; recorded
// steps that can run, records that are the goal's, marks. Then the sheets that differ.
#[derive(Clone, Copy, Default)]
pub struct Tally {
    pub sheets: u64,
    pub comments: u64,
    pub returns: u64,
    pub own: u64,
    pub mutual: u64,
    pub ends: u64,
    pub calls: u64,
    pub answers: u64,
    pub rounds: u64,
    pub inner: u64,
    pub runs: u64,
    pub yes: u64,
    pub marks: u64,
    pub bad_words: u64,
    pub bad_text: u64,
    pub bad_again: u64,
    pub bad_ends: u64,
    pub bad_calls: u64,
    pub bad_answers: u64,
    pub bad_rounds: u64,
    pub bad_tables: u64,
    pub bad_list: u64,
    pub bad_evidence: u64,
    pub bad_rooms: u64,
    pub bad_marks: u64,
}

// Counts so many more.
pub fn count(n: &mut u64, more: u64) {
    *n = n.saturating_add(more);
}

// Counts a comparison that failed.
pub fn miss(n: &mut u64, same: bool) {
    count(n, u64::from(!same));
}

impl Tally {
    // The lines to print.
    pub fn lines(&self) -> [(&'static str, u64); 25] {
        [
            ("sheets", self.sheets),
            ("comment lines", self.comments),
            ("lines ended by CR LF", self.returns),
            ("rules that call themselves first", self.own),
            ("sheets with mutual recursion first", self.mutual),
            ("ends", self.ends),
            ("calls", self.calls),
            ("answers", self.answers),
            ("rounds", self.rounds),
            ("sheets with answers of inner calls", self.inner),
            ("recorded steps that can run", self.runs),
            ("records that are the goal's", self.yes),
            ("marks", self.marks),
            ("sheets not read as written", self.bad_words),
            ("sheets not written as the plain text", self.bad_text),
            ("texts written and not read as the sheet", self.bad_again),
            ("sheets that differ in ends", self.bad_ends),
            ("sheets that differ in calls", self.bad_calls),
            ("sheets that differ in answers", self.bad_answers),
            ("sheets that differ in rounds", self.bad_rounds),
            (
                "sheets that differ in a word of the tables",
                self.bad_tables,
            ),
            (
                "sheets that differ in a word of the list of calls",
                self.bad_list,
            ),
            ("sheets with an answer not justified", self.bad_evidence),
            ("sheets refused in wrong rooms", self.bad_rooms),
            ("records marked otherwise", self.bad_marks),
        ]
    }
}
