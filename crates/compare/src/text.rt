// A book written as the text of a sheet. Fluents 0 to 63 have the names aa to hh, actions 0 to 3 the names p, q, r, s. In dress
// 0 the text is the plain one that the library writes; any other dress adds comment lines and CR LF at random and has the names
// of `start` in some order.
use relation::{Book, Record, Step, body, has, head, random};
use std::alloc::{AllocError, Global};

// A text as it is written, in a dress.
#[derive(Drop)]
struct Dressed {
    text: String,
    dress: u64,
}

// The letter so many after another; there are eight of each kind.
fn letter(first: u8, index: u64) -> char {
    char::from(first % 128 + (index % 8) as u8)
}

impl Dressed {
    // A number below 7 for the dress and the place that the text has come to.
    fn turn(&self) -> u64 {
        let at = (self.text.len() % 4096) as u64;
        random::pick(
            random::next(random::next(self.dress % 65536 * 4096 + at)),
            7,
        )
    }

    // The end of a line, in a dress with CR LF or with comment lines after it.
    fn end(&mut self) -> Result<(), AllocError> {
        let kind = if self.dress == 0 { 4 } else { self.turn() };
        self.text.push_str(match kind {
            0 => "\r\n",
            1 => "\n# valve 2\tshut\n",
            2 => "\r\n#\r\n",
            3 => "\n#goal\t!p\r\n# ~\n",
            _ => "\n",
        })
    }

    fn line(&mut self, line: &str) -> Result<(), AllocError> {
        self.text.push_str(line)?;
        self.end()
    }

    // In some dresses a comment line above all others.
    fn top(&mut self) -> Result<(), AllocError> {
        if self.dress % 2 == 0 {
            return Ok(());
        }
        self.text.push_str("# boiler 7\r\n")
    }

    // A fluent's name, after a mark.
    fn name(&mut self, mark: &str, index: u64) -> Result<(), AllocError> {
        self.text.push_str(mark)?;
        self.text.push(letter(b'a', index / 8))?;
        self.text.push(letter(b'a', index))
    }

    // An action's name.
    fn action(&mut self, index: u64) -> Result<(), AllocError> {
        self.text.push(letter(b'p', index % 4))
    }

    fn step(&mut self, step: Step) -> Result<(), AllocError> {
        match step {
            Step::Query(fluent) => self.name("?", fluent),
            Step::Insert(fluent) => self.name("+", fluent),
            Step::Delete(fluent) => self.name("-", fluent),
            Step::Deny(fluent) => self.name("~", fluent),
            Step::Call(action) => {
                self.text.push_str("!")?;
                self.action(action)
            }
            Step::Idle => Ok(()),
        }
    }

    // The fields with a record's steps and the line's end.
    fn steps(&mut self, record: &Record) -> Result<(), AllocError> {
        for word in body(record) {
            self.text.push_str("\t")?;
            self.step(Step::from(*word))?;
        }
        self.end()
    }

    // The lines of the fluents.
    fn fluents(&mut self) -> Result<(), AllocError> {
        for fluent in 0..64 {
            self.text.push_str("fluent")?;
            self.name("\t", fluent)?;
            self.end()?;
        }
        Ok(())
    }

    // The lines of the actions.
    fn actions(&mut self) -> Result<(), AllocError> {
        for line in ["action\tp", "action\tq", "action\tr", "action\ts"] {
            self.line(line)?;
        }
        Ok(())
    }

    // The lines of the six rules.
    fn rules(&mut self, rules: &[Record; 6]) -> Result<(), AllocError> {
        for rule in rules {
            self.text.push_str("rule\t")?;
            self.action(head(rule))?;
            self.steps(rule)?;
        }
        Ok(())
    }

    // The fluent at place k of 64 in `start`: each of the six orders of three fluents is that of some dress, and in dress 0 it
    // is the fluents' own.
    fn fluent_at(&self, k: u64) -> u64 {
        let turned = self.dress / 4 % 64;
        if self.dress % 4 < 2 {
            (k % 64 + turned) % 64
        } else {
            (63 - k % 64 + turned) % 64
        }
    }

    // The start line.
    fn start(&mut self, start: u64) -> Result<(), AllocError> {
        self.text.push_str("start")?;
        for k in 0..64 {
            let fluent = self.fluent_at(k);
            if has(start, fluent) {
                self.name("\t", fluent)?;
            }
        }
        self.end()
    }
}

// The sheet of a book with a start in a dress: at most 3,072 bytes.
pub fn write(alloc: Global, book: &Book, start: u64, dress: u64) -> Result<String, AllocError> {
    let mut sheet = Dressed {
        text: String::with_capacity(alloc, 3072)?,
        dress,
    };
    sheet.top()?;
    sheet.fluents()?;
    sheet.actions()?;
    sheet.rules(&book.rules)?;
    sheet.start(start)?;
    sheet.text.push_str("goal")?;
    sheet.steps(&book.goal)?;
    Ok(sheet.text)
}
