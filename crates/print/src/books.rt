// Rules as drills write them: `(0, &[CALL, QUERY, INSERT + 1])` is action 0 with the steps `!0 ?0 +1`.
ghost use Rattle.std.specs.Prelude.{◌*◌, ◌≤◌, length, vec_len, IfOk};

use std::alloc::{AllocError, Global};

pub const QUERY: u16 = 0;

pub const INSERT: u16 = 256;

pub const DELETE: u16 = 512;

pub const CALL: u16 = 768;

pub const DENY: u16 = 1024;

// A rule: the action that it is of, and its steps, at most 16.
pub type Rule<'a> = (u16, &'a [u16]);

// The words of these rules.
pub fn book(alloc: Global, rules: &[Rule]) -> Result<Vec<u16>, AllocError>
    ensures { IfOk result (λ words. 18 * length rules.now ≤ vec_len words) }
{
    let mut words = Vec::new(alloc);
    for (head, steps) in rules {
        words.push(*head)?;
        words.push((steps.len() & 0xffff) as u16)?;
        words.extend_from_slice(steps)?;
        for _ in steps.len()..16 {
            words.push(0)?;
        }
    }
    Ok(words)
}

// The book of drill D2, g: `!g ?a +b`; g: `+a`.
pub fn d2(alloc: Global) -> Result<Vec<u16>, AllocError>
    ensures { IfOk result (λ words. 36 ≤ vec_len words) }
{
    book(alloc, &[(0, &[CALL, QUERY, INSERT + 1]), (0, &[INSERT])])
}

// An answer record: its call record, final state and rule, the evidence of its first steps, and its round.
#[derive(Clone, Copy)]
pub struct Answer<'a> {
    pub call: u64,
    pub last: u64,
    pub rule: u64,
    pub evidence: &'a [u64],
    pub round: u64,
}

// The words of these records.
pub fn answers(alloc: Global, records: &[Answer]) -> Result<Vec<u64>, AllocError>
    ensures { IfOk result (λ words. 20 * length records.now ≤ vec_len words) }
{
    let mut words = Vec::new(alloc);
    for r in records {
        words.extend_from_slice(&[r.call, r.last, r.rule])?;
        words.extend_from_slice(r.evidence)?;
        for _ in r.evidence.len()..16 {
            words.push(0)?;
        }
        words.push(r.round)?;
    }
    Ok(words)
}

#[cfg(test)]
mod tests {
    use super::*;
    use std::test::Fail;

    #[test]
    fn rules_have_18_words(rt: HostRuntime) -> Result<(), Fail> {
        let mut wanted = [0; 36];
        wanted[1] = 3;
        wanted[2] = CALL;
        wanted[4] = INSERT + 1;
        wanted[19] = 1;
        wanted[20] = INSERT;
        assert_eq!(rt; d2(rt.alloc())?.as_slice(), wanted.as_slice());
        Ok(())
    }

    #[test]
    fn records_have_20_words(rt: HostRuntime) -> Result<(), Fail> {
        let record = Answer {
            call: 1,
            last: 3,
            rule: 256,
            evidence: &[7, 9],
            round: 5,
        };
        let mut wanted = [0; 20];
        wanted[0] = 1;
        wanted[1] = 3;
        wanted[2] = 256;
        wanted[3] = 7;
        wanted[4] = 9;
        wanted[19] = 5;
        assert_eq!(rt;
            answers(rt.alloc(), &[record])?.as_slice(),
            wanted.as_slice()
        );
        Ok(())
    }
}
