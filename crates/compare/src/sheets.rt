// A book's sheet in some dress: read by the library's reader, written by its writer, and what was written read again.
use relation::Book;
use sheet::Sheet;
use std::alloc::{AllocError, Global};

// What a buffer for a text is filled with before.
const MARK: u8 = 7;

// The refusal for want of a byte.
// Stays: a number, since the C interface has it in `writer::Written`.
const TEXT_SHORT: u64 = 50;

// How often a byte stands in a text.
pub fn count(text: &[u8], byte: u8) -> u64 {
    text.iter().filter(|b| **b == byte).count() as u64
}

// Whether a sheet was accepted and read as the book with a start.
pub fn as_written(book: &Book, start: u64, read: Sheet, rules: &[u16; 108]) -> bool {
    let counts = [
        read.fluents,
        read.actions,
        read.rules,
        read.start,
        read.goal_len,
    ];
    let wanted = [64, 4, 6, start, u64::from(book.goal[1])];
    read.refusal == 0
        && counts == wanted
        && rules.as_slice() == book.rules.as_flattened()
        && read.goal.as_slice() == &book.goal[2..]
}

// Whether a room of one byte less than the text has is refused with 50 and left as it was.
fn is_refused_short(alloc: Global, text: &[u8], length: usize) -> Result<bool, AllocError> {
    let mut out = vec![in alloc; MARK; length.saturating_sub(1)]?;
    let written = writer::write(text, out.as_mut_slice());
    let kept = out.iter().all(|b| *b == MARK);
    Ok(written.refusal == TEXT_SHORT && written.length == 0 && kept)
}

// Whether a text is written as the plain one, of at most 1,186 bytes, and what was lent past it stays.
pub fn same_text(alloc: Global, text: &[u8], plain: &[u8]) -> Result<bool, AllocError> {
    let mut out = [MARK; 1280];
    let written = writer::write(text, &mut out);
    let Some((front, rest)) = out.split_at_checked(plain.len()) else {
        return Ok(false);
    };
    let same = front == plain && rest.iter().all(|b| *b == MARK);
    let told = written.refusal == 0 && written.length == plain.len() as u64;
    Ok(same && told && is_refused_short(alloc, text, plain.len())?)
}

// Whether what is written of a text is read as the book.
pub fn same_again(book: &Book, start: u64, text: &[u8]) -> bool {
    let mut out = [MARK; 1280];
    let written = writer::write(text, &mut out);
    let mut rules = [0; 108];
    match out.get(..written.length as usize) {
        Some(again) => as_written(book, start, sheet::read(again, &mut rules), &rules),
        None => false,
    }
}
