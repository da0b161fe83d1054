// Two sheets merged into one, the names of the merged fluents, and each refusal of the merge. Every byte lent for a text is 7 before.
use print::Bytes;
use std::io;

// Two sheets to be merged.
#[derive(Clone, Copy)]
struct Sheets<'a> {
    first: &'a [u8],
    second: &'a [u8],
}

impl<'a> Sheets<'a> {
    // Merges them where so many bytes are lent, and prints what the merge gives and leaves.
    fn in_room(self, rt: &(impl Print + AllocGlobal), name: &str, room: usize) -> io::Result<()> {
        let mut text = vec![in rt.alloc(); 7; room]?;
        let r = merge::merge(self.first, self.second, &mut text);
        print!(rt;
            "{name}\trefusal {}\tsheet {}\tline {}",
            r.refusal, r.sheet, r.line
        )?;
        println!(rt; "\tlength {}\ttext{}", r.length, Bytes(&text))
    }

    // Prints where a merged fluent's name stands, and its bytes.
    fn named(self, rt: &impl Print, fluent: u64) -> io::Result<()> {
        let part = origin::merged_span(self.first, self.second, fluent);
        let name = origin::merged_fluent(self.first, self.second, fluent);
        print!(rt; "merged fluent\tnumber {fluent}\tsheet {}", part.sheet)?;
        println!(rt; "\tat {}\tlen {}\tname{}", part.at, part.len, Bytes(name))
    }
}

// Merges two sheets where 120 bytes are lent, and prints the names of the first four merged fluents.
fn drill(
    rt: &(impl Print + AllocGlobal),
    name: &str,
    first: &[u8],
    second: &[u8],
) -> io::Result<()> {
    let sheets = Sheets { first, second };
    sheets.in_room(rt, name, 120)?;
    for fluent in 0..4 {
        sheets.named(rt, fluent)?;
    }
    Ok(())
}

// The maker's sheet and the site's, both ways, and each with itself.
fn both(rt: &(impl Print + AllocGlobal), first: &[u8], second: &[u8]) -> io::Result<()> {
    drill(rt, "merged", first, second)?;
    let sheets = Sheets { first, second };
    sheets.in_room(rt, "merged, room 86", 86)?;
    sheets.in_room(rt, "50 merged, room 85", 85)?;
    drill(rt, "merged, the other first", second, first)?;
    drill(rt, "merged with itself", first, first)?;
    drill(
        rt,
        "merged with itself, CR LF and equal rules",
        second,
        second,
    )
}

// Faults of the first sheet, of the second, and a name of both kinds.
fn faults(rt: &(impl Print + AllocGlobal), good: &[u8]) -> io::Result<()> {
    drill(rt, "14 in the first", b"fluent\tA\n", good)?;
    drill(
        rt,
        "14 in the first before 12 in the second",
        b"fluent\tA\n",
        b"start\ngoal",
    )?;
    drill(rt, "12 in the second", good, b"start\ngoal")?;
    drill(rt, "14 in the second, line 2", good, b"# x\nfluent\tA\n")?;
    drill(rt, "18 in the second", good, b"")
}

fn kinds(rt: &(impl Print + AllocGlobal), good: &[u8]) -> io::Result<()> {
    drill(
        rt,
        "70 an action of the second",
        good,
        b"action\ta\nstart\ngoal\n",
    )?;
    drill(
        rt,
        "70 a fluent of the second",
        b"action\ta\nstart\ngoal\n",
        good,
    )?;
    drill(rt, "empty sheets", b"start\ngoal\n", b"start\ngoal\n")?;
    drill(
        rt,
        "a start of both",
        b"fluent\tb\nfluent\ta\nstart\ta\ngoal\n",
        b"fluent\ta\nfluent\tb\nfluent\tc\nstart\tc\ta\ngoal\t?c\n",
    )?;
    drill(
        rt,
        "a denial is no query",
        b"fluent\ta\naction\tg\nrule\tg\t~a\nstart\ngoal\n",
        b"fluent\ta\naction\tg\nrule\tg\t?a\nrule\tg\t~a\nstart\ngoal\n",
    )
}

// The maker's sheet.
const MAKERS: &[u8] = b"fluent\ta\nfluent\tb\naction\tg\nrule\tg\t+a\nstart\ta\ngoal\t!g\n";

// The site's, in another dress.
const SITES: &[u8] =
    b"# site\r\nfluent\tc\r\nfluent\ta\r\naction\th\r\naction\tg\r\nrule\tg\t+a\r\nrule\th\t-c\t!g\r\nrule\th\t-c\t!g\r\nstart\tc\r\ngoal\t!h\r\n";

pub fn all(rt: &(impl Print + AllocGlobal)) -> io::Result<()> {
    both(rt, MAKERS, SITES)?;
    faults(rt, MAKERS)?;
    kinds(rt, MAKERS)
}
