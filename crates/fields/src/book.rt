// What a sheet has said so far, as the code holds it: names, which are parts of the sheet itself, and bodies.
ghost use Rattle.std.specs.Prelude.{◌≡◌, ◌-◌, ◌≤◌, length, drop, replicate};

// The names of one kind, in the order in which they are defined.
#[derive(Clone, Copy)]
pub struct Row<'a> {
    pub len: usize,
    pub names: [&'a [u8]; 64],
    ghost few: { len ≤ 64 },
    ghost size: { length names ≡ 64 },
}

// All names: fluents and actions share one space of names.
#[derive(Clone, Copy)]
pub struct Names<'a> {
    pub fluents: Row<'a>,
    pub actions: Row<'a>,
}

// The words of a body, unused ones zero.
#[derive(Clone, Copy)]
pub struct Body {
    pub len: usize,
    pub words: [u16; 16],
    ghost few: { len ≤ 16 },
    ghost size: { length words ≡ 16 },
    ghost zeros: { drop len words ≡ replicate (16 - len) 0 },
}
