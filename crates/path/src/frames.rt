// The stack of a walk down the evidence of a long path. A frame is a record and a call of it that is under way, kept as one number of three
// bytes. A call uses a record of smaller number, so that the frames are never more than the records.
ghost use Rattle.std.specs.Prelude.{◌≡◌, ◌<◌, ◌≤◌, length, None, MatchOption};
ghost use Rattle.cells.specs.Numbers.{numbers};
ghost use Rattle.unfolding.proofs.Frames.{Moved};
ghost use Rattle.path.specs.Inner.{down_to};

// Where a run through a record's steps stops: at a step, with so many states found. `to` is the record to go down to; there is none at the
// record's end.
#[derive(Clone, Copy)]
pub struct Stop {
    pub step: usize,
    pub found: usize,
    pub to: Option<usize>,
}

// Where the walk goes on: a step of record n, above so many frames.
#[derive(Clone, Copy)]
pub struct Spot {
    pub n: usize,
    pub step: usize,
    pub depth: usize,
}

// From a call of record n down to the record that it uses, with a frame for the way back; from its end up to the step after the last frame's
// call. At the end with no frame left the walk is over.
pub fn turn(
    n: usize,
    step: usize,
    depth: usize,
    to: Option<usize>,
    frames: &mut [u8],
) -> Option<Spot>
    requires { (n < 65536) × (step ≤ 16) × (depth < 65536) × (depth < length (numbers frames.old)) }
    ensures { MatchOption result ((to ≡ None) × (depth ≡ 0) × (frames.new ≡ frames.old))
        (λ at. Moved n step depth (down_to to) (numbers frames.old) at.n at.step at.depth (numbers frames.new)) }
{
    if let Some(used) = to {
        cells::put(frames, depth, n + 65536 * step);
        return Some(Spot {
            n: used,
            step: 0,
            depth: depth + 1,
        });
    }
    if depth == 0 {
        return None;
    }
    let frame = cells::get(frames, depth - 1);
    Some(Spot {
        n: frame % 65536,
        step: frame / 65536 + 1,
        depth: depth - 1,
    })
}
