// What the lines of a sheet have said so far.
ghost use Rattle.std.specs.Prelude.{◌≡◌, ◌≤◌};
ghost use Rattle.lines.specs.declared.Stage.TheVariants.{Fluents};

use crate::Stage;
use fields::book::{Body, Names};
use steps::state::State;

#[derive(Clone, Copy)]
pub struct Parse<'a> {
    pub stage: Stage,
    pub started: bool,
    pub rules: usize,
    pub start: State,
    pub goal: Body,
    pub names: Names<'a>,
    ghost few: { rules ≤ 256 },
    ghost early: { stage ≡ Fluents → names.actions.len ≡ 0 },
}
