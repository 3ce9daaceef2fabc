// A lattice and its levels.

ghost use Rattle.std.specs.Prelude.{◌≤◌};
ghost use Rattle.lattice.specs.Sound.{full};
ghost use Rattle.store.specs.Phases.{HasLines};

use lattice::line::Line;
use lattice::sound::Sound;

// A lattice within the limits with its stretches, and the lines of its levels 0 to m, three to a level.
#[derive(Clone, Copy)]
pub struct Hierarchy<'a> {
    pub l: Sound<'a>,
    pub lines: &'a [Line; 36],
    pub m: usize,
    pub ghost few: { m ≤ 11 },
    pub ghost has_lines: { HasLines (full l) m lines.now },
}
