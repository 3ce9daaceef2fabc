// The lines and the edges of a level; where the next part begins, and the first level that is not fine.

ghost use Rattle.store.specs.Hierarchy.{the_lattice, LevelPair};
ghost use Rattle.std.specs.Prelude.{◌≡◌, ◌+◌, ◌<◌, ◌≤◌, ◌^◌, length, get_or};
ghost use Rattle.lattice.specs.Grid.{Limits, unknowns_of};
ghost use Rattle.weights.specs.TwoLevels.{grid_with};
ghost use Rattle.operators.specs.LevelLists.{edges_on};
ghost use Rattle.store.specs.Phases.{three_in, level_code, noted as noted_of};
ghost use Rattle.store.specs.PhaseSteps.{behind_of};

use crate::hierarchy::Hierarchy;
use lattice::grid;
use lattice::lattice::Lattice;
use lattice::levels::Three;
use lattice::line::Line;
use numbers::terms::Part;
use weights::pair::Pair;
use weights::tables;

// The lines of a level.
pub fn three(lines: &[Line; 36], level: usize) -> Three
    requires { level < 12 }
    ensures { result ≡ three_in lines.now level }
{
    let x = lines[3 * level];
    let y = lines[3 * level + 1];
    let z = lines[3 * level + 2];
    Three { x, y, z }
}

// The edges of three lines.
pub fn edges(l: Lattice, s: Three) -> usize
    requires { Limits (grid_with l.grid s.x.cells s.y.cells s.z.cells) }
    ensures { result ≡ unknowns_of (grid_with l.grid s.x.cells s.y.cells s.z.cells) }
{
    grid::unknowns(tables::grid_of(l.grid, s))
}

impl Hierarchy<'_> {
    // The lines of a level.
    pub fn three(&self, level: usize) -> Three
        requires { level < 12 }
        ensures { result ≡ three_in self.now.lines.now level }
    {
        three(self.lines, level)
    }

    // A level and the next.
    pub fn pair(&self, level: usize) -> Pair<'_>
        requires { level < self.now.m }
        ensures { LevelPair (the_lattice self.now) level result }
    {
        let fine = self.three(level);
        let coarse = self.three(level + 1);
        Pair {
            l: self.l,
            fine,
            coarse,
        }
    }

    // The edges of a level.
    pub fn edges(&self, level: usize) -> usize
        requires { level ≤ self.now.m }
        ensures { result ≡ edges_on (the_lattice self.now) level }
    {
        edges(self.l.lattice, self.three(level))
    }
}

// Where the part behind n rows begins: their starts stand in the list from o on, and the last of them is the count of terms.
pub fn behind(o: Part, n: usize, starts: &[usize]) -> Part
    requires { (o.s + n < length starts.now) × (o.k + get_or starts.now (o.s + n) 0 ≤ 2 ^ 40) }
    ensures { result ≡ behind_of o n starts.now }
{
    let last = o.s + n;
    Part {
        s: last + 1,
        k: o.k + starts[last],
    }
}

// The first level that is not fine: a level is noted only where none is so far.
pub fn noted(bad: Option<usize>, level: usize, ok: bool) -> Option<usize>
    ensures { level_code result ≡ noted_of (level_code bad) level ok }
{
    bad.or((!ok).then_some(level))
}
