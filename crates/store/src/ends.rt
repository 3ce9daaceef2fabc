// Line ends, laid level by level, in a level the axes in turn.

ghost use Rattle.std.specs.Prelude.{◌≤◌, ◌^◌, set};
ghost use Rattle.numbers.specs.Lists.{Laid};
ghost use Rattle.store.specs.PhaseSteps.{held_by, FewCells, EndsLaid};

use crate::hierarchy::Hierarchy;
use lattice::line::Line;
use numbers::lists;

// The ends of a line of at most 64 cells, laid from place k on. The place behind them.
fn lay_line(f: Line, ends: &mut [usize], k: usize) -> usize
    requires { (f.cells ≤ 64) × (k ≤ 2 ^ 32) }
    ensures { Laid set ends.old k (held_by f) ends.new result }
{
    let n = f.cells + 1;
    let mut next = k;
    for end in &f.ends[..n] {
        next = lists::push(ends, next, *end);
    }
    next
}

// The ends of the lines of levels 0 to m, one line behind another.
pub fn lay_lines(lines: &[Line; 36], m: usize, ends: &mut [usize])
    requires m_bound { m ≤ 11 }
    requires few_cells { FewCells lines.now m }
    ensures { EndsLaid lines.now m ends.old ends.new }
{
    let n = 3 * (m + 1);
    let mut next = 0;
    for f in &lines[..n] {
        next = lay_line(*f, ends, next);
    }
}

// The ends of the lines of a hierarchy, of its levels 0 to m, one line behind another.
pub fn lay_ends(h: &Hierarchy<'_>, ends: &mut [usize])
    requires { FewCells h.now.lines.now h.now.m }
    ensures { EndsLaid h.now.lines.now h.now.m ends.old ends.new }
{
    lay_lines(h.lines, h.m, ends);
}

#[cfg(test)]
mod tests {
    use super::*;
    use lattice::grid::Grid3d;
    use lattice::lattice::{Edges, Lattice};
    use lattice::levels;
    use lattice::sound::Sound;

    // 4 by 2 by 1 cells within walls. With stretches of zero all cells join that may: an axis of 4 cells has 2 on level 1, and an axis of fewer keeps its own.
    #[test]
    fn ends_of_two_levels() -> Result<(), &'static str> {
        let lattice = Lattice {
            grid: Grid3d {
                nx: 4,
                ny: 2,
                nz: 1,
                dx: 1.0,
                dy: 1.0,
                dz: 1.0,
            },
            x: Edges::Pml,
            y: Edges::Pml,
            z: Edges::Pml,
            k0: 1.0,
            shift: 0.0,
        };
        let st = [0.0; 768];
        let l = Sound { lattice, st: &st };
        let found = levels::join_lines(&l, 12);
        let Some(n) = found.depth else {
            return Err("over 12 levels");
        };
        let h = Hierarchy {
            l,
            lines: &found.lines,
            m: n - 1,
        };
        let mut ends = [9usize; 20];
        lay_ends(&h, &mut ends);
        let want = [0, 2, 4, 6, 8, 0, 2, 4, 0, 2, 0, 4, 8, 0, 2, 4, 0, 2, 9, 9];
        if ends == want {
            Ok(())
        } else {
            Err("other ends")
        }
    }
}
