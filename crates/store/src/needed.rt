// What a setup needs, before it is called: the places of each list, and the levels' cells.

ghost use Rattle.store.specs.Hierarchy.{the_lattice};
ghost use Rattle.std.specs.Prelude.{◌≡◌, suc, ◌-◌, ◌≤◌, Ok};
ghost use Rattle.numbers.specs.Lists.{tabulate};
ghost use Rattle.lattice.specs.Check.{accepted, and_then};
ghost use Rattle.lattice.specs.Sound.{full};
ghost use Rattle.lattice.specs.Levels.{lines_to, depth_of, count_of};
ghost use Rattle.store.specs.Setup.{all_to, names_once, input_on, full_of, transfers_of};
ghost use Rattle.store.specs.Needed.{no_cells, line_cells, NeededOf, levels_verdict, needed_verdict};

use crate::handed::Cells;
use crate::hierarchy::Hierarchy;
use crate::needs::Needs;
use crate::setup::Refusal;
use crate::{Choice, needs};
use lattice::input::Stretches;
use lattice::lattice::{Lattice, stretches};
use lattice::line::Line;
use lattice::sound::Sound;
use lattice::{check, levels};

// The places that the lists need, and the levels' cells.
#[derive(Clone, Copy)]
pub struct Needed {
    pub needs: Needs,
    pub cells: Cells,
}

// The cells of no level.
pub fn no_cells() -> Cells
    ensures { result ≡ no_cells }
{
    Cells {
        levels: 0,
        cells: [0usize; 36],
    }
}

// The cells of 36 lines.
fn cells_of(lines: &[Line; 36]) -> [usize; 36]
    ensures { result ≡ tabulate (line_cells lines.now) 36 0 }
{
    lines.map(|f| f.cells)
}

// Of m transfers: the needs, and nothing meets refusal 8. `requires`: the lines of m + 1 levels, and no more.
fn levels_needed(choice: Choice, h: &Hierarchy<'_>) -> Needed
    requires lines_value { h.now.lines.now ≡ lines_to (the_lattice h.now) (suc h.now.m) }
    ensures { NeededOf (the_lattice h.now) choice h.now.m (and_then (all_to 8 (names_once (the_lattice h.now)) h.now.m) (accepted (suc h.now.m))) (Ok result) }
{
    Needed {
        needs: needs::count(h, choice),
        cells: Cells {
            levels: h.m + 1,
            cells: cells_of(h.lines),
        },
    }
}

// The same from the level loop on: refusals 5 and 8.
fn needed_behind(choice: Choice, l: &Sound<'_>, coarsest: usize) -> Result<Needed, Refusal>
    ensures { NeededOf (full l.now) choice (count_of (depth_of (full l.now) coarsest) - 1)
        (levels_verdict (full l.now) (depth_of (full l.now) coarsest)) result }
{
    let found = levels::join_lines(l, coarsest);
    let depth = found.depth;
    let lines = found.lines;
    let Some(n) = depth else {
        return Err(Refusal::TooMany);
    };
    let h = Hierarchy {
        l: *l,
        lines: &lines,
        m: n - 1,
    };
    Ok(levels_needed(choice, &h))
}

// What a setup of this input needs: refusals 1 to 4 (of everything but the permittivities), 5 and 8, or the places of each list and the levels' cells.
pub fn setup_needs(
    v: Lattice,
    on: &Stretches<'_>,
    choice: Choice,
    coarsest: usize,
) -> Result<Needed, Refusal>
    ensures { NeededOf (full_of (input_on v on.now choice coarsest)) choice
        (transfers_of (input_on v on.now choice coarsest))
        (needed_verdict (input_on v on.now choice coarsest)) result }
{
    check::check_stretches(v, on)?;
    let st = stretches(v, on);
    let l = Sound {
        lattice: v,
        st: &st,
    };
    needed_behind(choice, &l, coarsest)
}
