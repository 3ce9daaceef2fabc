// The lattice of a rediscretized level, over the maps of the finest one.

ghost use Rattle.std.specs.Prelude.{◌≡◌, ℕ, ◌+◌, ◌*◌, ◌<◌, ◌≤◌, length, get_or};
ghost use Rattle.numbers.specs.Complex.{no_number};
ghost use Rattle.lattice.specs.Grid.{Limits};
ghost use Rattle.lattice.specs.Sound.{full};
ghost use Rattle.lattice.specs.Lattice.{full_lattice, edges_of, stretch_doubles};
ghost use Rattle.lattice.specs.Line.{ends_of, Held};
ghost use Rattle.lattice.specs.Stretched.{across_map, along_map};
ghost use Rattle.weights.specs.Tables.{lines_in, HeldThree};
ghost use Rattle.operators.specs.Rediscretized.{coarse_step, unit_of, cell_length, first_width, node_width, half_on, node_on, lattice_on, rediscretized_lattice, AxisLaid, Tame};

use lattice::grid::Grid3d;
use lattice::lattice::{Edges, Lattice, STRETCH_DOUBLES};
use lattice::levels::Three;
use lattice::line::Line;
use lattice::sound::Sound;
use lattice::{grid, line, stretched};
use numbers::C64;

// An axis's step on a line of n cells: its period over its cells.
fn coarse_step(g: Grid3d, axis: usize, n: usize) -> f64
    requires { (Limits g) × (n ≤ 64) }
    ensures { result ≡ coarse_step g axis n }
{
    let cells = grid::n(g, axis);
    grid::step(g, axis) * cells as f64 / n as f64
}

// A finest step in that step.
fn unit(g: Grid3d, axis: usize, n: usize) -> f64
    requires { (Limits g) × (n ≤ 64) }
    ensures { result ≡ unit_of g axis n }
{
    grid::step(g, axis) / coarse_step(g, axis, n)
}

// The length of cell m, by the map across.
fn cell_length(x: [C64; 129], f: Line, m: usize) -> C64
    requires held { Held f }
    requires m_lt_cells { m < f.cells }
    ensures { result ≡ cell_length x (ends_of f) m }
{
    let first = f.ends[m];
    let last = f.ends[m + 1];
    x[last] - x[first]
}

// The width of node 0's dual cell, by the map along: at a wall its half inside, twice; on a Bloch axis, across the period's end, in whole half-steps.
fn first_width(e: Edges, x: [C64; 129], f: Line) -> C64
    requires held { Held f }
    requires tame { Tame f }
    ensures { result ≡ first_width e x (ends_of f) }
{
    let n = f.cells;
    let first = line::place(f, 0, true);
    match e {
        Edges::Pml => 2.0 * (x[first] - x[0]),
        Edges::Bloch(_) => {
            let width = first + f.ends[n] - line::place(f, n - 1, true);
            C64 {
                re: width as f64 / 2.0,
                im: 0.0,
            }
        }
    }
}

// The width of node m's.
fn node_width(e: Edges, x: [C64; 129], f: Line, m: usize) -> C64
    requires held { Held f }
    requires tame { Tame f }
    requires m_lt_cells { m < f.cells }
    ensures { result ≡ node_width e x (ends_of f) m }
{
    if m == 0 {
        return first_width(e, x, f);
    }
    let before = line::place(f, m - 1, true);
    let here = line::place(f, m, true);
    x[here] - x[before]
}

// The stretches of an axis, laid over a list of stretches: at its nodes, and half a step after them.
fn lay_axis(
    g: Grid3d,
    e: Edges,
    across: [C64; 129],
    along: [C64; 129],
    f: Line,
    axis: usize,
    out: &mut [f64],
)
    requires limits { (Limits g) × (axis < 3) }
    requires held { Held f }
    requires tame { Tame f }
    requires out_len { length out.old ≡ stretch_doubles }
    ensures { AxisLaid (node_on g e along (ends_of f) axis) (half_on g across (ends_of f) axis) axis f.cells out.old out.new }
{
    let n = f.cells;
    let u = unit(g, axis, n);
    // An index: node m's two numbers stand at two places of the list, each as two doubles.
    for m in 0..n {
        numbers::put(out, 64 * axis + m, u * node_width(e, along, f, m));
        numbers::put(out, 192 + 64 * axis + m, u * cell_length(across, f, m));
    }
}

// The lattice record of a level's lines. `requires`: a grid within the limits, and lines of 1 to 64 cells; no list of stretches is needed.
pub fn rediscretized_lattice(l: Lattice, s: Three) -> Lattice
    requires limits { Limits l.grid }
    requires held_three { HeldThree s }
    ensures { result ≡ lattice_on l s }
{
    let nx = s.x.cells;
    let ny = s.y.cells;
    let nz = s.z.cells;
    let grid = Grid3d {
        nx,
        ny,
        nz,
        dx: coarse_step(l.grid, 0, nx),
        dy: coarse_step(l.grid, 1, ny),
        dz: coarse_step(l.grid, 2, nz),
    };
    let x = l.x;
    let y = l.y;
    let z = l.z;
    Lattice {
        grid,
        x,
        y,
        z,
        k0: l.k0,
        shift: l.shift,
    }
}

// Its list of stretches.
pub fn rediscretized_stretches(l: &Sound<'_>, s: Three) -> [f64; STRETCH_DOUBLES]
    requires held_three { HeldThree s }
    requires tame { (Tame s.x) × (Tame s.y) × (Tame s.z) }
    ensures result_len { length result ≡ stretch_doubles }
    ensures result_value { full_lattice (lattice_on l.now.lattice s) result ≡ rediscretized_lattice (full l.now) (lines_in s) }
{
    let mut out = [0.0; STRETCH_DOUBLES];
    let g = l.lattice.grid;
    let x = l.lattice.x;
    let y = l.lattice.y;
    let z = l.lattice.z;
    lay_axis(
        g,
        x,
        stretched::across_map(l, 0),
        stretched::along_map(l, 0),
        s.x,
        0,
        &mut out,
    );
    lay_axis(
        g,
        y,
        stretched::across_map(l, 1),
        stretched::along_map(l, 1),
        s.y,
        1,
        &mut out,
    );
    lay_axis(
        g,
        z,
        stretched::across_map(l, 2),
        stretched::along_map(l, 2),
        s.z,
        2,
        &mut out,
    );
    out
}
