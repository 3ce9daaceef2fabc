// The lattice record: grid, axis kinds, wavenumber, shift and stretches.

ghost use Rattle.std.specs.Prelude.{◌≡◌, ◌*◌, ◌<◌, ◌≤◌, length};
ghost use Rattle.lattice.specs.Lattice.{full_lattice, edges_of, is_wall, nodes_at, halves_at, stretch_at, lattice_on, Lengths, LaidStretches, node_places, stretch_doubles};

use crate::grid;
use crate::grid::Grid3d;
use crate::input::Stretches;
use numbers::C64;

// The doubles of a list of stretches.
pub const STRETCH_DOUBLES: usize = 768;

// What lies across the ends of an axis: a wall behind an absorber (`Pml`), or the next period, which has the phase p (`Bloch`).
#[derive(Clone, Copy)]
pub enum Edges {
    Pml,
    Bloch(C64),
}

// The lattice record: the setup's input without its lists. Beside it goes the list of stretches `st`, 384 numbers: axis a has its stretch at node m at
// 64 a + m, and the one half a step after that node at 192 + 64 a + m.
#[derive(Clone, Copy)]
pub struct Lattice {
    pub grid: Grid3d,
    pub x: Edges,
    pub y: Edges,
    pub z: Edges,
    pub k0: f64,
    pub shift: f64,
}

// The kind of an axis. This and the functions below ask nothing of the grid, so they take the lattice beside its list and not a `Sound`, as do those
// of the layers above that don't need its limits.
#[tactic(auto, unfolding(crate::specs::Lattice::edges_of))]
pub fn edges_on(l: Lattice, st: &[f64], axis: usize) -> Edges
    ensures { result ≡ edges_of (full_lattice l st.now) axis }
{
    grid::axis3(axis, l.x, l.y, l.z)
}

pub fn is_wall(e: Edges) -> bool
    ensures { result ≡ is_wall e }
{
    match e {
        Edges::Pml => true,
        Edges::Bloch(_) => false,
    }
}

// The stretch at node m of an axis. `requires`: such a node's place in the list.
#[tactic(auto, using(crate::proofs::LatticeLaws::node_is))]
pub fn node(l: Lattice, st: &[f64], axis: usize, m: usize) -> C64
    requires axis_bound { axis < 3 }
    requires m_bound { m < 64 }
    ensures { result ≡ nodes_at (full_lattice l st.now) axis m }
{
    numbers::find(st, 64 * axis + m)
}

// The stretch half a step after node m of an axis, in the middle of the cell that begins there.
#[tactic(auto, using(crate::proofs::LatticeLaws::half_is))]
pub fn half(l: Lattice, st: &[f64], axis: usize, m: usize) -> C64
    requires axis_bound { axis < 3 }
    requires m_bound { m < 64 }
    ensures { result ≡ halves_at (full_lattice l st.now) axis m }
{
    numbers::find(st, 192 + 64 * axis + m)
}

// Place q of a record's list of stretches: number q % 64 of the list of axis q / 64, and zero beyond that axis's cells.
fn stretch(g: Grid3d, xs: &[f64], ys: &[f64], zs: &[f64], q: usize) -> C64
    requires { Lengths g xs.now ys.now zs.now }
    ensures { result ≡ stretch_at g xs.now ys.now zs.now q }
{
    let axis = q / 64;
    let m = q % 64;
    if m < grid::n(g, axis) {
        return numbers::get(grid::axis3(axis, xs, ys, zs), m);
    }
    C64::zero()
}

// The stretches of three lists, laid over a list from number `from` on.
fn lay_stretches(g: Grid3d, xs: &[f64], ys: &[f64], zs: &[f64], from: usize, out: &mut [f64])
    requires lengths { Lengths g xs.now ys.now zs.now }
    requires from_le_node_places { from ≤ node_places }
    ensures { LaidStretches (stretch_at g xs.now ys.now zs.now) from node_places out.old out.new }
{
    // A number, not an index of a list: it says which axis and which node, and each of the list's numbers is two doubles.
    for q in 0..192 {
        numbers::put(out, from + q, stretch(g, xs, ys, zs, q));
    }
}

// The list of stretches of a lattice and its six lists. `requires`: the lists have passed refusal 3.
pub fn stretches(v: Lattice, on: &Stretches<'_>) -> [f64; STRETCH_DOUBLES]
    requires lengths { Lengths v.grid on.now.xn.now on.now.yn.now on.now.zn.now }
    requires lengths_2 { Lengths v.grid on.now.xh.now on.now.yh.now on.now.zh.now }
    ensures { (length result ≡ stretch_doubles) × (full_lattice v result ≡ lattice_on v on.now) }
{
    let mut out = [0.0; STRETCH_DOUBLES];
    lay_stretches(v.grid, on.xn, on.yn, on.zn, 0, &mut out);
    lay_stretches(v.grid, on.xh, on.yh, on.zh, 192, &mut out);
    out
}
