// Neighbours on the lattice, and what is fixed on its walls.

ghost use Rattle.std.specs.Prelude.{◌≡◌, ◌<◌, not, ◌&&◌, eqb};
ghost use Rattle.lattice.specs.Lattice.{full_lattice};
ghost use Rattle.lattice.specs.Sound.{full};
ghost use Rattle.lattice.specs.Grid.{Inside};
ghost use Rattle.lattice.specs.Neighbours.{to_place, shifted, neighbour_of, on_wall, fixed_at, is_fixed, is_node_fixed};

use crate::grid::Position;
use crate::lattice::{Edges, Lattice};
use crate::sound::Sound;
use crate::{grid, lattice};
use numbers::C64;

// Where a step leads: the place or the edge, and the factor that the field takes on the way.
#[derive(Clone, Copy)]
pub struct Arrival {
    pub at: usize,
    pub phase: C64,
}

// To place m, with a factor.
pub fn to_place(m: usize, phase: C64) -> Option<Arrival>
    ensures { result ≡ to_place m phase }
{
    Some(Arrival { at: m, phase })
}

// A step from place m of an axis that has n; beyond a wall there is nothing. `requires`: m is one of them.
#[tactic(auto, unfolding(crate::specs::Neighbours::shifted))]
pub fn shift(e: Edges, n: usize, m: usize, up: bool) -> Option<Arrival>
    requires { m < n }
    ensures { result ≡ shifted e n m up }
{
    if up {
        if m + 1 < n {
            return to_place(m + 1, C64::one());
        }
        match e {
            Edges::Pml => None,
            Edges::Bloch(p) => to_place(0, p),
        }
    } else {
        if m == 0 {
            match e {
                Edges::Pml => None,
                Edges::Bloch(p) => to_place(n - 1, p.conj()),
            }
        } else {
            to_place(m - 1, C64::one())
        }
    }
}

// The edge to which a step along an axis leads from a position.
pub fn neighbour(l: &Sound<'_>, p: Position, axis: usize, up: bool) -> Option<Arrival>
    requires { Inside l.now.lattice.grid p }
    ensures { result ≡ neighbour_of (full l.now) p axis up }
{
    let e = lattice::edges_on(l.lattice, l.st, axis);
    let to = shift(
        e,
        grid::n(l.lattice.grid, axis),
        grid::place_on(p, axis),
        up,
    )?;
    to_place(
        grid::index(l.lattice.grid, grid::moved_to(p, axis, to.at)),
        to.phase,
    )
}

// Whether the position is at place 0 of an axis that is a wall.
#[tactic(auto, unfolding(crate::specs::Neighbours::on_wall))]
pub fn on_wall(l: Lattice, st: &[f64], p: Position, axis: usize) -> bool
    ensures { result ≡ on_wall (full_lattice l st.now) p axis }
{
    grid::place_on(p, axis) == 0 && lattice::is_wall(lattice::edges_on(l, st, axis))
}

// The same of an axis other than the component's own.
fn on_other_wall(l: Lattice, st: &[f64], p: Position, axis: usize) -> bool
    ensures { result ≡ (not (eqb axis p.component) && on_wall (full_lattice l st.now) p axis) }
{
    axis != p.component && on_wall(l, st, p, axis)
}

// Whether the edge at a position is fixed.
#[tactic(auto, unfolding(crate::specs::Neighbours::fixed_at))]
pub fn fixed_at(l: Lattice, st: &[f64], p: Position) -> bool
    ensures { result ≡ fixed_at (full_lattice l st.now) p }
{
    on_other_wall(l, st, p, 0) || (on_other_wall(l, st, p, 1) || on_other_wall(l, st, p, 2))
}

// Whether edge r is fixed.
#[tactic(auto, unfolding(crate::specs::Neighbours::is_fixed))]
pub fn fixed(l: &Sound<'_>, r: usize) -> bool
    ensures { result ≡ is_fixed (full l.now) r }
{
    fixed_at(l.lattice, l.st, grid::at(l.lattice.grid, r))
}

// Whether node q is fixed.
#[tactic(auto, unfolding(crate::specs::Neighbours::is_node_fixed))]
pub fn node_fixed(l: &Sound<'_>, q: usize) -> bool
    ensures { result ≡ is_node_fixed (full l.now) q }
{
    let p = grid::at(l.lattice.grid, q);
    on_wall(l.lattice, l.st, p, 0)
        || (on_wall(l.lattice, l.st, p, 1) || on_wall(l.lattice, l.st, p, 2))
}
