// The curls, the divergence and the gradient: each fills the caller's lists from place 0 on and says how many terms there are.
// `requires` of all of them: one of the grid's edges, faces or nodes, which the rows above show.

ghost use Rattle.std.specs.Prelude.{◌≡◌, ◌<◌};
ghost use Rattle.lattice.specs.Sound.{full};
ghost use Rattle.numbers.specs.Complex.{real_over, real_times};
ghost use Rattle.lattice.specs.Grid.{step_of, unknowns_of, Inside};
ghost use Rattle.numbers.specs.Terms.{Wrote};
ghost use Rattle.lattice.specs.Curls.{half_weight, node_weight, term_to, term_here, ahead as ahead_of, behind as behind_of, curl_e, curl_h, divergence_of, free_nodes, gradient_of};

use crate::grid::{Grid3d, Position};
use crate::neighbours::Arrival;
use crate::sound::Sound;
use crate::{grid, lattice, neighbours};
use numbers::{C64, terms};

// The weight of a difference along an axis whose stretch there is s.
fn weight(g: Grid3d, axis: usize, sign: f64, s: C64) -> C64
    ensures { result ≡ real_over sign (real_times (step_of g axis) s) }
{
    sign / (grid::step(g, axis) * s)
}

// The weight across a cell.
#[tactic(auto, using(crate::proofs::GridLaws::place_low), unfolding(crate::specs::Curls::half_weight))]
fn half_weight(l: &Sound<'_>, p: Position, axis: usize, sign: f64) -> C64
    requires inside { Inside l.now.lattice.grid p }
    requires axis_bound { axis < 3 }
    ensures { result ≡ half_weight (full l.now) p axis sign }
{
    weight(
        l.lattice.grid,
        axis,
        sign,
        lattice::half(l.lattice, l.st, axis, grid::place_on(p, axis)),
    )
}

// The weight across a node's dual cell.
#[tactic(auto, using(crate::proofs::GridLaws::place_low), unfolding(crate::specs::Curls::node_weight))]
fn node_weight(l: &Sound<'_>, p: Position, axis: usize, sign: f64) -> C64
    requires inside { Inside l.now.lattice.grid p }
    requires axis_bound { axis < 3 }
    ensures { result ≡ node_weight (full l.now) p axis sign }
{
    weight(
        l.lattice.grid,
        axis,
        sign,
        lattice::node(l.lattice, l.st, axis, grid::place_on(p, axis)),
    )
}

// The term of a neighbour at place k: none beyond a wall.
fn push_to(
    to: Option<Arrival>,
    w: C64,
    k: usize,
    columns: &mut [usize],
    values: &mut [f64],
) -> usize
    requires { k < 64 }
    ensures { Wrote columns.old values.old k (term_to to w) columns.new values.new result }
{
    let Some(to) = to else {
        return k;
    };
    terms::push(columns, values, k, to.at, w * to.phase)
}

// The term of a position of a component at place k.
fn push_here(
    l: &Sound<'_>,
    p: Position,
    component: usize,
    w: C64,
    k: usize,
    columns: &mut [usize],
    values: &mut [f64],
) -> usize
    requires inside { Inside l.now.lattice.grid p }
    requires component_bound { component < 3 }
    requires k_bound { k < 64 }
    ensures { Wrote columns.old values.old k (term_here (full l.now) p component w) columns.new values.new result }
{
    let here = grid::index(l.lattice.grid, grid::with_component(p, component));
    terms::push(columns, values, k, here, w)
}

// The difference of a field along an axis at a face: ahead, then here.
fn ahead(
    l: &Sound<'_>,
    p: Position,
    along: usize,
    field: usize,
    sign: f64,
    k: usize,
    columns: &mut [usize],
    values: &mut [f64],
) -> usize
    requires inside { Inside l.now.lattice.grid p }
    requires along_bound { along < 3 }
    requires field_bound { field < 3 }
    requires k_bound { k < 60 }
    ensures { Wrote columns.old values.old k (ahead_of (full l.now) p along field sign) columns.new values.new result }
{
    let w = half_weight(l, p, along, sign);
    let to = neighbours::neighbour(l, grid::with_component(p, field), along, true);
    let k1 = push_to(to, w, k, columns, values);
    push_here(l, p, field, -w, k1, columns, values)
}

// The difference of a field along an axis at an edge or a node: here, then behind. Order, weight, way and sign differ from `ahead`: one function would test four times.
fn behind(
    l: &Sound<'_>,
    p: Position,
    along: usize,
    field: usize,
    sign: f64,
    k: usize,
    columns: &mut [usize],
    values: &mut [f64],
) -> usize
    requires inside { Inside l.now.lattice.grid p }
    requires along_bound { along < 3 }
    requires field_bound { field < 3 }
    requires k_bound { k < 60 }
    ensures { Wrote columns.old values.old k (behind_of (full l.now) p along field sign) columns.new values.new result }
{
    let w = node_weight(l, p, along, sign);
    let k1 = push_here(l, p, field, w, k, columns, values);
    let to = neighbours::neighbour(l, grid::with_component(p, field), along, false);
    push_to(to, -w, k1, columns, values)
}

// The terms of curl E at face r; a fixed edge has its term too.
pub fn curl_e(l: &Sound<'_>, r: usize, columns: &mut [usize], values: &mut [f64]) -> usize
    requires { r < unknowns_of l.now.lattice.grid }
    ensures { Wrote columns.old values.old 0 (curl_e (full l.now) r) columns.new values.new result }
{
    let p = grid::at(l.lattice.grid, r);
    let b = grid::next_axis(p.component);
    let c = grid::last_axis(p.component);
    let k = ahead(l, p, b, c, 1.0, 0, columns, values);
    ahead(l, p, c, b, -1.0, k, columns, values)
}

// The terms of curl H at edge r: `curl_e` with `behind`. A closure in its place would take nine arguments, for these two lines.
pub fn curl_h(l: &Sound<'_>, r: usize, columns: &mut [usize], values: &mut [f64]) -> usize
    requires { r < unknowns_of l.now.lattice.grid }
    ensures { Wrote columns.old values.old 0 (curl_h (full l.now) r) columns.new values.new result }
{
    let p = grid::at(l.lattice.grid, r);
    let b = grid::next_axis(p.component);
    let c = grid::last_axis(p.component);
    let k = behind(l, p, b, c, 1.0, 0, columns, values);
    behind(l, p, c, b, -1.0, k, columns, values)
}

// The terms of the divergence at node q; a fixed edge has its term too.
pub fn divergence(l: &Sound<'_>, q: usize, columns: &mut [usize], values: &mut [f64]) -> usize
    requires { q < unknowns_of l.now.lattice.grid }
    ensures { Wrote columns.old values.old 0 (divergence_of (full l.now) q) columns.new values.new result }
{
    let p = grid::at(l.lattice.grid, q);
    let k = behind(l, p, 0, 0, 1.0, 0, columns, values);
    let k1 = behind(l, p, 1, 1, 1.0, k, columns, values);
    behind(l, p, 2, 2, 1.0, k1, columns, values)
}

// The term of a node that is not fixed, at place k: none where there is no node.
fn push_free_node(
    l: &Sound<'_>,
    to: Option<Arrival>,
    w: C64,
    k: usize,
    columns: &mut [usize],
    values: &mut [f64],
) -> usize
    requires { k < 64 }
    ensures { Wrote columns.old values.old k (free_nodes (full l.now) (term_to to w)) columns.new values.new result }
{
    let Some(to) = to else {
        return k;
    };
    if neighbours::node_fixed(l, to.at) {
        return k;
    }
    terms::push(columns, values, k, to.at, w * to.phase)
}

// The term of the node at a position, at place k, if that node is not fixed.
fn push_free_here(
    l: &Sound<'_>,
    p: Position,
    w: C64,
    k: usize,
    columns: &mut [usize],
    values: &mut [f64],
) -> usize
    requires inside { Inside l.now.lattice.grid p }
    requires k_bound { k < 64 }
    ensures { Wrote columns.old values.old k (free_nodes (full l.now) (term_here (full l.now) p 0 w))
        columns.new values.new result }
{
    let here = grid::index(l.lattice.grid, grid::with_component(p, 0));
    if neighbours::node_fixed(l, here) {
        return k;
    }
    terms::push(columns, values, k, here, w)
}

// The terms of the gradient at edge r; a fixed node has none.
pub fn gradient(l: &Sound<'_>, r: usize, columns: &mut [usize], values: &mut [f64]) -> usize
    requires { r < unknowns_of l.now.lattice.grid }
    ensures { Wrote columns.old values.old 0 (gradient_of (full l.now) r) columns.new values.new result }
{
    let p = grid::at(l.lattice.grid, r);
    let w = half_weight(l, p, p.component, 1.0);
    let to = neighbours::neighbour(l, grid::with_component(p, 0), p.component, true);
    let k = push_free_node(l, to, w, 0, columns, values);
    push_free_here(l, p, -w, k, columns, values)
}
