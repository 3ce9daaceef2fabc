// The permittivities of a coarse level from those of the level before.
// `requires`: two levels' grids within the limits, the coarse nodes' numbers on the fine level, and room in the list.

ghost use Rattle.std.specs.Prelude.{◌≡◌, [], ◌∷◌, ℕ, ◌+◌, ◌-◌, ◌*◌, ◌<◌, ◌≤◌, ◌^◌, length, get_or, false};
ghost use Rattle.numbers.specs.Complex.{zero_number, finite};
ghost use Rattle.numbers.specs.Places.{number_at, set_number};
ghost use Rattle.lattice.specs.Grid.{unknowns_of, Limits, place_on, at_of};
ghost use Rattle.numbers.specs.Lists.{tabulate, summed, laid_numbers, all_finite, read_from, any_flag};
ghost use Rattle.weights.specs.TwoLevels.{fine_grid, coarse_grid};
ghost use Rattle.weights.specs.Pair.{two};
ghost use Rattle.std.specs.List.{list_any, range_with_len};
ghost use Rattle.weights.specs.CoarseEps.{edge_along, edges_along, inverted, coarse_eps};
ghost use Rattle.weights.specs.Tables.{NestedIn, ChainRoom, LineInside, on_fine_in, coarse_eps_in, eps_reads_in, CellAt, node_count};

use crate::pair::Pair;
use crate::tables;
use lattice::grid;
use lattice::grid::{Grid3d, Position};
use numbers::{C64, lists};

// The fine edges of a coarse edge's cell: places first to last - 1 along the component of a node of the fine level.
#[derive(Clone, Copy)]
pub struct Along {
    pub node: Position,
    pub first: usize,
    pub last: usize,
}

// The node of a coarse position on the fine level. nn has the nodes' numbers, 65 for each axis.
fn on_fine(nn: &[usize], p: Position) -> Position
    requires nn_len { length nn.now ≡ node_count }
    requires i_bound { (p.i < 64) × (p.j < 64) × (p.k < 64) }
    ensures { result ≡ on_fine_in nn.now p }
{
    let i = p.i;
    let j = p.j;
    let k = p.k;
    Position {
        component: p.component,
        i: nn[i],
        j: nn[65 + j],
        k: nn[130 + k],
    }
}

// The sum of the inverses of the permittivities at places first to last - 1 along the component of p, from +0.
pub fn sum_of_inverses(
    gf: Grid3d,
    eps: &[f64],
    from: usize,
    p: Position,
    first: usize,
    last: usize,
) -> C64
    requires limits { Limits gf }
    requires from_bound { (from ≤ 2 ^ 32) × (2 * (from + unknowns_of gf) ≤ length eps.now) }
    requires line_inside { LineInside gf p last }
    ensures { result ≡ summed (inverted (read_from eps.now from)) zero_number (edges_along gf p first (last - first)) }
{
    let mut sum = C64::zero();
    // The place itself, not an index: each is worked out from m, and the sum keeps their order.
    for m in first..last {
        let c = grid::index(gf, grid::moved_to(p, p.component, m));
        sum = sum + 1.0 / numbers::get(eps, from + c);
    }
    sum
}

// The cell of coarse edge r.
fn cell_at(gc: Grid3d, nn: &[usize], r: usize) -> Along
    requires limits { (Limits gc) × (length nn.now ≡ node_count) }
    requires r_bound { r < unknowns_of gc }
    ensures { CellAt gc nn.now r result }
{
    let p = grid::at(gc, r);
    let a = p.component;
    let m = grid::place_on(p, a);
    let node = on_fine(nn, p);
    let first = nn[65 * a + m];
    let last = nn[65 * a + m + 1];
    Along { node, first, last }
}

// The permittivity of coarse edge r: how many fine edges its cell has over the sum of their inverses.
pub fn coarse_eps_at(
    gf: Grid3d,
    gc: Grid3d,
    nn: &[usize],
    eps: &[f64],
    from: usize,
    r: usize,
) -> C64
    requires limits { (Limits gf) × (Limits gc) }
    requires nested_in { NestedIn gf gc nn.now }
    requires from_bound { (from ≤ 2 ^ 32) × (2 * (from + unknowns_of gf) ≤ length eps.now) }
    requires r_bound { r < unknowns_of gc }
    ensures { result ≡ coarse_eps_in gf gc nn.now (read_from eps.now from) r }
{
    let c = cell_at(gc, nn, r);
    let sum = sum_of_inverses(gf, eps, from, c.node, c.first, c.last);
    (c.last - c.first) as f64 / sum
}

// The same laid at place to + r of the list that is read; whether it is finite.
pub fn coarse_eps_row(
    gf: Grid3d,
    gc: Grid3d,
    nn: &[usize],
    eps: &mut [f64],
    from: usize,
    to: usize,
    r: usize,
) -> bool
    requires limits { (Limits gf) × (Limits gc) }
    requires nested_in { NestedIn gf gc nn.now }
    requires from_bound { (from ≤ 2 ^ 32) × (2 * (from + unknowns_of gf) ≤ length eps.old) }
    requires r_bound { (r < unknowns_of gc) × (to ≤ 2 ^ 32) }
    ensures eps_after { eps.new ≡ set_number eps.old (to + r) (coarse_eps_in gf gc nn.now (read_from eps.old from) r) }
    ensures value { result ≡ finite (coarse_eps_in gf gc nn.now (read_from eps.old from) r) }
{
    let v = coarse_eps_at(gf, gc, nn, eps, from, r);
    numbers::put(eps, to + r, v);
    v.is_finite()
}

// Whether one of the edges at places first to last - 1 along the component of p is flagged.
#[tactic(auto, unfolding(crate::specs::CoarseEps::edge_along))]
pub fn line_flagged(gf: Grid3d, flags: &[bool], p: Position, first: usize, last: usize) -> bool
    requires limits { Limits gf }
    requires first_le_last { (first ≤ last) × (LineInside gf p last) }
    ensures { result ≡ list_any (λ m. get_or flags.now (edge_along gf p m) false) (range_with_len first (last - first)) }
{
    (first..last).any(|m| lists::flagged(flags, grid::index(gf, grid::moved_to(p, p.component, m))))
}

// Whether one of the fine edges that the permittivity of coarse edge r reads is flagged.
pub fn eps_flagged(gf: Grid3d, gc: Grid3d, nn: &[usize], flags: &[bool], r: usize) -> bool
    requires limits { (Limits gf) × (Limits gc) }
    requires nested_in { NestedIn gf gc nn.now }
    requires r_bound { r < unknowns_of gc }
    ensures { result ≡ any_flag flags.now (eps_reads_in gf gc nn.now r) }
{
    let c = cell_at(gc, nn, r);
    line_flagged(gf, flags, c.node, c.first, c.last)
}

// Those of a whole level, read from place `from` on and laid into the same list from place `to` on.
fn all_eps(gf: Grid3d, gc: Grid3d, nn: &[usize], eps: &mut [f64], from: usize, to: usize)
    requires limits { (Limits gf) × (Limits gc) }
    requires nested_in { NestedIn gf gc nn.now }
    requires chain_room { ChainRoom (unknowns_of gf) (unknowns_of gc) from to eps.old }
    ensures { eps.new ≡ laid_numbers eps.old to (tabulate (coarse_eps_in gf gc nn.now (read_from eps.old from)) (unknowns_of gc) 0) }
{
    let n = grid::unknowns(gc);
    for r in 0..n {
        coarse_eps_row(gf, gc, nn, eps, from, to, r);
    }
}

// The permittivities of the coarse level of two, laid behind place `to`, from those of the fine one at place `from`; whether all are finite.
pub fn coarse_eps(pair: &Pair<'_>, eps: &mut [f64], from: usize, to: usize) -> bool
    requires chain_room { ChainRoom (unknowns_of (fine_grid (two pair.now))) (unknowns_of (coarse_grid (two pair.now))) from to eps.old }
    ensures eps_after { eps.new ≡ laid_numbers eps.old to (tabulate (coarse_eps (two pair.now)
        (read_from eps.old from)) (unknowns_of (coarse_grid (two pair.now))) 0) }
    ensures value { result ≡ all_finite (tabulate (coarse_eps (two pair.now) (read_from eps.old from))
        (unknowns_of (coarse_grid (two pair.now))) 0) }
{
    let gf = tables::grid_of(pair.l.lattice.grid, pair.fine);
    let gc = tables::grid_of(pair.l.lattice.grid, pair.coarse);
    let nn = tables::nodes(pair);
    all_eps(gf, gc, &nn, eps, from, to);
    lists::finite_numbers(eps, to, grid::unknowns(gc))
}
