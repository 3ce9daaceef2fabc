// The permittivities of a rediscretized level from those of the level before.

ghost use Rattle.std.specs.Prelude.{◌≡◌, [], ◌∷◌, ℕ, ◌+◌, ◌-◌, ◌*◌, ◌<◌, ◌≤◌, ◌^◌, length, get_or};
ghost use Rattle.lattice.specs.Grid.{axis3, n_of, next_axis, last_axis, place_on, moved_to, unknowns_of, Limits, Inside};
ghost use Rattle.numbers.specs.Complex.{finite};
ghost use Rattle.numbers.specs.Places.{set_number};
ghost use Rattle.numbers.specs.Lists.{tabulate, each, laid_numbers, all_finite, read_from, any_flag};
ghost use Rattle.lattice.specs.Line.{ends_of, Held};
ghost use Rattle.weights.specs.Pair.{two};
ghost use Rattle.weights.specs.TwoLevels.{coarse_cells, fine_grid, coarse_grid};
ghost use Rattle.weights.specs.Tables.{node_no, ChainRoom, node_count};
ghost use Rattle.operators.specs.Averaged.{hat_weight, wrapped_place, walk, hat_above, lower_hats, around, hats_around, line_edges, hat_edges, weigh_line, weigh_all, nothing, mean_of, averaged_eps, averaged_reads, hats_by, HatsLaid, NodesFrom, AxisHats, Hats, HatsAcross, LinePair, NodesBelow, CellReady, CellFits, cell_in, averaged_in, averaged_no, AverageReady, AveragesReady, hat_counts, hat_places};

use crate::nested::NestedPair;
use lattice::grid::{Grid3d, Position};
use lattice::levels::Three;
use lattice::line::Line;
use lattice::{grid, line};
use numbers::{C64, lists};
use weights::{eps, tables};

// 128 places for the hats of each node of each axis.
pub const HAT_PLACES: usize = 24576;
// Their counts.
pub const HAT_COUNTS: usize = 192;

// A fine node around a coarse one, and its weight.
#[derive(Clone, Copy)]
pub struct Hat {
    pub node: usize,
    pub weight: f64,
}

// What stands in a list of hats before any is laid.
const NO_HAT: Hat = Hat {
    node: 0,
    weight: 0.0,
};

// A sum of weighted means, and the sum of the weights.
#[derive(Clone, Copy)]
pub struct Weighed {
    pub total: C64,
    pub weight: f64,
}

// A coarse edge's cell on the fine grid: the edge's position, and the places along its component from `first` up to `last`.
#[derive(Clone, Copy)]
pub struct Cell {
    pub grid: Grid3d,
    pub p: Position,
    pub first: usize,
    pub last: usize,
}

// How many hats stand around an edge's node on the axes across its component: the next and the last.
#[derive(Clone, Copy)]
pub struct Counts {
    pub next: usize,
    pub last: usize,
}

// 1 less the distance over the width.
fn hat_weight(distance: usize, width: usize) -> f64
    requires { (distance ≤ 256) × (width ≤ 256) }
    ensures { result ≡ hat_weight distance width }
{
    1.0 - distance as f64 / width as f64
}

// Where node q of a line lies, counted on past its last node: a period further.
fn wrapped_place(l: Line, q: usize) -> usize
    requires { Held l }
    ensures { result ≡ wrapped_place (ends_of l) q }
{
    let n = l.cells;
    if q < n {
        return l.ends[q];
    }
    l.ends[n] + l.ends[q % n]
}

// ---- the nodes around a coarse node

// One hat, at place k of a list; past the list's end it is left out. The place behind it.
fn push_hat(h: Hat, hats: &mut [Hat], k: usize) -> usize
    requires { k < 2 ^ 32 }
    ensures { HatsLaid hats.old k (h ∷ []) hats.new result }
{
    if k < hats.len() {
        hats[k] = h;
    }
    k + 1
}

// The walk over lower neighbours: from node `first` on, each node that lies below the place `at`; it stops at the first that does not.
fn walk_lower(
    f: Line,
    at: usize,
    width: usize,
    first: usize,
    hats: &mut [Hat],
    from: usize,
) -> usize
    requires held { Held f }
    requires le_first { (1 ≤ first) × (first ≤ f.cells) × (at ≤ get_or f.ends f.cells 0) × (width ≤ 256) }
    requires from_bound { from < 2 ^ 30 }
    ensures { HatsLaid hats.old from (walk (ends_of f) at width f.cells first) hats.new result }
{
    let n = f.cells;
    let mut q = first;
    let mut k = from;
    loop {
        let place = wrapped_place(f, q);
        if place >= at {
            break;
        }
        let h = Hat {
            node: q % n,
            weight: hat_weight(at - place, width),
        };
        k = push_hat(h, hats, k);
        q += 1;
    }
    k
}

// The nodes from `first` up to `last`, above the place `at`.
fn push_upper(
    f: Line,
    at: usize,
    width: usize,
    first: usize,
    last: usize,
    hats: &mut [Hat],
    from: usize,
) -> usize
    requires held { Held f }
    requires last_le_cells { (last ≤ f.cells) × (width ≤ 256) × (from < 2 ^ 30) }
    requires by_index { (q : ℕ) → first ≤ q → q < last → at ≤ get_or f.ends q 0 }
    ensures { HatsLaid hats.old from (tabulate (hat_above (ends_of f) at width) (last - first) first) hats.new result }
{
    let mut k = from;
    // An index: it is the node's number, which the hat has.
    for q in first..last {
        let h = Hat {
            node: q,
            weight: hat_weight(f.ends[q] - at, width),
        };
        k = push_hat(h, hats, k);
    }
    k
}

// The nodes between coarse node `end` and the one before it. nn has the number on the fine line of each coarse node, from place o on.
fn push_between(
    f: Line,
    c: Line,
    nn: &[usize],
    o: usize,
    end: usize,
    hats: &mut [Hat],
    from: usize,
) -> usize
    requires line_pair { LinePair f c }
    requires nodes_from { NodesFrom (ends_of f) (ends_of c) c.cells nn.now o }
    requires end_bound { (1 ≤ end) × (end ≤ c.cells) × (from < 2 ^ 30) }
    ensures { HatsLaid hats.old from (walk (ends_of f) (get_or c.ends end 0) (get_or c.ends end 0 - get_or c.ends (end - 1) 0) f.cells (get_or nn.now (o + end - 1) 0 + 1)) hats.new result }
{
    let at = c.ends[end];
    walk_lower(f, at, at - c.ends[end - 1], nn[o + end - 1] + 1, hats, from)
}

// The nodes below coarse node m: none before a wall, and at node 0 of a Bloch axis those below the line's end, a period further.
fn push_lower(
    f: Line,
    c: Line,
    nn: &[usize],
    o: usize,
    wall: bool,
    m: usize,
    hats: &mut [Hat],
    from: usize,
) -> usize
    requires line_pair { LinePair f c }
    requires nodes_from { NodesFrom (ends_of f) (ends_of c) c.cells nn.now o }
    requires m_lt_cells { (m < c.cells) × (from < 2 ^ 30) }
    ensures { HatsLaid hats.old from (lower_hats wall (ends_of f) (ends_of c) m) hats.new result }
{
    if m > 0 {
        return push_between(f, c, nn, o, m, hats, from);
    }
    if wall {
        return from;
    }
    push_between(f, c, nn, o, c.cells, hats, from)
}

// The nodes around coarse node m, each with its weight, at most 127.
fn push_around(
    f: Line,
    c: Line,
    nn: &[usize],
    o: usize,
    wall: bool,
    m: usize,
    hats: &mut [Hat],
    from: usize,
) -> usize
    requires line_pair { LinePair f c }
    requires nodes_from { NodesFrom (ends_of f) (ends_of c) c.cells nn.now o }
    requires m_lt_cells { (m < c.cells) × (from < 2 ^ 20) }
    ensures { HatsLaid hats.old from (around wall (ends_of f) (ends_of c) m) hats.new result }
{
    let k = push_lower(f, c, nn, o, wall, m, hats, from);
    let own = Hat {
        node: nn[o + m],
        weight: 1.0,
    };
    let k1 = push_hat(own, hats, k);
    let at = c.ends[m];
    push_upper(
        f,
        at,
        c.ends[m + 1] - at,
        nn[o + m] + 1,
        nn[o + m + 1],
        hats,
        k1,
    )
}

// Those of all nodes of an axis, 128 places for each.
fn axis_hats(f: Line, c: Line, wall: bool, axis: usize, hats: &mut [Hat], counts: &mut [usize])
    requires line_pair { LinePair f c }
    requires axis_bound { axis < 3 }
    requires hats_len { (length hats.old ≡ hat_places) × (length counts.old ≡ hat_counts) }
    ensures { AxisHats wall (ends_of f) (ends_of c) axis c.cells hats.old counts.old hats.new counts.new }
{
    let nn = line::nodes_of(f, c);
    let n = c.cells;
    // An index: node m's count stands at b, its hats from 128 b on.
    for m in 0..n {
        let b = 64 * axis + m;
        counts[b] = push_around(f, c, &nn, 0, wall, m, hats, 128 * b) - 128 * b;
    }
}

// Those of two levels.
fn hats(nested: &NestedPair<'_>, hats: &mut [Hat], counts: &mut [usize])
    requires hats_len { (length hats.old ≡ hat_places) × (length counts.old ≡ hat_counts) }
    ensures { Hats (two nested.now.pair.now) hats.new counts.new }
{
    let pair = nested.pair;
    let x = pair.l.lattice.x;
    let y = pair.l.lattice.y;
    let z = pair.l.lattice.z;
    let wx = lattice::lattice::is_wall(x);
    let wy = lattice::lattice::is_wall(y);
    let wz = lattice::lattice::is_wall(z);
    axis_hats(pair.fine.x, pair.coarse.x, wx, 0, hats, counts);
    axis_hats(pair.fine.y, pair.coarse.y, wy, 1, hats, counts);
    axis_hats(pair.fine.z, pair.coarse.z, wz, 2, hats, counts);
}

// ---- the mean

// The position p, moved to the nodes of two hats on the axes across its component.
fn through(p: Position, h: Hat, k: Hat) -> Position
    ensures { result ≡ moved_to (moved_to p (next_axis p.component) h.node) (last_axis p.component) k.node }
{
    let b = grid::next_axis(p.component);
    let c = grid::last_axis(p.component);
    grid::moved_to(grid::moved_to(p, b, h.node), c, k.node)
}

// One line of fine edges more, along a cell, through the nodes of two hats.
fn weigh_line(c: Cell, eps: &[f64], from: usize, h: Hat, s: Weighed, k: Hat) -> Weighed
    requires cell { CellFits c }
    requires from_bound { (from ≤ 2 ^ 32) × (2 * (from + unknowns_of c.grid) ≤ length eps.now) }
    requires node_bound { (h.node < n_of c.grid (next_axis c.p.component)) × (k.node < n_of c.grid (last_axis c.p.component)) }
    ensures { result ≡ weigh_line c.grid (read_from eps.now from) c.p c.first (c.last - c.first) h s k }
{
    let inverse = eps::sum_of_inverses(c.grid, eps, from, through(c.p, h, k), c.first, c.last);
    let w = h.weight * k.weight;
    let count = c.last - c.first;
    let mean = w * count as f64 / inverse;
    Weighed {
        total: s.total + mean,
        weight: s.weight + w,
    }
}

// The mean over the lines through each pair of hats: those on the next axis across, and those on the last.
fn mean_over(c: Cell, eps: &[f64], from: usize, next: &[Hat], last: &[Hat]) -> C64
    requires cell { CellFits c }
    requires from_bound { (from ≤ 2 ^ 32) × (2 * (from + unknowns_of c.grid) ≤ length eps.now) }
    requires next_below { NodesBelow (n_of c.grid (next_axis c.p.component)) next.now }
    requires last_below { NodesBelow (n_of c.grid (last_axis c.p.component)) last.now }
    ensures { result ≡ mean_of (weigh_all c.grid (read_from eps.now from) c.p c.first (c.last - c.first) last.now nothing next.now) }
{
    let mut sum = Weighed {
        total: C64::zero(),
        weight: 0.0,
    };
    // The same nest as in `any_over`: one sums, one ends early, and a closure over both would be longer than either.
    for h in next {
        for k in last {
            sum = weigh_line(c, eps, from, *h, sum, *k);
        }
    }
    sum.total / sum.weight
}

// The cell of the coarse edge at p. nn has the nodes' numbers, 65 for each axis.
fn cell_of(gf: Grid3d, nn: &[usize], p: Position) -> Cell
    requires { CellReady gf p nn.now }
    ensures { (CellFits result) × (result ≡ cell_in gf nn.now p) }
{
    let m = 65 * p.component + grid::place_on(p, p.component);
    Cell {
        grid: gf,
        p,
        first: nn[m],
        last: nn[m + 1],
    }
}

// The hats around the node of p on an axis.
fn hats_at<'a>(hats: &'a [Hat], counts: &[usize], p: Position, axis: usize) -> &'a [Hat]
    requires axis_bound { (axis < 3) × (place_on p axis < 64) × (length counts.now ≡ hat_counts) }
    requires hats_fit { 128 * (64 * axis + place_on p axis) + get_or counts.now (64 * axis + place_on p axis) 0 ≤ length hats.now }
    ensures { result.now ≡ hats_by hats.now counts.now p axis }
{
    let b = 64 * axis + grid::place_on(p, axis);
    &hats[128 * b..128 * b + counts[b]]
}

// The permittivity of the coarse edge at p. nn has the nodes' numbers, 65 for each axis.
pub fn averaged_eps_at(
    gf: Grid3d,
    nn: &[usize],
    hats: &[Hat],
    counts: &[usize],
    eps: &[f64],
    from: usize,
    p: Position,
) -> C64
    requires from_bound { (from ≤ 2 ^ 32) × (2 * (from + unknowns_of gf) ≤ length eps.now) }
    requires average_ready { AverageReady gf p nn.now hats.now counts.now }
    ensures { result ≡ averaged_in gf nn.now hats.now counts.now (read_from eps.now from) p }
{
    let next = hats_at(hats, counts, p, grid::next_axis(p.component));
    let last = hats_at(hats, counts, p, grid::last_axis(p.component));
    mean_over(cell_of(gf, nn, p), eps, from, next, last)
}

// Those of a whole level, read from place `from` on and laid into the same list from place `to` on.
fn all_averaged(
    gf: Grid3d,
    gc: Grid3d,
    nn: &[usize],
    hats: &[Hat],
    counts: &[usize],
    eps: &mut [f64],
    from: usize,
    to: usize,
)
    requires limits { (Limits gf) × (Limits gc) }
    requires averages_ready { AveragesReady gf gc nn.now hats.now counts.now }
    requires chain_room { ChainRoom (unknowns_of gf) (unknowns_of gc) from to eps.old }
    ensures { eps.new ≡ laid_numbers eps.old to (tabulate (averaged_no gf gc nn.now hats.now counts.now (read_from eps.old from)) (unknowns_of gc) 0) }
{
    let n = grid::unknowns(gc);
    for r in 0..n {
        let v = averaged_eps_at(gf, nn, hats, counts, eps, from, grid::at(gc, r));
        numbers::put(eps, to + r, v);
    }
}

// The permittivities of the coarse level of two, laid from place `to` on, from those of the fine one at place `from`; whether all are finite.
pub fn averaged_eps(nested: &NestedPair<'_>, eps: &mut [f64], from: usize, to: usize) -> bool
    requires chain_room { ChainRoom (unknowns_of (fine_grid (two nested.now.pair.now))) (unknowns_of (coarse_grid (two nested.now.pair.now))) from to eps.old }
    ensures eps_after { eps.new ≡ laid_numbers eps.old to (tabulate (averaged_eps (two nested.now.pair.now)
        (read_from eps.old from)) (unknowns_of (coarse_grid (two nested.now.pair.now))) 0) }
    ensures value { result ≡ all_finite (tabulate (averaged_eps (two nested.now.pair.now) (read_from eps.old from))
        (unknowns_of (coarse_grid (two nested.now.pair.now))) 0) }
{
    let pair = nested.pair;
    let gf = tables::grid_of(pair.l.lattice.grid, pair.fine);
    let gc = tables::grid_of(pair.l.lattice.grid, pair.coarse);
    let nn = tables::nodes(pair);
    let mut around = [NO_HAT; HAT_PLACES];
    let mut counts = [0usize; HAT_COUNTS];
    hats(nested, &mut around, &mut counts);
    all_averaged(gf, gc, &nn, &around, &counts, eps, from, to);
    lists::finite_numbers(eps, to, grid::unknowns(gc))
}

// ---- one edge alone

fn line_on(s: &Three, axis: usize) -> Line
    ensures { result ≡ axis3 axis s.now.x s.now.y s.now.z }
{
    if axis == 0 {
        return s.x;
    }
    if axis == 1 {
        return s.y;
    }
    s.z
}

// The hats around node m of an axis of two levels. nn has the nodes' numbers, 65 for each axis.
fn around_on(
    nested: &NestedPair<'_>,
    nn: &[usize],
    axis: usize,
    m: usize,
    hats: &mut [Hat],
) -> usize
    requires nn_value { nn.now ≡ tabulate (node_no (two nested.now.pair.now)) node_count 0 }
    requires axis_bound { (axis < 3) × (m < coarse_cells (two nested.now.pair.now) axis) }
    ensures { HatsLaid hats.old 0 (hats_around (two nested.now.pair.now) axis m)
        hats.new result }
{
    let pair = nested.pair;
    let edges = lattice::lattice::edges_on(pair.l.lattice, pair.l.st, axis);
    let wall = lattice::lattice::is_wall(edges);
    let f = line_on(&pair.fine, axis);
    let c = line_on(&pair.coarse, axis);
    push_around(f, c, nn, 65 * axis, wall, m, hats, 0)
}

// Those around the node of a coarse edge at p on the axes across it, the next and the last.
fn hats_across(
    nested: &NestedPair<'_>,
    nn: &[usize],
    p: Position,
    next: &mut [Hat],
    last: &mut [Hat],
) -> Counts
    requires nn_value { nn.now ≡ tabulate (node_no (two nested.now.pair.now)) node_count 0 }
    requires inside { Inside (coarse_grid (two nested.now.pair.now)) p }
    requires hats_len { (length next.old ≡ 128) × (length last.old ≡ 128) }
    ensures { HatsAcross (two nested.now.pair.now) p next.new last.new result }
{
    let b = grid::next_axis(p.component);
    let c = grid::last_axis(p.component);
    let i = grid::place_on(p, b);
    let j = grid::place_on(p, c);
    Counts {
        next: around_on(nested, nn, b, i, next),
        last: around_on(nested, nn, c, j, last),
    }
}

// The permittivity of coarse edge r of two, read from place `from` on.
fn averaged_edge(nested: &NestedPair<'_>, nn: &[usize], eps: &[f64], from: usize, r: usize) -> C64
    requires nn_value { nn.now ≡ tabulate (node_no (two nested.now.pair.now)) node_count 0 }
    requires r_bound { r < unknowns_of (coarse_grid (two nested.now.pair.now)) }
    requires from_bound { (from ≤ 2 ^ 32) × (2 * (from + unknowns_of (fine_grid (two nested.now.pair.now))) ≤ length eps.now) }
    ensures { result ≡ averaged_eps (two nested.now.pair.now) (read_from eps.now from) r }
{
    let pair = nested.pair;
    let gf = tables::grid_of(pair.l.lattice.grid, pair.fine);
    let p = grid::at(tables::grid_of(pair.l.lattice.grid, pair.coarse), r);
    let mut next = [NO_HAT; 128];
    let mut last = [NO_HAT; 128];
    let k = hats_across(nested, nn, p, &mut next, &mut last);
    let c = cell_of(gf, nn, p);
    mean_over(c, eps, from, &next[..k.next], &last[..k.last])
}

// The permittivity of coarse edge r of two alone, put into its place, those of the level beginning at place `to`; whether it is finite.
pub fn averaged_row(
    nested: &NestedPair<'_>,
    nn: &[usize],
    eps: &mut [f64],
    from: usize,
    to: usize,
    r: usize,
) -> bool
    requires nn_value { nn.now ≡ tabulate (node_no (two nested.now.pair.now)) node_count 0 }
    requires r_bound { r < unknowns_of (coarse_grid (two nested.now.pair.now)) }
    requires chain_room { ChainRoom (unknowns_of (fine_grid (two nested.now.pair.now))) (unknowns_of (coarse_grid (two nested.now.pair.now))) from to eps.old }
    ensures eps_after { eps.new ≡ set_number eps.old (to + r) (averaged_eps (two nested.now.pair.now) (read_from eps.old from) r) }
    ensures value { result ≡ finite (averaged_eps (two nested.now.pair.now) (read_from eps.old from) r) }
{
    let v = averaged_edge(nested, nn, eps, from, r);
    numbers::put(eps, to + r, v);
    v.is_finite()
}

// ---- what one edge reads: is some of it flagged?

// Of one line along a cell, through the nodes of two hats.
fn line_flagged(c: Cell, flags: &[bool], h: Hat, k: Hat) -> bool
    requires cell { CellFits c }
    requires flags_in_bounds { unknowns_of c.grid ≤ length flags.now }
    requires node_bound { (h.node < n_of c.grid (next_axis c.p.component)) × (k.node < n_of c.grid (last_axis c.p.component)) }
    ensures { result ≡ any_flag flags.now (line_edges c.grid c.p c.first (c.last - c.first) h k) }
{
    eps::line_flagged(c.grid, flags, through(c.p, h, k), c.first, c.last)
}

// Of the lines through each pair of hats.
fn any_over(c: Cell, flags: &[bool], next: &[Hat], last: &[Hat]) -> bool
    requires cell { CellFits c }
    requires flags_in_bounds { unknowns_of c.grid ≤ length flags.now }
    requires next_below { NodesBelow (n_of c.grid (next_axis c.p.component)) next.now }
    requires last_below { NodesBelow (n_of c.grid (last_axis c.p.component)) last.now }
    ensures { result ≡ any_flag flags.now (each (hat_edges c.grid c.p c.first (c.last - c.first) last.now) next.now) }
{
    for h in next {
        for k in last {
            if line_flagged(c, flags, *h, *k) {
                return true;
            }
        }
    }
    false
}

// Of coarse edge r of two: whether one of the fine edges whose permittivities it reads is flagged. No other is looked at.
pub fn averaged_flagged(nested: &NestedPair<'_>, nn: &[usize], flags: &[bool], r: usize) -> bool
    requires nn_value { nn.now ≡ tabulate (node_no (two nested.now.pair.now)) node_count 0 }
    requires r_bound { r < unknowns_of (coarse_grid (two nested.now.pair.now)) }
    requires coarse_in_bounds { unknowns_of (fine_grid (two nested.now.pair.now)) ≤ length flags.now }
    ensures { result ≡ any_flag flags.now (averaged_reads (two nested.now.pair.now) r) }
{
    let pair = nested.pair;
    let gf = tables::grid_of(pair.l.lattice.grid, pair.fine);
    let p = grid::at(tables::grid_of(pair.l.lattice.grid, pair.coarse), r);
    let mut next = [NO_HAT; 128];
    let mut last = [NO_HAT; 128];
    let k = hats_across(nested, nn, p, &mut next, &mut last);
    let c = cell_of(gf, nn, p);
    any_over(c, flags, &next[..k.next], &last[..k.last])
}
