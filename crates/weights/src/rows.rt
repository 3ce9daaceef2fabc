// Rows of the prolongation from the lists of slots: columns, and numbers, each laid into a lent list.
// `requires` of all of them: an edge of the fine grid, or a position that has slots, and a place far from the largest number. That the entries are
// places of grids within the limits `Places` holds for columns and `Weights` for numbers.

ghost use Rattle.std.specs.Prelude.{◌≡◌, [], ◌∷◌, ℕ, ◌+◌, ◌-◌, ◌*◌, ◌<◌, ◌≤◌, ◌^◌, List, length, get_or, set};
ghost use Rattle.numbers.specs.Places.{number_at, set_number};
ghost use Rattle.lattice.specs.Grid.{n_of, unknowns_of, at_of, Limits, Inside};
ghost use Rattle.numbers.specs.Lists.{Laid, laid, rows as rows_of, starts_of, read_from};
ghost use Rattle.weights.specs.Calls.{Lays, MayLay};
ghost use Rattle.weights.specs.Tables.{slot_on, pull_in, columns_in_z, columns_in_y, columns_in, weight_in, numbers_in_z, numbers_in_y, numbers_in, PlacesOf, NodesOf, SpanOf, columns_row, numbers_row, RowLaid, HasSlots, count_in, all_slots, entry_count};

use crate::tables;
use lattice::grid;
use lattice::grid::{Grid3d, Position};
use numbers::{C64, lists};

// An entry of a slot: the coarse place, the fine place of its permittivity, the weight.
#[derive(Clone, Copy)]
pub struct Pull {
    pub place: usize,
    pub node: usize,
    pub weight: C64,
}

// All that the columns of a row are worked out from: the coarse grid, the entries' places, and how many each slot has. The grid is within the limits,
// and the entries are places of it.
#[derive(Clone, Copy)]
pub struct Places<'a> {
    pub coarse: Grid3d,
    pub places: &'a [usize],
    pub counts: &'a [usize],
    ghost limits: { Limits coarse },
    ghost places_of: { PlacesOf coarse places.now counts.now },
}

// Both grids, and where the permittivities of their edges begin in a list.
#[derive(Clone, Copy)]
pub struct Span {
    pub fine: Grid3d,
    pub coarse: Grid3d,
    pub feps: usize,
    pub ceps: usize,
}

// All that the numbers of a row are worked out from: the entries' places, fine places and weights, how many each slot has, and the permittivities. The
// grids are within the limits, the entries are places of them, and the permittivities of both levels stand in their list.
#[derive(Clone, Copy)]
pub struct Weights<'a> {
    pub span: Span,
    pub places: &'a [usize],
    pub nodes: &'a [usize],
    pub counts: &'a [usize],
    pub pulls: &'a [f64],
    pub eps: &'a [f64],
    ghost span_of: { SpanOf span places.now nodes.now counts.now pulls.now eps.now },
}

// The slot of a position on an axis.
fn slot_on(p: Position, axis: usize, i: usize) -> usize
    requires { (axis < 3) × (i < 64) }
    ensures { result ≡ slot_on p axis i }
{
    tables::slot(axis, axis == p.component, i)
}

// What a list can have laid in it: an item, put at a place.
pub trait Listed {
    type Item;

    ghost put: { List Self → ℕ → Self.Item → List Self };
}

impl Listed for usize {
    type Item = usize;

    ghost put = { set };
}

impl Listed for f64 {
    type Item = C64;

    ghost put = { set_number };
}

// What `lay` lays for each of n entries, one behind another from place `from` on; the place behind them.
fn lay_each<X: Listed, F: Fn(usize, usize, &mut [X]) -> usize>(
    first: usize,
    n: usize,
    from: usize,
    list: &mut [X],
    lay: F,
) -> usize
    requires low { first + n < 2 ^ 32 }
    requires callable { (f : ℕ → List X.Item) × (most : ℕ) × Lays X.put (F.post lay) f × ((e : ℕ) → length (f e) ≤ most) × MayLay (F.pre lay) first n from most }
    ensures { (f : ℕ → List X.Item) (most : ℕ) → Lays X.put (F.post lay) f → ((e : ℕ) → length (f e) ≤ most) → Laid X.put list.old from (rows_of (λ d. f (first + d)) n) list.new result }
{
    let mut k = from;
    for d in 0..n {
        k = lay(first + d, k, list);
    }
    k
}

// ---- columns

fn columns_z(
    t: &Places,
    p: Position,
    i: usize,
    j: usize,
    from: usize,
    columns: &mut [usize],
) -> usize
    requires slots { HasSlots p }
    requires i_lt_nx { (i < t.now.coarse.nx) × (j < t.now.coarse.ny) }
    requires from_bound { from + 2 ≤ 2 ^ 40 }
    ensures { Laid set columns.old from (columns_in_z t.now.coarse t.now.places.now t.now.counts.now p i j) columns.new result }
{
    let q = slot_on(p, 2, p.k);
    let count = t.counts[q];
    lay_each(2 * q, count, from, columns, |e, k, columns: &mut [usize]| {
        let c = Position {
            component: p.component,
            i,
            j,
            k: t.places[e],
        };
        lists::push(columns, k, grid::index(t.coarse, c))
    })
}

fn columns_y(t: &Places, p: Position, i: usize, from: usize, columns: &mut [usize]) -> usize
    requires slots { HasSlots p }
    requires i_lt_nx { i < t.now.coarse.nx }
    requires from_bound { from + 4 ≤ 2 ^ 40 }
    ensures { Laid set columns.old from (columns_in_y t.now.coarse t.now.places.now t.now.counts.now p i) columns.new result }
{
    let q = slot_on(p, 1, p.j);
    lay_each(
        2 * q,
        t.counts[q],
        from,
        columns,
        |e, k, columns: &mut [usize]| { columns_z(t, p, i, t.places[e], k, columns) },
    )
}

// The columns of the row of position p, from place `from` on.
pub fn columns_at(t: &Places, p: Position, from: usize, columns: &mut [usize]) -> usize
    requires slots { HasSlots p }
    requires from_bound { from + 8 ≤ 2 ^ 40 }
    ensures { Laid set columns.old from (columns_in t.now.coarse t.now.places.now t.now.counts.now p) columns.new result }
{
    let q = slot_on(p, 0, p.i);
    lay_each(
        2 * q,
        t.counts[q],
        from,
        columns,
        |e, k, columns: &mut [usize]| { columns_y(t, p, t.places[e], k, columns) },
    )
}

// How many weights the row of position p has.
pub fn count_at(ns: &[usize], p: Position) -> usize
    requires ns_len { length ns.now ≡ all_slots }
    requires by_index { (q : ℕ) → q < all_slots → get_or ns.now q 0 ≤ 2 }
    requires slots { HasSlots p }
    ensures { result ≡ count_in ns.now p }
{
    let x = ns[slot_on(p, 0, p.i)];
    let y = ns[slot_on(p, 1, p.j)];
    let z = ns[slot_on(p, 2, p.k)];
    x * y * z
}

// ---- numbers

// Entry e of the lists.
#[inline]
fn pull_at(t: &Weights, e: usize) -> Pull
    requires { e < entry_count }
    ensures { result ≡ pull_in t.now.places.now t.now.nodes.now t.now.pulls.now e }
{
    Pull {
        place: t.places[e],
        node: t.nodes[e],
        weight: numbers::get(t.pulls, e),
    }
}

// The weight of three entries: their product in axis order, times eps_c over eps_f.
fn weight(t: &Weights, p: Position, x: Pull, y: Pull, z: Pull) -> C64
    requires inside { Inside t.now.span.coarse (record { component = p.component; i = x.place; j = y.place; k = z.place }) }
    requires inside_2 { Inside t.now.span.fine (record { component = p.component; i = x.node; j = y.node; k = z.node }) }
    ensures { result ≡ weight_in t.now.span.fine t.now.span.coarse (read_from t.now.eps.now t.now.span.feps) (read_from t.now.eps.now t.now.span.ceps) p x y z }
{
    let c = Position {
        component: p.component,
        i: x.place,
        j: y.place,
        k: z.place,
    };
    let f = Position {
        component: p.component,
        i: x.node,
        j: y.node,
        k: z.node,
    };
    let s = &t.span;
    let eps_c = numbers::get(t.eps, s.ceps + grid::index(s.coarse, c));
    let eps_f = numbers::get(t.eps, s.feps + grid::index(s.fine, f));
    let w = x.weight * y.weight * z.weight;
    w * (eps_c / eps_f)
}

fn numbers_z(t: &Weights, p: Position, x: Pull, y: Pull, from: usize, values: &mut [f64]) -> usize
    requires slots { HasSlots p }
    requires place_lt_nx { (x.place < t.now.span.coarse.nx) × (y.place < t.now.span.coarse.ny) }
    requires node_lt_nx { (x.node < t.now.span.fine.nx) × (y.node < t.now.span.fine.ny) }
    requires from_bound { from + 2 ≤ 2 ^ 40 }
    ensures { Laid set_number values.old from (numbers_in_z t.now.span.fine t.now.span.coarse (read_from t.now.eps.now t.now.span.feps) (read_from t.now.eps.now t.now.span.ceps) t.now.places.now t.now.nodes.now t.now.counts.now t.now.pulls.now p x y) values.new result }
{
    let q = slot_on(p, 2, p.k);
    lay_each(
        2 * q,
        t.counts[q],
        from,
        values,
        |e, k, values: &mut [f64]| { lists::push(values, k, weight(t, p, x, y, pull_at(t, e))) },
    )
}

fn numbers_y(t: &Weights, p: Position, x: Pull, from: usize, values: &mut [f64]) -> usize
    requires slots { HasSlots p }
    requires place_lt_nx { x.place < t.now.span.coarse.nx }
    requires node_lt_nx { x.node < t.now.span.fine.nx }
    requires from_bound { from + 4 ≤ 2 ^ 40 }
    ensures { Laid set_number values.old from (numbers_in_y t.now.span.fine t.now.span.coarse (read_from t.now.eps.now t.now.span.feps) (read_from t.now.eps.now t.now.span.ceps) t.now.places.now t.now.nodes.now t.now.counts.now t.now.pulls.now p x) values.new result }
{
    let q = slot_on(p, 1, p.j);
    lay_each(
        2 * q,
        t.counts[q],
        from,
        values,
        |e, k, values: &mut [f64]| { numbers_z(t, p, x, pull_at(t, e), k, values) },
    )
}

// The weights of the row of position p, from place `from` on.
pub fn numbers_at(t: &Weights, p: Position, from: usize, values: &mut [f64]) -> usize
    requires slots { HasSlots p }
    requires from_bound { from + 8 ≤ 2 ^ 40 }
    ensures { Laid set_number values.old from (numbers_in t.now.span.fine t.now.span.coarse (read_from t.now.eps.now t.now.span.feps) (read_from t.now.eps.now t.now.span.ceps) t.now.places.now t.now.nodes.now t.now.counts.now t.now.pulls.now p) values.new result }
{
    let q = slot_on(p, 0, p.i);
    lay_each(
        2 * q,
        t.counts[q],
        from,
        values,
        |e, k, values: &mut [f64]| { numbers_y(t, p, pull_at(t, e), k, values) },
    )
}

// ---- one row

// The weights of the row of fine edge r, laid from place `at` on; whether all are finite.
pub fn weights_row(t: &Weights, values: &mut [f64], at: usize, r: usize) -> bool
    requires r_bound { r < unknowns_of t.now.span.fine }
    requires at_bound { (at ≤ 2 ^ 32) × (2 * (at + count_in t.now.counts.now (at_of t.now.span.fine r)) ≤ length values.old) }
    ensures { RowLaid t.now.span t.now.places.now t.now.nodes.now t.now.counts.now t.now.pulls.now t.now.eps.now values.old at r result values.new }
{
    let last = numbers_at(t, grid::at(t.span.fine, r), at, values);
    lists::finite_numbers(values, at, last - at)
}

// ---- all rows

// The columns of all rows behind one another from place k on, and the place where each begins from place s of the starts on; the place behind them.
pub fn all_columns(
    gf: Grid3d,
    t: &Places,
    starts: &mut [usize],
    s: usize,
    columns: &mut [usize],
    from: usize,
) -> usize
    requires limits { Limits gf }
    requires s_bound { (s ≤ 2 ^ 32) × (from ≤ 2 ^ 32) }
    ensures starts_after { starts.new ≡ laid starts.old s (starts_of (columns_row gf t.now.coarse t.now.places.now t.now.counts.now) (unknowns_of gf)) }
    ensures laid { Laid set columns.old from (rows_of (columns_row gf t.now.coarse t.now.places.now t.now.counts.now) (unknowns_of gf)) columns.new result }
{
    let n = grid::unknowns(gf);
    lists::push(starts, s, 0);
    let mut k = from;
    for r in 0..n {
        k = columns_at(t, grid::at(gf, r), k, columns);
        lists::push(starts, s + r + 1, k - from);
    }
    k
}

// The weights of all rows behind one another from place k on; the place behind them.
pub fn all_numbers(t: &Weights, from: usize, values: &mut [f64]) -> usize
    requires from_bound { from ≤ 2 ^ 32 }
    ensures { Laid set_number values.old from (rows_of (numbers_row t.now.span.fine t.now.span.coarse (read_from t.now.eps.now t.now.span.feps) (read_from t.now.eps.now t.now.span.ceps) t.now.places.now t.now.nodes.now t.now.counts.now t.now.pulls.now) (unknowns_of t.now.span.fine)) values.new
        result }
{
    let n = grid::unknowns(t.span.fine);
    let mut k = from;
    for r in 0..n {
        k = numbers_at(t, grid::at(t.span.fine, r), k, values);
    }
    k
}
