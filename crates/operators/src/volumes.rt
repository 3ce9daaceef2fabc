// Volumes of a lattice's edges, and the inverse shares of a coarse level.

ghost use Rattle.std.specs.Prelude.{◌≡◌, ◌&&◌, ◌+◌, ◌-◌, ◌*◌, ◌<◌, ◌≤◌, ◌^◌, length, get_or};
ghost use Rattle.numbers.specs.Complex.{zero_number};
ghost use Rattle.numbers.specs.Places.{set_number};
ghost use Rattle.lattice.specs.Grid.{unknowns_of, Inside};
ghost use Rattle.lattice.specs.Sound.{full};
ghost use Rattle.numbers.specs.Lists.{tabulate, laid_numbers, all_finite, read_from};
ghost use Rattle.numbers.specs.Terms.{terms_in, Stored};
ghost use Rattle.operators.specs.Galerkin.{rows_of};
ghost use Rattle.operators.specs.Volumes.{side_of, volume_at, volume_of, weighted, share_of, inverse_of, inverse_share, share_finite, shares_finite, SharesRoom};

use crate::galerkin::Rows;
use lattice::grid;
use lattice::grid::Position;
use lattice::sound::Sound;
use numbers::{C64, lists};

// A side of an edge's cell.
fn side(l: &Sound<'_>, p: Position, axis: usize) -> C64
    requires inside { Inside l.now.lattice.grid p }
    requires axis_bound { axis < 3 }
    ensures { result ≡ side_of (full l.now) p axis }
{
    let m = grid::place_on(p, axis);
    let step = grid::step(l.lattice.grid, axis);
    if axis == p.component {
        return step * lattice::lattice::half(l.lattice, l.st, axis, m);
    }
    step * lattice::lattice::node(l.lattice, l.st, axis, m)
}

// The volume of edge r's cell: its sides, multiplied from (1, 0) on.
pub fn volume(l: &Sound<'_>, r: usize) -> C64
    requires { r < unknowns_of l.now.lattice.grid }
    ensures { result ≡ volume_of (full l.now) r }
{
    let p = grid::at(l.lattice.grid, r);
    let x = C64::one() * side(l, p, 0);
    let y = x * side(l, p, 1);
    y * side(l, p, 2)
}

// Those of all edges, laid over a list from place k on; whether all are finite.
pub fn volumes(l: &Sound<'_>, scaling: &mut [f64], k: usize) -> bool
    requires { (k ≤ 2 ^ 32) × (2 * (k + unknowns_of l.now.lattice.grid) ≤ length scaling.old) }
    ensures scaling_after { scaling.new ≡ laid_numbers scaling.old k (tabulate (volume_of (full l.now)) (unknowns_of l.now.lattice.grid) 0) }
    ensures value { result ≡ all_finite (tabulate (volume_of (full l.now)) (unknowns_of l.now.lattice.grid) 0) }
{
    let n = grid::unknowns(l.lattice.grid);
    for r in 0..n {
        numbers::put(scaling, k + r, volume(l, r));
    }
    lists::finite_numbers(scaling, k, n)
}

// The terms from place first up to last, each times the volume at its column, added from +0 on. The volumes of n edges stand from place k on.
fn share(
    columns: &[usize],
    values: &[f64],
    first: usize,
    last: usize,
    scaling: &[f64],
    k: usize,
) -> C64
    requires last_in_bounds { (last ≤ length columns.now) × (2 * last ≤ length values.now) }
    requires shares_room { SharesRoom columns.now first last scaling.now k }
    ensures { result ≡ weighted (read_from scaling.now k) zero_number (terms_in columns.now values.now first (last - first)) }
{
    let mut sum = C64::zero();
    // An index: a term's column and its number stand at the same place of two lists, the number as two doubles.
    for q in first..last {
        let v = numbers::get(scaling, k + columns[q]);
        sum = sum + numbers::get(values, q) * v;
    }
    sum
}

// 1 over a share; a zero share gives 1.
pub fn inverse(share: C64) -> C64
    ensures { result ≡ inverse_of share }
{
    if share.is_zero() {
        return C64::one();
    }
    1.0 / share
}

// The share of coarse edge c: turned row c times the volumes of the fine edges, which stand from place k on. There are m turned rows and n fine edges.
pub fn share_at(t: &Rows<'_>, m: usize, n: usize, c: usize, scaling: &[f64], k: usize) -> C64
    requires stored { Stored t.now.starts.now t.now.part.s t.now.columns.now t.now.values.now t.now.part.k m n }
    requires c_lt_m { (c < m) × (k ≤ 2 ^ 32) × (2 * (k + n) ≤ length scaling.now) }
    ensures { result ≡ share_of (rows_of t.now) (read_from scaling.now k) c }
{
    let at = t.places(c);
    share(t.columns, t.values, at.start, at.end, scaling, k)
}

// The inverse share of coarse edge c alone, put into its place behind the volumes, where the inverse shares of m coarse edges begin at place `to`; whether
// the share and its inverse are finite.
pub fn inverse_share(
    t: &Rows<'_>,
    m: usize,
    n: usize,
    scaling: &mut [f64],
    k: usize,
    to: usize,
    c: usize,
) -> bool
    requires stored { Stored t.now.starts.now t.now.part.s t.now.columns.now t.now.values.now t.now.part.k m n }
    requires c_lt_m { (c < m) × (k ≤ 2 ^ 32) × (k + n ≤ to) × (2 * (to + m) ≤ length scaling.old) }
    ensures scaling_after { scaling.new ≡ set_number scaling.old (to + c) (inverse_share (rows_of t.now) (read_from scaling.old k) c) }
    ensures value { result ≡ share_finite (rows_of t.now) (read_from scaling.old k) c }
{
    let v = share_at(t, m, n, c, scaling, k);
    let w = inverse(v);
    numbers::put(scaling, to + c, w);
    v.is_finite() && w.is_finite()
}

// The inverse shares of m coarse edges, laid over the same list from place `to` on, behind the volumes; whether every share and inverse is finite.
pub fn inverse_shares(
    t: &Rows<'_>,
    m: usize,
    n: usize,
    scaling: &mut [f64],
    k: usize,
    to: usize,
) -> bool
    requires stored { Stored t.now.starts.now t.now.part.s t.now.columns.now t.now.values.now t.now.part.k m n }
    requires k_bound { (k ≤ 2 ^ 32) × (to ≤ 2 ^ 32) × (k + n ≤ to) × (2 * (to + m) ≤ length scaling.old) }
    ensures scaling_after { scaling.new ≡ laid_numbers scaling.old to (tabulate (inverse_share (rows_of t.now)
        (read_from scaling.old k)) m 0) }
    ensures value { result ≡ shares_finite (rows_of t.now) (read_from scaling.old k) m }
{
    let mut finite = true;
    for c in 0..m {
        let one = inverse_share(t, m, n, scaling, k, to, c);
        finite = finite && one;
    }
    finite
}
