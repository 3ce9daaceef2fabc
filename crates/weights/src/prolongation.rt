// The prolongation between two levels, into lent lists: starts and columns, from the lattice alone, and weights, from the permittivities.
// `requires` of all of them: offsets far from the largest number.

ghost use Rattle.std.specs.Prelude.{◌≡◌, ℕ, ◌+◌, ◌-◌, ◌*◌, ◌<◌, ◌≤◌, ◌^◌, length, set, sum};
ghost use Rattle.numbers.specs.Places.{set_number};
ghost use Rattle.lattice.specs.Grid.{unknowns_of, Limits};
ghost use Rattle.numbers.specs.Lists.{Laid, laid, laid_numbers, rows as rows_of, all_finite, start_of, starts_of, read_from, sum_to};
ghost use Rattle.weights.specs.TwoLevels.{fine_grid, coarse_grid};
ghost use Rattle.weights.specs.Pair.{two};
ghost use Rattle.weights.specs.Prolongation.{weight_columns, weight_numbers};
ghost use Rattle.weights.specs.Product.{row_weights};
ghost use Rattle.weights.specs.Tables.{RoomFor, CountsOf, counted_to, axis_count, component_count};

use crate::pair::Pair;
use crate::rows::{Places, Span, Weights};
use crate::{rows, tables};
use lattice::grid;
use lattice::grid::Grid3d;
use numbers::lists;

// The columns of all rows from place k of the columns on, and the rows' starts from place s of the starts on. How many weights there are.
pub fn columns(
    pair: &Pair<'_>,
    starts: &mut [usize],
    s: usize,
    columns: &mut [usize],
    k: usize,
) -> usize
    requires s_bound { (s ≤ 2 ^ 32) × (k ≤ 2 ^ 32) }
    ensures starts_after { starts.new ≡ laid starts.old s (starts_of (weight_columns (two pair.now))
        (unknowns_of (fine_grid (two pair.now)))) }
    ensures laid { Laid set columns.old k (rows_of (weight_columns (two pair.now)) (unknowns_of
        (fine_grid (two pair.now)))) columns.new (k + result) }
{
    let t = tables::slots_of(pair);
    let list = Places {
        coarse: t.levels.coarse,
        places: &t.places,
        counts: &t.counts,
    };
    rows::all_columns(t.levels.fine, &list, starts, s, columns, k) - k
}

// The weights of all rows from place k of the values on, by the permittivities of the fine level at place feps of eps and those of the coarse one at
// place ceps. Whether all are finite.
pub fn weights(
    pair: &Pair<'_>,
    eps: &[f64],
    feps: usize,
    ceps: usize,
    values: &mut [f64],
    k: usize,
) -> bool
    requires room_for { RoomFor (two pair.now) feps ceps eps.now }
    requires k_bound { (k ≤ 2 ^ 32) × (2 * (k + start_of (weight_columns (two pair.now)) (unknowns_of (fine_grid (two pair.now)))) ≤ length
        values.old) }
    ensures values_after { values.new ≡ laid_numbers values.old k (rows_of (weight_numbers (two pair.now)
        (read_from eps.now feps) (read_from eps.now ceps)) (unknowns_of (fine_grid (two pair.now)))) }
    ensures value { result ≡ all_finite (rows_of (weight_numbers (two pair.now) (read_from eps.now feps)
        (read_from eps.now ceps)) (unknowns_of (fine_grid (two pair.now)))) }
{
    let t = tables::slots_of(pair);
    let w = tables::weighed(pair, &t);
    let list = Weights {
        span: Span {
            fine: t.levels.fine,
            coarse: t.levels.coarse,
            feps,
            ceps,
        },
        places: &t.places,
        nodes: &w.nodes,
        counts: &t.counts,
        pulls: &w.weights,
        eps,
    };
    let last = rows::all_numbers(&list, k, values);
    lists::finite_numbers(values, k, last - k)
}

// Counts added.
fn total(ns: &[usize]) -> usize
    requires { sum ns.now ≤ 128 }
    ensures { result ≡ sum ns.now }
{
    ns.iter().sum()
}

// The counts of the n places of axis a for component c, added.
fn axis_count(ns: &[usize], c: usize, a: usize, n: usize) -> usize
    requires counts_of { CountsOf ns.now }
    requires a_bound { (a < 3) × (n ≤ 64) }
    ensures { (result ≡ axis_count ns.now c a n) × (result ≤ 128) }
{
    let first = tables::slot(a, a == c, 0);
    total(&ns[first..first + n])
}

// How many weights the rows of component c have: the product over the axes.
fn component_count(gf: Grid3d, ns: &[usize], c: usize) -> usize
    requires limits { Limits gf }
    requires counts_of { CountsOf ns.now }
    ensures { (result ≡ component_count gf ns.now c) × (result ≤ 2097152) }
{
    let x = axis_count(ns, c, 0, gf.nx);
    let y = axis_count(ns, c, 1, gf.ny);
    let z = axis_count(ns, c, 2, gf.nz);
    x * y * z
}

// How many weights all rows have, from the counts of the slots alone.
fn count_all(gf: Grid3d, ns: &[usize]) -> usize
    requires limits { Limits gf }
    requires counts_of { CountsOf ns.now }
    ensures { result ≡ counted_to gf ns.now (unknowns_of gf) }
{
    let x = component_count(gf, ns, 0);
    let y = component_count(gf, ns, 1);
    let z = component_count(gf, ns, 2);
    x + y + z
}

// How many weights each row has, added over the rows.
fn count_rows(pair: &Pair<'_>) -> usize
    ensures { result ≡ sum_to (row_weights (two pair.now)) (unknowns_of (fine_grid (two pair.now))) }
{
    let t = tables::levels_of(pair);
    let ns = tables::counts(pair.l.lattice, pair.l.st, &t);
    count_all(t.fine, &ns)
}

// How many weights the transfer has, before any is worked out.
pub fn count(pair: &Pair<'_>) -> usize
    ensures { result ≡ start_of (weight_columns (two pair.now)) (unknowns_of (fine_grid (two pair.now))) }
{
    count_rows(pair)
}
