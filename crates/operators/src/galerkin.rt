// Galerkin's operator rows: the terms of a row are added to a sum for each column, in the order of the turned row, the fine row and the forward row.
// The columns of the rows stand in the list before.

ghost use Rattle.std.specs.Prelude.{◌≡◌, [], ◌∷◌, ◌+◌, ◌-◌, ◌*◌, ◌<◌, ◌≤◌, ◌^◌, length};
ghost use Rattle.numbers.specs.Places.{number_at};
ghost use Rattle.lattice.specs.Lattice.{full_lattice};
ghost use Rattle.numbers.specs.Lists.{each, laid_numbers};
ghost use Rattle.numbers.specs.Terms.{terms_in, Stored, most_rows};
ghost use Rattle.operators.specs.Galerkin.{scaled_term, forward_terms, fine_terms, galerkin_terms, rows_of, fine_row, HasRow, HasRows, RowPlaces, fine_of, FineMade, FineThere, TurnedThere, TurnedGiven, RowsGiven, sums_at, no_sums, diagonal_one, row_laid, Gathered, Cleared, ColumnsBelow, RowReady, RowsReady, NumbersLaid, sum_doubles};

use crate::stencil;
use lattice::lattice::Lattice;
use lattice::sound::Sound;
use numbers::terms::Part;
use numbers::{C64, lists};
use std::ops::Range;

// A sum for each column, two doubles each.
pub const SUM_DOUBLES: usize = 24576;

// Where the rows of the fine operator come from: worked out from the lattice, or read in the lists of the operator that is laid, from a part on.
#[derive(Clone, Copy)]
pub enum FineRows {
    Computed,
    Stored(Part),
}

// Rows that stand in three lists: the starts of each and its terms, from a part on.
#[derive(Clone, Copy)]
pub struct Rows<'a> {
    pub part: Part,
    pub starts: &'a [usize],
    pub columns: &'a [usize],
    pub values: &'a [f64],
}

impl Rows<'_> {
    // The places of the terms of row c.
    pub fn places(&self, c: usize) -> Range<usize>
        requires { HasRow self.now.part self.now.starts.now self.now.columns.now self.now.values.now c }
        ensures { RowPlaces self.now c result.start result.end }
    {
        let first = self.part.k + self.starts[self.part.s + c];
        let last = self.part.k + self.starts[self.part.s + c + 1];
        first..last
    }
}

// What a fine row is worked out from: the lattice and its permittivities, or the lists that it stands in. Where it stands in lists nothing is asked of the
// grid: so the lattice goes beside its list here, and not as a `Sound`.
#[derive(Clone, Copy)]
enum Fine<'a> {
    Computed {
        l: Lattice,
        st: &'a [f64],
        eps: &'a [f64],
    },
    Stored(Rows<'a>),
}

// One term, added to the sum at its column; where there is no such sum it is left out.
fn add_term(sums: &mut [f64], c: usize, v: C64)
    ensures { Gathered (record { column = c; number = v } ∷ []) sums.old sums.new }
{
    let s = numbers::find(sums, c);
    numbers::put(sums, c, s + v);
}

// The terms from place first up to last, each times wv.
fn add_forward(
    wv: C64,
    columns: &[usize],
    values: &[f64],
    first: usize,
    last: usize,
    sums: &mut [f64],
)
    requires { (last ≤ length columns.now) × (2 * last ≤ length values.now) }
    ensures { Gathered (each (scaled_term wv) (terms_in columns.now values.now first (last - first))) sums.old sums.new }
{
    // An index: a term's column and its number stand at the same place of two lists, the number as two doubles.
    for q in first..last {
        let u = numbers::get(values, q);
        add_term(sums, columns[q], wv * u);
    }
}

// The forward row of column c, taken with wv.
fn add_column(wv: C64, c: usize, p: &Rows<'_>, sums: &mut [f64])
    requires { HasRow p.now.part p.now.starts.now p.now.columns.now p.now.values.now c }
    ensures { Gathered (each (scaled_term wv) (rows_of p.now c)) sums.old sums.new }
{
    let at = p.places(c);
    add_forward(wv, p.columns, p.values, at.start, at.end, sums);
}

// The terms of a fine row from place `at` on, `count` of them, each taken with weight w through the forward row of its column.
fn add_fine(
    w: C64,
    cs: &[usize],
    xs: &[f64],
    at: usize,
    count: usize,
    p: &Rows<'_>,
    sums: &mut [f64],
)
    requires count_in_bounds { (at + count ≤ length cs.now) × (2 * (at + count) ≤ length xs.now) × (at + count ≤ 2 ^ 40) }
    requires has_rows { HasRows p.now.part p.now.starts.now p.now.columns.now p.now.values.now cs.now at count }
    ensures { Gathered
        (each (forward_terms (rows_of p.now) w) (terms_in cs.now xs.now at count))
        sums.old sums.new }
{
    let last = at + count;
    // An index, as above. The loop is `add_forward`'s but for its step: with the step as a closure neither would be shorter.
    for q in at..last {
        let v = numbers::get(xs, q);
        add_column(w * v, cs[q], p, sums);
    }
}

impl<'a> Fine<'a> {
    // The lists are those of the operator that is laid.
    fn new(
        fine: FineRows,
        l: Lattice,
        st: &'a [f64],
        eps: &'a [f64],
        starts: &'a [usize],
        columns: &'a [usize],
        values: &'a [f64],
    ) -> Self
        ensures { FineMade fine (full_lattice l st.now) eps.now starts.now columns.now values.now result }
    {
        match fine {
            FineRows::Computed => Fine::Computed { l, st, eps },
            FineRows::Stored(part) => Fine::Stored(Rows {
                part,
                starts,
                columns,
                values,
            }),
        }
    }
}

impl Fine<'_> {
    // The terms of fine row r, worked out here or read where they stand, each taken with w through the forward row of its column.
    fn add_row(&self, r: usize, w: C64, p: &Rows<'_>, sums: &mut [f64])
        requires { FineThere self.now p.now r }
        ensures { Gathered (fine_terms (fine_of self.now) (rows_of p.now) (record { column = r; number = w })) sums.old sums.new }
    {
        match self {
            Fine::Computed { l, st, eps } => {
                let mut cs = [0usize; 30];
                let mut xs = [0.0; 60];
                let own = Sound { lattice: *l, st };
                let count = stencil::stencil_row(&own, eps, r, &mut cs, &mut xs);
                add_fine(w, &cs, &xs, 0, count, p, sums);
            }
            Fine::Stored(f) => {
                let at = f.places(r);
                add_fine(w, f.columns, f.values, at.start, at.end - at.start, p, sums);
            }
        }
    }
}

// The terms of coarse row c, over its turned row.
fn gather(fine: &Fine<'_>, p: &Rows<'_>, t: &Rows<'_>, c: usize, sums: &mut [f64])
    requires { TurnedThere fine.now p.now t.now c }
    ensures { Gathered (galerkin_terms (fine_of fine.now) (rows_of p.now) (rows_of t.now c)) sums.old sums.new }
{
    let at = t.places(c);
    // An index, as above.
    for q in at.start..at.end {
        let w = numbers::get(t.values, q);
        fine.add_row(t.columns[q], w, p, sums);
    }
}

// ---- a row's sums

// The sums at the n columns that stand from place k on are +0 again.
fn clear(columns: &[usize], k: usize, n: usize, sums: &mut [f64])
    requires { (k + n ≤ length columns.now) × (k + n ≤ 2 ^ 40) }
    ensures { Cleared columns.now k n sums.old sums.new }
{
    for &c in &columns[k..k + n] {
        numbers::put(sums, c, C64::zero());
    }
}

// The sum at c is 1 where turned row c is empty: then no term has touched it.
fn diagonal(tstarts: &[usize], ts: usize, c: usize, sums: &mut [f64])
    requires { (ts + c + 1 < length tstarts.now) × (ts + c ≤ 2 ^ 40) }
    ensures { sums.new ≡ diagonal_one tstarts.now ts c sums.old }
{
    if tstarts[ts + c] == tstarts[ts + c + 1] {
        numbers::put(sums, c, C64::one());
    }
}

// The sums at the n columns that stand from place k on, laid over the values from the same place on.
fn lay_sums(columns: &[usize], k: usize, n: usize, sums: &[f64], values: &mut [f64])
    requires n_in_bounds { (k + n ≤ length columns.now) × (k + n ≤ 2 ^ 40) }
    requires sums_len { length sums.now ≡ sum_doubles }
    requires columns_below { ColumnsBelow columns.now k n most_rows }
    ensures { values.new ≡ laid_numbers values.old k (sums_at columns.now sums.now k n) }
{
    for (q, &c) in columns[k..k + n].iter().enumerate() {
        numbers::put(values, k + q, numbers::get(sums, c));
    }
}

// ---- rows

// The numbers of row c of Galerkin's operator, laid over the values. Its columns stand in the list before. The sums lent are all +0, before and after.
pub fn galerkin_row(
    fine: FineRows,
    l: Lattice,
    st: &[f64],
    eps: &[f64],
    p: &Rows<'_>,
    t: &Rows<'_>,
    c: usize,
    o: Part,
    ostarts: &[usize],
    ocolumns: &[usize],
    ovalues: &mut [f64],
    sums: &mut [f64],
)
    requires turned_given { TurnedGiven fine (full_lattice l st.now) eps.now ostarts.now ocolumns.now ovalues.old
        p.now.part p.now.starts.now p.now.columns.now p.now.values.now t.now.part t.now.starts.now t.now.columns.now t.now.values.now c }
    requires row_ready { RowReady
        (fine_row fine (full_lattice l st.now) (number_at eps.now) ostarts.now ocolumns.now ovalues.old)
        (rows_of p.now)
        (rows_of t.now) c o ostarts.now ocolumns.now }
    requires sums_value { sums.old ≡ no_sums }
    ensures sums_after { sums.new ≡ no_sums }
    ensures ovalues_after { ovalues.new ≡ row_laid
        (fine_row fine (full_lattice l st.now) (number_at eps.now) ostarts.now ocolumns.now ovalues.old)
        (rows_of p.now)
        (rows_of t.now) c o ovalues.old }
{
    let at = o.k + ostarts[o.s + c];
    let count = ostarts[o.s + c + 1] - ostarts[o.s + c];
    let from = Fine::new(fine, l, st, eps, ostarts, ocolumns, ovalues);
    gather(&from, p, t, c, sums);
    diagonal(t.starts, t.part.s, c, sums);
    lay_sums(ocolumns, at, count, sums, ovalues);
    clear(ocolumns, at, count, sums);
}

// ---- levels

// The numbers of Galerkin's operator, m rows, laid over the values; whether all are finite. The columns stand in the list before. Fine rows that are
// read stand in the same lists before them.
pub fn galerkin(
    fine: FineRows,
    l: Lattice,
    st: &[f64],
    eps: &[f64],
    p: &Rows<'_>,
    t: &Rows<'_>,
    m: usize,
    o: Part,
    ostarts: &[usize],
    ocolumns: &[usize],
    ovalues: &mut [f64],
) -> bool
    requires rows_given { RowsGiven fine (full_lattice l st.now) eps.now ostarts.now ocolumns.now ovalues.old
        p.now.part p.now.starts.now p.now.columns.now p.now.values.now t.now.part t.now.starts.now t.now.columns.now t.now.values.now m o }
    requires rows_ready { RowsReady
        (fine_row fine (full_lattice l st.now) (number_at eps.now) ostarts.now ocolumns.now ovalues.old)
        (rows_of p.now)
        (rows_of t.now) m o ostarts.now ocolumns.now ovalues.old }
    ensures { NumbersLaid
        (fine_row fine (full_lattice l st.now) (number_at eps.now) ostarts.now ocolumns.now ovalues.old)
        (rows_of p.now)
        (rows_of t.now) m o ovalues.old ovalues.new result }
{
    let mut sums = [0.0; SUM_DOUBLES];
    for c in 0..m {
        galerkin_row(
            fine, l, st, eps, p, t, c, o, ostarts, ocolumns, ovalues, &mut sums,
        );
    }
    lists::finite_numbers(ovalues, o.k, ostarts[o.s + m])
}
