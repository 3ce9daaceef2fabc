// Row r of the operator, term by term in the order pushed, with repeated columns.
// `requires` of all of them: one of the grid's edges, and a permittivity for each edge.

ghost use Rattle.std.specs.Prelude.{◌≡◌, ℕ, ◌+◌, ◌*◌, ◌<◌, ◌≤◌, List, length};
ghost use Rattle.numbers.specs.Places.{number_at};
ghost use Rattle.lattice.specs.Sound.{full};
ghost use Rattle.lattice.specs.Grid.{unknowns_of};
ghost use Rattle.numbers.specs.Terms.{Term, Wrote, Below, terms_in};
ghost use Rattle.numbers.specs.Lists.{each};
ghost use Rattle.lattice.specs.Calls.{Lays, MayLay};
ghost use Rattle.lattice.specs.Rows.{face_term, face_terms, curl_curl, free_of, free_sum, mean, node_eps, node_term, node_terms, grad_div, row_into};

use crate::sound::Sound;
use crate::{curls, neighbours};
use numbers::{C64, terms};

// ---- - curl curl

// A term of curl E at place k, at an edge that is not fixed, times the negated weight of its face.
fn push_face_term(
    l: &Sound<'_>,
    wh: C64,
    column: usize,
    we: C64,
    k: usize,
    columns: &mut [usize],
    values: &mut [f64],
) -> usize
    requires { k < 64 }
    ensures { Wrote columns.old values.old k (face_term (full l.now) wh (record { column = column; number = we }))
        columns.new values.new result }
{
    if neighbours::fixed(l, column) {
        return k;
    }
    terms::push(columns, values, k, column, -wh * we)
}

// What `push` lays for each term of two lists, one behind another from place `from` on.
fn push_each<F: Fn(usize, C64, usize, &mut [usize], &mut [f64]) -> usize>(
    cs: &[usize],
    xs: &[f64],
    from: usize,
    columns: &mut [usize],
    values: &mut [f64],
    push: F,
) -> usize
    requires room { 2 * length cs.now ≤ length xs.now }
    requires callable { (f : Term → List Term) × (most : ℕ) × Lays (F.post push) f × ((t : Term) → length (f t) ≤ most) × MayLay
        (F.pre push) cs.now xs.now from most }
    ensures { (f : Term → List Term) → Lays (F.post push) f → Wrote columns.old values.old from (each f (terms_in cs.now
        xs.now 0 (length cs.now))) columns.new values.new result }
{
    let mut k = from;
    // An index: each number is two doubles, which a zip would split.
    for (m, column) in cs.iter().enumerate() {
        k = push(*column, numbers::get(xs, m), k, columns, values);
    }
    k
}

// The terms that a face brings, with the weight that it has in curl H.
fn face_terms(
    l: &Sound<'_>,
    face: usize,
    wh: C64,
    k: usize,
    columns: &mut [usize],
    values: &mut [f64],
) -> usize
    requires face_bound { face < unknowns_of l.now.lattice.grid }
    requires k_bound { k + 4 < 64 }
    ensures { Wrote columns.old values.old k (face_terms (full l.now) (record { column = face; number = wh }))
        columns.new values.new result }
{
    let mut cs = [0usize; 4];
    let mut xs = [0.0; 8];
    let n = curls::curl_e(l, face, &mut cs, &mut xs);
    push_each(
        &cs[..n],
        &xs,
        k,
        columns,
        values,
        |column, we, k, columns, values| push_face_term(l, wh, column, we, k, columns, values),
    )
}

// Row r of - curl curl, from place k on.
pub fn curl_curl_into(
    l: &Sound<'_>,
    r: usize,
    k: usize,
    columns: &mut [usize],
    values: &mut [f64],
) -> usize
    requires r_bound { r < unknowns_of l.now.lattice.grid }
    requires k_bound { k < 40 }
    ensures { Wrote columns.old values.old k (curl_curl (full l.now) r) columns.new values.new result }
{
    let mut cs = [0usize; 4];
    let mut xs = [0.0; 8];
    let n = curls::curl_h(l, r, &mut cs, &mut xs);
    push_each(
        &cs[..n],
        &xs,
        k,
        columns,
        values,
        |face, wh, k, columns, values| face_terms(l, face, wh, k, columns, values),
    )
}

// ---- the permittivity at a node

// A sum of permittivities, and how many they are.
#[derive(Clone, Copy)]
pub struct Sum {
    pub total: C64,
    pub count: usize,
}

// The sum of the permittivities of those of some edges that are not fixed.
fn sum_free(l: &Sound<'_>, eps: &[f64], cs: &[usize]) -> Sum
    requires few { length cs.now < 64 }
    requires below { Below (unknowns_of l.now.lattice.grid) cs.now (length cs.now) }
    requires grid_in_bounds { 2 * unknowns_of l.now.lattice.grid ≤ length eps.now }
    ensures { result ≡ free_sum (full l.now) (number_at eps.now) cs.now }
{
    let mut total = C64::zero();
    let mut count = 0;
    for c in cs {
        if !neighbours::fixed(l, *c) {
            total = total + numbers::get(eps, *c);
            count += 1;
        }
    }
    Sum { total, count }
}

// Their mean: 1 where every edge is fixed.
fn mean_free(l: &Sound<'_>, eps: &[f64], cs: &[usize]) -> C64
    requires few { length cs.now < 64 }
    requires below { Below (unknowns_of l.now.lattice.grid) cs.now (length cs.now) }
    requires grid_in_bounds { 2 * unknowns_of l.now.lattice.grid ≤ length eps.now }
    ensures { result ≡ mean (number_at eps.now) (free_of (full l.now) cs.now) }
{
    let s = sum_free(l, eps, cs);
    if s.count == 0 {
        return C64::one();
    }
    let count = s.count;
    s.total / count as f64
}

// The permittivity at node q.
pub fn node_eps(l: &Sound<'_>, eps: &[f64], q: usize) -> C64
    requires q_bound { q < unknowns_of l.now.lattice.grid }
    requires grid_in_bounds { 2 * unknowns_of l.now.lattice.grid ≤ length eps.now }
    ensures { result ≡ node_eps (full l.now) (number_at eps.now) q }
{
    let mut cs = [0usize; 6];
    let mut xs = [0.0; 12];
    let n = curls::divergence(l, q, &mut cs, &mut xs);
    mean_free(l, eps, &cs[..n])
}

// ---- the grad-div term

// A term of the divergence at a node, at place k, at an edge that is not fixed.
fn push_node_term(
    l: &Sound<'_>,
    eps: &[f64],
    wg: C64,
    inverse: C64,
    column: usize,
    wd: C64,
    k: usize,
    columns: &mut [usize],
    values: &mut [f64],
) -> usize
    requires column_in_bounds { 2 * column + 1 < length eps.now }
    requires k_bound { k < 64 }
    ensures { Wrote columns.old values.old k (node_term (full l.now) (number_at eps.now) wg inverse
        (record { column = column; number = wd })) columns.new values.new result }
{
    if neighbours::fixed(l, column) {
        return k;
    }
    let w = -(-1.0) * wg * wd;
    let v = w * numbers::get(eps, column) * inverse;
    terms::push(columns, values, k, column, v)
}

// The terms that a node brings, with the weight that it has in the gradient.
fn node_terms(
    l: &Sound<'_>,
    eps: &[f64],
    q: usize,
    wg: C64,
    k: usize,
    columns: &mut [usize],
    values: &mut [f64],
) -> usize
    requires q_bound { q < unknowns_of l.now.lattice.grid }
    requires grid_in_bounds { 2 * unknowns_of l.now.lattice.grid ≤ length eps.now }
    requires k_bound { k + 6 < 64 }
    ensures { Wrote columns.old values.old k (node_terms (full l.now) (number_at eps.now)
        (record { column = q; number = wg })) columns.new values.new result }
{
    let mut cs = [0usize; 6];
    let mut xs = [0.0; 12];
    let n = curls::divergence(l, q, &mut cs, &mut xs);
    let edges = &cs[..n];
    let inverse = 1.0 / mean_free(l, eps, edges);
    push_each(
        edges,
        &xs,
        k,
        columns,
        values,
        |column, wd, k, columns, values| push_node_term(
            l, eps, wg, inverse, column, wd, k, columns, values,
        ),
    )
}

// Row r of the grad-div term, from place k on.
pub fn grad_div_into(
    l: &Sound<'_>,
    eps: &[f64],
    r: usize,
    k: usize,
    columns: &mut [usize],
    values: &mut [f64],
) -> usize
    requires r_bound { r < unknowns_of l.now.lattice.grid }
    requires grid_in_bounds { 2 * unknowns_of l.now.lattice.grid ≤ length eps.now }
    requires k_bound { k < 40 }
    ensures { Wrote columns.old values.old k (grad_div (full l.now) (number_at eps.now) r)
        columns.new values.new result }
{
    let mut cs = [0usize; 2];
    let mut xs = [0.0; 4];
    let n = curls::gradient(l, r, &mut cs, &mut xs);
    push_each(
        &cs[..n],
        &xs,
        k,
        columns,
        values,
        |q, wg, k, columns, values| node_terms(l, eps, q, wg, k, columns, values),
    )
}

// ---- the row

// Row r, from place 0 on: at most 29 terms.
pub fn row_into(
    l: &Sound<'_>,
    eps: &[f64],
    r: usize,
    columns: &mut [usize],
    values: &mut [f64],
) -> usize
    requires r_bound { r < unknowns_of l.now.lattice.grid }
    requires grid_in_bounds { 2 * unknowns_of l.now.lattice.grid ≤ length eps.now }
    ensures { Wrote columns.old values.old 0 (row_into (full l.now) (number_at eps.now) r)
        columns.new values.new result }
{
    if neighbours::fixed(l, r) {
        return terms::push(columns, values, 0, r, C64::one());
    }
    let d = l.lattice.k0 * l.lattice.k0 * numbers::get(eps, r);
    let k = terms::push(columns, values, 0, r, d);
    let k1 = curl_curl_into(l, r, k, columns, values);
    grad_div_into(l, eps, r, k1, columns, values)
}
