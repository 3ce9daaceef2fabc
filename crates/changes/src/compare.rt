// Refusal 11: starts, columns and ends against the lattice's.

ghost use Rattle.weights.specs.Pair.{two};
ghost use Rattle.std.specs.Prelude.{◌≡◌, ℕ, suc, ◌+◌, ◌*◌, ◌≤◌, ◌<◌, true, ◌&&◌, [], eqb, length, get_or, min, IfSome, unwrap_or};
ghost use Rattle.numbers.specs.Lists.{places_in, rows as rows_of};
ghost use Rattle.lattice.specs.Grid.{Limits, unknowns_of};
ghost use Rattle.lattice.specs.Lattice.{full_lattice};
ghost use Rattle.weights.specs.TwoLevels.{fine_grid};
ghost use Rattle.weights.specs.Prolongation.{weight_columns};
ghost use Rattle.operators.specs.LevelLists.{edges_on};
ghost use Rattle.operators.specs.Levels.{grid_at, pattern_row};
ghost use Rattle.operators.specs.Numbered.{word_count};
ghost use Rattle.store.specs.Layout.{forward_cols, turned_cols, forward_off, turned_off, operator_off, next_edges, starts_off, stored_starts, ends_off};
ghost use Rattle.store.specs.Hierarchy.{the_lattice};
ghost use Rattle.store.specs.Lists.{fixed_of};
ghost use Rattle.store.specs.PhaseSteps.{held_by};
ghost use Rattle.store.specs.Calls.{matches, level_matches};
ghost use Rattle.store.specs.Renewed.{five, store_of, FixedRoom};
ghost use Rattle.store.specs.Compare.{rows_match, PartRoom, lines_match, transfer_ok, operator_ok, Gives, TurnedBy, term_in, named_in, named_by, Walkable, Begins};
ghost use Rattle.changes.specs.First.{LowestIn, FirstBadIn};

use lattice::grid::Grid3d;
use lattice::lattice::Lattice;
use lattice::line::Line;
use lattice::{grid, neighbours};
use numbers::lists;
use numbers::terms::Part;
use operators::pattern;
use operators::tables::WORDS;
use store::hierarchy::Hierarchy;
use store::lists::Structure;
use store::{Choice, lines, relations};
use weights::pair::Pair;
use weights::rows::Places;
use weights::{rows, tables};

// ---- lists

// Whether the first n of `row` stand in a list from place k on.
fn same(list: &[usize], k: usize, row: &[usize], n: usize) -> bool
    requires { (k + n ≤ length list.now) × (n ≤ length row.now) }
    ensures { result ≡ matches list.now k (places_in row.now 0 n) }
{
    list[k..k + n] == row[..n]
}

// Whether a row's start stands at place `at` of the starts and its n columns in their list from place k on.
fn same_row(
    starts: &[usize],
    at: usize,
    start: usize,
    columns: &[usize],
    k: usize,
    row: &[usize],
    n: usize,
) -> bool
    requires at_in_bounds { at < length starts.now }
    requires n_in_bounds { (k + n ≤ length columns.now) × (n ≤ length row.now) }
    ensures { result ≡ (eqb (get_or starts.now at 0) start && matches columns.now k (places_in row.now 0 n)) }
{
    if starts[at] != start {
        return false;
    }
    same(columns, k, row, n)
}

// ---- line ends

// Whether a line's ends stand in the list from place k on.
fn same_line(f: Line, ends: &[usize], k: usize) -> bool
    requires { (f.cells ≤ 64) × (k + f.cells + 1 ≤ length ends.now) }
    ensures { result ≡ matches ends.now k (held_by f) }
{
    let row = f.ends;
    same(ends, k, &row, f.cells + 1)
}

// The first level a line of which has other ends.
fn first_ends(h: &Hierarchy<'_>, ends: &[usize]) -> Option<usize>
    requires { ends_off (the_lattice h.now) (3 * suc h.now.m) ≤ length ends.now }
    ensures { LowestIn (lines_match (the_lattice h.now) ends.now) (suc h.now.m) result }
{
    let n = 3 * (h.m + 1);
    let lines = h.lines;
    let mut next = 0;
    for (q, &f) in lines[..n].iter().enumerate() {
        if !same_line(f, ends, next) {
            return Some(q / 3);
        }
        next += f.cells + 1;
    }
    None
}

// ---- transfers

// Whether the forward rows between two levels stand in two lists, row by row.
fn same_forward(pair: &Pair<'_>, o: Part, starts: &[usize], columns: &[usize]) -> bool
    requires part_room { PartRoom (weight_columns (two pair.now)) (unknowns_of (fine_grid (two pair.now))) o starts.now columns.now }
    ensures { result ≡ rows_match (weight_columns (two pair.now)) (unknowns_of (fine_grid (two pair.now))) o starts.now columns.now }
{
    let t = tables::slots_of(pair);
    let gf = t.levels.fine;
    let p = Places {
        coarse: t.levels.coarse,
        places: &t.places,
        counts: &t.counts,
    };
    let n = grid::unknowns(gf);
    let s = o.s;
    let mut k = 0;
    for r in 0..n {
        let mut row = [0usize; 8];
        let count = rows::columns_at(&p, grid::at(gf, r), 0, &mut row);
        if !same_row(starts, s + r, k, columns, o.k + k, &row, count) {
            return false;
        }
        k += count;
    }
    starts[s + n] == k
}

// Whether row r is named at the next free place of turned row c, within `count` places from tk on; that place then goes on by one.
fn same_term(
    c: usize,
    r: usize,
    next: &mut [usize],
    tcolumns: &[usize],
    tk: usize,
    count: usize,
    m: usize,
) -> bool
    requires c_lt_m { (c < m) × (m ≤ length next.old) }
    requires count_in_bounds { tk + count ≤ length tcolumns.now }
    ensures { TurnedBy (term_in c r) m next.old tcolumns.now tk count result next.new }
{
    let at = next[c];
    if count <= at {
        return false;
    }
    if tcolumns[tk + at] != r {
        return false;
    }
    next[c] = at + 1;
    true
}

// The same for the n columns of row r from place k on, in turn.
fn same_terms(
    columns: &[usize],
    k: usize,
    n: usize,
    r: usize,
    next: &mut [usize],
    tcolumns: &[usize],
    tk: usize,
    count: usize,
    m: usize,
) -> bool
    requires n_in_bounds { (k + n ≤ length columns.now) × (m ≤ length next.old) }
    requires by_index { (q : ℕ) → q < n → get_or columns.now (k + q) 0 < m }
    requires count_in_bounds { tk + count ≤ length tcolumns.now }
    ensures { TurnedBy (named_in columns.now k n r) m next.old tcolumns.now tk count result next.new }
{
    for &c in &columns[k..k + n] {
        if !same_term(c, r, next, tcolumns, tk, count, m) {
            return false;
        }
    }
    true
}

// The same for n rows.
fn same_turns(
    starts: &[usize],
    s: usize,
    columns: &[usize],
    k: usize,
    n: usize,
    next: &mut [usize],
    tcolumns: &[usize],
    tk: usize,
    count: usize,
    m: usize,
) -> bool
    requires walkable { Walkable starts.now s columns.now k n m tcolumns.now tk count }
    requires m_in_bounds { m ≤ length next.old }
    ensures { TurnedBy (λ c. rows_of (named_by starts.now s columns.now k c) n) m next.old tcolumns.now tk count result next.new }
{
    for r in 0..n {
        let first = starts[s + r];
        let last = starts[s + r + 1];
        if !same_terms(
            columns,
            k + first,
            last - first,
            r,
            next,
            tcolumns,
            tk,
            count,
            m,
        ) {
            return false;
        }
    }
    true
}

// The first free place of each of m turned rows at first: where the row begins.
fn first_places(tstarts: &[usize], ts: usize, m: usize) -> [usize; 12288]
    requires { (m ≤ 12288) × (ts + m < length tstarts.now) }
    ensures { (c : ℕ) → c < m → get_or result c 0 ≡ get_or tstarts.now (ts + c) 0 }
{
    let mut next = [0usize; 12288];
    next[..m].copy_from_slice(&tstarts[ts..ts + m]);
    next
}

// Whether m rows begin one behind another, the first at 0, each where the one before it has its next free place.
fn same_begins(next: &[usize], tstarts: &[usize], ts: usize, m: usize) -> bool
    requires { (m ≤ length next.now) × (ts + m < length tstarts.now) }
    ensures { Begins next.now tstarts.now ts m result }
{
    tstarts[ts] == 0 && tstarts[ts + 1..ts + m + 1] == next[..m]
}

// Whether the turned rows of a transfer stand in two lists; its forward rows stand in two others.
fn same_turned(h: &Hierarchy<'_>, level: usize, o: Part, t: Part, s: &Structure<'_>) -> bool
    requires level_lt_m { level < h.now.m }
    requires part_room { PartRoom (forward_cols (the_lattice h.now) level) (edges_on (the_lattice h.now) level) o s.now.starts.now s.now.columns.now }
    requires part_room_2 { PartRoom (turned_cols (the_lattice h.now) level) (edges_on (the_lattice h.now) (suc level)) t s.now.tstarts.now s.now.tcolumns.now }
    requires columns_value { rows_match (forward_cols (the_lattice h.now) level) (edges_on (the_lattice h.now) level) o s.now.starts.now s.now.columns.now ≡ true }
    ensures { result ≡ rows_match (turned_cols (the_lattice h.now) level) (edges_on (the_lattice h.now) (suc level)) t s.now.tstarts.now s.now.tcolumns.now }
{
    let n = h.edges(level);
    let w = h.edges(level + 1);
    let first = o.s;
    let count = s.starts[first + n];
    let mut next = first_places(s.tstarts, t.s, w);
    if !same_turns(
        s.starts, first, s.columns, o.k, n, &mut next, s.tcolumns, t.k, count, w,
    ) {
        return false;
    }
    same_begins(&next, s.tstarts, t.s, w)
}

// Whether the rows of a transfer, forward and turned, stand in the lists where the layout says.
fn same_transfer(h: &Hierarchy<'_>, level: usize, o: Part, t: Part, s: &Structure<'_>) -> bool
    requires level_lt_m { level < h.now.m }
    requires part_room { PartRoom (forward_cols (the_lattice h.now) level) (edges_on (the_lattice h.now) level) o s.now.starts.now s.now.columns.now }
    requires part_room_2 { PartRoom (turned_cols (the_lattice h.now) level) (edges_on (the_lattice h.now) (suc level)) t s.now.tstarts.now s.now.tcolumns.now }
    ensures { result ≡ (rows_match (forward_cols (the_lattice h.now) level) (edges_on (the_lattice h.now) level) o s.now.starts.now s.now.columns.now
        && rows_match (turned_cols (the_lattice h.now) level) (edges_on (the_lattice h.now) (suc level)) t s.now.tstarts.now s.now.tcolumns.now) }
{
    if !same_forward(&h.pair(level), o, s.starts, s.columns) {
        return false;
    }
    same_turned(h, level, o, t, s)
}

// The first level whose transfer has other starts or columns.
fn first_transfer(h: &Hierarchy<'_>, s: &Structure<'_>) -> Option<usize>
    requires m_in_bounds { (starts_off (edges_on (the_lattice h.now)) h.now.m ≤ length s.now.starts.now) × (forward_off (the_lattice h.now) h.now.m ≤ length s.now.columns.now) }
    requires m_in_bounds_2 { (starts_off (next_edges (the_lattice h.now)) h.now.m ≤ length s.now.tstarts.now) × (turned_off (the_lattice h.now) h.now.m ≤ length s.now.tcolumns.now) }
    ensures { LowestIn (transfer_ok (the_lattice h.now) h.now.m s.now.starts.now s.now.columns.now s.now.tstarts.now s.now.tcolumns.now) (suc h.now.m) result }
{
    let mut o = Part { s: 0, k: 0 };
    let mut t = Part { s: 0, k: 0 };
    for level in 0..h.m {
        if !same_transfer(h, level, o, t, s) {
            return Some(level);
        }
        o = lines::behind(o, h.edges(level), s.starts);
        t = lines::behind(t, h.edges(level + 1), s.tstarts);
    }
    None
}

// ---- operators

// Whether the rows of a level of the cells of g stand in two lists, row by row; u gives their columns, at most 12288 to a row.
fn same_pattern(
    l: Lattice,
    st: &[f64],
    g: Grid3d,
    u: &[u64],
    o: Part,
    starts: &[usize],
    columns: &[usize],
) -> bool
    requires limits { Limits g }
    requires u_len { length u.now ≡ word_count }
    requires by_index { (r : ℕ) → r < unknowns_of g → length (pattern_row (full_lattice l st.now) g u.now r) ≤ 12288 }
    requires part_room { PartRoom (pattern_row (full_lattice l st.now) g u.now) (unknowns_of g) o starts.now columns.now }
    ensures { result ≡ rows_match (pattern_row (full_lattice l st.now) g u.now) (unknowns_of g) o starts.now columns.now }
{
    let n = grid::unknowns(g);
    let s = o.s;
    let mut row = [0usize; 12288];
    let mut k = 0;
    for r in 0..n {
        let p = grid::at(g, r);
        let fixed = neighbours::fixed_at(l, st, p);
        let count = operators::tables::row_columns(u, g, fixed, r, p, &mut row, 0);
        if !same_row(starts, s + r, k, columns, o.k + k, &row, count) {
            return false;
        }
        k += count;
    }
    starts[s + n] == k
}

// Whether the rows of level `level` stand in two lists; u gives their columns.
fn same_operator(
    h: &Hierarchy<'_>,
    level: usize,
    u: &[u64],
    o: Part,
    starts: &[usize],
    columns: &[usize],
) -> bool
    requires level_le_m { level ≤ h.now.m }
    requires u_len { length u.now ≡ word_count }
    requires by_index { (r : ℕ) → r < edges_on (the_lattice h.now) level → length (pattern_row (the_lattice h.now) (grid_at (the_lattice h.now) level) u.now r) ≤ 12288 }
    requires part_room { PartRoom (pattern_row (the_lattice h.now) (grid_at (the_lattice h.now) level) u.now) (edges_on (the_lattice h.now) level) o starts.now columns.now }
    ensures { result ≡ rows_match (pattern_row (the_lattice h.now) (grid_at (the_lattice h.now) level) u.now)
        (edges_on (the_lattice h.now) level) o starts.now columns.now }
{
    let g = tables::grid_of(h.l.lattice.grid, h.three(level));
    same_pattern(h.l.lattice, h.l.st, g, u, o, starts, columns)
}

// What gives the columns of level `level` + 1; u gives those of level `level`.
fn next_columns(choice: Choice, h: &Hierarchy<'_>, level: usize, u: &[u64]) -> [u64; WORDS]
    requires level_lt_m { level < h.now.m }
    requires gives { Gives (the_lattice h.now) choice level u.now }
    ensures { Gives (the_lattice h.now) choice (suc level) result }
{
    match choice {
        Choice::Galerkin => relations::next_relations(h, level, u),
        Choice::Rediscretized => pattern::base_relations(
            h.l.lattice,
            h.l.st,
            tables::grid_of(h.l.lattice.grid, h.three(level + 1)),
        ),
    }
}

// Level 0, if it is the only one and its operator has other starts or columns.
fn sole_operator(
    choice: Choice,
    h: &Hierarchy<'_>,
    starts: &[usize],
    columns: &[usize],
) -> Option<usize>
    requires m_value { h.now.m ≡ 0 }
    requires m_in_bounds { (stored_starts (the_lattice h.now) h.now.m (suc h.now.m) ≤ length starts.now) × (operator_off (the_lattice h.now) choice h.now.m (suc h.now.m) ≤ length columns.now) }
    ensures { LowestIn (operator_ok (the_lattice h.now) choice h.now.m starts.now columns.now) (suc h.now.m) result }
{
    let u = pattern::base_relations(h.l.lattice, h.l.st, h.l.lattice.grid);
    let o = Part { s: 0, k: 0 };
    if same_operator(h, 0, &u, o, starts, columns) {
        return None;
    }
    Some(0)
}

// The first of levels 1 to m whose operator has other starts or columns.
fn coarse_operator(
    choice: Choice,
    h: &Hierarchy<'_>,
    starts: &[usize],
    columns: &[usize],
) -> Option<usize>
    requires m_nonzero { 0 < h.now.m }
    requires m_in_bounds { (stored_starts (the_lattice h.now) h.now.m (suc h.now.m) ≤ length starts.now) × (operator_off (the_lattice h.now) choice h.now.m (suc h.now.m) ≤ length columns.now) }
    ensures { LowestIn (operator_ok (the_lattice h.now) choice h.now.m starts.now columns.now) (suc h.now.m) result }
{
    let mut u = pattern::base_relations(h.l.lattice, h.l.st, h.l.lattice.grid);
    let mut o = Part { s: 0, k: 0 };
    for level in 0..h.m {
        u = next_columns(choice, h, level, &u);
        if !same_operator(h, level + 1, &u, o, starts, columns) {
            return Some(level + 1);
        }
        o = lines::behind(o, h.edges(level + 1), starts);
    }
    None
}

// The first level whose stored operator has other starts or columns.
fn first_operator(
    choice: Choice,
    h: &Hierarchy<'_>,
    starts: &[usize],
    columns: &[usize],
) -> Option<usize>
    requires { (stored_starts (the_lattice h.now) h.now.m (suc h.now.m) ≤ length starts.now) × (operator_off (the_lattice h.now) choice h.now.m (suc h.now.m) ≤ length columns.now) }
    ensures { LowestIn (operator_ok (the_lattice h.now) choice h.now.m starts.now columns.now) (suc h.now.m) result }
{
    if h.m == 0 {
        return sole_operator(choice, h, starts, columns);
    }
    coarse_operator(choice, h, starts, columns)
}

// ---- all

// The lesser of two levels that may be there.
fn earlier(a: Option<usize>, b: Option<usize>) -> Option<usize>
    ensures { (n : ℕ) → IfSome a (λ L. L < n) → IfSome b (λ L. L < n) → IfSome result (λ L. L < n) × (unwrap_or result n ≡ min (unwrap_or a n) (unwrap_or b n)) }
{
    match (a, b) {
        (Some(x), Some(y)) => Some(x.min(y)),
        (Some(x), None) => Some(x),
        (None, _) => b,
    }
}

// The lowest of the levels 0 to m whose starts, columns or ends differ from the lattice's, a transfer counting as its fine level.
pub fn first_difference(choice: Choice, h: &Hierarchy<'_>, s: &Structure<'_>) -> Option<usize>
    requires m_in_bounds { ends_off (the_lattice h.now) (3 * suc h.now.m) ≤ length s.now.ends.now }
    requires fixed_room { FixedRoom (the_lattice h.now) choice h.now.m (fixed_of s.now) }
    ensures { FirstBadIn 11 (level_matches (the_lattice h.now) choice h.now.m (store_of s.now.ends.now (fixed_of s.now) (five [] [] [] [] [])))
        (suc h.now.m) result }
{
    let e = first_ends(h, s.ends);
    let t = first_transfer(h, s);
    let o = first_operator(choice, h, s.ostarts, s.ocolumns);
    earlier(e, earlier(t, o))
}
