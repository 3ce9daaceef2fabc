// The pattern of an operator row: its columns, in rising order, from the lattice alone.

ghost use Rattle.std.specs.Prelude.{◌≡◌, ◌<◌, ◌≤◌, ◌^◌, length, set};
ghost use Rattle.lattice.specs.Grid.{unknowns_of, Limits};
ghost use Rattle.lattice.specs.Lattice.{full_lattice};
ghost use Rattle.numbers.specs.Lists.{tabulate, rows as rows_of, laid, Laid, start_of, starts_of};
ghost use Rattle.weights.specs.Pair.{two};
ghost use Rattle.weights.specs.Tables.{all_slots};
ghost use Rattle.operators.specs.Levels.{pattern_row, slot_word, slot_word_no, Entries, base_relations, relations_below};
ghost use Rattle.operators.specs.Numbered.{word_count};

use crate::tables::WORDS;
use crate::{base, tables, words};
use lattice::grid::Grid3d;
use lattice::lattice::Lattice;
use lattice::{grid, neighbours};
use numbers::lists;
use std::array;
use weights::pair::Pair;
use weights::tables::SLOTS;

// ---- the relations of a level

// The relations of a level that takes its rows from a lattice of its own cells: level 0, and each rediscretized level. g has the cells. The lattice's own
// grid is not asked for here, nor in `level_columns` and `level_count`, so the lattice goes beside its list, and not as a `Sound`.
pub fn base_relations(l: Lattice, st: &[f64], g: Grid3d) -> [u64; WORDS]
    requires { Limits g }
    ensures { result ≡ base_relations (full_lattice l st.now) g }
{
    let n = [g.nx, g.ny, g.nz];
    let x = l.x;
    let y = l.y;
    let z = l.z;
    let bx = !lattice::lattice::is_wall(x);
    let by = !lattice::lattice::is_wall(y);
    let bz = !lattice::lattice::is_wall(z);
    let bloch = [bx, by, bz];
    let mut t = [0u64; WORDS];
    base::fill_base(&n, &bloch, &mut t);
    t
}

// The set of the places that a slot of the weights has.
fn forward_word(ps: &[usize], ns: &[usize], q: usize) -> u64
    requires entries { Entries ps.now ns.now }
    requires q_lt_all_slots { q < all_slots }
    ensures { result ≡ slot_word ps.now ns.now q }
{
    let n = ns[q];
    let mut w = 0;
    for &p in &ps[2 * q..2 * q + n] {
        w = words::mix(true, w, true, words::unit(p));
    }
    w
}

// Those of all slots, in the order of the relations: for each axis the places along it, then those across it.
fn forward_words(ps: &[usize], ns: &[usize]) -> [u64; SLOTS]
    requires { Entries ps.now ns.now }
    ensures { result ≡ tabulate (slot_word_no ps.now ns.now) all_slots 0 }
{
    array::from_fn(|e| forward_word(ps, ns, 128 * (e / 128) + (e % 128 + 64) % 128))
}

// The relations one level down, between the levels whose lines are given.
pub fn relations_below(pair: &Pair<'_>, t: &[u64]) -> [u64; WORDS]
    requires t_len { length t.now ≡ word_count }
    ensures { result ≡ relations_below (two pair.now) t.now }
{
    let s = weights::tables::slots_of(pair);
    let gf = s.levels.fine;
    let gc = s.levels.coarse;
    let f = forward_words(&s.places, &s.counts);
    let n = [gf.nx, gf.ny, gf.nz];
    let m = [gc.nx, gc.ny, gc.nz];
    let mut u = [0u64; WORDS];
    tables::coarsen(t, &f, &n, &m, &mut u);
    u
}

// ---- the rows of a level

// The starts and the columns of the rows of a level whose relations are t, laid over two lists from places s and k on; the place behind them.
pub fn level_columns(
    l: Lattice,
    st: &[f64],
    g: Grid3d,
    t: &[u64],
    starts: &mut [usize],
    s: usize,
    columns: &mut [usize],
    k: usize,
) -> usize
    requires limits { Limits g }
    requires t_len { length t.now ≡ word_count }
    requires s_bound { (s ≤ 2 ^ 32) × (k ≤ 2 ^ 32) }
    ensures starts_after { starts.new ≡ laid starts.old s (starts_of (pattern_row (full_lattice l st.now) g t.now) (unknowns_of g)) }
    ensures laid { Laid set columns.old k (rows_of (pattern_row (full_lattice l st.now) g t.now) (unknowns_of g)) columns.new result }
{
    let n = grid::unknowns(g);
    lists::push(starts, s, 0);
    let mut next = k;
    for r in 0..n {
        let p = grid::at(g, r);
        let fixed = neighbours::fixed_at(l, st, p);
        next = tables::row_columns(t, g, fixed, r, p, columns, next);
        lists::push(starts, s + r + 1, next - k);
    }
    next
}

// How many columns the rows of a level have in all.
pub fn level_count(l: Lattice, st: &[f64], g: Grid3d, t: &[u64]) -> usize
    requires limits { Limits g }
    requires t_len { length t.now ≡ word_count }
    ensures { result ≡ start_of (pattern_row (full_lattice l st.now) g t.now) (unknowns_of g) }
{
    let n = grid::unknowns(g);
    let mut count = 0;
    for r in 0..n {
        let p = grid::at(g, r);
        let fixed = neighbours::fixed_at(l, st, p);
        count += tables::row_count(t, g, fixed, p);
    }
    count
}
