// The weights of the axes in lists, worked out once for each transfer: a slot for each axis, role and fine place, with at most two entries.

ghost use Rattle.std.specs.Prelude.{◌≡◌, ℕ, ◌+◌, ◌-◌, ◌*◌, ◌/◌, ◌%◌, ◌<◌, ◌≤◌, List, length, get_or, set, ltb, cond, map, option_to_list, replicate};
ghost use Rattle.weights.specs.Interpolate.{share_place, share_weight, few_list};
ghost use Rattle.numbers.specs.Complex.{zero_number};
ghost use Rattle.numbers.specs.Places.{number_at, set_number};
ghost use Rattle.lattice.specs.Grid.{Limits, n_of};
ghost use Rattle.lattice.specs.Sound.{full};
ghost use Rattle.lattice.specs.Lattice.{full_lattice};
ghost use Rattle.numbers.specs.Lists.{tabulate, laid, laid_numbers, Numbers};
ghost use Rattle.lattice.specs.Line.{ends_of, place_of, Held};
ghost use Rattle.weights.specs.TwoLevels.{grid_with, fine_grid, coarse_grid};
ghost use Rattle.weights.specs.Pair.{two};
ghost use Rattle.weights.specs.Tables.{slot_of, slot_axis, slot_along, slot_place, slot_wall, lines_in, value_entry, end_no, node_no, map_no, HeldThree, ValuesOf, EndsOf, slot_block, slot_shares, slot_ratio, count_from, place_from, node_from, pull_from, all_slots, entry_count, node_count, Worked, Slotted, Pulled};
ghost use Rattle.lattice.specs.Stretched.{map_points};

use crate::interpolate;
use crate::interpolate::{Axis, Few, Share};
use crate::pair::Pair;
use lattice::grid::Grid3d;
use lattice::lattice::Lattice;
use lattice::levels::Three;
use lattice::line::Line;
use lattice::sound::Sound;
use lattice::{grid, line, stretched};
use numbers::C64;
use std::array;

// Slots: an axis, a role and a place each.
pub const SLOTS: usize = 384;
// At most two entries a slot.
pub const ENTRIES: usize = 768;
// The doubles of the entries' weights.
pub const ENTRY_DOUBLES: usize = 1536;
// 65 nodes for each axis.
pub const NODES: usize = 195;

// The grids of two levels, and the places of their values, by slots. The coarse grid is within the limits, the places are below 129.
#[derive(Drop)]
pub struct Levels {
    pub fine: Grid3d,
    pub coarse: Grid3d,
    pub fine_values: [usize; SLOTS],
    pub coarse_values: [usize; SLOTS],
    ghost limits: { Limits coarse },
    ghost values_of: { ValuesOf fine_values coarse_values },
}

// What the slots of two levels take, without numbers: how many entries each has, and the coarse place of each entry.
#[derive(Drop)]
pub struct Slots {
    pub levels: Levels,
    pub counts: [usize; SLOTS],
    pub places: [usize; ENTRIES],
}

// The fine place and the weight of each entry.
#[derive(Drop)]
pub struct Entries {
    pub nodes: [usize; ENTRIES],
    pub weights: [f64; ENTRY_DOUBLES],
}

// The grid of a level, by its lines.
pub fn grid_of(g: Grid3d, s: Three) -> Grid3d
    ensures { result ≡ grid_with g s.x.cells s.y.cells s.z.cells }
{
    Grid3d {
        nx: s.x.cells,
        ny: s.y.cells,
        nz: s.z.cells,
        dx: g.dx,
        dy: g.dy,
        dz: g.dz,
    }
}

// The slot of an axis, a role and a place.
#[tactic(auto, unfolding(crate::specs::Tables::slot_of))]
pub fn slot(axis: usize, along: bool, i: usize) -> usize
    requires { (axis < 3) × (i < 64) }
    ensures { result ≡ slot_of axis along i }
{
    let role = if along { 64 } else { 0 };
    128 * axis + role + i
}

// Whether slot q is of a component along its axis.
fn slot_along(q: usize) -> bool
    ensures { result ≡ slot_along q }
{
    q / 64 % 2 == 1
}

// ---- what the lines give

// The place of value i, zero where a line has none.
fn value_on(l: &Line, i: usize, along: bool) -> usize
    requires { Held l.now }
    ensures { result ≡ cond (ltb i (length (ends_of l.now) - 1)) (place_of (ends_of l.now) i along) 0 }
{
    if i < l.cells {
        return line::place(*l, i, along);
    }
    0
}

fn value_place(s: &Three, q: usize) -> usize
    requires { HeldThree s.now }
    ensures { result ≡ value_entry (lines_in s.now) q }
{
    let axis = q / 128;
    let along = slot_along(q);
    if axis == 0 {
        return value_on(&s.x, q % 64, along);
    }
    if axis == 1 {
        return value_on(&s.y, q % 64, along);
    }
    value_on(&s.z, q % 64, along)
}

// The places of a level's values, by slots.
pub fn value_places(s: &Three) -> [usize; SLOTS]
    requires { HeldThree s.now }
    ensures { result ≡ tabulate (value_entry (lines_in s.now)) all_slots 0 }
{
    array::from_fn(|q| value_place(s, q))
}

// The last ends of a level's lines.
pub fn last_ends(s: &Three) -> [usize; 3]
    requires { HeldThree s.now }
    ensures { result ≡ tabulate (end_no (lines_in s.now)) 3 0 }
{
    [
        s.x.ends[s.x.cells],
        s.y.ends[s.y.cells],
        s.z.ends[s.z.cells],
    ]
}

// The nodes of one axis, laid over a list from place 65 a on.
fn lay_nodes(nodes: [usize; 65], a: usize, out: &mut [usize])
    requires { (a < 3) × (length out.old ≡ node_count) }
    ensures { out.new ≡ laid out.old (65 * a) nodes }
{
    out[65 * a..65 * a + 65].copy_from_slice(&nodes);
}

// For each node of the coarse level the number of the same node on the fine one, 65 for each axis.
pub fn nodes(pair: &Pair<'_>) -> [usize; NODES]
    ensures { result ≡ tabulate (node_no (two pair.now)) node_count 0 }
{
    let mut out = [0usize; NODES];
    lay_nodes(line::nodes_of(pair.fine.x, pair.coarse.x), 0, &mut out);
    lay_nodes(line::nodes_of(pair.fine.y, pair.coarse.y), 1, &mut out);
    lay_nodes(line::nodes_of(pair.fine.z, pair.coarse.z), 2, &mut out);
    out
}

// A map, laid over a list of maps as block b.
fn lay_map(x: [C64; 129], b: usize, out: &mut [f64])
    requires { (b < 6) × (length out.old ≡ 1548) }
    ensures { out.new ≡ laid_numbers out.old (map_points * b) x }
{
    for (p, v) in x.iter().enumerate() {
        numbers::put(out, 129 * b + p, *v);
    }
}

// The maps across and along each axis, one behind another.
pub fn maps(l: &Sound<'_>) -> [f64; 1548]
    ensures { Numbers (map_no (full l.now)) 774 result }
{
    let mut out = [0.0; 1548];
    lay_map(stretched::across_map(l, 0), 0, &mut out);
    lay_map(stretched::along_map(l, 0), 1, &mut out);
    lay_map(stretched::across_map(l, 1), 2, &mut out);
    lay_map(stretched::along_map(l, 1), 3, &mut out);
    lay_map(stretched::across_map(l, 2), 4, &mut out);
    lay_map(stretched::along_map(l, 2), 5, &mut out);
    out
}

// ---- slots. The lattice's own grid is not asked for here, so the lattice goes beside its list, and not as a `Sound`.

fn slot_wall(l: Lattice, st: &[f64], q: usize) -> bool
    ensures { result ≡ slot_wall (full_lattice l st.now) q }
{
    !slot_along(q) && lattice::lattice::is_wall(lattice::lattice::edges_on(l, st, q / 128))
}

// The coarse values' places of a slot's axis and role.
fn block(t: &Levels, q: usize) -> &[usize]
    requires { q < all_slots }
    ensures { result.now ≡ slot_block t.now.coarse t.now.coarse_values q }
{
    let first = q - q % 64;
    &t.coarse_values[first..first + grid::n(t.coarse, q / 128)]
}

// What slot q takes: nothing past the fine line's values, nor where it is fixed.
fn slot_taken(l: Lattice, st: &[f64], t: &Levels, q: usize) -> Few
    requires { q < all_slots }
    ensures { few_list result ≡ slot_shares (full_lattice l st.now) t.now.fine t.now.coarse t.now.fine_values t.now.coarse_values q }
{
    let axis = q / 128;
    let i = q % 64;
    if i >= grid::n(t.fine, axis) {
        return Few::none();
    }
    let wall = slot_wall(l, st, q);
    if wall && i == 0 {
        return Few::none();
    }
    let e = lattice::lattice::edges_on(l, st, axis);
    interpolate::taken(e, block(t, q), slot_along(q), t.fine_values[q], wall)
}

// How far the place of slot q lies from its low neighbour to its high one.
fn slot_ratio(l: Lattice, st: &[f64], t: &Levels, xs: &[f64], es: &[usize], q: usize) -> C64
    requires xs_len { (length xs.now ≡ 1548) × EndsOf es.now }
    requires q_lt_all_slots { q < all_slots }
    ensures { result ≡ slot_ratio (full_lattice l st.now) t.now.coarse t.now.fine_values t.now.coarse_values xs.now es.now q }
{
    let a = Axis {
        edges: lattice::lattice::edges_on(l, st, q / 128),
        maps: xs,
        block: q / 64,
        values: block(t, q),
        period: es[q / 128],
    };
    a.ratio_at(t.fine_values[q])
}

// How many entries slot q has.
fn count(l: Lattice, st: &[f64], t: &Levels, q: usize) -> usize
    requires { q < all_slots }
    ensures { result ≡ count_from (full_lattice l st.now) t.now.fine t.now.coarse t.now.fine_values t.now.coarse_values q }
{
    slot_taken(l, st, t, q).count()
}

// How many entries each slot has.
pub fn counts(l: Lattice, st: &[f64], t: &Levels) -> [usize; SLOTS]
    ensures { result ≡ tabulate (count_from (full_lattice l st.now) t.now.fine t.now.coarse t.now.fine_values t.now.coarse_values) all_slots 0 }
{
    array::from_fn(|q| count(l, st, t, q))
}

// The coarse place of an entry, zero for none.
fn place(s: Option<Share>) -> usize
    ensures { result ≡ get_or (map share_place (option_to_list s)) 0 0 }
{
    match s {
        None => 0,
        Some(s) => s.place(),
    }
}

// How many entries each slot has, and the coarse place of each entry, laid over zeros: one pass, since both come of what a slot takes.
fn fill_slots(l: Lattice, st: &[f64], t: &Levels, counts: &mut [usize], places: &mut [usize])
    requires { (counts.old ≡ replicate all_slots 0) × (places.old ≡ replicate entry_count 0) }
    ensures counts { counts.new ≡ tabulate (count_from (full_lattice l st.now) t.now.fine t.now.coarse t.now.fine_values t.now.coarse_values) all_slots 0 }
    ensures places { places.new ≡ tabulate (place_from (full_lattice l st.now) t.now.fine t.now.coarse t.now.fine_values t.now.coarse_values) entry_count 0 }
{
    // An index: the slot's number says what it takes, and where its count and its two places stand.
    for q in 0..SLOTS {
        let s = slot_taken(l, st, t, q);
        counts[q] = s.count();
        places[2 * q] = place(s.get(0));
        places[2 * q + 1] = place(s.get(1));
    }
}

// The fine place where the permittivity of each entry is read.
fn read_place(nn: &[usize], ps: &[usize], e: usize) -> usize
    requires nn_len { (length nn.now ≡ node_count) × (length ps.now ≡ entry_count) }
    requires e_lt_entry_count { e < entry_count }
    requires e_bound { get_or ps.now e 0 < 65 }
    ensures { result ≡ node_from nn.now ps.now e }
{
    let q = e / 2;
    if slot_along(q) {
        return q % 64;
    }
    nn[65 * (q / 128) + ps[e]]
}

pub fn reads(nn: &[usize], ps: &[usize]) -> [usize; ENTRIES]
    requires nn_len { (length nn.now ≡ node_count) × (length ps.now ≡ entry_count) }
    requires by_index { (e : ℕ) → e < entry_count → get_or ps.now e 0 < 65 }
    ensures { result ≡ tabulate (node_from nn.now ps.now) entry_count 0 }
{
    array::from_fn(|e| read_place(nn, ps, e))
}

// The weight of an entry of slot q, zero for none.
fn pull(
    l: Lattice,
    st: &[f64],
    t: &Levels,
    xs: &[f64],
    es: &[usize],
    q: usize,
    s: Option<Share>,
) -> C64
    requires xs_len { (length xs.now ≡ 1548) × EndsOf es.now }
    requires q_lt_all_slots { q < all_slots }
    ensures { result ≡ get_or (map (share_weight (slot_ratio (full_lattice l st.now) t.now.coarse t.now.fine_values t.now.coarse_values xs.now es.now q)) (option_to_list s)) 0 zero_number }
{
    match s {
        None => C64::zero(),
        Some(s) => s.weight(slot_ratio(l, st, t, xs, es, q)),
    }
}

// The weight of each entry.
pub fn pulls(l: Lattice, st: &[f64], t: &Levels, xs: &[f64], es: &[usize]) -> [f64; ENTRY_DOUBLES]
    requires { (length xs.now ≡ 1548) × EndsOf es.now }
    ensures { Numbers (pull_from (full_lattice l st.now) t.now.fine t.now.coarse t.now.fine_values t.now.coarse_values xs.now es.now) entry_count result }
{
    let mut out = [0.0; ENTRY_DOUBLES];
    // An index: a slot's two numbers are four doubles.
    for q in 0..SLOTS {
        let s = slot_taken(l, st, t, q);
        numbers::put(&mut out, 2 * q, pull(l, st, t, xs, es, q, s.get(0)));
        numbers::put(&mut out, 2 * q + 1, pull(l, st, t, xs, es, q, s.get(1)));
    }
    out
}

// ---- all of it

pub fn levels_of(pair: &Pair<'_>) -> Levels
    ensures { Worked (full pair.now.l) pair.now.fine pair.now.coarse result.fine result.coarse result.fine_values result.coarse_values }
{
    Levels {
        fine: grid_of(pair.l.lattice.grid, pair.fine),
        coarse: grid_of(pair.l.lattice.grid, pair.coarse),
        fine_values: value_places(&pair.fine),
        coarse_values: value_places(&pair.coarse),
    }
}

pub fn slots_of(pair: &Pair<'_>) -> Slots
    ensures levels { Worked (full pair.now.l) pair.now.fine pair.now.coarse result.levels.fine result.levels.coarse result.levels.fine_values result.levels.coarse_values }
    ensures slots { Slotted (full pair.now.l) pair.now.fine pair.now.coarse result.levels.fine result.levels.coarse result.places result.counts }
{
    let mut s = Slots {
        levels: levels_of(pair),
        counts: [0; SLOTS],
        places: [0; ENTRIES],
    };
    fill_slots(
        pair.l.lattice,
        pair.l.st,
        &s.levels,
        &mut s.counts,
        &mut s.places,
    );
    s
}

pub fn weighed(pair: &Pair<'_>, s: &Slots) -> Entries
    requires levels { Worked (full pair.now.l) pair.now.fine pair.now.coarse s.now.levels.fine s.now.levels.coarse s.now.levels.fine_values s.now.levels.coarse_values }
    requires slots { Slotted (full pair.now.l) pair.now.fine pair.now.coarse s.now.levels.fine s.now.levels.coarse s.now.places s.now.counts }
    ensures { Pulled (full pair.now.l) pair.now.fine pair.now.coarse s.now.levels.fine s.now.levels.coarse s.now.places s.now.counts result.nodes result.weights }
{
    let nn = nodes(pair);
    let xs = maps(&pair.l);
    let es = last_ends(&pair.coarse);
    Entries {
        nodes: reads(&nn, &s.places),
        weights: pulls(pair.l.lattice, pair.l.st, &s.levels, &xs, &es),
    }
}
