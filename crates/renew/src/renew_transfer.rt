// The flagged rows of one transfer worked out anew in place, a kind at a time: the permittivities of its coarse level, in both chains, its forward rows and its
// turned rows. Each kind is a loop over its rows that stops at the first that is not finite.

ghost use Rattle.store.specs.Hierarchy.{the_lattice};
ghost use Rattle.std.specs.Prelude.{◌≡◌, ℕ, suc, ◌+◌, ◌*◌, ◌<◌, ◌≤◌, ◌^◌, length};
ghost use Rattle.lattice.specs.Sound.{full};
ghost use Rattle.weights.specs.Tables.{ChainRoom};
ghost use Rattle.operators.specs.LevelLists.{edges_on};
ghost use Rattle.store.specs.Layout.{forward_cols, forward_count, turned_count, eps_off, averaged_off, forward_off, turned_off, starts_off, eps_need};
ghost use Rattle.store.specs.PhaseSteps.{averaged_from};
ghost use Rattle.store.specs.declared.Choice.TheVariants.{Rediscretized};
ghost use Rattle.store.specs.FillSteps.{offsets_at};
ghost use Rattle.store.specs.Parts.{row_by, flagged_part};
ghost use Rattle.store.specs.Flagged.{PartFlags, PairAt, Made, MadeAny, RenewedIn, with_eps, with_forward, with_turned, StartsAt, WeightsReady, TurnedReady};
ghost use Rattle.renew.specs.Codes.{code_of};

use crate::{NotFinite, each};
use numbers::transpose;
use operators::averaged;
use operators::nested::NestedPair;
use store::Choice;
use store::hierarchy::Hierarchy;
use store::lists::Structure;
use store::transfers::Offsets;
use weights::pair::Pair;
use weights::rows::{Span, Weights};
use weights::{eps, rows, tables};

// ---- the permittivities of the coarse level

// That of coarse edge r; whether it is finite.
fn coarse_row(
    h: &Hierarchy<'_>,
    level: usize,
    pair: &Pair<'_>,
    nn: &[usize],
    eps: &mut [f64],
    from: usize,
    to: usize,
    r: usize,
) -> bool
    requires pair_at { PairAt (the_lattice h.now) level pair.now.fine pair.now.coarse nn.now }
    requires chain_room { ChainRoom (edges_on (the_lattice h.now) level) (edges_on (the_lattice h.now) (suc level)) from to eps.old }
    requires from_value { (from ≡ eps_off (the_lattice h.now) level) × (to ≡ eps_off (the_lattice h.now) (suc level)) × (r < edges_on (the_lattice h.now) (suc level)) }
    ensures { MadeAny (the_lattice h.now) (row_by 0 level r) with_eps eps.old result eps.new }
{
    let gf = tables::grid_of(h.l.lattice.grid, pair.fine);
    let gc = tables::grid_of(h.l.lattice.grid, pair.coarse);
    eps::coarse_eps_row(gf, gc, nn, eps, from, to, r)
}

// Those of all coarse edges whose flags are set. `requires`: the lines of all levels, the offsets of the transfer, the part's flags, and room.
pub fn coarse_part(
    choice: Choice,
    h: &Hierarchy<'_>,
    level: usize,
    o: Offsets,
    flags: &[u64],
    base: usize,
    eps: &mut [f64],
) -> Result<(), NotFinite>
    requires level_lt_m { level < h.now.m }
    requires o_value { o ≡ offsets_at (the_lattice h.now) level }
    requires part_flags { PartFlags (the_lattice h.now) choice h.now.m (suc (7 * level + 0)) base flags.now }
    requires m_in_bounds { 2 * eps_need (the_lattice h.now) choice h.now.m ≤ length eps.old }
    ensures { RenewedIn (the_lattice h.now) choice h.now.m (flagged_part (the_lattice h.now) choice h.now.m flags.now (suc (7 * level + 0)))
        with_eps eps.old (code_of result) eps.new }
{
    let pair = h.pair(level);
    let nn = tables::nodes(&pair);
    let n = h.edges(level + 1);
    let from = o.feps;
    let to = o.ceps;
    each::renew_each(
        flags,
        base,
        n,
        level + 1,
        eps,
        |list: &mut [f64], r: usize| { coarse_row(h, level, &pair, &nn, list, from, to, r) },
    )
}

// ---- the averaged permittivities of the coarse level, of a rediscretized store

// That of coarse edge r; whether it is finite.
fn averaged_row(
    h: &Hierarchy<'_>,
    level: usize,
    nested: &NestedPair<'_>,
    nn: &[usize],
    eps: &mut [f64],
    from: usize,
    to: usize,
    r: usize,
) -> bool
    requires base_value { full nested.now.pair.now.l ≡ the_lattice h.now }
    requires pair_at { PairAt (the_lattice h.now) level nested.now.pair.now.fine nested.now.pair.now.coarse nn.now }
    requires chain_room { ChainRoom (edges_on (the_lattice h.now) level) (edges_on (the_lattice h.now) (suc level)) from to eps.old }
    requires from_value { (from ≡ averaged_from (the_lattice h.now) h.now.m level) × (to ≡ averaged_off (the_lattice h.now) h.now.m level) × (r < edges_on (the_lattice h.now) (suc level)) }
    ensures { Made (the_lattice h.now) Rediscretized h.now.m (row_by 1 level r) with_eps eps.old result eps.new }
{
    averaged::averaged_row(nested, nn, eps, from, to, r)
}

// Those of all coarse edges whose flags are set, from the permittivities at place `from`, those of the coarse level beginning at place `to`.
pub fn averaged_part(
    h: &Hierarchy<'_>,
    level: usize,
    from: usize,
    to: usize,
    flags: &[u64],
    base: usize,
    eps: &mut [f64],
) -> Result<(), NotFinite>
    requires level_lt_m { level < h.now.m }
    requires from_value { (from ≡ averaged_from (the_lattice h.now) h.now.m level) × (to ≡ averaged_off (the_lattice h.now) h.now.m level) }
    requires part_flags { PartFlags (the_lattice h.now) Rediscretized h.now.m (suc (7 * level + 1)) base flags.now }
    requires m_in_bounds { 2 * averaged_off (the_lattice h.now) h.now.m h.now.m ≤ length eps.old }
    ensures { RenewedIn (the_lattice h.now) Rediscretized h.now.m (flagged_part (the_lattice h.now) Rediscretized h.now.m flags.now (suc (7 * level + 1)))
        with_eps eps.old (code_of result) eps.new }
{
    let pair = h.pair(level);
    let nested = NestedPair { pair: &pair };
    let nn = tables::nodes(&pair);
    let n = h.edges(level + 1);
    each::renew_each(
        flags,
        base,
        n,
        level + 1,
        eps,
        |list: &mut [f64], r: usize| { averaged_row(h, level, &nested, &nn, list, from, to, r) },
    )
}

// ---- the forward rows

// The numbers of row r; whether they are finite. The rows' starts stand in the list from place `first` on, their numbers from place k on.
fn forward_row(
    h: &Hierarchy<'_>,
    level: usize,
    w: &Weights<'_>,
    starts: &[usize],
    first: usize,
    k: usize,
    values: &mut [f64],
    r: usize,
) -> bool
    requires weights_ready { WeightsReady (the_lattice h.now) level w.now.span w.now.places.now w.now.nodes.now w.now.counts.now w.now.pulls.now w.now.eps.now }
    requires starts_at { StartsAt (forward_cols (the_lattice h.now) level) (edges_on (the_lattice h.now) level) first starts.now }
    requires k_value { (k ≡ forward_off (the_lattice h.now) level) × (r < edges_on (the_lattice h.now) level) × (k + forward_count (the_lattice h.now) level ≤ 2 ^ 32) × (2 * (k + forward_count (the_lattice h.now) level) ≤ length values.old) }
    ensures { (ch : Choice) (m : ℕ) → Made (the_lattice h.now) ch m (row_by 2 level r) (with_forward w.now.eps.now) values.old result values.new }
{
    rows::weights_row(w, values, k + starts[first + r], r)
}

// Those of all rows whose flags are set, from the transfer's tables.
fn forward_rows(
    choice: Choice,
    h: &Hierarchy<'_>,
    level: usize,
    w: &Weights<'_>,
    starts: &[usize],
    first: usize,
    k: usize,
    n: usize,
    flags: &[u64],
    base: usize,
    values: &mut [f64],
) -> Result<(), NotFinite>
    requires weights_ready { WeightsReady (the_lattice h.now) level w.now.span w.now.places.now w.now.nodes.now w.now.counts.now w.now.pulls.now w.now.eps.now }
    requires starts_at { StartsAt (forward_cols (the_lattice h.now) level) (edges_on (the_lattice h.now) level) first starts.now }
    requires part_flags { PartFlags (the_lattice h.now) choice h.now.m (suc (7 * level + 2)) base flags.now }
    requires k_value { (k ≡ forward_off (the_lattice h.now) level) × (n ≡ edges_on (the_lattice h.now) level) × (k + forward_count (the_lattice h.now) level ≤ 2 ^ 32) × (2 * (k + forward_count (the_lattice h.now) level) ≤ length values.old) }
    requires level_bound { level ≤ 11 }
    ensures { RenewedIn (the_lattice h.now) choice h.now.m (flagged_part (the_lattice h.now) choice h.now.m flags.now (suc (7 * level + 2)))
        (with_forward w.now.eps.now) values.old (code_of result) values.new }
{
    each::renew_each(
        flags,
        base,
        n,
        level + 1,
        values,
        |list: &mut [f64], r: usize| { forward_row(h, level, w, starts, first, k, list, r) },
    )
}

// Those of all rows whose flags are set, from the permittivities of both levels: the transfer's tables are worked out once.
pub fn forward_part(
    choice: Choice,
    h: &Hierarchy<'_>,
    level: usize,
    o: Offsets,
    flags: &[u64],
    base: usize,
    starts: &[usize],
    eps: &[f64],
    values: &mut [f64],
) -> Result<(), NotFinite>
    requires level_lt_m { level < h.now.m }
    requires o_value { o ≡ offsets_at (the_lattice h.now) level }
    requires part_flags { PartFlags (the_lattice h.now) choice h.now.m (suc (7 * level + 2)) base flags.now }
    requires starts_at { StartsAt (forward_cols (the_lattice h.now) level) (edges_on (the_lattice h.now) level) (starts_off (edges_on (the_lattice h.now)) level) starts.now }
    requires m_in_bounds { (2 * eps_need (the_lattice h.now) choice h.now.m ≤ length eps.now) × (2 * forward_off (the_lattice h.now) h.now.m ≤ length values.old) }
    ensures { RenewedIn (the_lattice h.now) choice h.now.m (flagged_part (the_lattice h.now) choice h.now.m flags.now (suc (7 * level + 2)))
        (with_forward eps.now) values.old (code_of result) values.new }
{
    let pair = h.pair(level);
    let t = tables::slots_of(&pair);
    let e = tables::weighed(&pair, &t);
    let w = Weights {
        span: Span {
            fine: t.levels.fine,
            coarse: t.levels.coarse,
            feps: o.feps,
            ceps: o.ceps,
        },
        places: &t.places,
        nodes: &e.nodes,
        counts: &t.counts,
        pulls: &e.weights,
        eps,
    };
    let n = h.edges(level);
    forward_rows(
        choice, h, level, &w, starts, o.s, o.k, n, flags, base, values,
    )
}

// ---- the turned rows

// The numbers of turned row c; whether they are finite. n is the count of the forward rows.
fn turned_row(
    h: &Hierarchy<'_>,
    level: usize,
    o: Offsets,
    n: usize,
    s: &Structure<'_>,
    values: &[f64],
    tvalues: &mut [f64],
    c: usize,
) -> bool
    requires turned_ready { TurnedReady (the_lattice h.now) level o n s.now.starts.now s.now.columns.now values.now s.now.tstarts.now s.now.tcolumns.now }
    requires level_bound { (level ≤ 11) × (c < edges_on (the_lattice h.now) (suc level)) × (2 * (turned_off (the_lattice h.now) level + turned_count (the_lattice h.now) level) ≤ length tvalues.old) }
    ensures { (ch : Choice) (m : ℕ) → Made (the_lattice h.now) ch m (row_by 3 level c) (with_turned values.now) tvalues.old result tvalues.new }
{
    transpose::turned_row(
        s.starts, o.s, s.columns, values, o.k, n, s.tstarts, o.ts, s.tcolumns, tvalues, o.tk, c,
    )
}

// Those of all turned rows whose flags are set.
pub fn turned_part(
    choice: Choice,
    h: &Hierarchy<'_>,
    level: usize,
    o: Offsets,
    flags: &[u64],
    base: usize,
    s: &Structure<'_>,
    values: &[f64],
    tvalues: &mut [f64],
) -> Result<(), NotFinite>
    requires level_lt_m { level < h.now.m }
    requires turned_ready { TurnedReady (the_lattice h.now) level o (edges_on (the_lattice h.now) level) s.now.starts.now s.now.columns.now values.now s.now.tstarts.now s.now.tcolumns.now }
    requires part_flags { PartFlags (the_lattice h.now) choice h.now.m (suc (7 * level + 3)) base flags.now }
    requires m_in_bounds { 2 * turned_off (the_lattice h.now) h.now.m ≤ length tvalues.old }
    ensures { RenewedIn (the_lattice h.now) choice h.now.m (flagged_part (the_lattice h.now) choice h.now.m flags.now (suc (7 * level + 3)))
        (with_turned values.now) tvalues.old (code_of result) tvalues.new }
{
    let n = h.edges(level);
    let k = h.edges(level + 1);
    each::renew_each(
        flags,
        base,
        k,
        level + 1,
        tvalues,
        |list: &mut [f64], c: usize| { turned_row(h, level, o, n, s, values, list, c) },
    )
}
