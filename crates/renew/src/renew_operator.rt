// The working parts of a change over the operator's rows and the inverse shares: the rows whose flags are set are worked out anew, in order, up to the
// first that has a number that is not finite.

ghost use Rattle.store.specs.Hierarchy.{the_lattice};
ghost use Rattle.std.specs.Prelude.{◌≡◌, [], suc, ◌+◌, ◌*◌, ◌<◌, ◌≤◌, ◌^◌, length};
ghost use Rattle.lattice.specs.Sound.{full};
ghost use Rattle.operators.specs.Galerkin.{no_sums};
ghost use Rattle.operators.specs.LevelLists.{edges_on};
ghost use Rattle.store.specs.Layout.{operator_count, operator_off, averaged_off, scale_off};
ghost use Rattle.store.specs.Phases.{operator_part};
ghost use Rattle.store.specs.FillSteps.{offsets_at};
ghost use Rattle.store.specs.Rows.{share, operator};
ghost use Rattle.store.specs.Parts.{flagged_to, flagged_part};
ghost use Rattle.store.specs.Lists.{fixed_of};
ghost use Rattle.store.specs.Renewed.{five, Shaped, FiveRoom};
ghost use Rattle.store.specs.Flagged.{PartFlags};
ghost use Rattle.store.specs.RenewSteps.{StencilRule, OperatorStarts, EntryMade, EntriesRenewed, TurnedRows, SharePlaces, ShareMade, SharesRenewed, fine_of, GalerkinPlaces, GalerkinTaken, GalerkinRenewed};
ghost use Rattle.store.specs.declared.Choice.TheVariants.{Galerkin, Rediscretized};
ghost use Rattle.renew.specs.Codes.{code_of};

use crate::{NotFinite, each, flag};
use lattice::grid;
use lattice::sound::Sound;
use numbers::lists;
use numbers::terms::Part;
use operators::galerkin::{FineRows, Rows, SUM_DOUBLES};
use operators::{galerkin, rediscretized, stencil, volumes};
use store::Choice;
use store::hierarchy::Hierarchy;
use store::lists::Structure;
use store::transfers::Offsets;

// ---- the lattice's own rows

// Row r of level `level`'s operator: the row of the level's own lattice, over the permittivities from place `from` on; whether its
// numbers are finite.
fn stencil_row(
    choice: Choice,
    l: &Sound<'_>,
    m: usize,
    level: usize,
    own: &Sound<'_>,
    eps: &[f64],
    from: usize,
    o: Part,
    ostarts: &[usize],
    ovalues: &mut [f64],
    r: usize,
) -> bool
    requires stencil_rule { StencilRule (full l.now) choice m level (full own.now) from }
    requires from_bound { (from ≤ 2 ^ 32) × (2 * (from + edges_on (full l.now) level) ≤ length eps.now) }
    requires operator_starts { OperatorStarts (full l.now) choice m level o ostarts.now }
    requires level_in_bounds { 2 * (o.k + operator_count (full l.now) choice level) ≤ length ovalues.old }
    requires r_bound { r < edges_on (full l.now) level }
    ensures { EntryMade (full l.now) choice m (operator level r)
        eps.now ovalues.old result ovalues.new }
{
    let at = o.k + ostarts[o.s + r];
    stencil::stencil_numbers(own, eps, from, r, ovalues, at)
}

// All n rows of it.
fn stencil_rows(
    choice: Choice,
    l: &Sound<'_>,
    m: usize,
    level: usize,
    own: &Sound<'_>,
    eps: &[f64],
    from: usize,
    o: Part,
    ostarts: &[usize],
    ovalues: &mut [f64],
    flags: &[u64],
    base: usize,
    n: usize,
) -> Result<(), NotFinite>
    requires stencil_rule { StencilRule (full l.now) choice m level (full own.now) from }
    requires from_bound { (from ≤ 2 ^ 32) × (2 * (from + edges_on (full l.now) level) ≤ length eps.now) }
    requires operator_starts { OperatorStarts (full l.now) choice m level o ostarts.now }
    requires level_in_bounds { 2 * (o.k + operator_count (full l.now) choice level) ≤ length ovalues.old }
    requires n_value { (n ≡ edges_on (full l.now) level) × (base ≤ 2 ^ 32) × (base + n ≤ 64 * length flags.now) × (level ≤ 12) }
    ensures { EntriesRenewed (full l.now) choice m (flagged_to (operator level) flags.now base n)
        eps.now ovalues.old (code_of result) ovalues.new }
{
    each::renew_each(
        flags,
        base,
        n,
        level,
        ovalues,
        |list: &mut [f64], r: usize| {
            stencil_row(choice, l, m, level, own, eps, from, o, ostarts, list, r)
        },
    )
}

// Those of level `level` + 1 of a rediscretized store, over its averaged permittivities, which begin at place `from`.
// `requires`: the lines of all levels, where the permittivities and the rows begin, the part's flags, and room.
pub fn stencil_part(
    h: &Hierarchy<'_>,
    level: usize,
    from: usize,
    o: Part,
    flags: &[u64],
    base: usize,
    eps: &[f64],
    ostarts: &[usize],
    ovalues: &mut [f64],
) -> Result<(), NotFinite>
    requires level_lt_m { level < h.now.m }
    requires from_value { (from ≡ averaged_off (the_lattice h.now) h.now.m level) × (2 * averaged_off (the_lattice h.now) h.now.m h.now.m ≤ length eps.now) }
    requires operator_starts { OperatorStarts (the_lattice h.now) Rediscretized h.now.m (suc level) o ostarts.now }
    requires m_in_bounds { 2 * operator_off (the_lattice h.now) Rediscretized h.now.m (suc h.now.m) ≤ length ovalues.old }
    requires part_flags { PartFlags (the_lattice h.now) Rediscretized h.now.m (suc (7 * level + 6)) base flags.now }
    ensures { EntriesRenewed (the_lattice h.now) Rediscretized h.now.m
        (flagged_part (the_lattice h.now) Rediscretized h.now.m flags.now (suc (7 * level + 6)))
        eps.now ovalues.old (code_of result) ovalues.new }
{
    let s = h.three(level + 1);
    let lattice = rediscretized::rediscretized_lattice(h.l.lattice, s);
    let stretches = rediscretized::rediscretized_stretches(&h.l, s);
    let own = Sound {
        lattice,
        st: &stretches,
    };
    let n = h.edges(level + 1);
    stencil_rows(
        Choice::Rediscretized,
        &h.l,
        h.m,
        level + 1,
        &own,
        eps,
        from,
        o,
        ostarts,
        ovalues,
        flags,
        base,
        n,
    )
}

// Those of a level 0 that is the only one, of either choice: the lattice's own rows over the given permittivities.
pub fn sole_part(
    choice: Choice,
    l: &Sound<'_>,
    flags: &[u64],
    eps: &[f64],
    ostarts: &[usize],
    ovalues: &mut [f64],
) -> Result<(), NotFinite>
    requires st_in_bounds { 2 * edges_on (full l.now) 0 ≤ length eps.now }
    requires operator_starts { OperatorStarts (full l.now) choice 0 0 (operator_part (full l.now) choice 0 0) ostarts.now }
    requires choice_in_bounds { 2 * operator_off (full l.now) choice 0 1 ≤ length ovalues.old }
    requires part_flags { PartFlags (full l.now) choice 0 0 0 flags.now }
    ensures { EntriesRenewed (full l.now) choice 0 (flagged_part (full l.now) choice 0 flags.now 0)
        eps.now ovalues.old (code_of result) ovalues.new }
{
    let n = grid::unknowns(l.lattice.grid);
    let own = *l;
    let o = Part { s: 0, k: 0 };
    stencil_rows(
        choice, l, 0, 0, &own, eps, 0, o, ostarts, ovalues, flags, 0, n,
    )
}

// ---- inverse shares

// That of coarse edge i of c; whether it is finite. The turned rows stand from t on, the volumes of the n fine edges from place k on and
// the inverse shares behind them.
fn share_row(
    h: &Hierarchy<'_>,
    level: usize,
    turned: &Rows<'_>,
    c: usize,
    n: usize,
    scaling: &mut [f64],
    k: usize,
    i: usize,
) -> bool
    requires level_lt_m { level < h.now.m }
    requires turned_rows { TurnedRows (the_lattice h.now) level turned.now.starts.now turned.now.columns.now turned.now.values.now }
    requires share_places { SharePlaces (the_lattice h.now) level turned.now.part k n c }
    requires m_in_bounds { 2 * scale_off (the_lattice h.now) h.now.m ≤ length scaling.old }
    requires i_lt_c { i < c }
    ensures { ShareMade (the_lattice h.now) h.now.m turned.now.starts.now turned.now.columns.now (share level i)
        turned.now.values.now scaling.old result scaling.new }
{
    volumes::inverse_share(turned, c, n, scaling, k, k + n, i)
}

// Those of all coarse edges.
fn share_rows(
    h: &Hierarchy<'_>,
    level: usize,
    turned: &Rows<'_>,
    c: usize,
    n: usize,
    scaling: &mut [f64],
    k: usize,
    flags: &[u64],
    base: usize,
) -> Result<(), NotFinite>
    requires level_lt_m { level < h.now.m }
    requires turned_rows { TurnedRows (the_lattice h.now) level turned.now.starts.now turned.now.columns.now turned.now.values.now }
    requires share_places { SharePlaces (the_lattice h.now) level turned.now.part k n c }
    requires m_in_bounds { 2 * scale_off (the_lattice h.now) h.now.m ≤ length scaling.old }
    requires base_bound { (base ≤ 2 ^ 32) × (base + c ≤ 64 * length flags.now) }
    ensures { SharesRenewed (the_lattice h.now) h.now.m turned.now.starts.now turned.now.columns.now (flagged_to (share level) flags.now base c)
        turned.now.values.now scaling.old (code_of result) scaling.new }
{
    each::renew_each(
        flags,
        base,
        c,
        level + 1,
        scaling,
        |list: &mut [f64], i: usize| { share_row(h, level, turned, c, n, list, k, i) },
    )
}

// Those of transfer `level` of a rediscretized store, whose volumes begin at place k. `requires`: the lines of all levels, the offsets of the transfer, its
// turned rows, the part's flags, and room.
pub fn share_part(
    h: &Hierarchy<'_>,
    level: usize,
    o: Offsets,
    k: usize,
    flags: &[u64],
    base: usize,
    tstarts: &[usize],
    tcolumns: &[usize],
    tvalues: &[f64],
    scaling: &mut [f64],
) -> Result<(), NotFinite>
    requires level_lt_m { level < h.now.m }
    requires o_value { (o ≡ offsets_at (the_lattice h.now) level) × (k ≡ scale_off (the_lattice h.now) level) }
    requires turned_rows { TurnedRows (the_lattice h.now) level tstarts.now tcolumns.now tvalues.now }
    requires m_in_bounds { 2 * scale_off (the_lattice h.now) h.now.m ≤ length scaling.old }
    requires part_flags { PartFlags (the_lattice h.now) Rediscretized h.now.m (suc (7 * level + 5)) base flags.now }
    ensures { SharesRenewed (the_lattice h.now) h.now.m tstarts.now tcolumns.now
        (flagged_part (the_lattice h.now) Rediscretized h.now.m flags.now (suc (7 * level + 5)))
        tvalues.now scaling.old (code_of result) scaling.new }
{
    let n = h.edges(level);
    let c = h.edges(level + 1);
    let turned = Rows {
        part: Part { s: o.ts, k: o.tk },
        starts: tstarts,
        columns: tcolumns,
        values: tvalues,
    };
    share_rows(h, level, &turned, c, n, scaling, k, flags, base)
}

// ---- Galerkin's rows

// Row c of level `level` + 1's operator, if flag q is set; whether its numbers are finite. The sums lent are all +0, before and after.
fn galerkin_row(
    fine: FineRows,
    h: &Hierarchy<'_>,
    level: usize,
    eps: &[f64],
    s: &Structure<'_>,
    p: Part,
    values: &[f64],
    t: Part,
    tvalues: &[f64],
    o: Part,
    ovalues: &mut [f64],
    sums: &mut [f64],
    flags: &[u64],
    q: usize,
    c: usize,
) -> bool
    requires level_lt_m { level < h.now.m }
    requires shaped { Shaped (the_lattice h.now) Galerkin h.now.m (fixed_of s.now) }
    requires five_room { FiveRoom (the_lattice h.now) Galerkin h.now.m (five eps.now values.now tvalues.now ovalues.old []) }
    requires galerkin_places { GalerkinPlaces (the_lattice h.now) h.now.m level fine p t o }
    requires sums_value { sums.old ≡ no_sums }
    requires c_bound { (c < edges_on (the_lattice h.now) (suc level)) × (q < 64 * length flags.now) }
    ensures sums_after { sums.new ≡ no_sums }
    ensures galerkin_taken { GalerkinTaken (the_lattice h.now) h.now.m
        (fixed_of s.now)
        flags.now q (operator (suc level) c)
        eps.now values.now tvalues.now ovalues.old result ovalues.new }
{
    if !flag::flag(flags, q) {
        return true;
    }
    let forward = Rows {
        part: p,
        starts: s.starts,
        columns: s.columns,
        values,
    };
    let turned = Rows {
        part: t,
        starts: s.tstarts,
        columns: s.tcolumns,
        values: tvalues,
    };
    galerkin::galerkin_row(
        fine,
        h.l.lattice,
        h.l.st,
        eps,
        &forward,
        &turned,
        c,
        o,
        s.ostarts,
        s.ocolumns,
        ovalues,
        sums,
    );
    let first = s.ostarts[o.s + c];
    let last = s.ostarts[o.s + c + 1];
    lists::finite_numbers(ovalues, o.k + first, last - first)
}

// All n rows of it.
fn galerkin_rows(
    fine: FineRows,
    h: &Hierarchy<'_>,
    level: usize,
    eps: &[f64],
    s: &Structure<'_>,
    p: Part,
    values: &[f64],
    t: Part,
    tvalues: &[f64],
    o: Part,
    ovalues: &mut [f64],
    flags: &[u64],
    base: usize,
    n: usize,
) -> Result<(), NotFinite>
    requires level_lt_m { level < h.now.m }
    requires shaped { Shaped (the_lattice h.now) Galerkin h.now.m (fixed_of s.now) }
    requires five_room { FiveRoom (the_lattice h.now) Galerkin h.now.m (five eps.now values.now tvalues.now ovalues.old []) }
    requires galerkin_places { GalerkinPlaces (the_lattice h.now) h.now.m level fine p t o }
    requires n_value { (n ≡ edges_on (the_lattice h.now) (suc level)) × (base ≤ 2 ^ 32) × (base + n ≤ 64 * length flags.now) }
    ensures { GalerkinRenewed (the_lattice h.now) h.now.m
        (fixed_of s.now)
        (flagged_to (operator (suc level)) flags.now base n)
        eps.now values.now tvalues.now ovalues.old (code_of result) ovalues.new }
{
    let mut sums = [0.0; SUM_DOUBLES];
    // Not by `renew_each`, whose step changes the list alone: each row changes the sums as well, and new ones for every row would be 24,576 zeros. With a
    // step that changes more, `renew_each` would carry through its clauses what is true of it in between, for this one caller.
    for c in 0..n {
        if !galerkin_row(
            fine,
            h,
            level,
            eps,
            s,
            p,
            values,
            t,
            tvalues,
            o,
            ovalues,
            &mut sums,
            flags,
            base + c,
            c,
        ) {
            return Err(NotFinite(level + 1));
        }
    }
    Ok(())
}

// Those of level `level` + 1 of a Galerkin store, whose operator begins at part q. `requires`: the lines of all levels, the offsets of the transfer, where the
// fine rows come from, the part's flags, and room.
pub fn galerkin_part(
    h: &Hierarchy<'_>,
    level: usize,
    o: Offsets,
    fine: FineRows,
    q: Part,
    flags: &[u64],
    base: usize,
    s: &Structure<'_>,
    eps: &[f64],
    values: &[f64],
    tvalues: &[f64],
    ovalues: &mut [f64],
) -> Result<(), NotFinite>
    requires level_lt_m { level < h.now.m }
    requires shaped { Shaped (the_lattice h.now) Galerkin h.now.m (fixed_of s.now) }
    requires five_room { FiveRoom (the_lattice h.now) Galerkin h.now.m (five eps.now values.now tvalues.now ovalues.old []) }
    requires o_value { (o ≡ offsets_at (the_lattice h.now) level) × (fine ≡ fine_of (the_lattice h.now) Galerkin h.now.m level) × (q ≡ operator_part (the_lattice h.now) Galerkin h.now.m (suc level)) }
    requires part_flags { PartFlags (the_lattice h.now) Galerkin h.now.m (suc (7 * level + 6)) base flags.now }
    ensures { GalerkinRenewed (the_lattice h.now) h.now.m
        (fixed_of s.now)
        (flagged_part (the_lattice h.now) Galerkin h.now.m flags.now (suc (7 * level + 6)))
        eps.now values.now tvalues.now ovalues.old (code_of result) ovalues.new }
{
    let n = h.edges(level + 1);
    let p = Part { s: o.s, k: o.k };
    let t = Part { s: o.ts, k: o.tk };
    galerkin_rows(
        fine, h, level, eps, s, p, values, t, tvalues, q, ovalues, flags, base, n,
    )
}
