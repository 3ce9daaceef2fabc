// The rows of a store whose flags are set, worked out anew in the lent lists: those of a level that is the only one, or transfer by transfer, in the order in
// which a setup works them out, up to the first that has a number that is not finite.

ghost use Rattle.store.specs.Hierarchy.{the_lattice};
ghost use Rattle.std.specs.Prelude.{◌≡◌, suc, ◌+◌, ◌*◌, ◌<◌, ◌≤◌, length, get_or};
ghost use Rattle.operators.specs.LevelLists.{edges_on};
ghost use Rattle.store.specs.Layout.{forward_cols, forward_count, starts_off, eps_need, operator_off, averaged_off, scale_off};
ghost use Rattle.store.specs.Parts.{part_off, part_count, flagged_rows};
ghost use Rattle.store.specs.Lists.{fixed_of, five_of, SameNumbers};
ghost use Rattle.store.specs.Renewed.{Shaped, FiveRoom, Renewed};
ghost use Rattle.store.specs.Flagged.{RenewedIn, with_eps, StartsAt, TurnedReady};
ghost use Rattle.store.specs.RenewSteps.{flagged_some, NoVolumes, fine_of, OperatorStarts, TurnedRows};
ghost use Rattle.store.specs.RenewLevels.{standing_at, WeightRoom, WeightsRenewed, ScaledRenewed};
ghost use Rattle.store.specs.declared.Choice.TheVariants.{Rediscretized};
ghost use Rattle.renew.specs.Codes.{code_of};
ghost use Rattle.renew.specs.Long.{SameLong};

use crate::{NotFinite, renew_operator, renew_transfer};
use numbers::terms::Part;
use operators::galerkin::FineRows;
use store::change::Standing;
use store::hierarchy::Hierarchy;
use store::lists::{Numbers, Structure};
use store::{Choice, lines, needs, rediscretized_levels, transfers};

// ---- where the parts of a transfer begin

// Those of the first transfer.
fn first_standing(choice: Choice, h: &Hierarchy<'_>) -> Standing
    requires { 0 < h.now.m }
    ensures { result ≡ standing_at (the_lattice h.now) choice h.now.m 0 }
{
    let o = transfers::first_offsets(h);
    let to = rediscretized_levels::chain_length(h);
    Standing {
        o,
        base: 0,
        from: 0,
        to,
        scale: 0,
        operator: Part { s: 0, k: 0 },
    }
}

// Those of the next one: the starts of this one's forward rows and of its coarse operator stand in the lists.
fn next_standing(
    choice: Choice,
    h: &Hierarchy<'_>,
    level: usize,
    w: Standing,
    s: &Structure<'_>,
) -> Standing
    requires level_lt_m { level < h.now.m }
    requires w_value { w ≡ standing_at (the_lattice h.now) choice h.now.m level }
    requires operator_starts { OperatorStarts (the_lattice h.now) choice h.now.m (suc level) w.operator s.now.ostarts.now }
    requires forward_starts { (w.o.s + edges_on (the_lattice h.now) level < length s.now.starts.now)
        × (get_or s.now.starts.now (w.o.s + edges_on (the_lattice h.now) level) 0 ≡ forward_count (the_lattice h.now) level) }
    ensures { result ≡ standing_at (the_lattice h.now) choice h.now.m (suc level) }
{
    let n = h.edges(level);
    let c = h.edges(level + 1);
    let d = needs::only(choice, n);
    let e = needs::only(choice, c);
    let base = w.base + (n + 3 * c + (d + 2 * e));
    let to = w.to + c;
    let scale = w.scale + (n + c);
    let o = transfers::next_offsets(h, level, w.o, s.starts);
    let operator = lines::behind(w.operator, c, s.ostarts);
    Standing {
        o,
        base,
        from: w.to,
        to,
        scale,
        operator,
    }
}

// ---- the parts of a transfer

// Its permittivities, in both chains.
fn eps_parts(
    choice: Choice,
    h: &Hierarchy<'_>,
    level: usize,
    w: Standing,
    flags: &[u64],
    eps: &mut [f64],
) -> Result<(), NotFinite>
    requires level_lt_m { level < h.now.m }
    requires w_value { w ≡ standing_at (the_lattice h.now) choice h.now.m level }
    requires m_bound { part_off (the_lattice h.now) choice h.now.m (part_count h.now.m) ≤ 64 * length flags.now }
    requires m_in_bounds { 2 * eps_need (the_lattice h.now) choice h.now.m ≤ length eps.old }
    ensures { RenewedIn (the_lattice h.now) choice h.now.m (flagged_some (the_lattice h.now) choice h.now.m flags.now (suc (7 * level)) 2)
        with_eps eps.old (code_of result) eps.new }
{
    renew_transfer::coarse_part(choice, h, level, w.o, flags, w.base, eps)?;
    match choice {
        Choice::Galerkin => Ok(()),
        Choice::Rediscretized => {
            let c = h.edges(level + 1);
            renew_transfer::averaged_part(h, level, w.from, w.to, flags, w.base + c, eps)
        }
    }
}

// Its forward and its turned rows.
fn weight_parts(
    choice: Choice,
    h: &Hierarchy<'_>,
    level: usize,
    w: Standing,
    flags: &[u64],
    s: &Structure<'_>,
    eps: &[f64],
    values: &mut [f64],
    tvalues: &mut [f64],
) -> Result<(), NotFinite>
    requires level_lt_m { level < h.now.m }
    requires w_value { w ≡ standing_at (the_lattice h.now) choice h.now.m level }
    requires m_bound { part_off (the_lattice h.now) choice h.now.m (part_count h.now.m) ≤ 64 * length flags.now }
    requires starts_at { StartsAt (forward_cols (the_lattice h.now) level) (edges_on (the_lattice h.now) level) (starts_off (edges_on (the_lattice h.now)) level) s.now.starts.now }
    requires turned_ready { TurnedReady (the_lattice h.now) level w.o (edges_on (the_lattice h.now) level) s.now.starts.now s.now.columns.now values.old s.now.tstarts.now s.now.tcolumns.now }
    requires weight_room { WeightRoom (the_lattice h.now) choice h.now.m eps.now values.old tvalues.old }
    ensures { WeightsRenewed (the_lattice h.now) choice h.now.m (flagged_some (the_lattice h.now) choice h.now.m flags.now (suc (7 * level + 2)) 2)
        eps.now values.old tvalues.old (code_of result) values.new tvalues.new }
{
    let n = h.edges(level);
    let c = h.edges(level + 1);
    let d = needs::only(choice, c);
    let b = w.base + (c + d);
    renew_transfer::forward_part(choice, h, level, w.o, flags, b, s.starts, eps, values)?;
    renew_transfer::turned_part(choice, h, level, w.o, flags, b + n, s, values, tvalues)
}

// The inverse shares and the operator's rows of a rediscretized store. No volume is flagged.
fn scaled_parts(
    h: &Hierarchy<'_>,
    level: usize,
    w: Standing,
    flags: &[u64],
    s: &Structure<'_>,
    eps: &[f64],
    tvalues: &[f64],
    ovalues: &mut [f64],
    scaling: &mut [f64],
) -> Result<(), NotFinite>
    requires level_lt_m { level < h.now.m }
    requires w_value { w ≡ standing_at (the_lattice h.now) Rediscretized h.now.m level }
    requires m_bound { (part_off (the_lattice h.now) Rediscretized h.now.m (part_count h.now.m) ≤ 64 * length flags.now) × (NoVolumes (the_lattice h.now) Rediscretized h.now.m flags.now) }
    requires turned_rows { (TurnedRows (the_lattice h.now) level s.now.tstarts.now s.now.tcolumns.now tvalues.now)
        × (OperatorStarts (the_lattice h.now) Rediscretized h.now.m (suc level) w.operator s.now.ostarts.now) }
    requires m_in_bounds { (2 * averaged_off (the_lattice h.now) h.now.m h.now.m ≤ length eps.now) × (2 * operator_off (the_lattice h.now) Rediscretized h.now.m (suc h.now.m) ≤ length ovalues.old)
        × (2 * scale_off (the_lattice h.now) h.now.m ≤ length scaling.old) }
    ensures { ScaledRenewed (the_lattice h.now) h.now.m s.now.tstarts.now s.now.tcolumns.now
        (flagged_some (the_lattice h.now) Rediscretized h.now.m flags.now (suc (7 * level + 4)) 3)
        eps.now tvalues.now ovalues.old scaling.old (code_of result) ovalues.new scaling.new }
{
    let n = h.edges(level);
    let c = h.edges(level + 1);
    let b = w.base + (2 * n + 3 * c);
    renew_operator::share_part(
        h, level, w.o, w.scale, flags, b, s.tstarts, s.tcolumns, tvalues, scaling,
    )?;
    renew_operator::stencil_part(
        h,
        level,
        w.to,
        w.operator,
        flags,
        b + c,
        eps,
        s.ostarts,
        ovalues,
    )
}

// The rows behind the turned ones, of either choice.
fn operator_parts(
    choice: Choice,
    h: &Hierarchy<'_>,
    level: usize,
    fine: FineRows,
    w: Standing,
    flags: &[u64],
    s: &Structure<'_>,
    n: &mut Numbers<'_>,
) -> Result<(), NotFinite>
    requires level_lt_m { level < h.now.m }
    requires w_value { (fine ≡ fine_of (the_lattice h.now) choice h.now.m level) × (w ≡ standing_at (the_lattice h.now) choice h.now.m level) }
    requires m_bound { (part_off (the_lattice h.now) choice h.now.m (part_count h.now.m) ≤ 64 * length flags.now) × (NoVolumes (the_lattice h.now) choice h.now.m flags.now) }
    requires shaped { Shaped (the_lattice h.now) choice h.now.m (fixed_of s.now) }
    requires five_room { FiveRoom (the_lattice h.now) choice h.now.m (five_of n.old) }
    ensures same { SameNumbers n.old n.new }
    ensures long { SameLong (five_of n.old) (five_of n.new) }
    ensures renewed { Renewed (the_lattice h.now) choice h.now.m (fixed_of s.now)
        (flagged_some (the_lattice h.now) choice h.now.m flags.now (suc (7 * level + 4)) 3)
        (five_of n.old) (code_of result) (five_of n.new) }
{
    let eps = &mut *n.eps;
    let values = &mut *n.values;
    let tvalues = &mut *n.tvalues;
    let ovalues = &mut *n.ovalues;
    let scaling = &mut *n.scaling;
    match choice {
        Choice::Galerkin => {
            let f = h.edges(level);
            let c = h.edges(level + 1);
            let b = w.base + (f + 2 * c);
            renew_operator::galerkin_part(
                h, level, w.o, fine, w.operator, flags, b, s, eps, values, tvalues, ovalues,
            )
        }
        Choice::Rediscretized => scaled_parts(
            h, level, w, flags, s, eps, tvalues, ovalues, scaling,
        ),
    }
}

// All rows of the transfer from level `level` + 1 to `level`.
fn renew_level(
    choice: Choice,
    h: &Hierarchy<'_>,
    level: usize,
    fine: FineRows,
    w: Standing,
    flags: &[u64],
    s: &Structure<'_>,
    n: &mut Numbers<'_>,
) -> Result<(), NotFinite>
    requires level_lt_m { level < h.now.m }
    requires w_value { (fine ≡ fine_of (the_lattice h.now) choice h.now.m level) × (w ≡ standing_at (the_lattice h.now) choice h.now.m level) }
    requires m_bound { (part_off (the_lattice h.now) choice h.now.m (part_count h.now.m) ≤ 64 * length flags.now) × (NoVolumes (the_lattice h.now) choice h.now.m flags.now) }
    requires shaped { Shaped (the_lattice h.now) choice h.now.m (fixed_of s.now) }
    requires five_room { FiveRoom (the_lattice h.now) choice h.now.m (five_of n.old) }
    ensures same { SameNumbers n.old n.new }
    ensures long { SameLong (five_of n.old) (five_of n.new) }
    ensures renewed { Renewed (the_lattice h.now) choice h.now.m (fixed_of s.now)
        (flagged_some (the_lattice h.now) choice h.now.m flags.now (suc (7 * level)) 7)
        (five_of n.old) (code_of result) (five_of n.new) }
{
    eps_parts(choice, h, level, w, flags, n.eps)?;
    let eps = &mut *n.eps;
    let values = &mut *n.values;
    let tvalues = &mut *n.tvalues;
    weight_parts(choice, h, level, w, flags, s, eps, values, tvalues)?;
    operator_parts(choice, h, level, fine, w, flags, s, n)
}

// ---- all transfers

// All of them, up to the first row that has a number that is not finite. `requires`: more than one level, their lines, starts and columns that
// are the lattice's, room, and the flags of all rows, among them no volume's.
fn renew_levels(
    choice: Choice,
    h: &Hierarchy<'_>,
    flags: &[u64],
    s: &Structure<'_>,
    n: &mut Numbers<'_>,
) -> Result<(), NotFinite>
    requires m_nonzero { 0 < h.now.m }
    requires m_bound { (part_off (the_lattice h.now) choice h.now.m (part_count h.now.m) ≤ 64 * length flags.now) × (NoVolumes (the_lattice h.now) choice h.now.m flags.now) }
    requires shaped { Shaped (the_lattice h.now) choice h.now.m (fixed_of s.now) }
    requires five_room { FiveRoom (the_lattice h.now) choice h.now.m (five_of n.old) }
    ensures same { SameNumbers n.old n.new }
    ensures long { SameLong (five_of n.old) (five_of n.new) }
    ensures renewed { Renewed (the_lattice h.now) choice h.now.m (fixed_of s.now)
        (flagged_rows (the_lattice h.now) choice h.now.m flags.now)
        (five_of n.old) (code_of result) (five_of n.new) }
{
    let mut w = first_standing(choice, h);
    let mut fine = FineRows::Computed;
    for level in 0..h.m {
        renew_level(choice, h, level, fine, w, flags, s, n)?;
        fine = FineRows::Stored(w.operator);
        w = next_standing(choice, h, level, w, s);
    }
    Ok(())
}

// The rows of a store whose flags are set, of one level or of several, up to the first row that has a number that is not finite; the rows behind
// it are as they were. `requires`: the lines of all levels, starts and columns that are the lattice's, room, and the flags of all rows, among them no volume's.
pub fn renew_rows(
    choice: Choice,
    h: &Hierarchy<'_>,
    flags: &[u64],
    s: &Structure<'_>,
    n: &mut Numbers<'_>,
) -> Result<(), NotFinite>
    requires shaped { Shaped (the_lattice h.now) choice h.now.m (fixed_of s.now) }
    requires five_room { FiveRoom (the_lattice h.now) choice h.now.m (five_of n.old) }
    requires m_bound_2 { part_off (the_lattice h.now) choice h.now.m (part_count h.now.m) ≤ 64 * length flags.now }
    requires no_volumes { NoVolumes (the_lattice h.now) choice h.now.m flags.now }
    ensures same { SameNumbers n.old n.new }
    ensures long { SameLong (five_of n.old) (five_of n.new) }
    ensures renewed { Renewed (the_lattice h.now) choice h.now.m (fixed_of s.now)
        (flagged_rows (the_lattice h.now) choice h.now.m flags.now)
        (five_of n.old) (code_of result) (five_of n.new) }
{
    if h.m == 0 {
        let eps = &mut *n.eps;
        let ovalues = &mut *n.ovalues;
        return renew_operator::sole_part(choice, &h.l, flags, eps, s.ostarts, ovalues);
    }
    renew_levels(choice, h, flags, s, n)
}
