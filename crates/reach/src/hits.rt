// The rows that a change of one permittivity of level 0 reaches, as a bit for each row of the store: from the structure alone, level by level.

ghost use Rattle.std.specs.Prelude.{◌≡◌, cond, suc, ◌+◌, ◌*◌, ◌<◌, ◌≤◌, ◌^◌, eqb, length, get_or, replicate};
ghost use Rattle.lattice.specs.Grid.{unknowns_of};
ghost use Rattle.lattice.specs.Sound.{full};
ghost use Rattle.operators.specs.LevelLists.{edges_on};
ghost use Rattle.store.specs.Hierarchy.{the_lattice};
ghost use Rattle.store.specs.Layout.{turned_cols, operator_cols};
ghost use Rattle.store.specs.Parts.{FlagsOf};
ghost use Rattle.store.specs.PhaseSteps.{behind_of};
ghost use Rattle.store.specs.Reach.{hit};
ghost use Rattle.store.specs.ReachSteps.{Raised, RowsHeld, BitRaised, BitsRaised, flag_words, HitsLong, FirstHits, FirstRaised, TransferRaised, OperatorRaised, LevelRaised, TransferBits, LevelBits, SoleBits, TransferHeld, OperatorHeld, LevelEnds, parts_at};
ghost use Rattle.store.specs.Lists.{fixed_of};
ghost use Rattle.store.specs.Renewed.{Shaped};
ghost use Rattle.store.specs.declared.Choice.TheVariants.{Galerkin, Rediscretized};

use crate::flags;
use lattice::sound::Sound;
use numbers::terms::Part;
use operators::words;
use store::change::{EDGES, Hits, LevelParts};
use store::hierarchy::Hierarchy;
use store::lists::Structure;
use store::{Choice, lines, needs};

// ---- bits

// Bit q is set if b says so, and else left.
fn raise_bit(flags: &mut [u64], q: usize, b: bool)
    requires { q < 64 * length flags.old }
    ensures { BitRaised q b flags.old flags.new }
{
    if !b {
        return;
    }
    let w = q / 64;
    flags[w] = words::mix(true, flags[w], true, words::unit(q % 64));
}

// The bits from `base` on are set for those of the first n flags that are raised. The place behind them.
fn raise_bits(flags: &mut [u64], base: usize, n: usize, list: &[bool]) -> usize
    requires { (n ≤ length list.now) × (base ≤ 2 ^ 40) × (base + n ≤ 64 * length flags.old) }
    ensures { BitsRaised base n list.now flags.old flags.new result }
{
    for (r, &b) in list[..n].iter().enumerate() {
        raise_bit(flags, base + r, b);
    }
    base + n
}

// The bits of the permittivities of a level of k edges, of its averaged ones, `only` of them, and of the n forward and k turned rows, from `base` on. The place
// behind them. `requires`: flags for all edges, and room.
fn transfer_bits(
    only: usize,
    n: usize,
    k: usize,
    base: usize,
    hits: &Hits,
    flags: &mut [u64],
) -> usize
    requires hits_long { HitsLong hits.now }
    requires n_bound { (n ≤ 12288) × (k ≤ 12288) × (only ≤ 12288) × (base ≤ 2 ^ 32) × (base + 49152 ≤ 64 * length flags.old) }
    ensures { TransferBits base k only n hits.now flags.old flags.new result }
{
    let mut at = raise_bits(flags, base, k, &hits.eps);
    at = raise_bits(flags, at, only, &hits.averaged);
    at = raise_bits(flags, at, n, &hits.forward);
    raise_bits(flags, at, k, &hits.turned)
}

// The bits of a level of k edges whose finer one has n, from `base` on: no volume is ever reached, a share where its turned row is. The place behind them.
fn level_bits(
    choice: Choice,
    n: usize,
    k: usize,
    base: usize,
    hits: &Hits,
    flags: &mut [u64],
) -> usize
    requires hits_long { HitsLong hits.now }
    requires n_bound { (n ≤ 12288) × (k ≤ 12288) × (base ≤ 2 ^ 32) × (base + 86016 ≤ 64 * length flags.old) }
    ensures { LevelBits choice n k base hits.now flags.old flags.new result }
{
    let only = needs::only(choice, k);
    let volumes = needs::only(choice, n);
    let mut at = transfer_bits(only, n, k, base, hits, flags);
    at = raise_bits(flags, at + volumes, only, &hits.turned);
    raise_bits(flags, at, k, &hits.operator)
}

// The bits of part 0, the operator's rows of a level that is the only one. The place behind them.
fn sole_bits(m: usize, n: usize, hits: &Hits, flags: &mut [u64]) -> usize
    requires hits_long { HitsLong hits.now }
    requires n_bound { (n ≤ 12288) × (12288 ≤ 64 * length flags.old) }
    ensures { SoleBits m n hits.now flags.old flags.new result }
{
    if m > 0 {
        return 0;
    }
    raise_bits(flags, 0, n, &hits.operator)
}

// ---- the flags of a level

// Raises those of level 0's operator, unless neither the next level's come from them nor they are stored.
fn first_operator(choice: Choice, l: &Sound<'_>, m: usize, flags: &[bool], out: &mut [bool])
    requires { unknowns_of l.now.lattice.grid ≤ length out.old }
    ensures { FirstRaised (full l.now) choice m flags.now out.old out.new }
{
    if needs::only(choice, m) > 0 {
        return;
    }
    flags::lattice_flags(l, flags, out);
}

// Those of level 0 once the permittivity of `edge` is changed.
fn first_hits(choice: Choice, l: &Sound<'_>, m: usize, edge: usize) -> Hits
    requires { edge < edges_on (full l.now) 0 }
    ensures { FirstHits (full l.now) edge choice m result }
{
    let mut eps = [false; EDGES];
    flags::raise(&mut eps, edge, true);
    let mut operator = [false; EDGES];
    first_operator(choice, l, m, &eps, &mut operator);
    let averaged = eps;
    let forward = [false; EDGES];
    let turned = [false; EDGES];
    Hits {
        eps,
        averaged,
        forward,
        turned,
        operator,
    }
}

// Those of the transfer from level `level` + 1 to `level`, from the permittivities of level `level`; the others are left.
// Every fine permittivity that a forward row reads is read by the permittivity of one of its columns, so the columns alone tell which forward rows are reached.
fn transfer_hits(h: &Hierarchy<'_>, level: usize, a: LevelParts, s: &Structure<'_>, hits: &mut Hits)
    requires level_lt_m { level < h.now.m }
    requires hits_long { HitsLong hits.old }
    requires transfer_held { TransferHeld (the_lattice h.now) level a s.now.starts.now s.now.columns.now s.now.tstarts.now s.now.tcolumns.now }
    ensures { TransferRaised (the_lattice h.now) level hits.old hits.new }
{
    let n = h.edges(level);
    let k = h.edges(level + 1);
    let mut eps = [false; EDGES];
    flags::eps_flags(h, level, &hits.eps, &mut eps);
    hits.eps = eps;
    hits.forward = [false; EDGES];
    flags::stored_flags(
        a.forward,
        n,
        s.starts,
        s.columns,
        &hits.eps,
        &mut hits.forward,
    );
    hits.turned = [false; EDGES];
    let t = a.turned;
    flags::stored_flags(t, k, s.tstarts, s.tcolumns, &hits.forward, &mut hits.turned);
}

// Raises the flags of the n rows of level `level`'s operator that name a flagged column. Level 0's are not stored, the others stand from o on.
fn lead_flags(
    l: &Sound<'_>,
    level: usize,
    o: Part,
    n: usize,
    ostarts: &[usize],
    ocolumns: &[usize],
    flags: &[bool],
    out: &mut [bool],
)
    requires operator_held { OperatorHeld (full l.now) Galerkin level o ostarts.now ocolumns.now }
    requires n_value { (n ≡ edges_on (full l.now) level) × (n ≤ length out.old) }
    ensures { Raised n flags.now (operator_cols (full l.now) Galerkin level) out.old out.new }
{
    if level == 0 {
        flags::first_flags(l, flags, out);
        return;
    }
    flags::stored_flags(o, n, ostarts, ocolumns, flags, out);
}

// The rows of Galerkin's operator of level `level` + 1: those whose turned row names a fine row that is reached or names a forward row that is.
fn galerkin_hits(h: &Hierarchy<'_>, level: usize, a: LevelParts, s: &Structure<'_>, hits: &mut Hits)
    requires level_lt_m { level < h.now.m }
    requires hits_long { HitsLong hits.old }
    requires rows_held { RowsHeld (turned_cols (the_lattice h.now) level) (edges_on (the_lattice h.now) (suc level)) a.turned s.now.tstarts.now s.now.tcolumns.now }
    requires operator_held { OperatorHeld (the_lattice h.now) Galerkin level a.operator s.now.ostarts.now s.now.ocolumns.now }
    ensures { OperatorRaised (the_lattice h.now) Galerkin level hits.old hits.new }
{
    let n = h.edges(level);
    let k = h.edges(level + 1);
    let mut leads = hits.operator;
    lead_flags(
        &h.l,
        level,
        a.operator,
        n,
        s.ostarts,
        s.ocolumns,
        &hits.forward,
        &mut leads,
    );
    hits.operator = [false; EDGES];
    flags::stored_flags(
        a.turned,
        k,
        s.tstarts,
        s.tcolumns,
        &leads,
        &mut hits.operator,
    );
}

// The averaged permittivities and the rows of the rediscretized operator of level `level` + 1.
fn rediscretized_hits(h: &Hierarchy<'_>, level: usize, hits: &mut Hits)
    requires level_lt_m { level < h.now.m }
    requires hits_long { HitsLong hits.old }
    ensures { OperatorRaised (the_lattice h.now) Rediscretized level hits.old hits.new }
{
    let mut averaged = [false; EDGES];
    flags::averaged_flags(h, level, &hits.averaged, &mut averaged);
    hits.averaged = averaged;
    hits.operator = [false; EDGES];
    flags::rediscretized_flags(h, level, &hits.averaged, &mut hits.operator);
}

// Either of them.
fn operator_hits(
    choice: Choice,
    h: &Hierarchy<'_>,
    level: usize,
    a: LevelParts,
    s: &Structure<'_>,
    hits: &mut Hits,
)
    requires level_lt_m { level < h.now.m }
    requires hits_long { HitsLong hits.old }
    requires rows_held { RowsHeld (turned_cols (the_lattice h.now) level) (edges_on (the_lattice h.now) (suc level)) a.turned s.now.tstarts.now s.now.tcolumns.now }
    requires operator_held { OperatorHeld (the_lattice h.now) choice level a.operator s.now.ostarts.now s.now.ocolumns.now }
    ensures { OperatorRaised (the_lattice h.now) choice level hits.old hits.new }
{
    match choice {
        Choice::Galerkin => galerkin_hits(h, level, a, s, hits),
        Choice::Rediscretized => rediscretized_hits(h, level, hits),
    }
}

// All flags of level `level` + 1, from those of level `level`, whose rows and those of the transfer stand in the lists.
fn level_hits(
    choice: Choice,
    h: &Hierarchy<'_>,
    level: usize,
    a: LevelParts,
    s: &Structure<'_>,
    hits: &mut Hits,
)
    requires level_lt_m { level < h.now.m }
    requires hits_long { HitsLong hits.old }
    requires transfer_held { TransferHeld (the_lattice h.now) level a s.now.starts.now s.now.columns.now s.now.tstarts.now s.now.tcolumns.now }
    requires operator_held { OperatorHeld (the_lattice h.now) choice level a.operator s.now.ostarts.now s.now.ocolumns.now }
    ensures { LevelRaised (the_lattice h.now) choice level hits.old hits.new }
{
    transfer_hits(h, level, a, s, hits);
    operator_hits(choice, h, level, a, s, hits);
}

// ---- where the rows stand

// The part behind n rows of level `level`'s operator, which are not stored on level 0.
fn next_operator(level: usize, o: Part, n: usize, ostarts: &[usize]) -> Part
    requires { (level ≡ 0 → ⊥) → (o.s + n < length ostarts.now) × (o.k + get_or ostarts.now (o.s + n) 0 ≤ 2 ^ 40) }
    ensures { result ≡ cond (eqb level 0) o (behind_of o n ostarts.now) }
{
    if level == 0 {
        return o;
    }
    lines::behind(o, n, ostarts)
}

// The parts behind those of level `level`, whose rows' starts stand in the lists. Not `store::transfers::next_offsets`: a setup, which uses it, hasn't yet the
// starts of the turned rows and counts the permittivities too.
fn next_parts(
    choice: Choice,
    h: &Hierarchy<'_>,
    level: usize,
    a: LevelParts,
    s: &Structure<'_>,
) -> LevelParts
    requires level_lt_m { level < h.now.m }
    requires a_value { a ≡ parts_at (the_lattice h.now) choice h.now.m level }
    requires level_ends { LevelEnds (the_lattice h.now) choice level a s.now.starts.now s.now.tstarts.now s.now.ostarts.now }
    ensures { result ≡ parts_at (the_lattice h.now) choice h.now.m (suc level) }
{
    let n = h.edges(level);
    let k = h.edges(level + 1);
    let forward = lines::behind(a.forward, n, s.starts);
    let turned = lines::behind(a.turned, k, s.tstarts);
    let operator = next_operator(level, a.operator, n, s.ostarts);
    LevelParts {
        forward,
        turned,
        operator,
    }
}

// ---- all levels

// The bits of exactly the rows that a change of the permittivity of `edge` reaches, in flags that are zero. `requires`: starts and columns that are the
// lattice's.
pub fn raise_flags(
    choice: Choice,
    h: &Hierarchy<'_>,
    edge: usize,
    s: &Structure<'_>,
    flags: &mut [u64],
)
    requires shaped { Shaped (the_lattice h.now) choice h.now.m (fixed_of s.now) }
    requires edge_bound { edge < edges_on (the_lattice h.now) 0 }
    requires flags_value { flags.old ≡ replicate flag_words 0 }
    ensures { FlagsOf (the_lattice h.now) choice h.now.m (hit (the_lattice h.now) edge choice) flags.new }
{
    let first = h.edges(0);
    let mut hits = first_hits(choice, &h.l, h.m, edge);
    let mut base = sole_bits(h.m, first, &hits, flags);
    let start = Part { s: 0, k: 0 };
    let mut a = LevelParts {
        forward: start,
        turned: start,
        operator: start,
    };
    for level in 0..h.m {
        let n = h.edges(level);
        let k = h.edges(level + 1);
        level_hits(choice, h, level, a, s, &mut hits);
        base = level_bits(choice, n, k, base, &hits, flags);
        a = next_parts(choice, h, level, a, s);
    }
}
