// Lists of flags, one for each row of one kind on one level, raised where a row reads what is flagged.

ghost use Rattle.std.specs.Prelude.{◌≡◌, ℕ, List, Bool, false, ◌||◌, suc, ◌+◌, ◌*◌, ◌<◌, ◌≤◌, length, get_or, set};
ghost use Rattle.numbers.specs.Lists.{any_flag, Marked};
ghost use Rattle.lattice.specs.Grid.{unknowns_of};
ghost use Rattle.lattice.specs.Sound.{full};
ghost use Rattle.weights.specs.CoarseEps.{eps_reads};
ghost use Rattle.weights.specs.TwoLevels.{two_at};
ghost use Rattle.operators.specs.Averaged.{averaged_reads};
ghost use Rattle.operators.specs.LevelLists.{edges_on};
ghost use Rattle.operators.specs.Levels.{lattice_at};
ghost use Rattle.operators.specs.Stencil.{stencil_reads};
ghost use Rattle.store.specs.FillSteps.{Relations};
ghost use Rattle.store.specs.Hierarchy.{the_lattice};
ghost use Rattle.store.specs.Layout.{operator_cols};
ghost use Rattle.store.specs.Work.{RowsAt};
ghost use Rattle.store.specs.ReachSteps.{Raised, RowsThere, RaisedBy};
ghost use Rattle.store.specs.declared.Choice.TheVariants.{Galerkin};

use lattice::sound::Sound;
use lattice::{grid, neighbours};
use numbers::lists;
use numbers::terms::Part;
use operators::nested::NestedPair;
use operators::{averaged, rediscretized, stencil};
use store::hierarchy::Hierarchy;
use store::{lines, relations};
use weights::{eps, tables};

// Flag r is raised if b says so, and else left.
pub fn raise(out: &mut [bool], r: usize, b: bool)
    requires { r < length out.old }
    ensures { out.new ≡ set out.old r (get_or out.old r false || b) }
{
    if !b {
        return;
    }
    out[r] = true;
}

// Those of the first n flags are raised that `reads` says, and all else is left.
fn raise_each<F: Fn(usize) -> bool>(n: usize, out: &mut [bool], reads: F)
    requires n_in_bounds { n ≤ length out.old }
    requires calls { (r : ℕ) → r < n → F.pre reads r }
    ensures { (flags : List Bool) (cols : ℕ → List ℕ) → ((r : ℕ) (b : Bool) → r < n → F.post reads r b → b ≡ any_flag flags (cols r)) → Raised n flags cols out.old out.new }
{
    for r in 0..n {
        raise(out, r, reads(r));
    }
}

// ---- the permittivities of a coarse level

// The permittivities of level `level` + 1 that read a flagged one of level `level`.
pub fn eps_flags(h: &Hierarchy<'_>, level: usize, flags: &[bool], out: &mut [bool])
    requires level_lt_m { level < h.now.m }
    requires level_in_bounds { edges_on (the_lattice h.now) (suc level) ≤ length out.old }
    ensures { Raised (edges_on (the_lattice h.now) (suc level)) flags.now (eps_reads (two_at (the_lattice h.now) level))
        out.old out.new }
{
    let pair = h.pair(level);
    let gf = tables::grid_of(h.l.lattice.grid, pair.fine);
    let gc = tables::grid_of(h.l.lattice.grid, pair.coarse);
    let nn = tables::nodes(&pair);
    let n = grid::unknowns(gc);
    raise_each(n, out, |r: usize| eps::eps_flagged(gf, gc, &nn, flags, r));
}

// ---- the averaged permittivities of a coarse level

// The averaged permittivities of level `level` + 1 that read a flagged one of level `level`.
pub fn averaged_flags(h: &Hierarchy<'_>, level: usize, flags: &[bool], out: &mut [bool])
    requires level_lt_m { level < h.now.m }
    requires level_in_bounds { (edges_on (the_lattice h.now) level ≤ length flags.now) × (edges_on (the_lattice h.now) (suc level) ≤ length out.old) }
    ensures { Raised (edges_on (the_lattice h.now) (suc level)) flags.now (averaged_reads (two_at (the_lattice h.now) level))
        out.old out.new }
{
    let pair = h.pair(level);
    let nested = NestedPair { pair: &pair };
    let n = h.edges(level + 1);
    let nn = tables::nodes(&pair);
    raise_each(n, out, |r: usize| {
        averaged::averaged_flagged(&nested, &nn, flags, r)
    });
}

// ---- rows of a lattice's operator

// The edges that row c of the lattice's own operator reads, if edge c is flagged.
fn lattice_row(l: &Sound<'_>, flags: &[bool], c: usize, out: &mut [bool])
    requires c_bound { c < unknowns_of l.now.lattice.grid }
    requires grid_in_bounds { unknowns_of l.now.lattice.grid ≤ length out.old }
    ensures { Marked (get_or flags.now c false) (stencil_reads (full l.now) c) out.old out.new }
{
    if !lists::flagged(flags, c) {
        return;
    }
    stencil::mark_reads(l, c, out);
}

// The rows of the lattice's own operator that read a flagged permittivity: reading goes both ways, so they are what the flagged ones' rows read.
pub fn lattice_flags(l: &Sound<'_>, flags: &[bool], out: &mut [bool])
    requires { unknowns_of l.now.lattice.grid ≤ length out.old }
    ensures { Raised (unknowns_of l.now.lattice.grid) flags.now (stencil_reads (full l.now)) out.old out.new }
{
    let n = grid::unknowns(l.lattice.grid);
    // A loop here and one in `first_rows`: a function of both would say in its clauses what a call does to the list, which is longer than the loops.
    for c in 0..n {
        lattice_row(l, flags, c, out);
    }
}

// The rows of the rediscretized operator of level `level` + 1 that read a flagged averaged permittivity of that level.
pub fn rediscretized_flags(h: &Hierarchy<'_>, level: usize, flags: &[bool], out: &mut [bool])
    requires level_lt_m { level < h.now.m }
    requires level_in_bounds { edges_on (the_lattice h.now) (suc level) ≤ length out.old }
    ensures { Raised (edges_on (the_lattice h.now) (suc level)) flags.now (stencil_reads (lattice_at (the_lattice h.now) (suc level)))
        out.old out.new }
{
    let s = h.three(level + 1);
    let lattice = rediscretized::rediscretized_lattice(h.l.lattice, s);
    let stretches = rediscretized::rediscretized_stretches(&h.l, s);
    let own = Sound {
        lattice,
        st: &stretches,
    };
    lattice_flags(&own, flags, out);
}

// ---- rows by their columns

// Whether row r, of n that stand in two lists from part o on, names a flagged column.
fn stored_flag(
    o: Part,
    n: usize,
    starts: &[usize],
    columns: &[usize],
    flags: &[bool],
    r: usize,
) -> bool
    requires rows_there { RowsThere n o starts.now columns.now }
    requires r_lt_n { r < n }
    ensures { (cols : ℕ → List ℕ) → RowsAt cols n o starts.now columns.now → result ≡ any_flag flags.now (cols r) }
{
    let s = o.s;
    let a = starts[s + r];
    let e = starts[s + r + 1];
    lists::any_flag(flags, columns, o.k + a, e - a)
}

// The rows that stand in two lists from part o on and name a flagged column.
pub fn stored_flags(
    o: Part,
    n: usize,
    starts: &[usize],
    columns: &[usize],
    flags: &[bool],
    out: &mut [bool],
)
    requires rows_there { RowsThere n o starts.now columns.now }
    requires n_in_bounds { n ≤ length out.old }
    ensures { RaisedBy n o starts.now columns.now flags.now out.old out.new }
{
    raise_each(n, out, |r: usize| {
        stored_flag(o, n, starts, columns, flags, r)
    });
}

// The columns of row c of level 0's operator, if c is flagged. u has the relations of level 0.
fn first_row(l: &Sound<'_>, u: &[u64], flags: &[bool], c: usize, out: &mut [bool])
    requires relations { Relations (full l.now) 0 u.now }
    requires c_bound { c < unknowns_of l.now.lattice.grid }
    requires grid_in_bounds { unknowns_of l.now.lattice.grid ≤ length out.old }
    ensures { Marked (get_or flags.now c false) (operator_cols (full l.now) Galerkin 0 c) out.old out.new }
{
    if !lists::flagged(flags, c) {
        return;
    }
    let p = grid::at(l.lattice.grid, c);
    let fixed = neighbours::fixed_at(l.lattice, l.st, p);
    let mut cs = [0usize; 30];
    let n = operators::tables::row_columns(u, l.lattice.grid, fixed, c, p, &mut cs, 0);
    lists::mark_each(out, &cs, n);
}

fn first_rows(l: &Sound<'_>, u: &[u64], flags: &[bool], out: &mut [bool])
    requires relations { Relations (full l.now) 0 u.now }
    requires grid_in_bounds { unknowns_of l.now.lattice.grid ≤ length out.old }
    ensures { Raised (unknowns_of l.now.lattice.grid) flags.now (operator_cols (full l.now) Galerkin 0) out.old out.new }
{
    let n = grid::unknowns(l.lattice.grid);
    for c in 0..n {
        first_row(l, u, flags, c, out);
    }
}

// The rows of level 0's operator that name a flagged column. They are not stored, so their columns come from the lattice; naming goes both ways,
// so they are the columns of the flagged rows.
pub fn first_flags(l: &Sound<'_>, flags: &[bool], out: &mut [bool])
    requires { unknowns_of l.now.lattice.grid ≤ length out.old }
    ensures { Raised (unknowns_of l.now.lattice.grid) flags.now (operator_cols (full l.now) Galerkin 0) out.old out.new }
{
    let u = relations::first_relations(l);
    first_rows(l, &u, flags, out);
}
