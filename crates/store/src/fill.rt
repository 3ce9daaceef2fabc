// The fill: every phase of a setup, in the twelve lent lists.

ghost use Rattle.store.specs.Hierarchy.{the_lattice};
ghost use Rattle.std.specs.Prelude.{◌≡◌, suc, ◌+◌, ◌*◌, ◌<◌, ◌≤◌, length};
ghost use Rattle.numbers.specs.Places.{number_at};
ghost use Rattle.operators.specs.LevelLists.{edges_on};
ghost use Rattle.store.specs.Store.{sizes};
ghost use Rattle.store.specs.Lists.{store_of, SameLists};
ghost use Rattle.store.specs.Layout.{Enough};
ghost use Rattle.store.specs.Phases.{level_code, lower_of};
ghost use Rattle.store.specs.FillSteps.{OperatorsReady};
ghost use Rattle.store.specs.Ready.{ChosenRoom, ScalingAsked, ChosenDone, ScalingDone};
ghost use Rattle.store.specs.Steps.{filling, fill_of, fill_code};

use crate::hierarchy::Hierarchy;
use crate::lists::{Lists, Transfers};
use crate::{Choice, ends, galerkin_levels, lines, rediscretized_levels, scaling, sole, transfers};

// The lower of two levels, where there are any.
fn lower(a: Option<usize>, b: Option<usize>) -> Option<usize>
    ensures { level_code result ≡ lower_of (level_code a) (level_code b) }
{
    match (a, b) {
        (Some(x), Some(y)) => Some(x.min(y)),
        _ => a.or(b),
    }
}

// The first level that is not finite, from what the phases answer: of a sole level what the operators do, else the level behind the lowest of theirs.
fn first_bad(m: usize, a: Option<usize>, b: Option<usize>, c: Option<usize>) -> Option<usize>
    requires { (level_code a ≤ m) × (level_code b ≤ suc m) × (level_code c ≤ m) × (m ≤ 11) }
    ensures { level_code result ≡ fill_code m (level_code a) (level_code b) (level_code c) }
{
    if m == 0 {
        return b;
    }
    let bad = lower(lower(a, b), c);
    bad.map(|level| level + 1)
}

// The operators of m transfers, of either choice, and the averaged permittivities of the rediscretized ones. The first transfer whose coarse level has a
// number that is not finite; of a sole level 0 if it has one.
fn operators(
    choice: Choice,
    h: &Hierarchy<'_>,
    eps: &mut [f64],
    rows: &Transfers<'_>,
    ostarts: &mut [usize],
    ocolumns: &mut [usize],
    ovalues: &mut [f64],
) -> Option<usize>
    requires operators_ready { OperatorsReady (the_lattice h.now) h.now.m eps.old rows.now.starts.now rows.now.columns.now rows.now.values.now rows.now.tstarts.now rows.now.tcolumns.now rows.now.tvalues.now }
    requires chosen_room { ChosenRoom (the_lattice h.now) choice h.now.m eps.old ostarts.old ocolumns.old ovalues.old }
    ensures { ChosenDone (the_lattice h.now) choice h.now.m eps.old rows.now.starts.now rows.now.columns.now rows.now.values.now
        rows.now.tstarts.now rows.now.tcolumns.now rows.now.tvalues.now ostarts.old ocolumns.old ovalues.old
        eps.new ostarts.new ocolumns.new ovalues.new (level_code result) }
{
    if h.m == 0 {
        return lines::noted(None, 0, sole::sole(&h.l, eps, ostarts, ocolumns, ovalues));
    }
    match choice {
        Choice::Galerkin => galerkin_levels::operators(h, eps, rows, ostarts, ocolumns, ovalues),
        Choice::Rediscretized => rediscretized_levels::operators(
            h, eps, ostarts, ocolumns, ovalues,
        ),
    }
}

// The volumes and inverse shares of m transfers, if rediscretized. The first transfer that has one that is not finite.
fn scalings(
    choice: Choice,
    h: &Hierarchy<'_>,
    rows: &Transfers<'_>,
    scaling: &mut [f64],
) -> Option<usize>
    requires scaling_asked { ScalingAsked (the_lattice h.now) choice h.now.m rows.now.tstarts.now rows.now.tcolumns.now rows.now.tvalues.now scaling.old }
    ensures { ScalingDone (the_lattice h.now) choice h.now.m rows.now.tstarts.now rows.now.tcolumns.now rows.now.tvalues.now
        scaling.old scaling.new (level_code result) }
{
    match choice {
        Choice::Galerkin => None,
        Choice::Rediscretized => scaling::scaling(
            h,
            rows.tstarts,
            rows.tcolumns,
            rows.tvalues,
            scaling,
        ),
    }
}

// All of a setup's lists, for m transfers. The first level that has a number that is not finite.
pub fn fill(
    choice: Choice,
    h: &Hierarchy<'_>,
    given: &[f64],
    lists: &mut Lists<'_>,
) -> Option<usize>
    requires st_in_bounds { 2 * edges_on (the_lattice h.now) 0 ≤ length given.now }
    requires enough { Enough (the_lattice h.now) choice h.now.m (sizes (store_of lists.old)) }
    ensures same { SameLists lists.old lists.new }
    ensures filled { filling (level_code result) (store_of lists.new)
        ≡ fill_of (the_lattice h.now) choice h.now.m (number_at given.now) (store_of lists.old) }
{
    // Each list is taken out first: once some are lent, the borrow checker covers no read behind `lists`.
    let eps = &mut *lists.eps;
    let starts = &mut *lists.starts;
    let columns = &mut *lists.columns;
    let values = &mut *lists.values;
    let tstarts = &mut *lists.tstarts;
    let tcolumns = &mut *lists.tcolumns;
    let tvalues = &mut *lists.tvalues;
    ends::lay_lines(h.lines, h.m, lists.ends);
    let a = transfers::transfers(
        h, given, eps, starts, columns, values, tstarts, tcolumns, tvalues,
    );
    let rows = Transfers {
        starts,
        columns,
        values,
        tstarts,
        tcolumns,
        tvalues,
    };
    let b = operators(
        choice,
        h,
        eps,
        &rows,
        lists.ostarts,
        lists.ocolumns,
        lists.ovalues,
    );
    let c = scalings(choice, h, &rows, lists.scaling);
    first_bad(h.m, a, b, c)
}
