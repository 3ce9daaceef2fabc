// The given permittivities and the transfers of all levels, laid one behind another into the lent lists.

ghost use Rattle.store.specs.Hierarchy.{the_lattice};
ghost use Rattle.std.specs.Prelude.{◌≡◌, suc, ◌+◌, ◌*◌, ◌<◌, ◌≤◌, ◌^◌, length, get_or};
ghost use Rattle.numbers.specs.Places.{number_at};
ghost use Rattle.numbers.specs.Lists.{tabulate, laid_numbers};
ghost use Rattle.operators.specs.LevelLists.{edges_on};
ghost use Rattle.store.specs.Layout.{forward_count};
ghost use Rattle.store.specs.Phases.{TransferRoom, TransfersLeft, first_of, weights_fine, level_code};
ghost use Rattle.store.specs.FillSteps.{offsets_at, behind_of, TransferDone};

use crate::hierarchy::Hierarchy;
use crate::lines;
use numbers::terms::Part;
use weights::whole;

// Where the parts of a transfer begin: the permittivities of its fine and of its coarse level; starts and terms of its forward rows and of its turned rows.
#[derive(Clone, Copy)]
pub struct Offsets {
    pub feps: usize,
    pub ceps: usize,
    pub s: usize,
    pub k: usize,
    pub ts: usize,
    pub tk: usize,
}

// Where the parts of the first transfer begin.
pub fn first_offsets(h: &Hierarchy<'_>) -> Offsets
    ensures { result ≡ offsets_at (the_lattice h.now) 0 }
{
    let n = h.edges(0);
    Offsets {
        feps: 0,
        ceps: n,
        s: 0,
        k: 0,
        ts: 0,
        tk: 0,
    }
}

// Where the parts behind n fine edges, m coarse ones and w weights begin.
fn behind(o: Offsets, n: usize, m: usize, w: usize) -> Offsets
    requires { (o.ceps + m ≤ 2 ^ 40) × (o.s + n ≤ 2 ^ 40) × (o.k + w ≤ 2 ^ 40) × (o.ts + m ≤ 2 ^ 40) × (o.tk + w ≤ 2 ^ 40) }
    ensures { result ≡ behind_of o n m w }
{
    Offsets {
        feps: o.ceps,
        ceps: o.ceps + m,
        s: o.s + n + 1,
        k: o.k + w,
        ts: o.ts + m + 1,
        tk: o.tk + w,
    }
}

// Where the parts of the next transfer begin: the starts of this one's forward rows stand in the list.
pub fn next_offsets(h: &Hierarchy<'_>, level: usize, o: Offsets, starts: &[usize]) -> Offsets
    requires level_lt_m { level < h.now.m }
    requires o_value { o ≡ offsets_at (the_lattice h.now) level }
    requires level_in_bounds { (o.s + edges_on (the_lattice h.now) level < length starts.now)
        × (get_or starts.now (o.s + edges_on (the_lattice h.now) level) 0 ≡ forward_count (the_lattice h.now) level) }
    ensures { result ≡ offsets_at (the_lattice h.now) (suc level) }
{
    let n = h.edges(level);
    let k = h.edges(level + 1);
    let s = o.s;
    behind(o, n, k, starts[s + n])
}

// The given permittivities, one for each of n edges, at the front of the list.
fn lay_given(given: &[f64], n: usize, eps: &mut [f64])
    requires { (n ≤ 12288) × (2 * n ≤ length given.now) × (2 * n ≤ length eps.old) }
    ensures { eps.new ≡ laid_numbers eps.old 0 (tabulate (number_at given.now) n 0) }
{
    // An index: a number is two doubles of either list. `copy_from_slice` asks whoever links the library for C for `memmove`.
    for k in 0..n {
        numbers::put(eps, k, numbers::get(given, k));
    }
}

// The transfer from level `level` + 1 to `level`: the permittivities of the coarse level, the forward rows and the turned rows. Whether all is finite.
fn level_transfer(
    h: &Hierarchy<'_>,
    level: usize,
    o: Offsets,
    eps: &mut [f64],
    starts: &mut [usize],
    columns: &mut [usize],
    values: &mut [f64],
    tstarts: &mut [usize],
    tcolumns: &mut [usize],
    tvalues: &mut [f64],
) -> bool
    requires level_lt_m { level < h.now.m }
    requires o_value { o ≡ offsets_at (the_lattice h.now) level }
    requires transfer_room { TransferRoom (the_lattice h.now) h.now.m eps.old starts.old columns.old values.old tstarts.old tcolumns.old tvalues.old }
    ensures { TransferDone (the_lattice h.now) level result eps.old starts.old columns.old values.old
        tstarts.old tcolumns.old tvalues.old eps.new starts.new columns.new values.new
        tstarts.new tcolumns.new tvalues.new }
{
    let pair = h.pair(level);
    let p = Part { s: o.s, k: o.k };
    let t = Part { s: o.ts, k: o.tk };
    whole::transfer(
        &pair, o.feps, o.ceps, p, t, eps, starts, columns, values, tstarts, tcolumns, tvalues,
    )
}

// The given permittivities and m transfers. The first transfer that has a number that is not finite.
// `requires`: the lines of m + 1 levels, as many given permittivities as the lattice has edges, and room.
pub fn transfers(
    h: &Hierarchy<'_>,
    given: &[f64],
    eps: &mut [f64],
    starts: &mut [usize],
    columns: &mut [usize],
    values: &mut [f64],
    tstarts: &mut [usize],
    tcolumns: &mut [usize],
    tvalues: &mut [f64],
) -> Option<usize>
    requires st_in_bounds { 2 * edges_on (the_lattice h.now) 0 ≤ length given.now }
    requires transfer_room { TransferRoom (the_lattice h.now) h.now.m eps.old starts.old columns.old values.old tstarts.old tcolumns.old tvalues.old }
    ensures transfers_left { TransfersLeft (the_lattice h.now) (number_at given.now) h.now.m eps.old starts.old columns.old
        values.old tstarts.old tcolumns.old tvalues.old eps.new starts.new columns.new
        values.new tstarts.new tcolumns.new tvalues.new }
    ensures value { level_code result ≡ first_of (weights_fine (the_lattice h.now) (number_at given.now)) h.now.m }
{
    let n = h.edges(0);
    lay_given(given, n, eps);
    let mut o = first_offsets(h);
    let mut bad = None;
    for level in 0..h.m {
        let ok = level_transfer(
            h, level, o, eps, starts, columns, values, tstarts, tcolumns, tvalues,
        );
        o = next_offsets(h, level, o, starts);
        bad = lines::noted(bad, level, ok);
    }
    bad
}
