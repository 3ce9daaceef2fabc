// How many places the lists need, from structure alone, and the list that is short.

ghost use Rattle.store.specs.Hierarchy.{the_lattice};
ghost use Rattle.std.specs.Prelude.{◌≡◌, suc, ◌+◌, ◌*◌, ◌<◌, ◌≤◌, ◌^◌, cond, eqb, not, unwrap_or, IfSome};
ghost use Rattle.std.specs.List.{position};
ghost use Rattle.numbers.specs.Lists.{sum_to};
ghost use Rattle.lattice.specs.Sound.{full};
ghost use Rattle.operators.specs.LevelLists.{edges_on};
ghost use Rattle.store.specs.Layout.{forward_count, forward_off, operator_count, operator_off, ends_off};
ghost use Rattle.store.specs.Setup.{room_of};
ghost use Rattle.store.specs.FillSteps.{coarse_terms, only_count, needs_of, short_in};
ghost use Rattle.store.specs.declared.Choice.TheVariants.{Galerkin, Rediscretized};

use crate::hierarchy::Hierarchy;
use crate::{Choice, lines, relations};
use lattice::sound::Sound;
use operators::pattern;
use weights::{prolongation, tables};

// Places: line ends, numbers of the permittivities, starts of the forward rows and terms of them (the turned rows have as many), starts of the turned
// rows, starts and terms of the operator rows, numbers of the scaling.
#[derive(Clone, Copy)]
pub struct Needs {
    pub ends: usize,
    pub eps: usize,
    pub starts: usize,
    pub terms: usize,
    pub tstarts: usize,
    pub ostarts: usize,
    pub oterms: usize,
    pub scaling: usize,
}

// The lengths of the twelve lists.
#[derive(Clone, Copy)]
pub struct Lengths {
    pub ends: usize,
    pub eps: usize,
    pub starts: usize,
    pub columns: usize,
    pub values: usize,
    pub tstarts: usize,
    pub tcolumns: usize,
    pub tvalues: usize,
    pub ostarts: usize,
    pub ocolumns: usize,
    pub ovalues: usize,
    pub scaling: usize,
}

// ---- needs

// The ends of the lines of all levels.
fn line_ends(h: &Hierarchy<'_>) -> usize
    ensures { result ≡ ends_off (the_lattice h.now) (3 * suc h.now.m) }
{
    let n = 3 * (h.m + 1);
    let lines = h.lines;
    let mut total = 0;
    for f in &lines[..n] {
        total += f.cells + 1;
    }
    total
}

// The edges of n levels from level `from` on.
pub fn edges_from(h: &Hierarchy<'_>, from: usize, n: usize) -> usize
    requires n_bound { from + n ≤ h.now.m + 1 }
    ensures { result ≡ sum_to (λ i. edges_on (the_lattice h.now) (from + i)) n }
{
    (from..from + n).map(|level| h.edges(level)).sum()
}

// The weights of a transfer.
fn forward_on(h: &Hierarchy<'_>, level: usize) -> usize
    requires level_lt_m { level < h.now.m }
    ensures { result ≡ forward_count (the_lattice h.now) level }
{
    prolongation::count(&h.pair(level))
}

// Those of all transfers.
fn forward_terms(h: &Hierarchy<'_>) -> usize
    ensures { result ≡ forward_off (the_lattice h.now) h.now.m }
{
    (0..h.m).map(|level| forward_on(h, level)).sum()
}

// The terms of the lattice's own rows.
fn sole_terms(l: &Sound<'_>) -> usize
    ensures value { result ≡ operator_count (full l.now) Galerkin 0 }
    ensures value_2 { result ≡ operator_count (full l.now) Rediscretized 0 }
{
    let u = pattern::base_relations(l.lattice, l.st, l.lattice.grid);
    pattern::level_count(l.lattice, l.st, l.lattice.grid, &u)
}

// The terms of Galerkin's operators of levels 1 to m: the relations go from level to level.
fn galerkin_terms(h: &Hierarchy<'_>) -> usize
    ensures { result ≡ coarse_terms (the_lattice h.now) Galerkin h.now.m }
{
    let mut u = relations::first_relations(&h.l);
    let mut total = 0;
    for level in 0..h.m {
        u = relations::next_relations(h, level, &u);
        total += relations::level_terms(h, level + 1, &u);
    }
    total
}

// Those of a rediscretized level.
fn rediscretized_on(h: &Hierarchy<'_>, level: usize) -> usize
    requires level_le_m { level ≤ h.now.m }
    ensures { result ≡ operator_count (the_lattice h.now) Rediscretized level }
{
    let g = tables::grid_of(h.l.lattice.grid, h.three(level));
    let u = pattern::base_relations(h.l.lattice, h.l.st, g);
    pattern::level_count(h.l.lattice, h.l.st, g, &u)
}

// Those of the rediscretized operators of levels 1 to m.
fn rediscretized_terms(h: &Hierarchy<'_>) -> usize
    ensures { result ≡ coarse_terms (the_lattice h.now) Rediscretized h.now.m }
{
    (0..h.m).map(|level| rediscretized_on(h, level + 1)).sum()
}

// The terms of the stored operators: those of levels 1 to m, or that of the only level.
fn operator_terms(h: &Hierarchy<'_>, choice: Choice) -> usize
    ensures { result ≡ operator_off (the_lattice h.now) choice h.now.m (suc h.now.m) }
{
    if h.m == 0 {
        return sole_terms(&h.l);
    }
    match choice {
        Choice::Galerkin => galerkin_terms(h),
        Choice::Rediscretized => rediscretized_terms(h),
    }
}

// What only a rediscretized store needs.
pub fn only(choice: Choice, n: usize) -> usize
    ensures { result ≡ only_count choice n }
{
    match choice {
        Choice::Galerkin => 0,
        Choice::Rediscretized => n,
    }
}

// The starts of the stored operators, from the edges of level 0 and those of levels 1 to m.
fn stored_starts(m: usize, first: usize, coarse: usize) -> usize
    requires { (m ≤ 11) × (first ≤ 2 ^ 32) × (coarse ≤ 2 ^ 32) }
    ensures { result ≡ cond (eqb m 0) (first + 1) (coarse + m) }
{
    if m == 0 {
        return first + 1;
    }
    coarse + m
}

// The needs of all lists of m transfers. `requires`: the lines of m + 1 levels.
pub fn count(h: &Hierarchy<'_>, choice: Choice) -> Needs
    ensures { result ≡ needs_of (the_lattice h.now) choice h.now.m }
{
    let first = edges_from(h, 0, 1);
    let fine = edges_from(h, 0, h.m);
    let coarse = edges_from(h, 1, h.m);
    let averaged = only(choice, coarse);
    Needs {
        ends: line_ends(h),
        eps: first + coarse + averaged,
        starts: fine + h.m,
        terms: forward_terms(h),
        tstarts: coarse + h.m,
        ostarts: stored_starts(h.m, first, coarse),
        oterms: operator_terms(h, choice),
        scaling: only(choice, fine + coarse),
    }
}

// ---- refusal 6

// Whether a list of three has room: starts, columns, and values of two doubles each.
fn has_room(starts: usize, terms: usize, hs: usize, hc: usize, hv: usize) -> bool
    ensures { result ≡ room_of starts terms hs hc hv }
{
    starts <= hs && (terms <= hc && terms <= hv / 2)
}

// The first of six lists that does not fit.
fn first_short(fits: [bool; 6]) -> Option<usize>
    ensures value { result ≡ position not fits }
    ensures within { IfSome result (λ list. list < 6) }
{
    fits.iter().position(|fits| !*fits)
}

// The first list that is short.
pub fn short(n: Needs, h: Lengths) -> Option<usize>
    ensures value { unwrap_or result 6 ≡ short_in n h }
    ensures within { IfSome result (λ list. list < 6) }
{
    let a = n.ends <= h.ends;
    let b = n.eps <= h.eps / 2;
    let c = has_room(n.starts, n.terms, h.starts, h.columns, h.values);
    let d = has_room(n.tstarts, n.terms, h.tstarts, h.tcolumns, h.tvalues);
    let e = has_room(n.ostarts, n.oterms, h.ostarts, h.ocolumns, h.ovalues);
    let f = n.scaling <= h.scaling / 2;
    first_short([a, b, c, d, e, f])
}
