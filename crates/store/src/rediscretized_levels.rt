// The averaged permittivities and the rediscretized operators of all levels, laid one behind another into the lent lists.

ghost use Rattle.store.specs.Hierarchy.{the_lattice};
ghost use Rattle.std.specs.Prelude.{◌≡◌, suc, ◌<◌, ◌≤◌};
ghost use Rattle.store.specs.Layout.{eps_off};
ghost use Rattle.store.specs.Phases.{AveragedRoom, OperatorRoom, level_code};
ghost use Rattle.store.specs.PhaseSteps.{AveragedPlaces, AveragedLevel, RediscretizedDone};
ghost use Rattle.store.specs.declared.Choice.TheVariants.{Rediscretized};

use crate::hierarchy::Hierarchy;
use crate::{lines, needs};
use numbers::terms::Part;
use operators::levels;

// How many permittivities the chain of all m + 1 levels has: the averaged ones stand behind them.
pub fn chain_length(h: &Hierarchy<'_>) -> usize
    ensures { result ≡ eps_off (the_lattice h.now) (suc h.now.m) }
{
    needs::edges_from(h, 0, h.m + 1)
}

// The permittivities of level `level` + 1, from those at place `from`, laid from place `to` on, and its operator, from o on; whether all numbers are finite.
fn level_operator(
    h: &Hierarchy<'_>,
    level: usize,
    eps: &mut [f64],
    from: usize,
    to: usize,
    o: Part,
    ostarts: &mut [usize],
    ocolumns: &mut [usize],
    ovalues: &mut [f64],
) -> bool
    requires level_lt_m { level < h.now.m }
    requires averaged_places { AveragedPlaces (the_lattice h.now) h.now.m level from to o }
    requires averaged_room { AveragedRoom (the_lattice h.now) h.now.m eps.old }
    ensures { AveragedLevel (the_lattice h.now) h.now.m level eps.old ostarts.old ocolumns.old ovalues.old
        eps.new ostarts.new ocolumns.new ovalues.new result }
{
    let pair = h.pair(level);
    levels::rediscretized_level(&pair, eps, from, to, o, ostarts, ocolumns, ovalues)
}

// Those of levels 1 to m, from the permittivities that are given at the front of the list. The level before the first of them that has a number that is
// not finite.
pub fn operators(
    h: &Hierarchy<'_>,
    eps: &mut [f64],
    ostarts: &mut [usize],
    ocolumns: &mut [usize],
    ovalues: &mut [f64],
) -> Option<usize>
    requires m_nonzero { 0 < h.now.m }
    requires averaged_room { AveragedRoom (the_lattice h.now) h.now.m eps.old }
    requires operator_room { OperatorRoom (the_lattice h.now) Rediscretized h.now.m ostarts.old ocolumns.old ovalues.old }
    ensures { RediscretizedDone (the_lattice h.now) h.now.m h.now.m eps.old ostarts.old ocolumns.old ovalues.old
        eps.new ostarts.new ocolumns.new ovalues.new (level_code result) }
{
    let mut from = 0;
    let mut to = chain_length(h);
    let mut o = Part { s: 0, k: 0 };
    let mut bad = None;
    for level in 0..h.m {
        let ok = level_operator(h, level, eps, from, to, o, ostarts, ocolumns, ovalues);
        bad = lines::noted(bad, level, ok);
        let n = h.edges(level + 1);
        o = lines::behind(o, n, ostarts);
        from = to;
        to += n;
    }
    bad
}
