// The operator of the next level, from what stands in the lists.

ghost use Rattle.lattice.specs.Sound.{full};
ghost use Rattle.operators.specs.LevelLists.{LevelReady, LevelLeft, AveragedReady, AveragedLeft};

use crate::galerkin::{FineRows, Rows};
use crate::nested::NestedPair;
use crate::{averaged, galerkin, pattern, rediscretized, stencil};
use lattice::grid;
use lattice::grid::Grid3d;
use lattice::sound::Sound;
use numbers::terms::Part;
use weights::pair::Pair;

// Galerkin's operator of the next level: starts, columns and numbers, laid over three lists from o on; whether all numbers are finite. The fine rows are
// the lattice's own on level 0, below it those that stand before it in the same lists. g has the next level's cells and u its relations.
// `requires`: the transfer in the lists, the given permittivities where rows are worked out, and room.
pub fn galerkin_level(
    fine: FineRows,
    l: &Sound<'_>,
    eps: &[f64],
    g: Grid3d,
    u: &[u64],
    p: &Rows<'_>,
    t: &Rows<'_>,
    o: Part,
    ostarts: &mut [usize],
    ocolumns: &mut [usize],
    ovalues: &mut [f64],
) -> bool
    requires { LevelReady fine (full l.now) eps.now g u.now
        p.now.part p.now.starts.now p.now.columns.now p.now.values.now t.now.part t.now.starts.now t.now.columns.now t.now.values.now
        o ostarts.old ocolumns.old ovalues.old }
    ensures { LevelLeft fine (full l.now) eps.now g u.now
        p.now.part p.now.starts.now p.now.columns.now p.now.values.now t.now.part t.now.starts.now t.now.columns.now t.now.values.now
        o ostarts.old ocolumns.old ovalues.old ostarts.new ocolumns.new ovalues.new result }
{
    pattern::level_columns(l.lattice, l.st, g, u, ostarts, o.s, ocolumns, o.k);
    let m = grid::unknowns(g);
    galerkin::galerkin(
        fine, l.lattice, l.st, eps, p, t, m, o, ostarts, ocolumns, ovalues,
    )
}

// The rediscretized operator of the next level: its permittivities, the means of those that stand at place `from`, are laid from place `to` on; its
// rows, from the lattice of its own lines, over three lists from o on. Whether all numbers are finite.
// `requires`: the permittivities of the finer level, and room for those of the coarser.
pub fn rediscretized_level(
    pair: &Pair<'_>,
    eps: &mut [f64],
    from: usize,
    to: usize,
    o: Part,
    ostarts: &mut [usize],
    ocolumns: &mut [usize],
    ovalues: &mut [f64],
) -> bool
    requires { AveragedReady (full pair.now.l) pair.now.fine pair.now.coarse eps.old from to o }
    ensures { AveragedLeft (full pair.now.l) pair.now.fine pair.now.coarse eps.old from to
        o ostarts.old ocolumns.old ovalues.old
        eps.new ostarts.new ocolumns.new ovalues.new result }
{
    let nested = NestedPair { pair };
    let known = averaged::averaged_eps(&nested, eps, from, to);
    let lc = rediscretized::rediscretized_lattice(pair.l.lattice, pair.coarse);
    let sc = rediscretized::rediscretized_stretches(&pair.l, pair.coarse);
    let next = Sound {
        lattice: lc,
        st: &sc,
    };
    let sound = stencil::assembled(&next, eps, to, ostarts, o.s, ocolumns, ovalues, o.k);
    known && sound
}
