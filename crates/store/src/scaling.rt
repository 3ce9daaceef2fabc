// The volumes and inverse shares of all transfers, laid one behind another into the lent list.

ghost use Rattle.store.specs.Hierarchy.{the_lattice};
ghost use Rattle.std.specs.Prelude.{◌≡◌, ◌+◌, ◌*◌, ◌<◌, ◌≤◌, ◌^◌, length};
ghost use Rattle.operators.specs.LevelLists.{edges_on};
ghost use Rattle.store.specs.Layout.{scale_off};
ghost use Rattle.store.specs.Phases.{turned_part, ScalingRoom, level_code};
ghost use Rattle.store.specs.PhaseSteps.{TurnedStored, VolumesLeft, ScaleLevel, ScalingLeft};

use crate::hierarchy::Hierarchy;
use crate::lines;
use lattice::sound::Sound;
use numbers::terms::Part;
use operators::galerkin::Rows;
use operators::{rediscretized, volumes};

// The volumes of level `level`, on the lattice of its own lines, laid from place k on; whether all are finite.
fn level_volumes(h: &Hierarchy<'_>, level: usize, scaling: &mut [f64], k: usize) -> bool
    requires level_lt_m { level < h.now.m }
    requires k_bound { (k ≤ 2 ^ 32) × (2 * (k + edges_on (the_lattice h.now) level) ≤ length scaling.old) }
    ensures { VolumesLeft (the_lattice h.now) level k scaling.old scaling.new result }
{
    if level == 0 {
        return volumes::volumes(&h.l, scaling, k);
    }
    let s = h.three(level);
    let stretches = rediscretized::rediscretized_stretches(&h.l, s);
    let own = Sound {
        lattice: rediscretized::rediscretized_lattice(h.l.lattice, s),
        st: &stretches,
    };
    volumes::volumes(&own, scaling, k)
}

// The volumes and inverse shares of transfer `level`, laid from place k on; its turned rows stand from t on. Whether they and the shares are finite.
fn level_scaling(
    h: &Hierarchy<'_>,
    level: usize,
    t: Part,
    tstarts: &[usize],
    tcolumns: &[usize],
    tvalues: &[f64],
    scaling: &mut [f64],
    k: usize,
) -> bool
    requires level_lt_m { level < h.now.m }
    requires t_value { (t ≡ turned_part (the_lattice h.now) level) × (k ≡ scale_off (the_lattice h.now) level) }
    requires turned_stored { TurnedStored (the_lattice h.now) h.now.m tstarts.now tcolumns.now tvalues.now }
    requires scaling_room { ScalingRoom (the_lattice h.now) h.now.m scaling.old }
    ensures { ScaleLevel (the_lattice h.now) h.now.m level tstarts.now tcolumns.now tvalues.now
        scaling.old scaling.new result }
{
    let n = h.edges(level);
    let c = h.edges(level + 1);
    let known = level_volumes(h, level, scaling, k);
    let turned = Rows {
        part: t,
        starts: tstarts,
        columns: tcolumns,
        values: tvalues,
    };
    let shared = volumes::inverse_shares(&turned, c, n, scaling, k, k + n);
    known && shared
}

// Those of all m transfers, whose turned rows stand in the lists. The first transfer that has a number that is not finite.
pub fn scaling(
    h: &Hierarchy<'_>,
    tstarts: &[usize],
    tcolumns: &[usize],
    tvalues: &[f64],
    scaling: &mut [f64],
) -> Option<usize>
    requires turned_stored { TurnedStored (the_lattice h.now) h.now.m tstarts.now tcolumns.now tvalues.now }
    requires scaling_room { ScalingRoom (the_lattice h.now) h.now.m scaling.old }
    ensures { ScalingLeft (the_lattice h.now) h.now.m h.now.m tstarts.now tcolumns.now tvalues.now
        scaling.old scaling.new (level_code result) }
{
    let mut t = Part { s: 0, k: 0 };
    let mut k = 0;
    let mut bad = None;
    for level in 0..h.m {
        let ok = level_scaling(h, level, t, tstarts, tcolumns, tvalues, scaling, k);
        bad = lines::noted(bad, level, ok);
        let n = h.edges(level);
        let c = h.edges(level + 1);
        t = lines::behind(t, c, tstarts);
        k += n + c;
    }
    bad
}
