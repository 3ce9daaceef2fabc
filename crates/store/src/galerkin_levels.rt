// Galerkin's operators of all levels, laid one behind another into the lent lists.

ghost use Rattle.store.specs.Hierarchy.{the_lattice};
ghost use Rattle.std.specs.Prelude.{◌≡◌, suc, ◌+◌, ◌<◌, ◌≤◌, length, get_or};
ghost use Rattle.operators.specs.LevelLists.{edges_on, LevelReady, LevelLeft};
ghost use Rattle.operators.specs.Levels.{grid_at};
ghost use Rattle.store.specs.Layout.{operator_count};
ghost use Rattle.store.specs.Phases.{forward_part, turned_part, operator_part, OperatorRoom, level_code};
ghost use Rattle.store.specs.FillSteps.{offsets_at, OperatorsReady, OperatorsDone};
ghost use Rattle.store.specs.declared.Choice.TheVariants.{Galerkin};

use crate::hierarchy::Hierarchy;
use crate::lists::Transfers;
use crate::transfers::Offsets;
use crate::{lines, relations, transfers};
use numbers::terms::Part;
use operators::galerkin::{FineRows, Rows};
use operators::levels;
use weights::tables;

// The operator of level `level` + 1, from part q on; whether all numbers are finite. u has its relations, o has the parts of the transfer to `level`.
fn level_operator(
    fine: FineRows,
    h: &Hierarchy<'_>,
    level: usize,
    eps: &[f64],
    u: &[u64],
    o: Offsets,
    rows: &Transfers<'_>,
    q: Part,
    ostarts: &mut [usize],
    ocolumns: &mut [usize],
    ovalues: &mut [f64],
) -> bool
    requires level_lt_m { level < h.now.m }
    requires o_value { o ≡ offsets_at (the_lattice h.now) level }
    requires level_ready { LevelReady fine (the_lattice h.now) eps.now (grid_at (the_lattice h.now) (suc level)) u.now
        (forward_part (the_lattice h.now) level) rows.now.starts.now rows.now.columns.now rows.now.values.now
        (turned_part (the_lattice h.now) level) rows.now.tstarts.now rows.now.tcolumns.now rows.now.tvalues.now
        q ostarts.old ocolumns.old ovalues.old }
    ensures { LevelLeft fine (the_lattice h.now) eps.now (grid_at (the_lattice h.now) (suc level)) u.now
        (forward_part (the_lattice h.now) level) rows.now.starts.now rows.now.columns.now rows.now.values.now
        (turned_part (the_lattice h.now) level) rows.now.tstarts.now rows.now.tcolumns.now rows.now.tvalues.now
        q ostarts.old ocolumns.old ovalues.old ostarts.new ocolumns.new ovalues.new result }
{
    let g = tables::grid_of(h.l.lattice.grid, h.three(level + 1));
    let forward = Rows {
        part: Part { s: o.s, k: o.k },
        starts: rows.starts,
        columns: rows.columns,
        values: rows.values,
    };
    let turned = Rows {
        part: Part { s: o.ts, k: o.tk },
        starts: rows.tstarts,
        columns: rows.tcolumns,
        values: rows.tvalues,
    };
    levels::galerkin_level(
        fine, &h.l, eps, g, u, &forward, &turned, q, ostarts, ocolumns, ovalues,
    )
}

// The part behind that of level `level` + 1, whose starts stand in the list.
fn next_part(h: &Hierarchy<'_>, level: usize, q: Part, ostarts: &[usize]) -> Part
    requires level_lt_m { level < h.now.m }
    requires q_value { q ≡ operator_part (the_lattice h.now) Galerkin h.now.m (suc level) }
    requires level_in_bounds { (q.s + edges_on (the_lattice h.now) (suc level) < length ostarts.now)
        × (get_or ostarts.now (q.s + edges_on (the_lattice h.now) (suc level)) 0 ≡ operator_count (the_lattice h.now) Galerkin (suc level)) }
    ensures { result ≡ operator_part (the_lattice h.now) Galerkin h.now.m (suc (suc level)) }
{
    let n = h.edges(level + 1);
    let s = q.s;
    let w = ostarts[s + n];
    Part {
        s: s + n + 1,
        k: q.k + w,
    }
}

// The operators of levels 1 to m, over the transfers that stand in the lists. The level before the first of them that has a number that is not finite.
// `requires`: more than one level and their lines, the given permittivities at the front of eps, the transfers that come from them, and room.
pub fn operators(
    h: &Hierarchy<'_>,
    eps: &[f64],
    rows: &Transfers<'_>,
    ostarts: &mut [usize],
    ocolumns: &mut [usize],
    ovalues: &mut [f64],
) -> Option<usize>
    requires m_nonzero { 0 < h.now.m }
    requires operators_ready { OperatorsReady (the_lattice h.now) h.now.m eps.now rows.now.starts.now rows.now.columns.now rows.now.values.now rows.now.tstarts.now rows.now.tcolumns.now rows.now.tvalues.now }
    requires operator_room { OperatorRoom (the_lattice h.now) Galerkin h.now.m ostarts.old ocolumns.old ovalues.old }
    ensures { OperatorsDone (the_lattice h.now) h.now.m eps.now rows.now.starts.now rows.now.columns.now rows.now.values.now
        rows.now.tstarts.now rows.now.tcolumns.now rows.now.tvalues.now ostarts.old ocolumns.old ovalues.old
        ostarts.new ocolumns.new ovalues.new (level_code result) }
{
    let mut u = relations::first_relations(&h.l);
    let mut o = transfers::first_offsets(h);
    let mut fine = FineRows::Computed;
    let mut q = Part { s: 0, k: 0 };
    let mut bad = None;
    for level in 0..h.m {
        u = relations::next_relations(h, level, &u);
        let ok = level_operator(
            fine, h, level, eps, &u, o, rows, q, ostarts, ocolumns, ovalues,
        );
        bad = lines::noted(bad, level, ok);
        fine = FineRows::Stored(q);
        q = next_part(h, level, q, ostarts);
        o = transfers::next_offsets(h, level, o, rows.starts);
    }
    bad
}
