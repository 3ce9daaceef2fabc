// Change: one permittivity of level 0 set, and what it reaches worked out anew; or a refusal, and every list as it was.

ghost use Rattle.std.specs.Prelude.{◌≡◌, true, ◌<◌};
ghost use Rattle.lattice.specs.Check.{is_sound};
ghost use Rattle.lattice.specs.Grid.{Limits};
ghost use Rattle.lattice.specs.Sound.{full};
ghost use Rattle.operators.specs.LevelLists.{edges_on};
ghost use Rattle.store.specs.Calls.{change_of};
ghost use Rattle.store.specs.ChangeSteps.{changed_of, change_to, edit_verdict, EdgeRenewed, changed_behind};
ghost use Rattle.store.specs.FillSteps.{sizes_of};
ghost use Rattle.store.specs.Hierarchy.{the_lattice};
ghost use Rattle.store.specs.Lists.{fixed_of, five_of, store_with, SameNumbers};
ghost use Rattle.store.specs.Renewed.{Shaped, FiveRoom};
ghost use Rattle.store.specs.Setup.{result_of, input_on};
ghost use Rattle.store.specs.Store.{sizes};
ghost use Rattle.renew.specs.Codes.{code_of};

use crate::compare;
use lattice::input::Stretches;
use lattice::lattice::{Lattice, stretches};
use lattice::sound::Sound;
use lattice::{check, grid, levels};
use numbers::C64;
use reach::hits;
use renew::{NotFinite, guard};
use store::change::Refusal;
use store::hierarchy::Hierarchy;
use store::lists::{Numbers, Structure};
use store::needs::Lengths;
use store::{Choice, setup};

// Refusals 9 and 10.
fn edit(l: Lattice, edge: usize, value: C64) -> Result<usize, Refusal>
    requires { Limits l.grid }
    ensures { changed_of result ≡ edit_verdict l edge value }
{
    let n = grid::unknowns(l.grid);
    let bad = check::bad_number(value);
    if n <= edge {
        return Err(Refusal::NoEdge(edge));
    }
    if bad {
        return Err(Refusal::BadValue(edge));
    }
    Ok(0)
}

// The permittivity of an edge set and the rows that it reaches worked out anew; or the first level that has a number that is not finite, and every list as it
// was.
fn renew(
    choice: Choice,
    h: &Hierarchy<'_>,
    edge: usize,
    value: C64,
    s: &Structure<'_>,
    n: &mut Numbers<'_>,
) -> Result<(), NotFinite>
    requires shaped { Shaped (the_lattice h.now) choice h.now.m (fixed_of s.now) }
    requires five_room { FiveRoom (the_lattice h.now) choice h.now.m (five_of n.old) }
    requires edge_bound { edge < edges_on (the_lattice h.now) 0 }
    ensures same { SameNumbers n.old n.new }
    ensures renewed { EdgeRenewed (the_lattice h.now) choice h.now.m (fixed_of s.now) (change_to edge value)
        (five_of n.old) (code_of result) (five_of n.new) }
{
    let mut flags = [0u64; 14976];
    hits::raise_flags(choice, h, edge, s, &mut flags);
    // Taken out first: once `get` has read it behind `n`, the borrow checker doesn't know what it holds.
    let eps = &mut *n.eps;
    let old = numbers::get(eps, edge);
    numbers::put(eps, edge, value);
    if let Err(bad) = guard::renew_or_restore(choice, h, &flags, s, n) {
        numbers::put(n.eps, edge, old);
        return Err(bad);
    }
    Ok(())
}

// The lengths of the lists.
fn lengths(s: &Structure<'_>, n: &Numbers<'_>) -> Lengths
    ensures { sizes_of result ≡ sizes (store_with s.now n.now) }
{
    Lengths {
        ends: s.ends.len(),
        eps: n.eps.len(),
        starts: s.starts.len(),
        columns: s.columns.len(),
        values: n.values.len(),
        tstarts: s.tstarts.len(),
        tcolumns: s.tcolumns.len(),
        tvalues: n.tvalues.len(),
        ostarts: s.ostarts.len(),
        ocolumns: s.ocolumns.len(),
        ovalues: n.ovalues.len(),
        scaling: n.scaling.len(),
    }
}

// The change behind the checks of its input, of the edge and of the value.
fn settle(
    choice: Choice,
    l: &Sound<'_>,
    coarsest: usize,
    edge: usize,
    value: C64,
    s: &Structure<'_>,
    n: &mut Numbers<'_>,
) -> Result<usize, Refusal>
    requires { is_sound (edit_verdict l.now.lattice edge value) ≡ true }
    ensures same { SameNumbers n.old n.new }
    ensures changed { result_of (changed_of result) (store_with s.now n.new)
        ≡ changed_behind (full l.now) choice coarsest (store_with s.now n.old) (change_to edge value) }
{
    let found = levels::join_lines(l, coarsest);
    let room = lengths(s, n);
    let count = setup::structure(choice, l, found.depth, &found.lines, room)?;
    let h = Hierarchy {
        l: *l,
        lines: &found.lines,
        m: setup::transfers_of(found.depth),
    };
    if let Some(level) = compare::first_difference(choice, &h, s) {
        return Err(Refusal::Differs(level));
    }
    match renew(choice, &h, edge, value, s, n) {
        Ok(()) => Ok(count),
        Err(NotFinite(level)) => Err(Refusal::Setup(setup::Refusal::NotFinite(level))),
    }
}

// ---- the call of a user

// Change: the permittivity of an edge of level 0 set to a value in a store that a setup with this input left, and every row that it reaches worked out
// anew. The level count, or a refusal, which leaves every list as it was. A store whose numbers its holder altered is taken as it is found.
pub fn change(
    v: Lattice,
    on: &Stretches<'_>,
    choice: Choice,
    coarsest: usize,
    edge: usize,
    value: C64,
    s: &Structure<'_>,
    n: &mut Numbers<'_>,
) -> Result<usize, Refusal>
    ensures same { SameNumbers n.old n.new }
    ensures changed { result_of (changed_of result) (store_with s.now n.new)
        ≡ change_of (input_on v on.now choice coarsest) (store_with s.now n.old) (change_to edge value) }
{
    check::check_stretches(v, on)?;
    edit(v, edge, value)?;
    let st = stretches(v, on);
    let l = Sound {
        lattice: v,
        st: &st,
    };
    settle(choice, &l, coarsest, edge, value, s, n)
}
