// Rows worked out anew, or all as before: what stood in them is kept on the stack meanwhile, 512 doubles a call.

ghost use Rattle.std.specs.Prelude.{◌*◌, ◌≤◌, length};
ghost use Rattle.store.specs.Hierarchy.{the_lattice};
ghost use Rattle.store.specs.Lists.{fixed_of, five_of, SameNumbers};
ghost use Rattle.store.specs.Parts.{part_off, part_count, flagged_rows};
ghost use Rattle.store.specs.RenewSteps.{NoVolumes};
ghost use Rattle.store.specs.Renewed.{Shaped, FiveRoom, Restored};
ghost use Rattle.store.specs.Cells.{rest_of, CellsFit, CursorIn};
ghost use Rattle.store.specs.Guard.{Ready, Guarded};
ghost use Rattle.renew.specs.Codes.{code_of};
ghost use Rattle.renew.specs.Long.{SameLong};
ghost use Rattle.renew.specs.Walk.{chart_of};

use crate::walk::Walk;
use crate::{NotFinite, cursor, parts, shape};
use store::Choice;
use store::change::Cursor;
use store::hierarchy::Hierarchy;
use store::lists::{Numbers, Structure};

// The flagged rows worked out anew; where a number is not finite, the doubles from cursor c on are as before.
fn guard(
    choice: Choice,
    h: &Hierarchy<'_>,
    w: &Walk<'_>,
    c: Cursor,
    n: &mut Numbers<'_>,
) -> Result<(), NotFinite>
    requires ready { Ready (the_lattice h.now) choice h.now.m w.now.flags.now (fixed_of w.now.s) (five_of n.old) }
    requires cells_fit { CellsFit (chart_of w.now) w.now.parts (five_of n.old) }
    requires cursor_in { CursorIn (chart_of w.now) w.now.parts c }
    ensures same { SameNumbers n.old n.new }
    ensures long { SameLong (five_of n.old) (five_of n.new) }
    ensures guarded { Guarded (the_lattice h.now) choice h.now.m (fixed_of w.now.s)
        (flagged_rows (the_lattice h.now) choice h.now.m w.now.flags.now)
        (rest_of (chart_of w.now) w.now.parts c)
        (five_of n.old) (code_of result) (five_of n.new) }
{
    if c.left == 0 {
        return parts::renew_rows(choice, h, w.flags, &w.s, n);
    }
    let mut old = [0.0f64; 512];
    let saved = cursor::save(w, c, n, &mut old);
    if let Err(bad) = guard(choice, h, w, saved.next, n) {
        cursor::put_back(w, c, saved.n, &old, n);
        return Err(bad);
    }
    Ok(())
}

// The flagged rows worked out anew, or all as before where a number is not finite.
pub fn renew_or_restore(
    choice: Choice,
    h: &Hierarchy<'_>,
    flags: &[u64],
    s: &Structure<'_>,
    n: &mut Numbers<'_>,
) -> Result<(), NotFinite>
    requires shaped { Shaped (the_lattice h.now) choice h.now.m (fixed_of s.now) }
    requires five_room { FiveRoom (the_lattice h.now) choice h.now.m (five_of n.old) }
    requires m_bound { part_off (the_lattice h.now) choice h.now.m (part_count h.now.m) ≤ 64 * length flags.now }
    requires no_volumes { NoVolumes (the_lattice h.now) choice h.now.m flags.now }
    ensures same { SameNumbers n.old n.new }
    ensures long { SameLong (five_of n.old) (five_of n.new) }
    ensures restored { Restored (the_lattice h.now) choice h.now.m (fixed_of s.now)
        (flagged_rows (the_lattice h.now) choice h.now.m flags.now)
        (five_of n.old) (code_of result) (five_of n.new) }
{
    let mut shape = [shape::NO_WORDS; shape::PARTS];
    shape::set_shape(choice, h, s, &mut shape);
    let w = Walk {
        parts: 7 * h.m + 1,
        flags,
        shape: &shape,
        s: *s,
    };
    let c = cursor::find(&w, 0, 0);
    guard(choice, h, &w, c, n)
}
