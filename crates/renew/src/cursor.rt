// A walk over the doubles of the flagged rows: to save them and to put them back.

ghost use Rattle.std.specs.Prelude.{◌≡◌, ◌+◌, ◌*◌, ◌<◌, ◌≤◌, ◌^◌, length, get_or, take};
ghost use Rattle.std.specs.Float.{nan};
ghost use Rattle.store.specs.Lists.{five_of, SameNumbers};
ghost use Rattle.store.specs.Cells.{kind_in, chosen, set_double, rows_of, StartsFit, from_in, count_in, span_of, rest_of, CellsFit, CursorIn, flagged_span, Found, Stepped, SavedFrom, put_cells};
ghost use Rattle.renew.specs.Long.{SameLong};
ghost use Rattle.renew.specs.Walk.{chart_of};

use crate::flag;
use crate::walk::Walk;
use store::change::{Cursor, NumberList, Saved};
use store::lists::Numbers;

// The double at a place of one of the five lists.
fn read(list: NumberList, at: usize, v: &Numbers<'_>) -> f64
    requires { at < length (chosen (five_of v.now) (kind_in list)) }
    ensures { result ≡ get_or (chosen (five_of v.now) (kind_in list)) at nan }
{
    match list {
        NumberList::Permittivities => v.eps[at],
        NumberList::Forward => v.values[at],
        NumberList::Turned => v.tvalues[at],
        NumberList::Operator => v.ovalues[at],
        NumberList::Scaling => v.scaling[at],
    }
}

// A double set there.
fn write(list: NumberList, at: usize, x: f64, v: &mut Numbers<'_>)
    requires { at < length (chosen (five_of v.old) (kind_in list)) }
    ensures same { SameNumbers v.old v.new }
    ensures left { five_of v.new
        ≡ set_double (five_of v.old) (kind_in list) at x }
{
    match list {
        NumberList::Permittivities => v.eps[at] = x,
        NumberList::Forward => v.values[at] = x,
        NumberList::Turned => v.tvalues[at] = x,
        NumberList::Operator => v.ovalues[at] = x,
        NumberList::Scaling => v.scaling[at] = x,
    }
}

// Row i of those whose starts stand from s on and whose numbers stand from k on.
fn between(part: usize, i: usize, list: NumberList, starts: &[usize], s: usize, k: usize) -> Cursor
    requires { StartsFit starts.now s k i }
    ensures { result ≡ record { part = part; row = i; list = list; at = 2 * from_in starts.now s k i; left = 2 * count_in starts.now s i } }
{
    let a = starts[s + i];
    let b = starts[s + i + 1];
    Cursor {
        part,
        row: i,
        list,
        at: 2 * (k + a),
        left: 2 * (b - a),
    }
}

// Row i of those that are one number each and stand from k on.
fn single(part: usize, i: usize, list: NumberList, k: usize) -> Cursor
    requires { k + i ≤ 2 ^ 40 }
    ensures { result ≡ record { part = part; row = i; list = list; at = 2 * (k + i); left = 2 } }
{
    Cursor {
        part,
        row: i,
        list,
        at: 2 * (k + i),
        left: 2,
    }
}

// Row i of a part.
fn span(w: &Walk<'_>, part: usize, i: usize) -> Cursor
    requires { (part < w.now.parts) × (i < rows_of (chart_of w.now) part) }
    ensures { result ≡ span_of (chart_of w.now) part i }
{
    let p = w.shape[part];
    match p.list {
        NumberList::Permittivities => single(part, i, p.list, p.number),
        NumberList::Forward => between(part, i, p.list, w.s.starts, p.start, p.number),
        NumberList::Turned => between(part, i, p.list, w.s.tstarts, p.start, p.number),
        NumberList::Operator => between(part, i, p.list, w.s.ostarts, p.start, p.number),
        NumberList::Scaling => single(part, i, p.list, p.number),
    }
}

// The same, with no double left where the row is not flagged.
fn flagged(w: &Walk<'_>, part: usize, i: usize) -> Cursor
    requires { (part < w.now.parts) × (i < rows_of (chart_of w.now) part) }
    ensures { result ≡ flagged_span (chart_of w.now) part i }
{
    let q = w.shape[part].base + i;
    if flag::flag(w.flags, q) {
        return span(w, part, i);
    }
    Cursor {
        part,
        row: i,
        list: NumberList::Permittivities,
        at: 0,
        left: 0,
    }
}

// The first double of a flagged row, from row `row` of a part on.
pub fn find(w: &Walk<'_>, part: usize, row: usize) -> Cursor
    requires { (part < w.now.parts) × (row ≤ rows_of (chart_of w.now) part) }
    ensures { Found (chart_of w.now) w.now.parts part row result }
{
    let mut first = row;
    for p in part..w.parts {
        for i in first..w.shape[p].rows {
            let c = flagged(w, p, i);
            if c.left > 0 {
                return c;
            }
        }
        first = 0;
    }
    Cursor {
        part: w.parts,
        row: 0,
        list: NumberList::Permittivities,
        at: 0,
        left: 0,
    }
}

// The next double.
fn step(w: &Walk<'_>, c: Cursor) -> Cursor
    requires { (CursorIn (chart_of w.now) w.now.parts c) × (0 < c.left) }
    ensures { Stepped (chart_of w.now) w.now.parts c result }
{
    if c.left == 1 {
        return find(w, c.part, c.row + 1);
    }
    Cursor {
        part: c.part,
        row: c.row,
        list: c.list,
        at: c.at + 1,
        left: c.left - 1,
    }
}

// At most 512 doubles, from a cursor on, saved in `old`.
pub fn save(w: &Walk<'_>, from: Cursor, v: &Numbers<'_>, old: &mut [f64; 512]) -> Saved
    requires cursor_in { (CursorIn (chart_of w.now) w.now.parts from) × (0 < from.left) }
    requires cells_fit { CellsFit (chart_of w.now) w.now.parts (five_of v.now) }
    requires len { length old.old ≡ 512 }
    ensures len_2 { length old.new ≡ 512 }
    ensures saved_from { SavedFrom (chart_of w.now) w.now.parts
        (five_of v.now) from old.new result }
{
    let mut c = from;
    for (n, kept) in old.iter_mut().enumerate() {
        *kept = read(c.list, c.at, v);
        c = step(w, c);
        if c.left == 0 {
            return Saved { next: c, n: n + 1 };
        }
    }
    Saved { next: c, n: 512 }
}

// n doubles, from a cursor on, put back.
pub fn put_back(w: &Walk<'_>, from: Cursor, n: usize, old: &[f64; 512], v: &mut Numbers<'_>)
    requires cursor_in { CursorIn (chart_of w.now) w.now.parts from }
    requires n_bound { (n ≤ 512) × (n ≤ length (rest_of (chart_of w.now) w.now.parts from)) }
    requires cells_fit { CellsFit (chart_of w.now) w.now.parts (five_of v.old) }
    requires len { length old.now ≡ 512 }
    ensures same { SameNumbers v.old v.new }
    ensures long { SameLong (five_of v.old) (five_of v.new) }
    ensures left { five_of v.new
        ≡ put_cells (five_of v.old)
        (take n (rest_of (chart_of w.now) w.now.parts from)) old.now 0 }
{
    let mut c = from;
    for &x in &old[..n] {
        write(c.list, c.at, x, v);
        c = step(w, c);
    }
}
