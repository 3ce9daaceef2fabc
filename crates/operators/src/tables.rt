// The relations of a level, all in one list.

ghost use Rattle.std.specs.Prelude.{◌≡◌, ◌+◌, ◌*◌, ◌<◌, ◌≤◌, ◌^◌, length};
ghost use Rattle.lattice.specs.Grid.{Limits, Inside};
ghost use Rattle.operators.specs.Columns.{Listed};
ghost use Rattle.operators.specs.Numbered.{column_no, no_of, word_of, picks_of, row_columns, relations_laid, words_below, Ready, word_count};

use crate::{columns, compose};
use lattice::grid::{Grid3d, Position};

// Eighteen relations of 64 words.
pub const WORDS: usize = 1152;

// The role of the columns of relation w.
fn column_no(w: usize) -> usize
    requires { w < 6 }
    ensures { (result ≡ column_no w) × (result < 2) }
{
    if w < 4 {
        return w % 2;
    }
    5 - w
}

// The relations one level down, laid over the list.
pub fn coarsen(t: &[u64], f: &[u64], n: &[usize], m: &[usize], out: &mut [u64])
    requires { Ready t.now f.now n.now m.now out.old }
    ensures { out.new ≡ relations_laid (words_below t.now f.now n.now m.now) 18 out.old }
{
    // An index: relation q is one of axis q / 6, and its words stand from place 64 q on in both lists.
    for q in 0..18 {
        let d = q / 6;
        let w = q % 6;
        let c = column_no(w);
        let fat = 64 * (2 * d + w % 2);
        let gat = 64 * (2 * d + c);
        compose::compose(
            &f[fat..fat + n[d]],
            &t[64 * q..64 * q + n[d]],
            &f[gat..gat + n[d]],
            m[d],
            out,
            64 * q,
        );
    }
}

// The number of a relation: is the axis the row's own, is it the column's own, is it the one of `near`?
fn no(p: bool, q: bool, near: bool) -> usize
    ensures { (result ≡ no_of p q near) × (result < 6) }
{
    if p {
        if q {
            if near {
                return 2;
            }
            return 0;
        }
        return 4;
    }
    if q {
        return 5;
    }
    if near {
        return 3;
    }
    1
}

// The word of place i on axis d, in a row of component a for the columns of component b.
fn word(t: &[u64], d: usize, a: usize, b: usize, near: bool, i: usize) -> u64
    requires { (length t.now ≡ word_count) × (d < 3) × (i < 64) }
    ensures { result ≡ word_of t.now d a b near i }
{
    let w = no(d == a, d == b, near);
    t[64 * (6 * d + w) + i]
}

// The words of a row of component a at x, y, z, for the columns of component b.
pub fn picks(t: &[u64], a: usize, b: usize, x: usize, y: usize, z: usize) -> columns::Picks
    requires { (length t.now ≡ word_count) × (x < 64) × (y < 64) × (z < 64) }
    ensures { result ≡ picks_of t.now a b x y z }
{
    columns::Picks {
        sx: word(t, 0, a, b, false, x),
        tx: word(t, 0, a, b, a == b, x),
        sy: word(t, 1, a, b, false, y),
        ty: word(t, 1, a, b, a == b, y),
        sz: word(t, 2, a, b, false, z),
        tz: word(t, 2, a, b, a == b, z),
    }
}

// The columns of row r, whose edge is at p, go to the list from `at` on: r alone if the edge is held fixed. The answer is the place behind them.
pub fn row_columns(
    t: &[u64],
    g: Grid3d,
    fixed: bool,
    r: usize,
    p: Position,
    out: &mut [usize],
    at: usize,
) -> usize
    requires t_len { length t.now ≡ word_count }
    requires limits { Limits g }
    requires inside { Inside g p }
    requires at_bound { at ≤ 2 ^ 40 }
    ensures { Listed out.old at (row_columns t.now g fixed r p) out.new result }
{
    if fixed {
        return columns::put(true, out, at, r);
    }
    let x = picks(t, p.component, 0, p.i, p.j, p.k);
    let y = picks(t, p.component, 1, p.i, p.j, p.k);
    let z = picks(t, p.component, 2, p.i, p.j, p.k);
    columns::write_row(x, y, z, g.nx, g.ny, g.nz, out, at)
}

// How many columns the row at p has: its number does not matter.
pub fn row_count(t: &[u64], g: Grid3d, fixed: bool, p: Position) -> usize
    requires t_len { length t.now ≡ word_count }
    requires limits { Limits g }
    requires inside { Inside g p }
    ensures { result ≡ length (row_columns t.now g fixed 0 p) }
{
    let mut none = [0usize; 1];
    row_columns(t, g, fixed, 0, p, &mut none, 0)
}
