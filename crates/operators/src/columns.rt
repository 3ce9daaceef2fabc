// The columns of an operator row, in rising order, written to a list or counted.

ghost use Rattle.std.specs.Prelude.{◌≡◌, [], length, ◌+◌, ◌*◌, ◌≤◌, ◌<◌, ◌^◌};
ghost use Rattle.operators.specs.Columns.{keep, line, plane, block, row, Listed};

use crate::words;

// For each axis the places of `same` and of `near`: a column is near on one axis and the same on the others.
#[derive(Clone, Copy)]
pub struct Picks {
    pub sx: u64,
    pub tx: u64,
    pub sy: u64,
    pub ty: u64,
    pub sz: u64,
    pub tz: u64,
}

// v, if taken, goes to the list's place at. A list that is too short takes nothing: so any list serves to count.
pub fn put(taken: bool, out: &mut [usize], at: usize, v: usize) -> usize
    requires { at < 2 ^ 44 }
    ensures { Listed out.old at (keep taken v []) out.new result }
{
    if !taken {
        return at;
    }
    if at < out.len() {
        out[at] = v;
        return at + 1;
    }
    at + 1
}

// The places of w below n, counted from base.
pub fn write_line(w: u64, n: usize, base: usize, out: &mut [usize], at: usize) -> usize
    requires { (n ≤ 64) × (base ≤ 1000000000) × (at ≤ 2 ^ 43) }
    ensures { Listed out.old at (line w base n 0) out.new result }
{
    let mut next = at;
    for i in words::places_below(w, n) {
        next = put(true, out, next, base + i);
    }
    next
}

// The ny lines of a plane, nx places each, the first at base: in line j the places of t if a has j, and those of s if b has j.
pub fn write_plane(
    s: u64,
    t: u64,
    a: u64,
    b: u64,
    nx: usize,
    ny: usize,
    base: usize,
    out: &mut [usize],
    at: usize,
) -> usize
    requires { (nx ≤ 64) × (ny ≤ 64) × (base ≤ 500000000) × (at ≤ 2 ^ 42) }
    ensures { Listed out.old at (plane s t a b nx base ny 0) out.new result }
{
    let both = words::mix(true, a, true, b);
    let mut next = at;
    // No twin of the loops in `write_line` and `write_block`: what a place adds is a line here, a column and a plane there.
    for j in words::places_below(both, ny) {
        let w = words::mix(words::bit(a, j), t, words::bit(b, j), s);
        next = write_line(w, nx, base + nx * j, out, next);
    }
    next
}

// The columns of one component: the nz planes of ny lines of nx places, the first at base.
pub fn write_block(
    p: Picks,
    nx: usize,
    ny: usize,
    nz: usize,
    base: usize,
    out: &mut [usize],
    at: usize,
) -> usize
    requires { (nx ≤ 64) × (ny ≤ 64) × (nz ≤ 64) × (base ≤ 100000000) × (at ≤ 2 ^ 41) }
    ensures { Listed out.old at (block p nx ny base nz 0) out.new result }
{
    let area = nx * ny;
    let both = words::mix(true, p.sz, true, p.tz);
    let mut next = at;
    for k in words::places_below(both, nz) {
        let same = words::bit(p.sz, k);
        let a = words::mix(same, p.sy, false, 0);
        let b = words::mix(same, p.ty, words::bit(p.tz, k), p.sy);
        next = write_plane(p.sx, p.tx, a, b, nx, ny, base + area * k, out, next);
    }
    next
}

// A row's columns: those of component 0, of 1 and of 2.
pub fn write_row(
    x: Picks,
    y: Picks,
    z: Picks,
    nx: usize,
    ny: usize,
    nz: usize,
    out: &mut [usize],
    at: usize,
) -> usize
    requires { (nx ≤ 64) × (ny ≤ 64) × (nz ≤ 64) × (at ≤ 2 ^ 40) }
    ensures { Listed out.old at (row x y z nx ny nz) out.new result }
{
    let cells = nx * ny * nz;
    let a = write_block(x, nx, ny, nz, 0, out, at);
    let b = write_block(y, nx, ny, nz, cells, out, a);
    write_block(z, nx, ny, nz, 2 * cells, out, b)
}

// How many columns a row has.
pub fn count_row(x: Picks, y: Picks, z: Picks, nx: usize, ny: usize, nz: usize) -> usize
    requires { (nx ≤ 64) × (ny ≤ 64) × (nz ≤ 64) }
    ensures { result ≡ length (row x y z nx ny nz) }
{
    let mut none = [0usize; 1];
    write_row(x, y, z, nx, ny, nz, &mut none, 0)
}
