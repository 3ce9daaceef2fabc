// The checks of the setup's input: refusals 1 to 4.

ghost use Rattle.std.specs.Prelude.{IfSome, ◌≡◌, ◌+◌, ◌*◌, ◌≤◌, ◌<◌, length, [], ◌∷◌};
ghost use Rattle.lattice.specs.Grid.{Limits, unknowns_of};
ghost use Rattle.lattice.specs.Lattice.{Lengths};
ghost use Rattle.lattice.specs.Check.{verdict_of, bad_cells, check_grid, bad_length, bad_number, bad_phase, check_scalars, given, given_on, check_lengths, first_bad, check_entries, check_on, check_stretches_on, and_then, or_count};

use crate::grid;
use crate::grid::Grid3d;
use crate::input::Stretches;
use crate::lattice::{Edges, Lattice};
use numbers::C64;

// What the checks refuse, and where (docs/SPECIFICATION.md, 5, has the numbers).
#[derive(Clone, Copy, PartialEq, Eq, Debug)]
pub enum Refusal {
    Cells(usize),
    Scalar(usize),
    Length(usize),
    Entry(usize),
}

fn bad_cells(n: usize) -> bool
    ensures { result ≡ bad_cells n }
{
    n == 0 || 64 < n
}

// Refusal 1.
pub fn check_grid(g: Grid3d) -> Result<(), Refusal>
    ensures { verdict_of result ≡ check_grid g }
{
    if bad_cells(g.nx) {
        return Err(Refusal::Cells(0));
    }
    if bad_cells(g.ny) {
        return Err(Refusal::Cells(1));
    }
    if bad_cells(g.nz) {
        return Err(Refusal::Cells(2));
    }
    if 4096 < g.nx * g.ny * g.nz {
        return Err(Refusal::Cells(3));
    }
    Ok(())
}

fn bad_length(x: f64) -> bool
    ensures { result ≡ bad_length x }
{
    !(x.is_finite() && 0.0 < x)
}

// Whether a number is not finite, or zero.
pub fn bad_number(x: C64) -> bool
    ensures { result ≡ bad_number x }
{
    !x.is_finite() || x.is_zero()
}

fn bad_phase(e: Edges) -> bool
    ensures { result ≡ bad_phase e }
{
    match e {
        Edges::Pml => false,
        Edges::Bloch(p) => bad_number(p),
    }
}

// Refusal 2.
pub fn check_scalars(v: Lattice) -> Result<(), Refusal>
    ensures { verdict_of result ≡ check_scalars v }
{
    let g = v.grid;
    let x = v.x;
    let y = v.y;
    let z = v.z;
    if bad_length(g.dx) {
        return Err(Refusal::Scalar(0));
    }
    if bad_length(g.dy) {
        return Err(Refusal::Scalar(1));
    }
    if bad_length(g.dz) {
        return Err(Refusal::Scalar(2));
    }
    if bad_length(v.k0) {
        return Err(Refusal::Scalar(3));
    }
    if !v.shift.is_finite() {
        return Err(Refusal::Scalar(4));
    }
    if bad_phase(x) {
        return Err(Refusal::Scalar(5));
    }
    if bad_phase(y) {
        return Err(Refusal::Scalar(6));
    }
    if bad_phase(z) {
        return Err(Refusal::Scalar(7));
    }
    Ok(())
}

// The first bad number of a list that has n.
fn first_bad(xs: &[f64], n: usize) -> Option<usize>
    requires { length xs.now ≡ 2 * n }
    ensures { (or_count n result ≡ first_bad xs.now n 0) × IfSome result (λ k. k < n) }
{
    (0..n).find(|k| bad_number(numbers::get(xs, *k)))
}

// Refusal 3 of an axis's two lists, which are the lists i and i + 1.
fn axis_lengths(i: usize, n: usize, nodes: &[f64], halves: &[f64]) -> Result<(), Refusal>
    requires { (i < 8) × (n ≤ 64) }
    ensures { verdict_of result ≡ check_lengths i (given n nodes.now ∷ (given n halves.now ∷ [])) }
{
    if nodes.len() != 2 * n {
        return Err(Refusal::Length(i));
    }
    if halves.len() != 2 * n {
        return Err(Refusal::Length(i + 1));
    }
    Ok(())
}

// Refusal 4 of an axis's two lists, the first of which starts at a position.
fn axis_entries(position: usize, n: usize, nodes: &[f64], halves: &[f64]) -> Result<(), Refusal>
    requires position_bound { (position ≤ 4096) × (n ≤ 64) }
    requires nodes_len { (length nodes.now ≡ 2 * n) × (length halves.now ≡ 2 * n) }
    ensures { verdict_of result ≡ check_entries position (given n nodes.now ∷ (given n halves.now ∷ [])) }
{
    if let Some(k) = first_bad(nodes, n) {
        return Err(Refusal::Entry(position + k));
    }
    if let Some(m) = first_bad(halves, n) {
        return Err(Refusal::Entry(position + n + m));
    }
    Ok(())
}

// Refusals 1 and 2.
fn check_lattice(v: Lattice) -> Result<(), Refusal>
    ensures { verdict_of result ≡ and_then (check_grid v.grid) (check_scalars v) }
{
    check_grid(v.grid)?;
    check_scalars(v)
}

// Refusal 3 of the six stretch lists.
fn stretch_lengths(g: Grid3d, on: &Stretches<'_>) -> Result<(), Refusal>
    requires { Limits g }
    ensures { verdict_of result ≡ check_lengths 0 (given_on g on.now) }
{
    axis_lengths(0, g.nx, on.xn, on.xh)?;
    axis_lengths(2, g.ny, on.yn, on.yh)?;
    axis_lengths(4, g.nz, on.zn, on.zh)
}

// Refusal 4 of the six stretch lists.
fn stretch_entries(g: Grid3d, on: &Stretches<'_>) -> Result<(), Refusal>
    requires limits { Limits g }
    requires lengths { Lengths g on.now.xn.now on.now.yn.now on.now.zn.now }
    requires lengths_2 { Lengths g on.now.xh.now on.now.yh.now on.now.zh.now }
    ensures { verdict_of result ≡ check_entries 0 (given_on g on.now) }
{
    axis_entries(0, g.nx, on.xn, on.xh)?;
    axis_entries(2 * g.nx, g.ny, on.yn, on.yh)?;
    axis_entries(2 * g.nx + 2 * g.ny, g.nz, on.zn, on.zh)
}

// The setup's input without its permittivities, as a change has it: refusals 1 to 4.
pub fn check_stretches(v: Lattice, on: &Stretches<'_>) -> Result<(), Refusal>
    ensures { verdict_of result ≡ check_stretches_on v on.now }
{
    check_lattice(v)?;
    stretch_lengths(v.grid, on)?;
    stretch_entries(v.grid, on)
}

// Refusal 3 of the permittivities, which are list 6, one number for each edge.
fn eps_length(g: Grid3d, eps: &[f64]) -> Result<(), Refusal>
    requires { Limits g }
    ensures { verdict_of result ≡ check_lengths 6 (given (unknowns_of g) eps.now ∷ []) }
{
    if eps.len() != 2 * grid::unknowns(g) {
        return Err(Refusal::Length(6));
    }
    Ok(())
}

// Refusal 4 of the permittivities, which start behind the six stretch lists.
fn eps_entries(g: Grid3d, eps: &[f64]) -> Result<(), Refusal>
    requires limits { Limits g }
    requires eps_len { length eps.now ≡ 2 * unknowns_of g }
    ensures { verdict_of result ≡ check_entries (2 * g.nx + 2 * g.ny + 2 * g.nz) (given (unknowns_of g) eps.now ∷ []) }
{
    let n = grid::unknowns(g);
    if let Some(k) = first_bad(eps, n) {
        return Err(Refusal::Entry(2 * g.nx + 2 * g.ny + 2 * g.nz + k));
    }
    Ok(())
}

// The setup's input: refusals 1 to 4.
pub fn check(v: Lattice, on: &Stretches<'_>, eps: &[f64]) -> Result<(), Refusal>
    ensures { verdict_of result ≡ check_on v on.now eps.now }
{
    check_lattice(v)?;
    stretch_lengths(v.grid, on)?;
    eps_length(v.grid, eps)?;
    stretch_entries(v.grid, on)?;
    eps_entries(v.grid, eps)
}
