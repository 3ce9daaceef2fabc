// The input of the calls. `cells`: the cells along x, y and z. `scalars`: the steps dx, dy, dz, k0, the shift, and for each axis its kind (0 for a wall,
// anything else for Bloch) and the two parts of its phase.

ghost use Rattle.std.specs.Prelude.{◌≡◌};
ghost use Rattle.yonaduvi.specs.Exports.{edges_from, no_lattice, lattice_from};

use lattice::grid::Grid3d;
use lattice::lattice::{Edges, Lattice};
use numbers::C64;

fn edges(kind: f64, re: f64, im: f64) -> Edges
    ensures { result ≡ edges_from kind re im }
{
    if kind == 0.0 {
        return Edges::Pml;
    }
    Edges::Bloch(C64 { re, im })
}

// A lattice of no cells, which is refused.
fn no_lattice() -> Lattice
    ensures { result ≡ no_lattice }
{
    Lattice {
        grid: Grid3d {
            nx: 0,
            ny: 0,
            nz: 0,
            dx: 1.0,
            dy: 1.0,
            dz: 1.0,
        },
        x: Edges::Pml,
        y: Edges::Pml,
        z: Edges::Pml,
        k0: 1.0,
        shift: 0.0,
    }
}

// The lattice of two lists; one of no cells where either list is too short.
pub fn lattice_from(cells: &[usize], scalars: &[f64]) -> Lattice
    ensures { result ≡ lattice_from cells.now scalars.now }
{
    if cells.len() < 3 {
        return no_lattice();
    }
    if scalars.len() < 14 {
        return no_lattice();
    }
    Lattice {
        grid: Grid3d {
            nx: cells[0],
            ny: cells[1],
            nz: cells[2],
            dx: scalars[0],
            dy: scalars[1],
            dz: scalars[2],
        },
        x: edges(scalars[5], scalars[6], scalars[7]),
        y: edges(scalars[8], scalars[9], scalars[10]),
        z: edges(scalars[11], scalars[12], scalars[13]),
        k0: scalars[3],
        shift: scalars[4],
    }
}
