// Both maps of an axis: the stretched coordinate at each half-step of the finest grid.

ghost use Rattle.std.specs.Prelude.{◌≡◌, ℕ, ◌*◌, ◌<◌, ◌≤◌};
ghost use Rattle.lattice.specs.Lattice.{full_lattice};
ghost use Rattle.lattice.specs.Sound.{full};
ghost use Rattle.lattice.specs.Stretched.{map_list, across_stretch, along_stretch, across_map, along_map, stretched_of};
ghost use Rattle.numbers.specs.declared.C64.{C64};

use crate::lattice::Lattice;
use crate::sound::Sound;
use crate::{grid, lattice};
use numbers::C64;

// An axis has two maps: `across` adds up the cells' stretches and places the components across the axis, `along` adds up the nodes' and places the component along it.
#[derive(Clone, Copy)]
pub struct Stretched {
    pub across: [C64; 129],
    pub along: [C64; 129],
}

// The map of n cells by a stretch, which it has from half-step p to the next: 0 at 0, and half of the stretch more at each half-step.
fn map_by<F: Fn(usize) -> C64>(n: usize, stretch: F) -> [C64; 129]
    requires n_bound { n ≤ 64 }
    requires callable { (p : ℕ) → p < 2 * n → F.pre stretch p }
    ensures { (s : ℕ → C64) → ((p : ℕ) (v : C64) → p < 2 * n → F.post stretch p v → v ≡ s p) → result ≡ map_list s n }
{
    let mut x = [C64::zero(); 129];
    let mut here = C64::zero();
    // The half-step itself, which the stretch is asked for.
    for p in 0..2 * n {
        here = here + 0.5 * stretch(p);
        x[p + 1] = here;
    }
    x
}

// The stretch behind half-step p: that of the cell.
#[tactic(auto, unfolding(crate::specs::Stretched::across_stretch))]
fn across_stretch(l: Lattice, st: &[f64], axis: usize, p: usize) -> C64
    requires axis_bound { axis < 3 }
    requires p_bound { p < 128 }
    ensures { result ≡ across_stretch (full_lattice l st.now) axis p }
{
    lattice::half(l, st, axis, p / 2)
}

// The stretch behind half-step p: that of the nearest node, the last one at the far end.
#[tactic(auto, using(crate::proofs::GridLaws::n_some, crate::proofs::GridLaws::n_most), unfolding(crate::specs::Stretched::along_stretch))]
fn along_stretch(l: &Sound<'_>, axis: usize, p: usize) -> C64
    requires axis_bound { axis < 3 }
    requires p_bound { p < 128 }
    ensures { result ≡ along_stretch (full l.now) axis p }
{
    let n = grid::n(l.lattice.grid, axis);
    lattice::node(l.lattice, l.st, axis, ((p + 1) / 2).min(n - 1))
}

// The map that adds up the cells' stretches.
pub fn across_map(l: &Sound<'_>, axis: usize) -> [C64; 129]
    requires { axis < 3 }
    ensures { result ≡ across_map (full l.now) axis }
{
    map_by(
        grid::n(l.lattice.grid, axis),
        |p| across_stretch(l.lattice, l.st, axis, p),
    )
}

// The map that adds up the nodes' stretches.
pub fn along_map(l: &Sound<'_>, axis: usize) -> [C64; 129]
    requires { axis < 3 }
    ensures { result ≡ along_map (full l.now) axis }
{
    map_by(grid::n(l.lattice.grid, axis), |p| along_stretch(l, axis, p))
}

// Both maps of an axis. `requires`: one of the lattice's axes.
#[tactic(auto, unfolding(crate::specs::Stretched::stretched_of))]
pub fn new(l: &Sound<'_>, axis: usize) -> Stretched
    requires { axis < 3 }
    ensures { result ≡ stretched_of (full l.now) axis }
{
    Stretched {
        across: across_map(l, axis),
        along: along_map(l, axis),
    }
}
