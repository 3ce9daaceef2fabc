// A lattice whose grid is within the limits.

ghost use Rattle.lattice.specs.Grid.{Limits};

use crate::lattice::Lattice;

// A lattice whose grid is within the limits, with its list of stretches (see `Lattice`).
#[derive(Clone, Copy)]
pub struct Sound<'a> {
    pub lattice: Lattice,
    pub st: &'a [f64],
    pub ghost limits: { Limits lattice.grid },
}
