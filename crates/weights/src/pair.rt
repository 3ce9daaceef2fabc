// Two levels of a lattice that follow one another.

ghost use Rattle.std.proofs.Props.{props};
ghost use Rattle.lattice.specs.Sound.{full};
ghost use Rattle.weights.specs.Tables.{Paired, rises_prop};

use lattice::levels::Three;
use lattice::sound::Sound;

// The lattice, and the lines of the finer level and of the coarser one. It holds the lines, so it goes by reference.
#[derive(Clone, Copy)]
pub struct Pair<'a> {
    pub l: Sound<'a>,
    pub fine: Three,
    pub coarse: Three,
    pub ghost paired: { Paired (full l) fine coarse } by { Prim.hlevel (props, rises_prop) },
}
