// Two levels that follow one another, axis by axis.

ghost use Rattle.std.proofs.Props.{props};
ghost use Rattle.lattice.specs.Sound.{full};
ghost use Rattle.operators.specs.Averaged.{PairedLines};
ghost use Rattle.weights.specs.Tables.{rises_prop};

use weights::pair::Pair;

// Two levels, of which on each axis the two lines are known to be nested. It is made from a `Pair` where the means of permittivities are worked out: the
// weights ask less, and take the `Pair`.
#[derive(Clone, Copy)]
pub struct NestedPair<'a> {
    pub pair: &'a Pair<'a>,
    pub ghost lines: { PairedLines (full pair.now.l) pair.now.fine pair.now.coarse } by { Prim.hlevel (props, rises_prop) },
}
