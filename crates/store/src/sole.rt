// The operator of a level 0 that is the only one: the lattice's own rows, whatever the choice.

ghost use Rattle.std.specs.Prelude.{◌*◌, ◌≤◌, length};
ghost use Rattle.lattice.specs.Sound.{full};
ghost use Rattle.operators.specs.LevelLists.{edges_on};
ghost use Rattle.store.specs.PhaseSteps.{SoleLeft};

use lattice::sound::Sound;
use operators::stencil;

// Its rows, laid into the lists from their fronts on; whether all numbers are finite. `requires`: the given permittivities at the front of a list.
pub fn sole(
    l: &Sound<'_>,
    eps: &[f64],
    ostarts: &mut [usize],
    ocolumns: &mut [usize],
    ovalues: &mut [f64],
) -> bool
    requires { 2 * edges_on (full l.now) 0 ≤ length eps.now }
    ensures { SoleLeft (full l.now) eps.now
        ostarts.old ocolumns.old ovalues.old ostarts.new ocolumns.new ovalues.new result }
{
    stencil::assembled(l, eps, 0, ostarts, 0, ocolumns, ovalues, 0)
}
