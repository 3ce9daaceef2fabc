// The store: twelve lent lists, what they need, and the setup that fills them.

#![tactic(auto)]

ghost use Rattle.std.specs.Prelude.{◌≡◌};
ghost use Rattle.store.specs.Told.{choice_of};

pub mod change;
pub mod ends;
pub mod fill;
pub mod galerkin_levels;
pub mod handed;
pub mod hierarchy;
pub mod lines;
pub mod lists;
pub mod needed;
pub mod needs;
pub mod rediscretized_levels;
pub mod relations;
pub mod scaling;
pub mod setup;
pub mod sole;
pub mod told;
pub mod transfers;

// How the coarse operators come about: restriction × fine operator × interpolation (Galerkin), or the lattice's own rows on the coarse cells.
#[derive(Clone, Copy, PartialEq, Eq, Debug)]
pub enum Choice {
    Galerkin,
    Rediscretized,
}

// 0 is Galerkin, every other number rediscretized.
impl From<usize> for Choice {
    ghost from_gives = { λ n c. c ≡ choice_of n };

    fn from(n: usize) -> Choice {
        if n == 0 {
            return Choice::Galerkin;
        }
        Choice::Rediscretized
    }
}
