// What the code of a change (crate `changes`) answers and holds.

ghost use Rattle.std.specs.Prelude.{◌≡◌};
ghost use Rattle.store.specs.declared.setup.Refusal.TheVariants.{Input};
ghost use Rattle.store.specs.declared.change.Refusal.TheVariants.{Setup};

use crate::setup;
use crate::transfers::Offsets;
use lattice::check;
use numbers::terms::Part;

// What a change is refused with: what refuses a setup; that there is no such edge (9), that the value is not finite or zero (10), or the lowest level
// whose starts, columns or ends differ from the lattice's (11).
#[derive(Clone, Copy, PartialEq, Eq, Debug)]
pub enum Refusal {
    Setup(setup::Refusal),
    NoEdge(usize),
    BadValue(usize),
    Differs(usize),
}

impl From<setup::Refusal> for Refusal {
    ghost from_gives = { λ r e. e ≡ Setup r };

    fn from(r: setup::Refusal) -> Refusal {
        Refusal::Setup(r)
    }
}

impl From<check::Refusal> for Refusal {
    ghost from_gives = { λ c e. e ≡ Setup (Input c) };

    fn from(c: check::Refusal) -> Refusal {
        Refusal::Setup(setup::Refusal::from(c))
    }
}

// The most edges of a level.
pub const EDGES: usize = 12288;

// The flags of a level: its permittivities, its averaged permittivities and the rows of its operator; and the forward and the turned rows of the transfer
// from it to the level before.
#[derive(Clone, Copy)]
pub struct Hits {
    pub eps: [bool; EDGES],
    pub averaged: [bool; EDGES],
    pub forward: [bool; EDGES],
    pub turned: [bool; EDGES],
    pub operator: [bool; EDGES],
}

// Where the rows of a transfer and of its fine level's operator stand.
#[derive(Clone, Copy)]
pub struct LevelParts {
    pub forward: Part,
    pub turned: Part,
    pub operator: Part,
}

// Where a transfer stands: its offsets, its flags, the averaged permittivities of its fine and of its coarse level, its volumes, and the rows of its
// coarse level's operator.
#[derive(Clone, Copy)]
pub struct Standing {
    pub o: Offsets,
    pub base: usize,
    pub from: usize,
    pub to: usize,
    pub scale: usize,
    pub operator: Part,
}

// The five lists of numbers of a store.
#[derive(Clone, Copy, PartialEq, Eq, Debug)]
pub enum NumberList {
    Permittivities,
    Forward,
    Turned,
    Operator,
    Scaling,
}

// Where the rows of a part stand: how many rows, where their flags begin, their list, where their starts and where their numbers begin.
#[derive(Clone, Copy)]
pub struct Words {
    pub rows: usize,
    pub base: usize,
    pub list: NumberList,
    pub start: usize,
    pub number: usize,
}

// Where the permittivities of a coarse level begin, those of the averaged chain, the scaling, and starts and numbers of the rows.
#[derive(Clone, Copy)]
pub struct Marks {
    pub eps: usize,
    pub averaged: usize,
    pub scale: usize,
    pub forward: Part,
    pub turned: Part,
    pub operator: Part,
}

// A double of a row: the row's part and number, the list, the double's place there, and how many of the row's doubles are left, this one among them. None
// is left at the end of the walk.
#[derive(Clone, Copy)]
pub struct Cursor {
    pub part: usize,
    pub row: usize,
    pub list: NumberList,
    pub at: usize,
    pub left: usize,
}

// How many doubles were saved, and the next one.
#[derive(Clone, Copy)]
pub struct Saved {
    pub next: Cursor,
    pub n: usize,
}
