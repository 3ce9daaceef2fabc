// Answers in two whole numbers, as the calls for C, the programs and the cases hand them on.

ghost use Rattle.std.specs.Prelude.{◌≡◌, Err};
ghost use Rattle.lattice.specs.Check.{refusal_of};
ghost use Rattle.store.specs.Steps.{answer_of};
ghost use Rattle.store.specs.ChangeSteps.{changed_of};
ghost use Rattle.store.specs.Told.{told, told_by, said};

use crate::change;
use crate::setup::Refusal;
use lattice::check;

// A refusal's number and place (docs/SPECIFICATION.md, 5), or 0 and the level count.
#[derive(Clone, Copy, PartialEq, Eq, Debug)]
pub struct Told {
    pub number: usize,
    pub place: usize,
}

impl Told {
    pub fn new(number: usize, place: usize) -> Told
        ensures { result ≡ told number place }
    {
        Told { number, place }
    }

    // The level count, or the refusal.
    pub fn answer(self) -> Result<usize, Told>
        ensures { result ≡ said self }
    {
        if self.number == 0 {
            return Ok(self.place);
        }
        Err(self)
    }
}

impl From<check::Refusal> for Told {
    ghost from_gives = { λ c t. t ≡ told_by (refusal_of c) };

    fn from(c: check::Refusal) -> Told {
        match c {
            check::Refusal::Cells(place) => Told::new(1, place),
            check::Refusal::Scalar(place) => Told::new(2, place),
            check::Refusal::Length(place) => Told::new(3, place),
            check::Refusal::Entry(place) => Told::new(4, place),
        }
    }
}

impl From<Refusal> for Told {
    ghost from_gives = { λ r t. t ≡ told_by (answer_of (Err r)) };

    fn from(r: Refusal) -> Told {
        match r {
            Refusal::Input(c) => Told::from(c),
            Refusal::TooMany => Told::new(5, 12),
            Refusal::Twice(level) => Told::new(8, level),
            Refusal::Short(list) => Told::new(6, list),
            Refusal::NotFinite(level) => Told::new(7, level),
        }
    }
}

impl From<Result<usize, Refusal>> for Told {
    ghost from_gives = { λ a t. t ≡ told_by (answer_of a) };

    fn from(a: Result<usize, Refusal>) -> Told {
        match a {
            Ok(n) => Told::new(0, n),
            Err(r) => Told::from(r),
        }
    }
}

impl From<change::Refusal> for Told {
    ghost from_gives = { λ r t. t ≡ told_by (changed_of (Err r)) };

    fn from(r: change::Refusal) -> Told {
        match r {
            change::Refusal::Setup(s) => Told::from(s),
            change::Refusal::NoEdge(edge) => Told::new(9, edge),
            change::Refusal::BadValue(edge) => Told::new(10, edge),
            change::Refusal::Differs(level) => Told::new(11, level),
        }
    }
}

impl From<Result<usize, change::Refusal>> for Told {
    ghost from_gives = { λ a t. t ≡ told_by (changed_of a) };

    fn from(a: Result<usize, change::Refusal>) -> Told {
        match a {
            Ok(n) => Told::new(0, n),
            Err(r) => Told::from(r),
        }
    }
}
