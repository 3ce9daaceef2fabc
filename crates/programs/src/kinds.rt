// The kinds of record.

ghost use Rattle.std.specs.Prelude.{◌≡◌, ◌≤◌};
ghost use Rattle.programs.specs.Records.{Decodes, body_size};

// What a record says: the grid, a wall or Bloch for an axis, a stretch, a permittivity, the choice, a change, the end.
#[derive(Clone, Copy, PartialEq, Eq)]
pub enum Kind {
    Grid,
    Wall,
    Bloch,
    Stretch,
    Permittivity,
    Choice,
    Change,
    End,
}

// A byte that stands for no kind.
#[derive(Clone, Copy)]
pub struct NoKind(pub u8);

impl TryFrom<u8> for Kind {
    type Error = NoKind;

    ghost try_from_gives = { Decodes };

    fn try_from(byte: u8) -> Result<Kind, NoKind> {
        match byte {
            1 => Ok(Kind::Grid),
            2 => Ok(Kind::Wall),
            3 => Ok(Kind::Bloch),
            4 => Ok(Kind::Stretch),
            5 => Ok(Kind::Permittivity),
            6 => Ok(Kind::Choice),
            7 => Ok(Kind::Change),
            255 => Ok(Kind::End),
            _ => Err(NoKind(byte)),
        }
    }
}

impl Kind {
    // How many bytes its body has.
    pub fn body_size(self) -> usize
        ensures size { result ≡ body_size self }
        ensures most { result ≤ 46 }
    {
        match self {
            Kind::Grid => 46,
            Kind::Choice => 5,
            Kind::Change => 20,
            Kind::Wall | Kind::End => 0,
            Kind::Bloch | Kind::Stretch | Kind::Permittivity => 16,
        }
    }
}
