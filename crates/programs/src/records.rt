// The records of a file: which one is due, and the setup's input that they give.

ghost use Rattle.std.specs.Prelude.{◌≡◌, ◌+◌, ◌*◌, ◌<◌, ◌≤◌, ◌^◌};
ghost use Rattle.programs.specs.Reading.{unseen};
ghost use Rattle.programs.specs.Records.{grid_of, lattice_of, stretch_count, cell_count, edge_count, number_of, due_of, bare_of, size_due, Few, cut_of, input_read, input_with, given_read};

use crate::bytes;
use crate::kinds::Kind;
use lattice::grid::Grid3d;
use lattice::input::Stretches;
use lattice::lattice::{Edges, Lattice};
use store::Choice;

// The bytes of the longest body, the grid's.
pub const BODY: usize = 46;

// What comes next: the grid, an axis's kind, the numbers and then the choice, changes and then the end, nothing.
#[derive(Clone, Copy, PartialEq, Eq)]
pub enum Stage {
    Start,
    AxisX,
    AxisY,
    AxisZ,
    Numbers,
    Changes,
    Over,
}

// What the records so far have said. `count`: the numbers read. `grid`: the grid's body.
#[derive(Clone, Copy)]
pub struct Seen {
    pub stage: Stage,
    pub count: usize,
    pub grid: [u8; BODY],
    pub x: Edges,
    pub y: Edges,
    pub z: Edges,
    pub choice: Choice,
    pub coarsest: usize,
}

// Nothing yet.
pub fn unseen() -> Seen
    ensures { result ≡ unseen }
{
    Seen {
        stage: Stage::Start,
        count: 0,
        grid: [0u8; BODY],
        x: Edges::Pml,
        y: Edges::Pml,
        z: Edges::Pml,
        choice: Choice::Galerkin,
        coarsest: 0,
    }
}

// ---- the grid

// The grid of a grid's body.
#[tactic(auto, unfolding(crate::specs::Records::grid_of))]
pub fn grid_of(b: [u8; BODY]) -> Grid3d
    ensures { (result ≡ grid_of b) × ((result.nx < 65536) × ((result.ny < 65536) × (result.nz < 65536))) }
{
    Grid3d {
        nx: bytes::word16(&b, 0),
        ny: bytes::word16(&b, 2),
        nz: bytes::word16(&b, 4),
        dx: bytes::double_at(&b, 6),
        dy: bytes::double_at(&b, 14),
        dz: bytes::double_at(&b, 22),
    }
}

// The lattice record that the grid and the axes' kinds give.
#[tactic(auto, unfolding(crate::specs::Records::lattice_of))]
pub fn lattice_of(s: Seen) -> Lattice
    ensures { result ≡ lattice_of s }
{
    Lattice {
        grid: grid_of(s.grid),
        x: s.x,
        y: s.y,
        z: s.z,
        k0: bytes::double_at(&s.grid, 30),
        shift: bytes::double_at(&s.grid, 38),
    }
}

// ---- counts of numbers

// The stretches of a grid: two lists an axis.
#[tactic(auto, unfolding(crate::specs::Records::stretch_count))]
pub fn stretch_count(b: [u8; BODY]) -> usize
    ensures { (result ≡ stretch_count b) × (result < 2 ^ 20) }
{
    2 * (bytes::word16(&b, 0) + bytes::word16(&b, 2) + bytes::word16(&b, 4))
}

// The cells of a grid.
#[tactic(auto, unfolding(crate::specs::Records::cell_count))]
pub fn cell_count(b: [u8; BODY]) -> usize
    ensures { (result ≡ cell_count b) × (result < 2 ^ 48) }
{
    bytes::word16(&b, 0) * bytes::word16(&b, 2) * bytes::word16(&b, 4)
}

// The permittivities of a grid: three a cell.
#[tactic(auto, unfolding(crate::specs::Records::edge_count))]
pub fn edge_count(b: [u8; BODY]) -> usize
    ensures { (result ≡ edge_count b) × (result < 2 ^ 50) }
{
    3 * cell_count(b)
}

// ---- turns

// The kind that is due among the numbers: a stretch, a permittivity, and behind them the choice. Before the choice the count is small.
fn number_due(s: Seen) -> Kind
    ensures due { result ≡ number_of s }
    ensures few { Few (Some result) s.count }
{
    let stretches = stretch_count(s.grid);
    if s.count < stretches {
        return Kind::Stretch;
    }
    if s.count < stretches + edge_count(s.grid) {
        return Kind::Permittivity;
    }
    Kind::Choice
}

// The kind of the record with a body that is due. Where it is a number, the count is small.
pub fn due(s: Seen) -> Option<Kind>
    ensures due { result ≡ due_of s }
    ensures few { Few result s.count }
{
    match s.stage {
        Stage::Start => Some(Kind::Grid),
        Stage::AxisX | Stage::AxisY | Stage::AxisZ => Some(Kind::Bloch),
        Stage::Numbers => Some(number_due(s)),
        Stage::Changes => Some(Kind::Change),
        Stage::Over => None,
    }
}

// The kind of the record without a body that may stand in its place.
pub fn bare(stage: Stage) -> Option<Kind>
    ensures { result ≡ bare_of stage }
{
    match stage {
        Stage::AxisX | Stage::AxisY | Stage::AxisZ => Some(Kind::Wall),
        Stage::Changes => Some(Kind::End),
        Stage::Start | Stage::Numbers | Stage::Over => None,
    }
}

// The bytes of the body that is due; 0 where none is.
pub fn size_due(s: Seen) -> usize
    ensures size { result ≡ size_due s }
    ensures most { result ≤ 46 }
{
    due(s).map_or(0, Kind::body_size)
}

// ---- the lists of the input

// The n doubles of a list from `from` on; none where it does not have them.
pub fn cut(xs: &[f64], from: usize, n: usize) -> &[f64]
    ensures { result.now ≡ cut_of xs.now from n }
{
    xs.get(from..from.saturating_add(n)).unwrap_or(&[])
}

// The stretches on each axis, at nodes and at halves, out of the numbers held.
#[tactic(auto, unfolding(crate::specs::Records::input_read))]
pub fn stretches_of(s: Seen, held: &[f64]) -> Stretches<'_>
    ensures { input_with s result ≡ input_read s held.now }
{
    let x = 2 * bytes::word16(&s.grid, 0);
    let y = 2 * bytes::word16(&s.grid, 2);
    let z = 2 * bytes::word16(&s.grid, 4);
    Stretches {
        xn: cut(held, 0, x),
        xh: cut(held, x, x),
        yn: cut(held, 2 * x, y),
        yh: cut(held, 2 * x + y, y),
        zn: cut(held, 2 * x + 2 * y, z),
        zh: cut(held, 2 * x + 2 * y + z, z),
    }
}

// The permittivities.
#[tactic(auto, unfolding(crate::specs::Records::given_read))]
pub fn given(s: Seen, held: &[f64]) -> &[f64]
    ensures { result.now ≡ given_read s held.now }
{
    cut(held, 2 * stretch_count(s.grid), 2 * edge_count(s.grid))
}
