// What the listing says of a level.

ghost use Rattle.std.specs.Prelude.{◌≡◌, ◌-◌, ◌<◌, false};
ghost use Rattle.store.specs.Handed.{weight_terms};
ghost use Rattle.programs.specs.Lines.{cells_read, rows_in, terms_between, line_of};

use crate::reader::Reader;
use crate::records;
use store::handed::Cells;
use store::{handed, needed};

// A line of the listing: the level, its cells along the axes, and the forward weights to the next level, 0 at the last.
#[derive(Clone, Copy)]
pub struct LevelLine {
    pub level: usize,
    pub x: usize,
    pub y: usize,
    pub z: usize,
    pub weights: usize,
}

// The cells of the levels that a reading set up.
#[tactic(auto, unfolding(crate::specs::Lines::cells_read))]
pub fn cells(r: Reader, held: &[f64]) -> Cells
    ensures { result ≡ cells_read r.seen held.now }
{
    let s = r.seen;
    let on = records::stretches_of(s, held);
    let found = needed::setup_needs(records::lattice_of(s), &on, s.choice, s.coarsest);
    match found {
        Ok(needed) => needed.cells,
        Err(_) => needed::no_cells(),
    }
}

// The edges of a level of so many cells, none where an axis has more than 64.
#[tactic(auto, unfolding(crate::specs::Lines::rows_in))]
fn rows(x: usize, y: usize, z: usize) -> usize
    ensures { result ≡ rows_in x y z }
{
    if x > 64 || y > 64 || z > 64 {
        return 0;
    }
    3 * (x * y * z)
}

// The terms from the beginning of one row to the end of another.
fn terms_between(first: Option<(usize, usize)>, last: Option<(usize, usize)>) -> usize
    ensures { result ≡ terms_between first last }
{
    match (first, last) {
        (Some((a, _)), Some((_, d))) => d.saturating_sub(a),
        _ => 0,
    }
}

// The forward weights of a level's part. `room`: the places of the list that holds them.
fn weights(c: Cells, starts: &[usize], room: usize, level: usize, rows: usize) -> usize
    ensures { result ≡ terms_between (weight_terms c false starts.now room starts.now room level 0)
        (weight_terms c false starts.now room starts.now room level (rows - 1)) }
{
    let first = handed::weight_terms(c, false, starts, room, starts, room, level, 0);
    let end = handed::weight_terms(
        c,
        false,
        starts,
        room,
        starts,
        room,
        level,
        rows.saturating_sub(1),
    );
    terms_between(first, end)
}

// The line of a level.
#[tactic(auto, unfolding(crate::specs::Lines::weights_of))]
pub fn line(c: Cells, starts: &[usize], room: usize, level: usize) -> LevelLine
    requires { level < 12 }
    ensures { result ≡ line_of c starts.now room level }
{
    let at = 3 * level;
    let x = c.cells[at];
    let y = c.cells[at + 1];
    let z = c.cells[at + 2];
    LevelLine {
        level,
        x,
        y,
        z,
        weights: weights(c, starts, room, level, rows(x, y, z)),
    }
}
