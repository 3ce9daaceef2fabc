// The level loop: the lines of all levels, and how many levels there are.

ghost use Rattle.std.specs.Prelude.{◌≡◌, ◌+◌, ◌*◌, ◌<◌};
ghost use Rattle.lattice.specs.Sound.{full};
ghost use Rattle.lattice.specs.Line.{Held};
ghost use Rattle.lattice.specs.declared.levels.Refusal.TheVariants.{Input};
ghost use Rattle.lattice.specs.Levels.{target as target_of, maps_of, three_at, coarser_three, three_edges, same_cells, no_line, Joined, Answered};

use crate::input::Stretches;
use crate::lattice::Lattice;
use crate::line::Line;
use crate::sound::Sound;
use crate::{check, lattice, line, stretched};
use numbers::C64;

// The lines of one level.
#[derive(Clone, Copy)]
pub struct Three {
    pub x: Line,
    pub y: Line,
    pub z: Line,
}

// The maps across the three axes.
#[derive(Clone, Copy)]
pub struct Maps {
    pub x: [C64; 129],
    pub y: [C64; 129],
    pub z: [C64; 129],
}

// How many levels the loop makes, none if more than 12, and the lines of all levels: that of axis a on level L is number 3 L + a. Beyond the levels lines of no
// cells.
#[derive(Clone, Copy)]
pub struct Lines {
    pub depth: Option<usize>,
    pub lines: [Line; 36],
}

// What the levels' lines are refused for: refusals 1 to 4 of the input, or 5.
#[derive(Clone, Copy, PartialEq, Eq, Debug)]
pub enum Refusal {
    Input(check::Refusal),
    TooMany,
}

impl From<check::Refusal> for Refusal {
    ghost from_gives = { λ c r. r ≡ Input c };

    fn from(c: check::Refusal) -> Refusal {
        Refusal::Input(c)
    }
}

// The level count or a refusal, and the lines; after a refusal lines of no cells.
#[derive(Clone, Copy)]
pub struct LevelLines {
    pub answer: Result<usize, Refusal>,
    pub lines: [Line; 36],
}

// T on a level.
pub fn target(level: usize) -> f64
    requires { level < 12 }
    ensures { result ≡ target_of level }
{
    (2usize << level) as f64 * 1.5
}

fn across_maps(l: &Sound<'_>) -> Maps
    ensures { result ≡ maps_of (full l.now) }
{
    Maps {
        x: stretched::across_map(l, 0),
        y: stretched::across_map(l, 1),
        z: stretched::across_map(l, 2),
    }
}

// The finest level's lines.
fn finest(l: &Sound<'_>) -> Three
    ensures { result ≡ three_at (full l.now) 0 }
{
    let g = l.lattice.grid;
    Three {
        x: line::finest(g.nx),
        y: line::finest(g.ny),
        z: line::finest(g.nz),
    }
}

// The next level's lines.
fn coarser(t: Three, m: Maps, target: f64) -> Three
    requires { (Held t.x) × (Held t.y) × (Held t.z) }
    ensures { result ≡ coarser_three t m target }
{
    let a = t.x;
    let b = t.y;
    let c = t.z;
    let mx = m.x;
    let my = m.y;
    let mz = m.z;
    Three {
        x: line::coarser(a, mx, target),
        y: line::coarser(b, my, target),
        z: line::coarser(c, mz, target),
    }
}

// The edges of a level.
fn edges(t: Three) -> usize
    requires { (Held t.x) × (Held t.y) × (Held t.z) }
    ensures { result ≡ three_edges t }
{
    let a = t.x;
    let b = t.y;
    let c = t.z;
    3 * (a.cells * b.cells * c.cells)
}

// Whether two levels have as many cells along each axis.
fn same_cells(s: Three, t: Three) -> bool
    ensures { result ≡ same_cells s t }
{
    let a = s.x;
    let b = s.y;
    let c = s.z;
    let d = t.x;
    let e = t.y;
    let f = t.z;
    a.cells == d.cells && (b.cells == e.cells && c.cells == f.cells)
}

// A line of no cells.
fn no_line() -> Line
    ensures { result ≡ no_line }
{
    Line {
        cells: 0,
        ends: [0usize; 65],
    }
}

// The levels' lines of a lattice.
pub fn join_lines(l: &Sound<'_>, coarsest: usize) -> Lines
    ensures { Joined (full l.now) coarsest result }
{
    let m = across_maps(l);
    let none = no_line();
    let mut lines = [none; 36];
    let mut t = finest(l);
    // A number: the level's three lines stand together, and its target and the depth come of it.
    for level in 0..12 {
        let a = t.x;
        let b = t.y;
        let c = t.z;
        lines[3 * level] = a;
        lines[3 * level + 1] = b;
        lines[3 * level + 2] = c;
        if edges(t) <= coarsest {
            return Lines {
                depth: Some(level + 1),
                lines,
            };
        }
        let next = coarser(t, m, target(level));
        if same_cells(next, t) {
            return Lines {
                depth: Some(level + 1),
                lines,
            };
        }
        t = next;
    }
    Lines {
        depth: None,
        lines: [none; 36],
    }
}

// The levels' lines of a setup's input: the level count, or refusals 1 to 5.
pub fn levels(v: Lattice, on: &Stretches<'_>, coarsest: usize) -> LevelLines
    ensures { Answered v on.now.xn.now on.now.xh.now on.now.yn.now on.now.yh.now on.now.zn.now on.now.zh.now coarsest result }
{
    if let Err(c) = check::check_stretches(v, on) {
        return LevelLines {
            answer: Err(Refusal::from(c)),
            lines: [no_line(); 36],
        };
    }
    let st = lattice::stretches(v, on);
    let l = Sound {
        lattice: v,
        st: &st,
    };
    let found = join_lines(&l, coarsest);
    let lines = found.lines;
    LevelLines {
        answer: found.depth.ok_or(Refusal::TooMany),
        lines,
    }
}
