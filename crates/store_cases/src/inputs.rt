// What the lines have set, as a call is handed it.
use case_lines::lists;
use case_lines::lists::put;
use case_lines::words::Numbers;
use lattice::grid::Grid3d;
use lattice::input::Stretches;
use lattice::lattice::{Edges, Lattice};
use numbers::C64;
use programs::bytes;
use std::array;
use store::Choice;
use store::handed::Cells;

// Where in the words those of each line begin.
pub const GRID: usize = 0;

pub const CHOICE: usize = 3;

pub const COUNTS: usize = 8;

pub const ROOM: usize = 16;

pub const BUILT: usize = 32;

pub const HANDED: usize = 72;
// How many starts there are; behind it they.
const PLACED: usize = 128;
// The lengths that are lent for a change.
pub const LENT: usize = 500;
// How many words the steps have; behind it they, four a step.
const STEPS: usize = 512;

// Where in the doubles the lists begin, behind those of the line `numbers`.
const LISTS: usize = 16;

// How many doubles each list has room for; the last takes what is left.
const LIST: usize = 144;

// One array for the words of all lines: a line of more than there is room for runs on into those behind, one of fewer leaves those behind as they were, and a step may
// set any word. One array for the doubles: a step names one of the line `numbers` or of a list by its place in it.
#[derive(Drop)]
pub struct Settings {
    words: [usize; 1600],
    doubles: [f64; 25600],
}

fn edges(kind: f64, re: f64, im: f64) -> Edges {
    if kind == 0.0 {
        return Edges::Pml;
    }
    Edges::Bloch(C64 { re, im })
}

impl Settings {
    pub fn new() -> Settings {
        Settings {
            words: [0; 1600],
            doubles: [0.0; 25600],
        }
    }

    // ---- set

    // The words of a line, from a place on. How many there was room for.
    pub fn set_words(&mut self, from: usize, numbers: Numbers<'_>) -> usize {
        let Some(room) = self.words.get_mut(from..) else {
            return 0;
        };
        numbers.lay(room)
    }

    // The line `places`.
    pub fn set_places(&mut self, numbers: Numbers<'_>) {
        self.words[PLACED] = self.set_words(PLACED + 1, numbers);
    }

    // The line `steps`.
    pub fn set_steps(&mut self, numbers: Numbers<'_>) {
        self.words[STEPS] = self.set_words(STEPS + 1, numbers);
    }

    // A line of another kind lays its words where those of the steps stand.
    pub fn set_rest(&mut self, numbers: Numbers<'_>) {
        self.set_words(STEPS + 1, numbers);
    }

    pub fn drop_steps(&mut self) {
        self.words[STEPS] = 0;
    }

    // The doubles of a line, from a place on.
    pub fn set_doubles(&mut self, from: usize, numbers: Numbers<'_>) {
        let room = self.doubles.iter_mut().skip(from);
        for (place, bits) in room.zip(numbers) {
            *place = bytes::double_of(bits);
        }
    }

    // The doubles of the line `list`, whose first word says which.
    pub fn set_list(&mut self, mut numbers: Numbers<'_>) {
        let k = numbers.next().unwrap_or(0).min(6) as usize;
        self.set_doubles(LISTS + LIST * k, numbers);
    }

    // One word, none past the last.
    pub fn set_word(&mut self, place: usize, word: usize) {
        put(&mut self.words, place, word);
    }

    // And one double.
    pub fn set_double(&mut self, place: usize, double: f64) {
        put(&mut self.doubles, place, double);
    }

    // Each list is lent as it is for the setup.
    pub fn lend(&mut self) {
        for k in 0..12 {
            self.words[LENT + k] = self.words[ROOM + k];
        }
    }

    // ---- handed over

    // The words from a place on, 0 past the last.
    pub fn words<const N: usize>(&self, from: usize) -> [usize; N] {
        array::from_fn(|k| self.words.get(from.wrapping_add(k)).copied().unwrap_or(0))
    }

    pub fn lattice(&self) -> Lattice {
        let d = &self.doubles;
        Lattice {
            grid: Grid3d {
                nx: self.words[GRID],
                ny: self.words[GRID + 1],
                nz: self.words[GRID + 2],
                dx: d[0],
                dy: d[1],
                dz: d[2],
            },
            x: edges(d[5], d[6], d[7]),
            y: edges(d[8], d[9], d[10]),
            z: edges(d[11], d[12], d[13]),
            k0: d[3],
            shift: d[4],
        }
    }

    pub fn choice(&self) -> Choice {
        match self.words[CHOICE] {
            0 => Choice::Galerkin,
            _ => Choice::Rediscretized,
        }
    }

    pub fn coarsest(&self) -> usize {
        self.words[CHOICE + 1]
    }

    pub fn brief(&self) -> bool {
        self.words[CHOICE + 2] != 0
    }

    // The first doubles of list k, as many as the line `doubles` says; none where there are fewer.
    pub fn list(&self, k: usize) -> &[f64] {
        let k = k.min(6);
        let from = LISTS + LIST * k;
        let to = self.words[COUNTS + k].saturating_add(from);
        self.doubles.get(from..to).unwrap_or(&[])
    }

    pub fn stretches(&self) -> Stretches<'_> {
        Stretches {
            xn: self.list(0),
            xh: self.list(1),
            yn: self.list(2),
            yh: self.list(3),
            zn: self.list(4),
            zh: self.list(5),
        }
    }

    // The levels and cells of the line `built`.
    pub fn built(&self) -> Cells {
        Cells {
            levels: self.words[BUILT],
            cells: self.words(BUILT + 1),
        }
    }

    // The starts of the line `places`.
    pub fn starts(&self) -> &[usize] {
        lists::front(&self.words[PLACED + 1..], self.words[PLACED])
    }

    // How many steps there are, as far as the words hold them.
    pub fn steps(&self) -> usize {
        (self.words[STEPS] / 4).min(256)
    }

    // The four words of step k.
    pub fn step(&self, k: usize) -> [usize; 4] {
        self.words(k.wrapping_mul(4).wrapping_add(STEPS + 1))
    }
}
