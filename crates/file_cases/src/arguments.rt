// The numbers of a line.
use case_lines::lists::put;
use case_lines::words;
use std::ops::Range;

// A line of fewer numbers leaves those behind as they were. Here a `*` is no sign of its own: only words of bytes may stand several times.
#[derive(Drop)]
pub struct Arguments {
    numbers: [usize; 248],
    // How many the line has, 256 at most: there is no room for the last ones.
    pub count: usize,
}

impl Arguments {
    pub fn new() -> Arguments {
        Arguments {
            numbers: [0; 248],
            count: 0,
        }
    }

    pub fn read(&mut self, line: &[u8]) {
        self.count = 0;
        for word in line.split(|b| *b == b' ').skip(1).take(256) {
            put(&mut self.numbers, self.count, words::number(word) as usize);
            self.count = self.count.wrapping_add(1);
        }
    }

    // Number k, 0 where there is no room for it.
    pub fn number(&self, k: usize) -> usize {
        self.numbers.get(k).copied().unwrap_or(0)
    }

    // From the first number to before the second.
    pub fn range(&self) -> Range<usize> {
        self.number(0)..self.number(1)
    }
}
