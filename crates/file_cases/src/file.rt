// The setup file that the lines have made.
use case_lines::lists::{front, put};
use case_lines::words;

// The first `size` of the bytes: there is no allocation.
#[derive(Drop)]
pub struct File {
    pub bytes: [u8; 8192],
    pub size: usize,
}

impl File {
    pub fn new() -> File {
        File {
            bytes: [0; 8192],
            size: 0,
        }
    }

    pub fn whole(&self) -> &[u8] {
        front(&self.bytes, self.size)
    }

    // The byte at a place, 0 past the end.
    pub fn byte(&self, k: usize) -> u8 {
        self.bytes.get(k).copied().unwrap_or(0)
    }

    // The bytes that digits give, two each, from a place on. The place behind them.
    fn lay_digits(&mut self, from: usize, digits: &[u8]) -> usize {
        let mut at = from;
        for byte in digits.chunks_exact(2) {
            put(&mut self.bytes, at, (words::number(byte) % 256) as u8);
            at = at.wrapping_add(1);
        }
        at
    }

    // The bytes from `from` to `to` once more, from `to` on. The place behind them.
    fn again(&mut self, from: usize, to: usize) -> usize {
        let mut at = to;
        for k in from..to {
            let byte = self.byte(k);
            put(&mut self.bytes, at, byte);
            at = at.wrapping_add(1);
        }
        at
    }

    // The bytes of a word, as many times as it says. What stands before a `*` is how many times; its digits are laid too, and what stands behind it over them.
    fn lay_word(&mut self, from: usize, word: &[u8]) -> usize {
        let mut at = from;
        let mut times = 1;
        let mut number = 1;
        for digits in word.split(|b| *b == b'*') {
            times = number;
            number = words::number(digits);
            at = self.lay_digits(from, digits);
        }
        let n = at.wrapping_sub(from);
        for _ in 1..times {
            at = self.again(at.wrapping_sub(n), at);
        }
        at
    }

    // The bytes that a line's words give, but for the first ones, from a place on. The place behind them.
    fn lay(&mut self, from: usize, line: &[u8], first: usize) -> usize {
        let mut at = from;
        for word in line.split(|b| *b == b' ').skip(first) {
            at = self.lay_word(at, word);
        }
        at
    }

    // The line `file`.
    pub fn set(&mut self, line: &[u8]) {
        self.size = self.lay(0, line, 1);
    }

    // The line `put`: where its bytes go, and they.
    pub fn put(&mut self, line: &[u8]) {
        let from = line.split(|b| *b == b' ').nth(1).map_or(0, words::number) as usize;
        let to = self.lay(from, line, 2);
        self.size = self.size.max(to);
    }
}
