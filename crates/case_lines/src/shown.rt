// Numbers as they are printed and as they go into a digest: a word in decimal, a double by its bits in hexadecimal, and what stood in a lent place before a call as `-`.

ghost use Rattle.std.specs.Prelude.{◌≡◌, ℕ, ◌+◌, ◌%◌, ◌^◌, Some};
ghost use Rattle.case_lines.specs.declared.shown.Shown.{Shown};
ghost use Rattle.case_lines.specs.declared.shown.Shown.TheVariants.{Word, Bits};
ghost use Rattle.case_lines.specs.Shown.{bits_of, text_of, times_text, double_shown, mixed, digest_of};

use std::fmt;

// What stands in every lent place before a call, as a word and as the bits of a double.
pub const MARK: u64 = 0xc0de_c0de_c0de_c0de;

// A word, or the bits of a double.
#[derive(Clone, Copy, PartialEq, Eq)]
pub enum Shown {
    Word(u64),
    Bits(u64),
}

impl Shown {
    pub fn bits(self) -> u64
        ensures { result ≡ bits_of self }
    {
        match self {
            Shown::Word(n) | Shown::Bits(n) => n,
        }
    }
}

impl fmt::Display for Shown {
    ghost output = { λ s. Some (text_of s) };

    fn fmt<W: fmt::Write>(&self, f: &mut fmt::Formatter<W>) -> fmt::Result {
        match *self {
            Shown::Word(MARK) | Shown::Bits(MARK) => f.write_str("-"),
            Shown::Word(n) => write!(f, "{n}"),
            Shown::Bits(n) => write!(f, "{n:x}"),
        }
    }
}

// What stands so many times in a row.
#[derive(Clone, Copy)]
pub struct Times<T> {
    pub times: usize,
    pub of: T,
}

impl<T: fmt::Display> fmt::Display for Times<T> {
    ghost output = { λ r. times_text r.times (T.output r.of) };

    fn fmt<W: fmt::Write>(&self, f: &mut fmt::Formatter<W>) -> fmt::Result {
        let of = &self.of;
        if self.times == 1 {
            return write!(f, " {of}");
        }
        let times = self.times;
        write!(f, " {times}*{of}")
    }
}

// What the lent lists hold.
pub trait Number: Copy {
    ghost shown: { Self → Shown };

    fn shown(self) -> Shown
        ensures { result ≡ shown self };

    // What stands in a lent place before a call.
    fn mark() -> Self
        ensures { bits_of (shown result) ≡ MARK };
}

impl Number for usize {
    ghost shown = { Word };

    fn shown(self) -> Shown {
        Shown::Word(self as u64)
    }

    fn mark() -> usize {
        MARK as usize
    }
}

impl Number for f64 {
    ghost shown = { double_shown };

    // One pattern for every double that is not finite.
    fn shown(self) -> Shown {
        if self.is_finite() {
            return Shown::Bits(self.to_bits());
        }
        Shown::Bits(u64::MAX)
    }

    fn mark() -> f64 {
        f64::from_bits(MARK)
    }
}

// ---- digests

pub fn mixed(digest: u64, x: u64) -> u64
    ensures { result ≡ mixed digest x }
{
    digest.rotate_left(7).wrapping_add(x)
}

// A digest with that of a list behind it.
pub fn digest<T: Number>(first: u64, list: &[T]) -> u64
    ensures { result ≡ digest_of T.shown first list.now }
{
    list.iter().fold(
        mixed(first, list.len() as u64),
        |d, x| mixed(d, x.shown().bits()),
    )
}
