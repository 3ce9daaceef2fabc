// Sets of places of an axis as the bits of a word.

ghost use Rattle.std.specs.Prelude.{◌≡◌, ◌-◌, ◌<◌, ◌≤◌};
ghost use Rattle.std.specs.Iterator.{at_most};
ghost use Rattle.operators.specs.Bits.{bit_at, mix_of, single, NextPlace, PlacesReady, GivesPlace};

// Is k in the set?
pub fn bit(w: u64, k: usize) -> bool
    requires { k < 64 }
    ensures { result ≡ bit_at w k }
{
    (w >> k) % 2 == 1
}

// The set of k alone.
pub fn unit(k: usize) -> u64
    requires { k < 64 }
    ensures { result ≡ single k }
{
    1 << k
}

// t if a, with s if b.
pub fn mix(a: bool, t: u64, b: bool, s: u64) -> u64
    ensures { result ≡ mix_of a t b s }
{
    if a {
        if b {
            return t | s;
        }
        return t;
    }
    if b {
        return s;
    }
    0
}

// The first place of w at or behind i, 64 if it has none there.
pub fn next_place(w: u64, i: usize) -> usize
    requires { i ≤ 64 }
    ensures { NextPlace w i result }
{
    if i >= 64 {
        return 64;
    }
    let rest = w >> i;
    if rest == 0 {
        return 64;
    }
    i + u64::trailing_zeros(rest) as usize
}

// The places of w below n, in rising order: the next one is looked for from place `next` on.
#[derive(Drop)]
pub struct Places {
    pub w: u64,
    pub n: usize,
    pub next: usize,
}

pub fn places_below(w: u64, n: usize) -> Places
    ensures { result ≡ record { w = w; n = n; next = 0 } }
{
    Places { w, n, next: 0 }
}

impl Iterator for Places {
    type Item = usize;

    ghost can_next = { PlacesReady };

    ghost next_gives = { GivesPlace };

    ghost remaining = { λ s. at_most (s.n - s.next) };

    fn next(&mut self) -> Option<usize> {
        let i = next_place(self.w, self.next);
        if i >= self.n {
            return None;
        }
        self.next = i + 1;
        Some(i)
    }
}
