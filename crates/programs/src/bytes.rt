// Numbers out of bytes, the low byte first. A function for each width: `from_le_bytes` is a method of each type by itself, so one for all would need a trait
// over the three types, which is longer than they are.

ghost use Rattle.std.specs.Prelude.{◌≡◌, ◌+◌, ◌<◌, ◌≤◌, ◌^◌, length};
ghost use Rattle.programs.specs.Bytes.{word16, word32, word64, double_of, double_at, pair_at};

use numbers::C64;
use std::num;

// The number of two bytes from place k on.
#[tactic(auto, unfolding(crate::specs::Bytes::word16))]
pub fn word16(b: &[u8], k: usize) -> usize
    requires { k + 2 ≤ length b.now }
    ensures { (result ≡ word16 b.now k) × (result < 65536) }
{
    u16::from_le_bytes([b[k], b[k + 1]]) as usize
}

// The number of four bytes from place k on.
#[tactic(auto, unfolding(crate::specs::Bytes::word16, crate::specs::Bytes::word32))]
pub fn word32(b: &[u8], k: usize) -> usize
    requires { k + 4 ≤ length b.now }
    ensures { (result ≡ word32 b.now k) × (result < 2 ^ 32) }
{
    u32::from_le_bytes([b[k], b[k + 1], b[k + 2], b[k + 3]]) as usize
}

// The number of eight bytes from place k on.
#[tactic(auto, unfolding(crate::specs::Bytes::word16, crate::specs::Bytes::word32, crate::specs::Bytes::word64))]
pub fn word64(b: &[u8], k: usize) -> u64
    requires { k + 8 ≤ length b.now }
    ensures { result ≡ word64 b.now k }
{
    u64::from_le_bytes([
        b[k],
        b[k + 1],
        b[k + 2],
        b[k + 3],
        b[k + 4],
        b[k + 5],
        b[k + 6],
        b[k + 7],
    ])
}

// The double of a pattern. Every NaN is the one that is made here.
#[tactic(auto, using(crate::proofs::ReadingLaws::double_is))]
pub fn double_of(bits: u64) -> f64
    ensures { result ≡ double_of bits }
{
    num::f64_from_bits_with_nan(bits)
}

// The double of eight bytes from place k on.
#[tactic(auto, unfolding(crate::specs::Bytes::double_at))]
pub fn double_at(b: &[u8], k: usize) -> f64
    requires { k + 8 ≤ length b.now }
    ensures { result ≡ double_at b.now k }
{
    double_of(word64(b, k))
}

// The number of sixteen bytes from place k on, real part then imaginary part.
#[tactic(auto, unfolding(crate::specs::Bytes::pair_at))]
pub fn pair_at(b: &[u8], k: usize) -> C64
    requires { k + 16 ≤ length b.now }
    ensures { result ≡ pair_at b.now k }
{
    C64 {
        re: double_at(b, k),
        im: double_at(b, k + 8),
    }
}
