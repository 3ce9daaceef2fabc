// Readings of a file: one, or many with something altered in each.

ghost use Rattle.std.specs.Iterator.{IsFinite};

use crate::arguments::Arguments;
use crate::file::File;
use crate::reading::{Lending, read};
use crate::show::Answers;
use case_lines::lists::{front, put};
use std::io;
use std::ops::Range;

// The bytes of a piece where a reading needs no smaller ones.
const PIECE: usize = 4096;

// The line `read`.
pub fn once(rt: &impl Print, file: &File, lending: Lending) -> io::Result<()> {
    let a = read(file.whole(), 1, lending);
    let b = read(file.whole(), 7, lending);
    let c = read(file.whole(), PIECE, lending);
    println!(rt; "{a}")?;
    if b != a {
        println!(rt; "in pieces of 7 bytes {b}")?;
    }
    if c != a {
        println!(rt; "in pieces of 4096 bytes {c}")?;
    }
    Ok(())
}

// The line `cuts`: the first bytes, as many as each number says.
pub fn cuts(rt: &impl Print, file: &File, lending: Lending, sizes: Range<usize>) -> io::Result<()> {
    let mut answers = Answers::new();
    for n in sizes {
        answers.push(rt, read(front(&file.bytes, n), PIECE, lending))?;
    }
    answers.end(rt)
}

// The line `grow` or `hold`: with what is lent for each number.
pub fn lent<F: Fn(usize) -> Lending>(
    rt: &impl Print,
    file: &File,
    numbers: Range<usize>,
    lending: F,
) -> io::Result<()>
    requires { F.IsAlwaysCallable lending }
{
    let mut answers = Answers::new();
    for n in numbers {
        answers.push(rt, read(file.whole(), PIECE, lending(n)))?;
    }
    answers.end(rt)
}

// Each of some bytes at a place; then what stood there again.
fn altered<I: Iterator<Item = u8>>(
    rt: &impl Print,
    answers: &mut Answers,
    file: &mut File,
    lending: Lending,
    at: usize,
    bytes: I,
) -> io::Result<()>
    requires can { I.can_next bytes }
    requires ends { IsFinite (I.remaining bytes) }
{
    let old = file.byte(at);
    for b in bytes {
        put(&mut file.bytes, at, b);
        answers.push(rt, read(file.whole(), PIECE, lending))?;
    }
    put(&mut file.bytes, at, old);
    Ok(())
}

// The line `kinds`: each byte at each place.
pub fn kinds(
    rt: &impl Print,
    file: &mut File,
    lending: Lending,
    places: &Arguments,
) -> io::Result<()> {
    let mut answers = Answers::new();
    for k in 0..places.count {
        altered(
            rt,
            &mut answers,
            file,
            lending,
            places.number(k),
            0..=u8::MAX,
        )?;
    }
    answers.end(rt)
}

// The line `bits`: each bit turned of the byte at each place.
pub fn bits(
    rt: &impl Print,
    file: &mut File,
    lending: Lending,
    places: Range<usize>,
) -> io::Result<()> {
    let mut answers = Answers::new();
    for at in places {
        let old = file.byte(at);
        let turned = (0..8u8).map(|k| old ^ (1 << k));
        altered(rt, &mut answers, file, lending, at, turned)?;
    }
    answers.end(rt)
}
