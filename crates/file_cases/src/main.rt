// Has the reader of setup files read those of a test file, standard input, and prints what it answers and leaves. A line of the test file is one of these; numbers are
// hexadecimal. Bytes are given in words of whole bytes, and N*W is N times W. What a line sets stays set.
//   # ..            a title, printed as it is
//   file ..         the bytes of a setup file
//   put O ..        bytes of it from offset O on, which may make it longer
//   size N          its first N bytes alone
//   lend L D P      the most cells that are taken; the doubles lent to hold the numbers; the places lent of each of the twelve lists
//   read            reads it in pieces of 1, 7 and 4096 bytes: the answer and a digest of the lists, which have to be the same for all three
// And these read it many times. They print the answers in runs, N*R/P a run of N, R the refusal's number and P its place, or 0 and the level count; then a digest
// of what all of them left.
//   cuts A B        its first A to B - 1 bytes
//   kinds O ..      with each byte from 0 to 255 at each of these offsets
//   bits A B        with each bit turned of the bytes from A to B - 1
//   grow A B        with A to B - 1 places lent of each list
//   hold A B        with A to B - 1 doubles lent to hold the numbers

#![tactic(auto)]

mod arguments;
mod file;
mod reading;
mod show;
mod sweeps;

use arguments::Arguments;
use case_lines::{lines, words};
use file::File;
use reading::Lending;
use std::io;
use std::io::Read;

// What the lines have set.
#[derive(Drop)]
struct Settings {
    file: File,
    lending: Lending,
    arguments: Arguments,
}

// A line that begins with numbers, which stay for the lines behind it that leave them out. It is told by its first character, and one with another reads.
fn run_numbered(rt: &impl Print, line: &[u8], s: &mut Settings) -> io::Result<()> {
    let a = &mut s.arguments;
    let file = &mut s.file;
    let lending = s.lending;
    a.read(line);
    match words::first(line) {
        [b's', ..] => file.size = a.number(0),
        [b'l', ..] => {
            s.lending = Lending {
                limit: a.number(0),
                held: a.number(1),
                places: a.number(2),
            };
        }
        [b'c', ..] => sweeps::cuts(rt, file, lending, a.range())?,
        [b'k', ..] => sweeps::kinds(rt, file, lending, a)?,
        [b'b', ..] => sweeps::bits(rt, file, lending, a.range())?,
        [b'g', ..] => sweeps::lent(rt, file, a.range(), |places| Lending { places, ..lending })?,
        [b'h', ..] => sweeps::lent(rt, file, a.range(), |held| Lending { held, ..lending })?,
        _ => sweeps::once(rt, file, lending)?,
    }
    Ok(())
}

fn run_line(rt: &impl Print, line: &[u8], s: &mut Settings) -> io::Result<()> {
    match words::first(line) {
        [b'#', ..] => {
            rt.write_all(line)?;
            rt.print("\n")?;
        }
        [b'f', ..] => s.file.set(line),
        [b'p', ..] => s.file.put(line),
        _ => run_numbered(rt, line, s)?,
    }
    Ok(())
}

// A line in each turn, to the end of the input.
fn run(rt: &impl Print, input: &mut impl Read, s: &mut Settings) -> io::Result<()> {
    let mut room = [0u8; 8192];
    // A count: a loop that waits on input needs one.
    for _ in 0..1000000usize {
        let Some(line) = lines::read_line(input, &mut room)? else {
            break;
        };
        run_line(rt, line, s)?;
    }
    Ok(())
}

fn main(rt: HostRuntime) -> io::Result<()> {
    let mut input = rt.stdin();
    let mut settings = Settings {
        file: File::new(),
        lending: Lending {
            limit: 0,
            held: 0,
            places: 0,
        },
        arguments: Arguments::new(),
    };
    run(&rt, &mut input, &mut settings)
}
