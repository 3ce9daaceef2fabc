// Reads a file on standard input and prints a line for each of its levels, or only the refusal that ends it.

#![tactic(auto)]

use programs::reader::Reader;
use programs::{feed, lines, reader};
use std::io;
use std::io::Read;
use store::handed::Cells;
use store::lists::Lists;

// The most cells that are taken, the places of a list, and the doubles of a list of numbers.
const LIMIT: usize = 16;

const PLACES: usize = 768;

const DOUBLES: usize = 1536;

// ---- printing

// The lines of the levels. No setup has more than 12.
fn show_levels(rt: &impl Print, c: Cells, starts: &[usize], levels: usize) -> io::Result<()> {
    for level in 0..levels.min(12) {
        let l = lines::line(c, starts, PLACES, level);
        println!(rt; "{} {} {} {} {}", l.level, l.x, l.y, l.z, l.weights)?;
    }
    Ok(())
}

fn show(rt: &impl Print, r: Reader, held: &[f64], starts: &[usize]) -> io::Result<()> {
    match reader::finish(r) {
        Ok(levels) => {
            println!(rt; "levels {levels}")?;
            show_levels(rt, lines::cells(r, held), starts, levels)
        }
        Err(t) => println!(rt; "refused {} {}", t.number, t.place),
    }
}

// ---- reading

// The whole input. A loop has to end, and nothing says that the input does: no run uses these turns up.
fn read(input: &mut impl Read, held: &mut [f64], lists: &mut Lists<'_>) -> io::Result<Reader> {
    let mut r = reader::fresh();
    let mut buf = [0u8; 4096];
    for _ in 0..u64::MAX {
        let n = input.read(&mut buf)?;
        if n == 0 {
            break;
        }
        r = feed::feed(r, LIMIT, &buf[..n], held, lists);
    }
    Ok(r)
}

fn main(rt: HostRuntime) -> io::Result<()> {
    let mut held = [0.0; 256];
    let mut ends = [0usize; PLACES];
    let mut eps = [0.0; DOUBLES];
    let mut starts = [0usize; PLACES];
    let mut columns = [0usize; PLACES];
    let mut values = [0.0; DOUBLES];
    let mut tstarts = [0usize; PLACES];
    let mut tcolumns = [0usize; PLACES];
    let mut tvalues = [0.0; DOUBLES];
    let mut ostarts = [0usize; PLACES];
    let mut ocolumns = [0usize; PLACES];
    let mut ovalues = [0.0; DOUBLES];
    let mut scaling = [0.0; DOUBLES];
    let mut lists = Lists {
        ends: &mut ends,
        eps: &mut eps,
        starts: &mut starts,
        columns: &mut columns,
        values: &mut values,
        tstarts: &mut tstarts,
        tcolumns: &mut tcolumns,
        tvalues: &mut tvalues,
        ostarts: &mut ostarts,
        ocolumns: &mut ocolumns,
        ovalues: &mut ovalues,
        scaling: &mut scaling,
    };
    let r = read(&mut rt.stdin(), &mut held, &mut lists)?;
    show(&rt, r, &held, &starts)
}
