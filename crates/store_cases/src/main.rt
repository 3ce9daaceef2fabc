// Runs the calls of a test file, standard input, and prints what they answer and leave. A line of the file is one of these; numbers are hexadecimal,
// doubles are given by their bits, and N*W is N times W. What a line sets stays set.
//   # ..                a title, printed as it is
//   grid X Y Z          cells
//   numbers ..          dx, dy, dz, k0, shift, then for each axis its kind (0 for a wall) and its phase
//   list L ..           what list L holds, of x nodes, x halves, y nodes, y halves, z nodes, z halves, permittivities
//   doubles ..          how many doubles of each of the seven lists are handed over
//   choice C M B        0 for Galerkin, else rediscretized; `coarsest`; 0 if the lists are printed whole, else by digests but for the line ends
//   room ..             the lengths of the twelve lent lists, each place of which holds a mark before the call
//   setup               calls `setup_needs` and `setup`; if it is not refused, every row is handed back, and the steps follow
//   steps K A B C ..    what is done behind the next setup that is not refused, four words a step:
//                         1 E X Y     calls `change`: edge E to the doubles X and Y; its answer and what it leaves in the lists
//                         2 L K W     word K of lent list L set by its holder; 7 L K X a double
//                         3 L N       list L is lent with N places from here on
//                         4 L N       N doubles of input list L are handed over; 5 K W word K of the lines `grid` and `choice`; 6 K X double K of `numbers` or a list
//   built L ..          a number of levels, and the cells of 12
//   places ..           starts
//   handed L R D W      hands back row R of level L, with those starts, from lists of D doubles and W words, each of which says its place

#![tactic(auto)]

mod handed;
mod inputs;
mod setups;
mod show;
mod steps;

use case_lines::words::Numbers;
use case_lines::{lines, words};
use inputs::{BUILT, CHOICE, COUNTS, GRID, HANDED, ROOM, Settings};
use numbers::lists;
use std::io;
use std::io::Read;

// Whether a row of columns names one twice: a line of one coarse cell on a Bloch axis would give `0 0`, and no lattice's levels have such a line.
fn twice(rt: &impl Print, text: &str, columns: &[usize]) -> io::Result<()> {
    let how = if lists::repeats(columns, columns.len()) {
        "twice"
    } else {
        "once"
    };
    println!(rt; "{text} {how}")
}

fn repeated(rt: &impl Print) -> io::Result<()> {
    twice(rt, "none", &[])?;
    twice(rt, "0", &[0])?;
    twice(rt, "0 0", &[0, 0])?;
    twice(rt, "1 0", &[1, 0])?;
    twice(rt, "2 1 0", &[2, 1, 0])?;
    twice(rt, "1 0 1", &[1, 0, 1])
}

// A line is told by its first character, `steps` by its second too.
fn run_line(rt: &impl Print, line: &[u8], s: &mut Settings) -> io::Result<()> {
    let numbers = Numbers::new(line);
    match words::first(line) {
        [b'#', ..] => {
            rt.write_all(line)?;
            rt.print("\n")?;
        }
        [b'g', ..] => {
            s.set_words(GRID, numbers);
        }
        [b'n', ..] => s.set_doubles(0, numbers),
        [b'l', ..] => s.set_list(numbers),
        [b'd', ..] => {
            s.set_words(COUNTS, numbers);
        }
        [b'c', ..] => {
            s.set_words(CHOICE, numbers);
        }
        [b'r', ..] => {
            s.set_words(ROOM, numbers);
        }
        [b's', b't', ..] | [b't', ..] => s.set_steps(numbers),
        [b's', ..] => {
            setups::run(rt, s)?;
            s.drop_steps();
        }
        [b'b', ..] => {
            s.set_words(BUILT, numbers);
        }
        [b'p', ..] => s.set_places(numbers),
        [b'h', ..] => {
            s.set_words(HANDED, numbers);
            handed::run(rt, s)?;
        }
        _ => s.set_rest(numbers),
    }
    Ok(())
}

// A line in each turn, to the end of the input.
fn run(rt: &impl Print, input: &mut impl Read, s: &mut Settings) -> io::Result<()> {
    let mut room = [0u8; 16384];
    // A count: a loop that waits on input needs one.
    for _ in 0..1000000usize {
        let Some(line) = lines::read_line(input, &mut room)? else {
            break;
        };
        run_line(rt, line, s)?;
    }
    Ok(())
}

fn main(rt: HostRuntime) -> io::Result<()> {
    let mut input = rt.stdin();
    repeated(&rt)?;
    run(&rt, &mut input, &mut Settings::new())
}
