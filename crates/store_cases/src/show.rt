// What calls answer and leave, printed.
use case_lines::shown;
use case_lines::shown::{Number, Times};
use std::io;
use store::handed::Cells;
use store::needed::Needed;
use store::setup::Refusal;
use store::told::Told;
use store::{change, needed};

// ---- answers

// The level count, or a refusal's number and place.
fn told(rt: &impl Print, t: Told) -> io::Result<()> {
    let Told { number, place } = t;
    match number {
        0 => print!(rt; "levels {place}\n"),
        _ => print!(rt; "refused {number} {place}\n"),
    }
}

pub fn answer(rt: &impl Print, a: Result<usize, Refusal>) -> io::Result<()> {
    told(rt, Told::from(a))
}

pub fn changed(rt: &impl Print, a: Result<usize, change::Refusal>) -> io::Result<()> {
    rt.print("change ")?;
    told(rt, Told::from(a))
}

// ---- lists

// What stands several times in a row is printed once, with how many times.
fn runs<T: Number>(rt: &impl Print, list: &[T]) -> io::Result<()> {
    for run in list.chunk_by(|a, b| a.shown() == b.shown()) {
        if let Some(x) = run.first() {
            rt.print(Times {
                times: run.len(),
                of: x.shown(),
            })?;
        }
    }
    Ok(())
}

// A list, whole or, if `brief`, by its digest.
pub fn list<T: Number>(rt: &impl Print, name: &str, list: &[T], brief: bool) -> io::Result<()> {
    rt.print(name)?;
    if brief {
        print!(rt; " {:x}", shown::digest(0, list))?;
    } else {
        runs(rt, list)?;
    }
    rt.print("\n")
}

// ---- needs

// What a setup needs: its answer, the places of the lists, the levels and their cells; zeros where it refuses.
pub fn needed(rt: &impl Print, n: Result<Needed, Refusal>) -> io::Result<()> {
    rt.print("needs ")?;
    match n {
        Ok(Needed { needs, cells: c }) => {
            answer(rt, Ok(c.levels))?;
            let places = [
                needs.ends,
                needs.eps,
                needs.starts,
                needs.terms,
                needs.tstarts,
                needs.ostarts,
                needs.oterms,
                needs.scaling,
            ];
            list(rt, "places", &places, false)?;
            cells(rt, c)
        }
        Err(refusal) => {
            answer(rt, Err(refusal))?;
            list(rt, "places", &[0; 8], false)?;
            cells(rt, needed::no_cells())
        }
    }
}

fn cells(rt: &impl Print, c: Cells) -> io::Result<()> {
    let levels = c.levels;
    let cells = c.cells;
    print!(rt; "cells {levels}")?;
    list(rt, " levels", &cells, false)
}
