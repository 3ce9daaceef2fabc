// A setup: what it needs, what it answers, what it leaves in the twelve lists, and its rows handed back; then the steps behind it.
use crate::inputs::{ROOM, Settings};
use crate::{show, steps};
use case_lines::shown::{Number, digest};
use std::io;
use store::handed::Cells;
use store::lists::Lists;
use store::needed::Needed;
use store::setup::Refusal;
use store::{handed, needed, setup};

// The rows of a level handed back, and behind them rows that do not exist: a digest of each of the three kinds.
fn level_rows(rt: &impl Print, c: Cells, level: usize, l: &Lists<'_>) -> io::Result<()> {
    let mut forward = 0;
    let mut turned = 0;
    let mut operator = 0;
    for row in 0..200 {
        let there = handed::weight_row(
            c, false, l.starts, l.values, l.tstarts, l.tvalues, level, row,
        );
        forward = digest(forward, there);
        let back = handed::weight_row(
            c, true, l.starts, l.values, l.tstarts, l.tvalues, level, row,
        );
        turned = digest(turned, back);
        operator = digest(
            operator,
            handed::operator_row(c, l.ostarts, l.ocolumns, level, row),
        );
    }
    println!(rt; "rows {level} {forward:x} {turned:x} {operator:x}")
}

// Those of every level, and of one that does not exist.
fn rows(rt: &impl Print, c: Cells, l: &Lists<'_>) -> io::Result<()> {
    for level in 0..=c.levels.min(12) {
        level_rows(rt, c, level, l)?;
    }
    Ok(())
}

// What the setup needs, printed.
fn needs(rt: &impl Print, s: &Settings) -> io::Result<Result<Needed, Refusal>> {
    let n = needed::setup_needs(s.lattice(), &s.stretches(), s.choice(), s.coarsest());
    show::needed(rt, n)?;
    Ok(n)
}

fn set_up(s: &Settings, l: &mut Lists<'_>) -> Result<usize, Refusal> {
    let on = s.stretches();
    setup::setup(s.lattice(), &on, s.list(6), s.choice(), s.coarsest(), l)
}

// What stands in the lists, printed.
fn left(rt: &impl Print, l: &Lists<'_>, brief: bool) -> io::Result<()> {
    show::list(rt, "ends", l.ends, false)?;
    show::list(rt, "permittivities", l.eps, brief)?;
    show::list(rt, "forward starts", l.starts, brief)?;
    show::list(rt, "forward columns", l.columns, brief)?;
    show::list(rt, "forward values", l.values, brief)?;
    show::list(rt, "turned starts", l.tstarts, brief)?;
    show::list(rt, "turned columns", l.tcolumns, brief)?;
    show::list(rt, "turned values", l.tvalues, brief)?;
    show::list(rt, "operator starts", l.ostarts, brief)?;
    show::list(rt, "operator columns", l.ocolumns, brief)?;
    show::list(rt, "operator values", l.ovalues, brief)?;
    show::list(rt, "scaling", l.scaling, brief)
}

// The setup in the lent lists, and what comes behind it.
fn run_in(rt: &impl Print, s: &mut Settings, l: &mut Lists<'_>) -> io::Result<()> {
    let needed = needs(rt, s)?;
    let answer = set_up(s, l);
    show::answer(rt, answer)?;
    left(rt, l, s.brief())?;
    if let (Ok(n), Ok(_)) = (needed, answer) {
        rows(rt, n.cells, l)?;
        steps::run(rt, s, l)?;
    }
    Ok(())
}

// The front of a list that is lent; none of it where it is too short.
fn lent<T>(list: &mut [T], n: usize) -> &mut [T] {
    list.get_mut(..n).unwrap_or(&mut [])
}

pub fn run(rt: &impl Print, s: &mut Settings) -> io::Result<()> {
    let room: [usize; 12] = s.words(ROOM);
    let word = usize::mark();
    let double = f64::mark();
    let mut ends = [word; 256];
    let mut eps = [double; 2048];
    let mut starts = [word; 512];
    let mut columns = [word; 1024];
    let mut values = [double; 2048];
    let mut tstarts = [word; 512];
    let mut tcolumns = [word; 1024];
    let mut tvalues = [double; 2048];
    let mut ostarts = [word; 512];
    let mut ocolumns = [word; 4096];
    let mut ovalues = [double; 8192];
    let mut scaling = [double; 2048];
    let mut l = Lists {
        ends: lent(&mut ends, room[0]),
        eps: lent(&mut eps, room[1]),
        starts: lent(&mut starts, room[2]),
        columns: lent(&mut columns, room[3]),
        values: lent(&mut values, room[4]),
        tstarts: lent(&mut tstarts, room[5]),
        tcolumns: lent(&mut tcolumns, room[6]),
        tvalues: lent(&mut tvalues, room[7]),
        ostarts: lent(&mut ostarts, room[8]),
        ocolumns: lent(&mut ocolumns, room[9]),
        ovalues: lent(&mut ovalues, room[10]),
        scaling: lent(&mut scaling, room[11]),
    };
    run_in(rt, s, &mut l)
}
