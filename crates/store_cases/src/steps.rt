// The steps behind an accepted setup: changes, and what a holder may do between them.
use crate::inputs::{COUNTS, LENT, Settings};
use crate::show;
use case_lines::lists::{front_mut, put};
use case_lines::shown::digest;
use changes::change;
use numbers::C64;
use programs::bytes;
use std::io;
use store::change::Refusal;
use store::lists::{self, Lists, Structure};

// A step, which the line `steps` gives by four words: a kind and what it takes.
#[derive(Clone, Copy)]
pub enum Step {
    // A change of an edge to a value.
    Change {
        edge: usize,
        value: C64,
    },
    // What a holder may do: a word or a double of a lent list set.
    Word {
        list: usize,
        place: usize,
        word: usize,
    },
    Double {
        list: usize,
        place: usize,
        double: f64,
    },
    // What the calls behind are handed: the length of a lent list, the count of doubles of an input list, a word of the lines `grid` and `choice`, a double. Each is a
    // word or a double of the settings, and no place in them is refused.
    Lend {
        list: usize,
        places: usize,
    },
    Hand {
        list: usize,
        doubles: usize,
    },
    SetWord {
        place: usize,
        word: usize,
    },
    SetDouble {
        place: usize,
        double: f64,
    },
}

impl Step {
    // None where the kind is none of the seven.
    fn new(words: [usize; 4]) -> Option<Step> {
        let [kind, a, b, c] = words;
        match kind {
            1 => Some(Step::Change {
                edge: a,
                value: C64 {
                    re: bytes::double_of(b as u64),
                    im: bytes::double_of(c as u64),
                },
            }),
            2 => Some(Step::Word {
                list: a,
                place: b,
                word: c,
            }),
            3 => Some(Step::Lend { list: a, places: b }),
            4 => Some(Step::Hand {
                list: a,
                doubles: b,
            }),
            5 => Some(Step::SetWord { place: a, word: b }),
            6 => Some(Step::SetDouble {
                place: a,
                double: bytes::double_of(b as u64),
            }),
            7 => Some(Step::Double {
                list: a,
                place: b,
                double: bytes::double_of(c as u64),
            }),
            _ => None,
        }
    }
}

// ---- what a holder may do

// A word of a list set, where the list holds words.
fn alter_word(l: &mut Lists<'_>, list: usize, place: usize, word: usize) {
    match list {
        0 => put(l.ends, place, word),
        2 => put(l.starts, place, word),
        3 => put(l.columns, place, word),
        5 => put(l.tstarts, place, word),
        6 => put(l.tcolumns, place, word),
        8 => put(l.ostarts, place, word),
        9 => put(l.ocolumns, place, word),
        _ => {}
    }
}

// The same of a double. Not one function with the above: each list has a field of its own type, and every arm would have to turn the value round.
fn alter_double(l: &mut Lists<'_>, list: usize, place: usize, double: f64) {
    match list {
        1 => put(l.eps, place, double),
        4 => put(l.values, place, double),
        7 => put(l.tvalues, place, double),
        10 => put(l.ovalues, place, double),
        11 => put(l.scaling, place, double),
        _ => {}
    }
}

// ---- a change

// The change of an edge to a value in the fronts of the lists.
fn change(s: &Settings, edge: usize, value: C64, l: &mut Lists<'_>) -> Result<usize, Refusal> {
    let lent: [usize; 12] = s.words(LENT);
    let fixed = Structure {
        ends: front_mut(l.ends, lent[0]),
        starts: front_mut(l.starts, lent[2]),
        columns: front_mut(l.columns, lent[3]),
        tstarts: front_mut(l.tstarts, lent[5]),
        tcolumns: front_mut(l.tcolumns, lent[6]),
        ostarts: front_mut(l.ostarts, lent[8]),
        ocolumns: front_mut(l.ocolumns, lent[9]),
    };
    let mut numbers = lists::Numbers {
        eps: front_mut(l.eps, lent[1]),
        values: front_mut(l.values, lent[4]),
        tvalues: front_mut(l.tvalues, lent[7]),
        ovalues: front_mut(l.ovalues, lent[10]),
        scaling: front_mut(l.scaling, lent[11]),
    };
    let on = s.stretches();
    change::change(
        s.lattice(),
        &on,
        s.choice(),
        s.coarsest(),
        edge,
        value,
        &fixed,
        &mut numbers,
    )
}

// What stands in the lists: those of words as one digest, those of numbers whole or by digests.
fn left(rt: &impl Print, l: &Lists<'_>, brief: bool) -> io::Result<()> {
    let mut d = digest(0, l.ends);
    d = digest(d, l.starts);
    d = digest(d, l.columns);
    d = digest(d, l.tstarts);
    d = digest(d, l.tcolumns);
    d = digest(d, l.ostarts);
    d = digest(d, l.ocolumns);
    println!(rt; "words {d:x}")?;
    show::list(rt, "permittivities", l.eps, brief)?;
    show::list(rt, "forward", l.values, brief)?;
    show::list(rt, "turned", l.tvalues, brief)?;
    show::list(rt, "operator", l.ovalues, brief)?;
    show::list(rt, "scaling", l.scaling, brief)
}

// ---- the steps

fn take(rt: &impl Print, s: &mut Settings, l: &mut Lists<'_>, step: Step) -> io::Result<()> {
    match step {
        Step::Change { edge, value } => {
            show::changed(rt, change(s, edge, value, l))?;
            left(rt, l, s.brief())?;
        }
        Step::Word { list, place, word } => alter_word(l, list, place, word),
        Step::Double {
            list,
            place,
            double,
        } => alter_double(l, list, place, double),
        Step::Lend { list, places } => s.set_word(LENT.wrapping_add(list), places),
        Step::Hand { list, doubles } => s.set_word(COUNTS.wrapping_add(list), doubles),
        Step::SetWord { place, word } => s.set_word(place, word),
        Step::SetDouble { place, double } => s.set_double(place, double),
    }
    Ok(())
}

// All steps, each read when its turn comes. Each list is lent as it was for the setup, until a step says otherwise.
pub fn run(rt: &impl Print, s: &mut Settings, l: &mut Lists<'_>) -> io::Result<()> {
    s.lend();
    for k in 0..s.steps() {
        if let Some(step) = Step::new(s.step(k)) {
            take(rt, s, l, step)?;
        }
    }
    Ok(())
}
