// One reading of a file, in lists that hold marks before it.
use case_lines::lists::front_mut;
use case_lines::shown::{Number, digest};
use programs::reader::Reader;
use programs::{feed, reader};
use std::fmt;
use store::lists::Lists;
use store::told::Told;

// What the line `lend` says: the most cells that are taken, the doubles lent to hold the numbers, the places lent of each list.
#[derive(Clone, Copy)]
pub struct Lending {
    pub limit: usize,
    pub held: usize,
    pub places: usize,
}

// What a reading answers: a refusal's number and place, or 0 and the level count.
#[derive(Clone, Copy, PartialEq, Eq)]
pub struct Said {
    pub number: usize,
    pub place: usize,
}

impl From<Result<usize, Told>> for Said {
    fn from(answer: Result<usize, Told>) -> Said {
        match answer {
            Ok(levels) => Said {
                number: 0,
                place: levels,
            },
            Err(Told { number, place }) => Said { number, place },
        }
    }
}

impl fmt::Display for Said {
    fn fmt<W: fmt::Write>(&self, f: &mut fmt::Formatter<W>) -> fmt::Result {
        let Said { number, place } = *self;
        write!(f, "{number}/{place}")
    }
}

// And a digest of what it leaves in the twelve lists.
#[derive(Clone, Copy, PartialEq, Eq)]
pub struct Outcome {
    pub said: Said,
    pub digest: u64,
}

impl Outcome {
    fn new(answer: Result<usize, Told>, digest: u64) -> Outcome {
        Outcome {
            said: Said::from(answer),
            digest,
        }
    }
}

impl fmt::Display for Outcome {
    fn fmt<W: fmt::Write>(&self, f: &mut fmt::Formatter<W>) -> fmt::Result {
        let Said { number, place } = self.said;
        let digest = self.digest;
        match number {
            0 => write!(f, "levels {place} {digest:x}"),
            _ => write!(f, "refused {number} {place} {digest:x}"),
        }
    }
}

// The file in pieces of n bytes, of one where n is 0.
fn fed(file: &[u8], n: usize, limit: usize, held: &mut [f64], l: &mut Lists<'_>) -> Reader {
    let mut r = reader::fresh();
    for piece in file.chunks(n.max(1)) {
        r = feed::feed(r, limit, piece, held, l);
    }
    r
}

// A digest of the twelve lists.
fn left(l: &Lists<'_>) -> u64 {
    let mut d = digest(0, l.ends);
    d = digest(d, l.eps);
    d = digest(d, l.starts);
    d = digest(d, l.columns);
    d = digest(d, l.values);
    d = digest(d, l.tstarts);
    d = digest(d, l.tcolumns);
    d = digest(d, l.tvalues);
    d = digest(d, l.ostarts);
    d = digest(d, l.ocolumns);
    d = digest(d, l.ovalues);
    digest(d, l.scaling)
}

// The file in pieces of n bytes, with what the line `lend` says. The lists stand in arrays: there is no heap.
pub fn read(file: &[u8], n: usize, lending: Lending) -> Outcome {
    let word = usize::mark();
    let double = f64::mark();
    let mut held = [double; 256];
    let mut ends = [word; 768];
    let mut eps = [double; 1536];
    let mut starts = [word; 768];
    let mut columns = [word; 768];
    let mut values = [double; 1536];
    let mut tstarts = [word; 768];
    let mut tcolumns = [word; 768];
    let mut tvalues = [double; 1536];
    let mut ostarts = [word; 768];
    let mut ocolumns = [word; 768];
    let mut ovalues = [double; 1536];
    let mut scaling = [double; 1536];
    let one = lending.places;
    let two = one.wrapping_add(one);
    let mut l = Lists {
        ends: front_mut(&mut ends, one),
        eps: front_mut(&mut eps, two),
        starts: front_mut(&mut starts, one),
        columns: front_mut(&mut columns, one),
        values: front_mut(&mut values, two),
        tstarts: front_mut(&mut tstarts, one),
        tcolumns: front_mut(&mut tcolumns, one),
        tvalues: front_mut(&mut tvalues, two),
        ostarts: front_mut(&mut ostarts, one),
        ocolumns: front_mut(&mut ocolumns, one),
        ovalues: front_mut(&mut ovalues, two),
        scaling: front_mut(&mut scaling, two),
    };
    let held = front_mut(&mut held, lending.held);
    let r = fed(file, n, lending.limit, held, &mut l);
    Outcome::new(reader::finish(r), left(&l))
}
