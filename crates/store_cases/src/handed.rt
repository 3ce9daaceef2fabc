// Rows handed back from a store of any content: each double and each word says its place.
use crate::inputs::{HANDED, Settings};
use crate::show;
use case_lines::lists::front;
use std::num::nearest_usize_to_f64;
use std::{array, io};
use store::handed;

// The three rows, printed.
pub fn run(rt: &impl Print, s: &Settings) -> io::Result<()> {
    let values: [f64; 64] = array::from_fn(nearest_usize_to_f64);
    let tvalues: [f64; 64] = array::from_fn(|k| nearest_usize_to_f64(k) + 0.5);
    let columns: [usize; 64] = array::from_fn(|k| k);
    let [level, row, n, m]: [usize; 4] = s.words(HANDED);
    let c = s.built();
    let starts = s.starts();
    let values = front(&values, n);
    let tvalues = front(&tvalues, n);
    let forward = handed::weight_row(c, false, starts, values, starts, tvalues, level, row);
    show::list(rt, "forward", forward, false)?;
    let turned = handed::weight_row(c, true, starts, values, starts, tvalues, level, row);
    show::list(rt, "turned", turned, false)?;
    let operator = handed::operator_row(c, starts, front(&columns, m), level, row);
    show::list(rt, "operator", operator, false)
}
