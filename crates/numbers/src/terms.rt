// Terms laid into lent lists of columns and numbers, one in each place.

ghost use Rattle.std.specs.Prelude.{◌<◌, ◌^◌, [], ◌∷◌};
ghost use Rattle.numbers.specs.Terms.{Wrote};

use crate::C64;
use crate::lists::Entry;

// Where rows that stand in lists begin: their starts, and their columns and numbers.
#[derive(Clone, Copy)]
pub struct Part {
    pub s: usize,
    pub k: usize,
}

// One term at place k; what would lie past a list's end is left out. The place behind it.
// A struct of the two lists and k proves, but a row of the operator counts 5 in 100 more instructions with it: its lengths lie in memory.
// `requires`: the layer's rows have at most 29 terms.
pub fn push(
    columns: &mut [usize],
    values: &mut [f64],
    k: usize,
    column: usize,
    number: C64,
) -> usize
    requires { k < 64 }
    ensures { Wrote columns.old values.old k (record { column = column; number = number } ∷ []) columns.new values.new result }
{
    column.put(columns, k);
    number.put(values, k);
    k + 1
}
