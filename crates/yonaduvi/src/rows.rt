// Where a row stands in the lists of a store.

ghost use Rattle.std.specs.Prelude.{◌≡◌, get_or};
ghost use Rattle.numbers.specs.Lists.{laid};
ghost use Rattle.yonaduvi.specs.Exports.{cells_from, spanned, Within};

use crate::answers;
use store::handed::Cells;

// A word of a list, 0 where it has none there.
fn word(list: &[usize], k: usize) -> usize
    ensures { result ≡ get_or list.now k 0 }
{
    if k < list.len() {
        return list[k];
    }
    0
}

// The levels' cells of a list of counts, of any content and length.
pub fn cells_from(counts: &[usize]) -> Cells
    ensures { result ≡ cells_from counts.now }
{
    let mut cells = [0usize; 36];
    for q in 0..36 {
        cells[q] = word(counts, q + 1);
    }
    Cells {
        levels: word(counts, 0),
        cells,
    }
}

// Where the terms of a row begin and how many there are, each term k places; 0 and 0 where there is no such row.
pub fn put_span(s: Option<(usize, usize)>, k: usize, out: &mut [usize])
    requires { Within k s }
    ensures { out.new ≡ laid out.old 0 (spanned k s) }
{
    match s {
        Some((i, j)) => answers::put_two(out, k * i, k * (j - i)),
        None => answers::put_two(out, 0, 0),
    }
}
