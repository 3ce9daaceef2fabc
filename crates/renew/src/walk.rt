// What a walk over the rows of a store reads.

ghost use Rattle.store.specs.Cells.{chart, ChartFits};
ghost use Rattle.renew.specs.Fits.{fits_prop};

use store::change::Words;
use store::lists::Structure;

// What a walk over the first `parts` parts reads: the flags, where the rows of each part stand, and the lists of their starts.
#[derive(Clone, Copy)]
pub struct Walk<'a> {
    pub parts: usize,
    pub flags: &'a [u64],
    pub shape: &'a [Words],
    pub s: Structure<'a>,
    pub ghost fits: { ChartFits (chart flags.now shape.now s.starts.now s.tstarts.now s.ostarts.now) parts } by { fits_prop (chart flags.now shape.now s.starts.now s.tstarts.now s.ostarts.now) parts },
}
