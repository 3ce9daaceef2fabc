// A whole transfer in lent lists: the coarse permittivities, the forward rows and the turned rows.

ghost use Rattle.std.specs.Prelude.{◌≡◌};
ghost use Rattle.weights.specs.Pair.{two};
ghost use Rattle.numbers.specs.Lists.{read_from};
ghost use Rattle.weights.specs.Whole.{WholeRoom, WholeLeft, whole_finite};

use crate::pair::Pair;
use crate::{eps, prolongation, tables};
use lattice::grid;
use numbers::terms::Part;
use numbers::transpose;

// The transfer between two levels: the coarse permittivities from place ceps on, the fine ones standing from feps on; forward rows from p on, turned
// rows from t on. Whether every number of it is finite. `requires`: room.
pub fn transfer(
    pair: &Pair<'_>,
    feps: usize,
    ceps: usize,
    p: Part,
    t: Part,
    eps: &mut [f64],
    starts: &mut [usize],
    columns: &mut [usize],
    values: &mut [f64],
    tstarts: &mut [usize],
    tcolumns: &mut [usize],
    tvalues: &mut [f64],
) -> bool
    requires whole_room { WholeRoom (two pair.now) feps ceps p t eps.old starts.old columns.old values.old tstarts.old tcolumns.old tvalues.old }
    ensures whole_left { WholeLeft (two pair.now) feps ceps p t eps.old starts.old columns.old
        values.old tstarts.old tcolumns.old tvalues.old eps.new starts.new columns.new
        values.new tstarts.new tcolumns.new tvalues.new }
    ensures value { result ≡ whole_finite (two pair.now) (read_from eps.old feps) }
{
    let gf = tables::grid_of(pair.l.lattice.grid, pair.fine);
    let gc = tables::grid_of(pair.l.lattice.grid, pair.coarse);
    let a = eps::coarse_eps(pair, eps, feps, ceps);
    prolongation::columns(pair, starts, p.s, columns, p.k);
    let b = prolongation::weights(pair, eps, feps, ceps, values, p.k);
    let n = grid::unknowns(gf);
    let m = grid::unknowns(gc);
    transpose::transpose(
        starts, p.s, columns, values, p.k, n, m, tstarts, t.s, tcolumns, tvalues, t.k,
    );
    a && b
}
