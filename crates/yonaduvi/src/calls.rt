// The calls over the lists of a store as one value.

ghost use Rattle.store.specs.Setup.{setup_of};
ghost use Rattle.store.specs.Calls.{change_of};
ghost use Rattle.store.specs.ChangeSteps.{change_to};
ghost use Rattle.store.specs.Lists.{store_of, store_with, SameLists, SameNumbers};
ghost use Rattle.programs.specs.Reading.{machine, fresh, fed_all};
ghost use Rattle.yonaduvi.specs.Exports.{input_with, CallLeft, ReadLeft};

use crate::{answers, input};
use changes::change;
use lattice::input::Stretches;
use numbers::C64;
use programs::{feed, reader};
use store::lists::{Lists, Numbers, Structure};
use store::told::Told;
use store::{Choice, setup};

// `yonaduvi_setup`.
pub fn set_up(
    cells: &[usize],
    scalars: &[f64],
    on: &Stretches<'_>,
    given: &[f64],
    choice: usize,
    coarsest: usize,
    out: &mut [usize],
    lists: &mut Lists<'_>,
)
    ensures same { SameLists lists.old lists.new }
    ensures left { CallLeft (setup_of (input_with cells.now scalars.now on.now choice coarsest) given.now (store_of lists.old))
        out.old out.new (store_of lists.new) }
{
    let v = input::lattice_from(cells, scalars);
    let a = setup::setup(v, on, given, Choice::from(choice), coarsest, lists);
    let t = Told::from(a);
    answers::put_two(out, t.number, t.place);
}

// `yonaduvi_change`.
pub fn change(
    cells: &[usize],
    scalars: &[f64],
    on: &Stretches<'_>,
    choice: usize,
    coarsest: usize,
    edge: usize,
    value: C64,
    out: &mut [usize],
    s: &Structure<'_>,
    n: &mut Numbers<'_>,
)
    ensures same { SameNumbers n.old n.new }
    ensures left { CallLeft (change_of (input_with cells.now scalars.now on.now choice coarsest) (store_with s.now n.old) (change_to edge value))
        out.old out.new (store_with s.now n.new) }
{
    let v = input::lattice_from(cells, scalars);
    let a = change::change(v, on, Choice::from(choice), coarsest, edge, value, s, n);
    let t = Told::from(a);
    answers::put_two(out, t.number, t.place);
}

// `yonaduvi_read`.
pub fn read(bytes: &[u8], limit: usize, held: &mut [f64], out: &mut [usize], lists: &mut Lists<'_>)
    ensures same { SameLists lists.old lists.new }
    ensures left { ReadLeft (fed_all limit (machine fresh held.old (store_of lists.old)) bytes.now) out.old out.new held.new (store_of lists.new) }
{
    let r = feed::feed(reader::fresh(), limit, bytes, held, lists);
    match reader::finish(r) {
        Ok(levels) => answers::put_two(out, 0, levels),
        Err(t) => answers::put_two(out, t.number, t.place),
    }
}
