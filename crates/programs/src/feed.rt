// The reader over its lent lists: the numbers that it holds, and the store.

ghost use Rattle.std.specs.Prelude.{◌≡◌, ◌<◌, ◌^◌};
ghost use Rattle.numbers.specs.Places.{set_number};
ghost use Rattle.store.specs.Setup.{result_of, input_on};
ghost use Rattle.store.specs.Calls.{change_of};
ghost use Rattle.store.specs.ChangeSteps.{changed_of, change_to};
ghost use Rattle.store.specs.Lists.{store_of, SameLists};
ghost use Rattle.programs.specs.Reading.{machine, setup_run, change_run, closed, fed, fed_all, number_read};
ghost use Rattle.programs.specs.Bytes.{pair_at};

use crate::kinds::Kind;
use crate::reader::{Begun, Reader};
use crate::records::BODY;
use crate::{bytes, reader, records};
use changes::change;
use lattice::input::Stretches;
use lattice::lattice::Lattice;
use numbers::C64;
use store::change::Refusal;
use store::lists::{Lists, Numbers, Structure};
use store::told::Told;
use store::{Choice, setup};

// ---- a record whose body is whole

// The setup. `held`: x nodes, x halves, y, z, permittivities.
fn setup_run(r: Reader, o: Begun, held: &[f64], lists: &mut Lists<'_>) -> Reader
    ensures same { SameLists lists.old lists.new }
    ensures left { machine result held.now (store_of lists.new) ≡ setup_run r o held.now (store_of lists.old) }
{
    if o.body[0] > 1 {
        return reader::out_of_turn(r, o.start);
    }
    let chosen = reader::choice_read(r, o.body);
    let s = chosen.seen;
    let on = records::stretches_of(s, held);
    let a = setup::setup(
        records::lattice_of(s),
        &on,
        records::given(s, held),
        s.choice,
        s.coarsest,
        lists,
    );
    reader::answered(chosen, Told::from(a).answer())
}

// A change in the lists of a store.
fn change_in(
    lists: &mut Lists<'_>,
    v: Lattice,
    on: &Stretches<'_>,
    choice: Choice,
    coarsest: usize,
    edge: usize,
    value: C64,
) -> Result<usize, Refusal>
    ensures same { SameLists lists.old lists.new }
    ensures changed { result_of (changed_of result) (store_of lists.new)
        ≡ change_of (input_on v on.now choice coarsest) (store_of lists.old) (change_to edge value) }
{
    // Those that it only reads are taken out first: once others are lent, the borrow checker covers no read behind `lists`.
    let ends = &mut *lists.ends;
    let starts = &mut *lists.starts;
    let columns = &mut *lists.columns;
    let tstarts = &mut *lists.tstarts;
    let tcolumns = &mut *lists.tcolumns;
    let ostarts = &mut *lists.ostarts;
    let ocolumns = &mut *lists.ocolumns;
    let fixed = Structure {
        ends,
        starts,
        columns,
        tstarts,
        tcolumns,
        ostarts,
        ocolumns,
    };
    let mut numbers = Numbers {
        eps: lists.eps,
        values: lists.values,
        tvalues: lists.tvalues,
        ovalues: lists.ovalues,
        scaling: lists.scaling,
    };
    change::change(v, on, choice, coarsest, edge, value, &fixed, &mut numbers)
}

// A change.
fn change_run(r: Reader, b: [u8; BODY], held: &[f64], lists: &mut Lists<'_>) -> Reader
    ensures same { SameLists lists.old lists.new }
    ensures left { machine result held.now (store_of lists.new) ≡ change_run r b held.now (store_of lists.old) }
{
    let s = r.seen;
    let on = records::stretches_of(s, held);
    let edge = bytes::word32(&b, 0);
    let value = bytes::pair_at(&b, 4);
    let v = records::lattice_of(s);
    let a = change_in(lists, v, &on, s.choice, s.coarsest, edge, value);
    reader::answered(r, Told::from(a).answer())
}

// A stretch or a permittivity.
fn number_run(r: Reader, b: [u8; BODY], held: &mut [f64]) -> Reader
    requires { r.seen.count < 2 ^ 51 }
    ensures { (result ≡ number_read r) × (held.new ≡ set_number held.old r.seen.count (pair_at b 0)) }
{
    numbers::put(held, r.seen.count, bytes::pair_at(&b, 0));
    reader::number_read(r)
}

// What a whole record brings about.
#[tactic(auto, unfolding(crate::specs::Reading::closed, crate::specs::Reading::number_run))]
fn close(r: Reader, o: Begun, limit: usize, held: &mut [f64], lists: &mut Lists<'_>) -> Reader
    ensures same { SameLists lists.old lists.new }
    ensures left { machine result held.new (store_of lists.new) ≡ closed limit r o held.old (store_of lists.old) }
{
    match records::due(r.seen) {
        Some(Kind::Grid) => reader::grid_read(r, o.body, limit, held.len()),
        Some(Kind::Bloch) => reader::axis_read(r, o.body),
        Some(Kind::Stretch | Kind::Permittivity) => number_run(r, o.body, held),
        Some(Kind::Choice) => setup_run(r, o, held, lists),
        Some(Kind::Change) => change_run(r, o.body, held, lists),
        Some(Kind::Wall | Kind::End) | None => r,
    }
}

// One byte.
#[tactic(auto, unfolding(crate::specs::Reading::fed))]
fn feed_byte(r: Reader, limit: usize, b: u8, held: &mut [f64], lists: &mut Lists<'_>) -> Reader
    ensures same { SameLists lists.old lists.new }
    ensures left { machine result held.new (store_of lists.new) ≡ fed limit (machine r held.old (store_of lists.old)) b }
{
    let u = reader::stepped(r, b);
    match reader::whole(u) {
        Some(o) => close(u, o, limit, held, lists),
        None => u,
    }
}

// ---- the call of a user

// A piece of a file. `limit`: the most cells that are taken. `held`: what holds the numbers of the input between the records. The answer is that of
// `reader::finish`, once all pieces are fed.
pub fn feed(
    r: Reader,
    limit: usize,
    piece: &[u8],
    held: &mut [f64],
    lists: &mut Lists<'_>,
) -> Reader
    ensures same { SameLists lists.old lists.new }
    ensures left { machine result held.new (store_of lists.new) ≡ fed_all limit (machine r held.old (store_of lists.old)) piece.now }
{
    let mut u = r;
    for &b in piece {
        // Behind a refusal no byte brings anything about.
        if let Err(_) = u.answer {
            return u;
        }
        u = feed_byte(u, limit, b, held, lists);
    }
    u
}
