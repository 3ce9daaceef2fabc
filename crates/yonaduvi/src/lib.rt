// The calls for C and Rust: a setup, a change, a file, what a setup needs, and where its rows stand. They ask nothing of their caller but that each pointer is good for its
// length: bad input gets its refusal, and what would lie past the end of a result list is left out.

#![tactic(auto)]

ghost use Rattle.std.specs.Prelude.{◌≡◌, ◌/◌, length};
ghost use Rattle.numbers.specs.Lists.{laid};
ghost use Rattle.store.specs.Store.{lent};
ghost use Rattle.store.specs.Setup.{setup_of};
ghost use Rattle.store.specs.Calls.{change_of};
ghost use Rattle.store.specs.ChangeSteps.{change_to};
ghost use Rattle.store.specs.Handed.{weight_terms, operator_row};
ghost use Rattle.programs.specs.Reading.{machine, fresh, fed_all};
ghost use Rattle.yonaduvi.specs.Exports.{input_from, CallLeft, ReadLeft, NeedsLeft, cells_from, is_turned, spanned};

use lattice::input::Stretches;
use numbers::C64;
use store::lists::{Lists, Numbers, Structure};
use store::told::Told;
use store::{Choice, handed, needed};

pub mod answers;
pub mod calls;
pub mod input;
pub mod rows;

// A setup: in `out` number and place of a refusal, or 0 and the level count, and the levels in the twelve lists. `choice`: 0 Galerkin, any other number
// rediscretized.
#[unsafe(no_mangle)]
pub extern "C" fn yonaduvi_setup(
    cells: &[usize],
    scalars: &[f64],
    xn: &[f64],
    xh: &[f64],
    yn: &[f64],
    yh: &[f64],
    zn: &[f64],
    zh: &[f64],
    given: &[f64],
    choice: usize,
    coarsest: usize,
    out: &mut [usize],
    ends: &mut [usize],
    eps: &mut [f64],
    starts: &mut [usize],
    columns: &mut [usize],
    values: &mut [f64],
    tstarts: &mut [usize],
    tcolumns: &mut [usize],
    tvalues: &mut [f64],
    ostarts: &mut [usize],
    ocolumns: &mut [usize],
    ovalues: &mut [f64],
    scaling: &mut [f64],
)
    ensures { CallLeft (setup_of (input_from cells.now scalars.now xn.now xh.now yn.now
        yh.now zn.now zh.now choice coarsest) given.now (lent ends.old eps.old
        starts.old columns.old values.old tstarts.old tcolumns.old tvalues.old
        ostarts.old ocolumns.old ovalues.old scaling.old)) out.old out.new
        (lent ends.new eps.new starts.new columns.new values.new tstarts.new
        tcolumns.new tvalues.new ostarts.new ocolumns.new ovalues.new scaling.new) }
{
    let on = Stretches {
        xn,
        xh,
        yn,
        yh,
        zn,
        zh,
    };
    let mut lists = Lists {
        ends,
        eps,
        starts,
        columns,
        values,
        tstarts,
        tcolumns,
        tvalues,
        ostarts,
        ocolumns,
        ovalues,
        scaling,
    };
    calls::set_up(
        cells, scalars, &on, given, choice, coarsest, out, &mut lists,
    );
}

// A change: the permittivity of edge `edge` of level 0 set to (re, im) in a store that a setup with this input left, and what it reaches worked out anew.
// In `out` number and place of a refusal, which leaves every list as it was, or 0 and the level count.
#[unsafe(no_mangle)]
pub extern "C" fn yonaduvi_change(
    cells: &[usize],
    scalars: &[f64],
    xn: &[f64],
    xh: &[f64],
    yn: &[f64],
    yh: &[f64],
    zn: &[f64],
    zh: &[f64],
    choice: usize,
    coarsest: usize,
    edge: usize,
    re: f64,
    im: f64,
    out: &mut [usize],
    ends: &[usize],
    eps: &mut [f64],
    starts: &[usize],
    columns: &[usize],
    values: &mut [f64],
    tstarts: &[usize],
    tcolumns: &[usize],
    tvalues: &mut [f64],
    ostarts: &[usize],
    ocolumns: &[usize],
    ovalues: &mut [f64],
    scaling: &mut [f64],
)
    ensures { CallLeft (change_of (input_from cells.now scalars.now xn.now xh.now yn.now
        yh.now zn.now zh.now choice coarsest) (lent ends.now eps.old
        starts.now columns.now values.old tstarts.now tcolumns.now tvalues.old
        ostarts.now ocolumns.now ovalues.old scaling.old) (change_to edge (record { re = re; im = im })))
        out.old out.new
        (lent ends.now eps.new starts.now columns.now values.new tstarts.now
        tcolumns.now tvalues.new ostarts.now ocolumns.now ovalues.new scaling.new) }
{
    let on = Stretches {
        xn,
        xh,
        yn,
        yh,
        zn,
        zh,
    };
    let fixed = Structure {
        ends,
        starts,
        columns,
        tstarts,
        tcolumns,
        ostarts,
        ocolumns,
    };
    let mut numbers = Numbers {
        eps,
        values,
        tvalues,
        ovalues,
        scaling,
    };
    let value = C64 { re, im };
    calls::change(
        cells,
        scalars,
        &on,
        choice,
        coarsest,
        edge,
        value,
        out,
        &fixed,
        &mut numbers,
    );
}

// A file (docs/SPECIFICATION.md, 13): reads its bytes, sets the levels up and changes them as the records say. `limit`: the most cells that are taken. `held`: what
// holds the numbers of the input between the records. In `out` number and place of the refusal that ended the reading, or 0 and the level count.
#[unsafe(no_mangle)]
pub extern "C" fn yonaduvi_read(
    bytes: &[u8],
    limit: usize,
    held: &mut [f64],
    out: &mut [usize],
    ends: &mut [usize],
    eps: &mut [f64],
    starts: &mut [usize],
    columns: &mut [usize],
    values: &mut [f64],
    tstarts: &mut [usize],
    tcolumns: &mut [usize],
    tvalues: &mut [f64],
    ostarts: &mut [usize],
    ocolumns: &mut [usize],
    ovalues: &mut [f64],
    scaling: &mut [f64],
)
    ensures { ReadLeft (fed_all limit (machine fresh held.old (lent ends.old eps.old starts.old columns.old values.old tstarts.old tcolumns.old tvalues.old ostarts.old ocolumns.old ovalues.old scaling.old))
        bytes.now) out.old out.new held.new (lent ends.new eps.new starts.new columns.new values.new tstarts.new tcolumns.new tvalues.new ostarts.new ocolumns.new ovalues.new scaling.new) }
{
    let mut lists = Lists {
        ends,
        eps,
        starts,
        columns,
        values,
        tstarts,
        tcolumns,
        tvalues,
        ostarts,
        ocolumns,
        ovalues,
        scaling,
    };
    calls::read(bytes, limit, held, out, &mut lists);
}

// What such a setup needs: in `out` refusals 1 to 4 (of everything but the permittivities), 5 and 8, or 0 and the level count; in `needs` the places of
// each of the twelve lists, in order; in `counts` the level count and then the cells of axis a on level L at 1 + 3 L + a, 37 words. After refusals 1 to 4
// `needs` and `counts` are as they were, after 5 and 8 zero in every place.
#[unsafe(no_mangle)]
pub extern "C" fn yonaduvi_needs(
    cells: &[usize],
    scalars: &[f64],
    xn: &[f64],
    xh: &[f64],
    yn: &[f64],
    yh: &[f64],
    zn: &[f64],
    zh: &[f64],
    choice: usize,
    coarsest: usize,
    out: &mut [usize],
    needs: &mut [usize],
    counts: &mut [usize],
)
    ensures { NeedsLeft (input_from cells.now scalars.now xn.now xh.now yn.now yh.now
        zn.now zh.now choice coarsest) out.old needs.old counts.old out.new
        needs.new counts.new }
{
    let on = Stretches {
        xn,
        xh,
        yn,
        yh,
        zn,
        zh,
    };
    let v = input::lattice_from(cells, scalars);
    let found = match needed::setup_needs(v, &on, Choice::from(choice), coarsest) {
        Ok(found) => found,
        Err(refusal) => {
            let t = Told::from(refusal);
            answers::put_two(out, t.number, t.place);
            answers::leave_answer(Err(refusal), needs, &[]);
            answers::leave_answer(Err(refusal), counts, &[]);
            return;
        }
    };
    let c = found.cells;
    answers::put_two(out, 0, c.levels);
    answers::put(needs, &answers::needs_words(found.needs));
    answers::put(counts, &answers::cells_words(c.cells, c.levels));
}

// Where the weights of row `row` of the transfer from level `level` + 1 to `level` stand: in `out` the first double and the count of doubles, in `values`
// or, where `turned` is not 0, in `tvalues`; 0 and 0 where there is no such row. `counts`: as `yonaduvi_needs` leaves it.
#[unsafe(no_mangle)]
pub extern "C" fn yonaduvi_weight_row(
    counts: &[usize],
    turned: usize,
    starts: &[usize],
    values: &[f64],
    tstarts: &[usize],
    tvalues: &[f64],
    level: usize,
    row: usize,
    out: &mut [usize],
)
    ensures { out.new ≡ laid out.old 0 (spanned 2 (weight_terms (cells_from counts.now) (is_turned turned)
        starts.now (length values.now / 2) tstarts.now (length tvalues.now / 2) level row)) }
{
    let c = rows::cells_from(counts);
    let room = values.len() / 2;
    let troom = tvalues.len() / 2;
    let s = handed::weight_terms(c, turned != 0, starts, room, tstarts, troom, level, row);
    rows::put_span(s, 2, out);
}

// Where row `row` of the operator of a level stands: in `out` the first place and the count of places in `columns`, and so of its numbers in the
// operator's values; 0 and 0 where there is no such row. `counts`: as `yonaduvi_needs` leaves it.
#[unsafe(no_mangle)]
pub extern "C" fn yonaduvi_operator_row(
    counts: &[usize],
    starts: &[usize],
    columns: &[usize],
    level: usize,
    row: usize,
    out: &mut [usize],
)
    ensures { out.new ≡ laid out.old 0 (spanned 1 (operator_row (cells_from counts.now) starts.now
        (length columns.now) level row)) }
{
    let c = rows::cells_from(counts);
    let s = handed::operator_terms(c, starts, columns.len(), level, row);
    rows::put_span(s, 1, out);
}
