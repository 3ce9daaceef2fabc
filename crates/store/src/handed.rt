// Rows handed back: a row of the weights or of an operator as the part of the lent list that holds it. Cell counts, starts and lists may have any
// content.

ghost use Rattle.std.specs.Prelude.{◌≡◌, ◌+◌, ◌<◌};
ghost use Rattle.store.specs.Handed.{cells_in, some_cells, level_there, edges_in, levels_there, part_at, row_at, rows_from, transfer_row, first_of, operator_row, weight_terms, weight_row_of, operator_row_of};

// The cells of axis a on level L are number 3 L + a. A level exists if it is below `levels` and below 12 and each of its axes has 1 to 64 cells. Then
// it has at most 3 × 64^3 edges: the limit of 4,096 cells, refusal 1, is not needed here.
#[derive(Clone, Copy)]
pub struct Cells {
    pub levels: usize,
    pub cells: [usize; 36],
}

// The cells of an axis on a level.
fn cells_along(c: Cells, level: usize, axis: usize) -> usize
    requires { (level < 12) × (axis < 3) }
    ensures { result ≡ cells_in c level axis }
{
    let at = 3 * level + axis;
    c.cells[at]
}

fn some_cells(n: usize) -> bool
    ensures { result ≡ some_cells n }
{
    0 < n && n <= 64
}

// Whether a level exists.
#[tactic(auto, unfolding(crate::specs::Handed::level_there))]
fn level_there(c: Cells, level: usize) -> bool
    ensures { result ≡ level_there c level }
{
    level < 12
        && level < c.levels
        && some_cells(cells_along(c, level, 0))
        && some_cells(cells_along(c, level, 1))
        && some_cells(cells_along(c, level, 2))
}

// The edges of a level, none where it does not exist.
fn edges(c: Cells, level: usize) -> usize
    ensures { result ≡ edges_in c level }
{
    if !level_there(c, level) {
        return 0;
    }
    let x = cells_along(c, level, 0);
    let y = cells_along(c, level, 1);
    let z = cells_along(c, level, 2);
    3 * (x * y * z)
}

// Whether the first n levels exist.
fn levels_there(c: Cells, n: usize) -> bool
    ensures { result ≡ levels_there c n }
{
    (0..n).all(|q| level_there(c, q))
}

// Where the starts of a part begin, and its terms: behind those of the parts before it, each of which has as many terms as its last start says. Part q
// has the rows of level q + first. `room`: how many terms the list has place for.
fn part_at(
    c: Cells,
    first: usize,
    starts: &[usize],
    room: usize,
    part: usize,
) -> Option<(usize, usize)>
    requires { part + first < 12 }
    ensures { result ≡ part_at (rows_from c first) starts.now room part }
{
    let mut at = 0;
    let mut terms = 0;
    for q in 0..part {
        let n = edges(c, q + first);
        if starts.len() - at <= n {
            return None;
        }
        let last = starts[at + n];
        if room - terms < last {
            return None;
        }
        at += n + 1;
        terms += last;
    }
    Some((at, terms))
}

// The terms of a row of a part, from one place up to another.
fn row_at(
    c: Cells,
    first: usize,
    starts: &[usize],
    room: usize,
    part: usize,
    row: usize,
) -> Option<(usize, usize)>
    requires { part + first < 12 }
    ensures { result ≡ row_at (rows_from c first) starts.now room part row }
{
    let n = edges(c, part + first);
    if n <= row {
        return None;
    }
    let (at, terms) = part_at(c, first, starts, room, part)?;
    if starts.len() - at <= row + 1 {
        return None;
    }
    let a = starts[at + row];
    let b = starts[at + (row + 1)];
    if b < a {
        return None;
    }
    if room - terms < b {
        return None;
    }
    Some((terms + a, terms + b))
}

// A row of a transfer's part: of the forward list with first = 0, of the turned list with first = 1.
fn transfer_row(
    c: Cells,
    first: usize,
    starts: &[usize],
    room: usize,
    level: usize,
    row: usize,
) -> Option<(usize, usize)>
    requires { first < 2 }
    ensures { result ≡ transfer_row c first starts.now room level row }
{
    if 11 <= level {
        return None;
    }
    if !levels_there(c, level + 2) {
        return None;
    }
    row_at(c, first, starts, room, level, row)
}

// The first level whose operator is stored: level 0 only where it is the only one.
fn first_stored(c: Cells) -> usize
    ensures { result ≡ first_of c }
{
    if c.levels <= 1 {
        return 0;
    }
    1
}

// The terms of row `row` of the operator of a level. `room`: how many terms the list has place for.
pub fn operator_terms(
    c: Cells,
    starts: &[usize],
    room: usize,
    level: usize,
    row: usize,
) -> Option<(usize, usize)>
    ensures { result ≡ operator_row c starts.now room level row }
{
    let first = first_stored(c);
    let part = level.checked_sub(first)?;
    if 12 <= level {
        return None;
    }
    if !levels_there(c, level + 1) {
        return None;
    }
    row_at(c, first, starts, room, part, row)
}

// The terms of row `row` of the transfer from level `level` + 1 to `level`: in the forward list or, if `turned`, in the turned one. `room`, `troom`: how
// many terms the two lists have place for.
pub fn weight_terms(
    c: Cells,
    turned: bool,
    starts: &[usize],
    room: usize,
    tstarts: &[usize],
    troom: usize,
    level: usize,
    row: usize,
) -> Option<(usize, usize)>
    ensures { result ≡ weight_terms c turned starts.now room tstarts.now troom level row }
{
    if turned {
        return transfer_row(c, 1, tstarts, troom, level, row);
    }
    transfer_row(c, 0, starts, room, level, row)
}

// The same row as the part of the caller's values that holds its weights. A level or row that doesn't exist, or whose starts don't fit the list, gives
// the empty front of the forward list.
pub fn weight_row<'a>(
    c: Cells,
    turned: bool,
    starts: &[usize],
    values: &'a [f64],
    tstarts: &[usize],
    tvalues: &'a [f64],
    level: usize,
    row: usize,
) -> &'a [f64]
    ensures { result.now ≡ weight_row_of c turned starts.now values.now tstarts.now tvalues.now level row }
{
    let room = values.len() / 2;
    let troom = tvalues.len() / 2;
    let Some((i, j)) = weight_terms(c, turned, starts, room, tstarts, troom, level, row) else {
        return &values[0..0];
    };
    if turned {
        return &tvalues[2 * i..2 * j];
    }
    &values[2 * i..2 * j]
}

// Row `row` of the operator of a level: its part of the lent columns, not a copy. A level or row that doesn't exist, or whose starts don't fit the list,
// gives the empty front of the columns.
pub fn operator_row<'a>(
    c: Cells,
    starts: &[usize],
    columns: &'a [usize],
    level: usize,
    row: usize,
) -> &'a [usize]
    ensures { result.now ≡ operator_row_of c starts.now columns.now level row }
{
    let Some((i, j)) = operator_terms(c, starts, columns.len(), level, row) else {
        return &columns[0..0];
    };
    &columns[i..j]
}
