// Setup: the levels of a lattice in the lent lists, or a refusal.

ghost use Rattle.store.specs.Hierarchy.{the_lattice};
ghost use Rattle.std.specs.Prelude.{◌≡◌, suc, ◌*◌, ◌<◌, ◌≤◌, ◌-◌, length};
ghost use Rattle.numbers.specs.Places.{number_at};
ghost use Rattle.lattice.specs.Check.{accepted, and_then};
ghost use Rattle.lattice.specs.Sound.{full};
ghost use Rattle.lattice.specs.Levels.{depth_verdict, count_of};
ghost use Rattle.operators.specs.LevelLists.{edges_on};
ghost use Rattle.store.specs.Store.{zeroed};
ghost use Rattle.store.specs.Lists.{store_of, SameLists};
ghost use Rattle.store.specs.Setup.{result_of, unless, setup_of, all_to, names_once, short_of, input_on};
ghost use Rattle.store.specs.FillSteps.{sizes_of};
ghost use Rattle.store.specs.declared.setup.Refusal.TheVariants.{Input};
ghost use Rattle.store.specs.Steps.{answer_of, LinesFound, structure_by, settled_of};

use crate::hierarchy::Hierarchy;
use crate::lists::Lists;
use crate::needs::Lengths;
use crate::{Choice, fill, needs};
use lattice::input::Stretches;
use lattice::lattice::{Lattice, stretches};
use lattice::line::Line;
use lattice::sound::Sound;
use lattice::{check, levels};

// What a setup is refused for: refusals 1 to 4 of its input, 5, 8 at a level, 6 at a list, 7 at a level.
#[derive(Clone, Copy, PartialEq, Eq, Debug)]
pub enum Refusal {
    Input(check::Refusal),
    TooMany,
    Twice(usize),
    Short(usize),
    NotFinite(usize),
}

impl From<check::Refusal> for Refusal {
    ghost from_gives = { λ c r. r ≡ Input c };

    fn from(c: check::Refusal) -> Refusal {
        Refusal::Input(c)
    }
}

// ---- structure

// Refusals 8 and 6 of m transfers, or the level count. Nothing looks for 8: it is proved that no row of a transfer names an edge twice.
fn levels_structure(choice: Choice, h: &Hierarchy<'_>, room: Lengths) -> Result<usize, Refusal>
    ensures { answer_of result ≡ and_then (all_to 8 (names_once (the_lattice h.now)) h.now.m)
        (and_then (short_of (the_lattice h.now) choice h.now.m (sizes_of room)) (accepted (suc h.now.m))) }
{
    let short = needs::short(needs::count(h, choice), room);
    if let Some(list) = short {
        return Err(Refusal::Short(list));
    }
    Ok(h.m + 1)
}

// Refusals 5, 8 and 6, from what the level loop found, or the level count.
pub fn structure(
    choice: Choice,
    l: &Sound<'_>,
    depth: Option<usize>,
    lines: &[Line; 36],
    room: Lengths,
) -> Result<usize, Refusal>
    requires { LinesFound (full l.now) depth lines.now }
    ensures { answer_of result ≡ structure_by (full l.now) choice (depth_verdict depth) (sizes_of room) }
{
    let Some(n) = depth else {
        return Err(Refusal::TooMany);
    };
    let h = Hierarchy {
        l: *l,
        lines,
        m: n - 1,
    };
    levels_structure(choice, &h, room)
}

// The transfers of so many levels.
pub fn transfers_of(depth: Option<usize>) -> usize
    ensures { result ≡ count_of (depth_verdict depth) - 1 }
{
    depth.unwrap_or(0).saturating_sub(1)
}

// ---- all lists

// The levels of a lattice within the limits, with its stretches and the given permittivities: in the lists or, after a refusal, not yet zeroed.
fn fill_levels(
    choice: Choice,
    l: &Sound<'_>,
    coarsest: usize,
    given: &[f64],
    lists: &mut Lists<'_>,
) -> Result<usize, Refusal>
    requires { 2 * edges_on (full l.now) 0 ≤ length given.now }
    ensures same { SameLists lists.old lists.new }
    ensures left { unless (answer_of result) (zeroed (store_of lists.new)) (result_of (answer_of result) (store_of lists.new))
        ≡ settled_of (full l.now) choice coarsest (number_at given.now) (store_of lists.old) }
{
    let found = levels::join_lines(l, coarsest);
    let depth = found.depth;
    let n = structure(choice, l, depth, &found.lines, lists.lengths())?;
    let h = Hierarchy {
        l: *l,
        lines: &found.lines,
        m: transfers_of(depth),
    };
    let bad = fill::fill(choice, &h, given, lists);
    if let Some(level) = bad {
        return Err(Refusal::NotFinite(level));
    }
    Ok(n)
}

// The setup of a lattice within the limits, with its stretches and the given permittivities.
fn settle(
    choice: Choice,
    l: &Sound<'_>,
    coarsest: usize,
    given: &[f64],
    lists: &mut Lists<'_>,
) -> Result<usize, Refusal>
    requires { 2 * edges_on (full l.now) 0 ≤ length given.now }
    ensures same { SameLists lists.old lists.new }
    ensures left { result_of (answer_of result) (store_of lists.new)
        ≡ settled_of (full l.now) choice coarsest (number_at given.now) (store_of lists.old) }
{
    let answer = fill_levels(choice, l, coarsest, given, lists);
    if answer.is_ok() {
        return answer;
    }
    lists.clear();
    answer
}

// ---- the call of a user

// Setup: the level count, and the levels one behind another in the lent lists: 0 line ends, 1 permittivities, 2 forward rows, 3 turned rows, 4 operator
// rows (starts, columns, values each), 5 scaling. Refusals 1 to 4 leave the lists as they were, 5 to 8 leave zero in every place.
pub fn setup(
    v: Lattice,
    on: &Stretches<'_>,
    given: &[f64],
    choice: Choice,
    coarsest: usize,
    lists: &mut Lists<'_>,
) -> Result<usize, Refusal>
    ensures same { SameLists lists.old lists.new }
    ensures left { result_of (answer_of result) (store_of lists.new)
        ≡ setup_of (input_on v on.now choice coarsest) given.now (store_of lists.old) }
{
    check::check(v, on, given)?;
    let st = stretches(v, on);
    let l = Sound {
        lattice: v,
        st: &st,
    };
    settle(choice, &l, coarsest, given, lists)
}
