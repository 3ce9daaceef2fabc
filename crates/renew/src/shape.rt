// Where the rows of each part stand.

ghost use Rattle.store.specs.Hierarchy.{the_lattice};
ghost use Rattle.std.specs.Prelude.{ℕ, ◌≡◌, ◌+◌, ◌*◌, ◌<◌, ◌≤◌, ◌^◌, length, get_or};
ghost use Rattle.store.specs.Parts.{sole_size};
ghost use Rattle.store.specs.Lists.{fixed_of};
ghost use Rattle.store.specs.Renewed.{Shaped};
ghost use Rattle.store.specs.Cells.{no_words};
ghost use Rattle.store.specs.Shape.{marks_at, words, next_marks, MarksFit, words_by, PartSet, LevelSet, ShapeOf};

use numbers::terms::Part;
use store::change::{Marks, NumberList, Words};
use store::hierarchy::Hierarchy;
use store::lists::Structure;
use store::{Choice, lines, needs, rediscretized_levels};

// The most parts: seven for each of eleven transfers, and the rows of a sole level.
pub const PARTS: usize = 78;

pub const NO_WORDS: Words = Words {
    rows: 0,
    base: 0,
    list: NumberList::Permittivities,
    start: 0,
    number: 0,
};

// The words of `rows` rows of a list, before it is known where their flags begin.
fn words(rows: usize, list: NumberList, start: usize, number: usize) -> Words
    ensures { result ≡ words rows list start number }
{
    Words {
        rows,
        base: 0,
        list,
        start,
        number,
    }
}

// The words of the seven kinds of a transfer between levels of so many edges.
fn words_of(choice: Choice, fine: usize, coarse: usize, k: Marks) -> [Words; 7]
    requires { k.scale + fine ≤ 2 ^ 41 }
    ensures { (i : ℕ) → i < 7 → get_or result i no_words ≡ words_by choice fine coarse k i }
{
    let c = needs::only(choice, coarse);
    let f = needs::only(choice, fine);
    let eps = words(coarse, NumberList::Permittivities, 0, k.eps);
    let averaged = words(c, NumberList::Permittivities, 0, k.averaged);
    let forward = words(fine, NumberList::Forward, k.forward.s, k.forward.k);
    let turned = words(coarse, NumberList::Turned, k.turned.s, k.turned.k);
    let volumes = words(f, NumberList::Scaling, 0, k.scale);
    let shares = words(c, NumberList::Scaling, 0, k.scale + fine);
    let operator = words(coarse, NumberList::Operator, k.operator.s, k.operator.k);
    [eps, averaged, forward, turned, volumes, shares, operator]
}

// The words of part p, whose flags begin at `base`.
fn set_part(shape: &mut [Words], p: usize, base: usize, w: Words)
    requires { p < length shape.old }
    ensures { PartSet shape.old p base w shape.new }
{
    shape[p] = Words { base, ..w };
}

// The words of the seven parts of a transfer, from part p on. Where the flags behind them begin.
fn set_level(
    choice: Choice,
    fine: usize,
    coarse: usize,
    k: Marks,
    p: usize,
    base: usize,
    shape: &mut [Words],
) -> usize
    requires fine_bound { (fine ≤ 12288) × (coarse ≤ 12288) × (k.scale ≤ 2 ^ 40) }
    requires p_bound { (p + 7 ≤ 78) × (base ≤ 2 ^ 40) × (p + 7 ≤ length shape.old) }
    ensures { LevelSet (words_by choice fine coarse k) p base shape.old 7 result shape.new }
{
    let ws = words_of(choice, fine, coarse, k);
    let mut next = base;
    for i in 0..7 {
        set_part(shape, p + i, next, ws[i]);
        next += ws[i].rows;
    }
    next
}

// Where the first transfer's rows stand.
fn first_marks(h: &Hierarchy<'_>) -> Marks
    ensures { (choice : Choice) → 0 < h.now.m → result ≡ marks_at (the_lattice h.now) choice h.now.m 0 }
{
    let n = h.edges(0);
    let all = rediscretized_levels::chain_length(h);
    Marks {
        eps: n,
        averaged: all,
        scale: 0,
        forward: Part { s: 0, k: 0 },
        turned: Part { s: 0, k: 0 },
        operator: Part { s: 0, k: 0 },
    }
}

// Where the next transfer's stand. Not by `parts::next_standing`, whose walk begins only where there is a transfer: a shape is set for a sole level too.
fn next_marks(k: Marks, fine: usize, coarse: usize, s: &Structure<'_>) -> Marks
    requires { MarksFit k fine coarse s.now.starts.now s.now.tstarts.now s.now.ostarts.now }
    ensures { result ≡ next_marks k fine coarse s.now.starts.now s.now.tstarts.now s.now.ostarts.now }
{
    let forward = lines::behind(k.forward, fine, s.starts);
    let turned = lines::behind(k.turned, coarse, s.tstarts);
    let operator = lines::behind(k.operator, coarse, s.ostarts);
    Marks {
        eps: k.eps + coarse,
        averaged: k.averaged + coarse,
        scale: k.scale + (fine + coarse),
        forward,
        turned,
        operator,
    }
}

// The rows of a sole level.
fn sole_rows(h: &Hierarchy<'_>) -> usize
    ensures { result ≡ sole_size (the_lattice h.now) h.now.m }
{
    if h.m == 0 {
        return h.edges(0);
    }
    0
}

// The words of all parts.
pub fn set_shape(choice: Choice, h: &Hierarchy<'_>, s: &Structure<'_>, shape: &mut [Words])
    requires shaped { Shaped (the_lattice h.now) choice h.now.m (fixed_of s.now) }
    requires shape_len { length shape.old ≡ 78 }
    ensures { ShapeOf (the_lattice h.now) choice h.now.m shape.new }
{
    let n = sole_rows(h);
    set_part(shape, 0, 0, words(n, NumberList::Operator, 0, 0));
    let mut base = n;
    let mut k = first_marks(h);
    for level in 0..h.m {
        let fine = h.edges(level);
        let coarse = h.edges(level + 1);
        base = set_level(choice, fine, coarse, k, 7 * level + 1, base, shape);
        k = next_marks(k, fine, coarse, s);
    }
}
