// Level 0's relations of an axis, as words.

ghost use Rattle.std.specs.Prelude.{◌≡◌, true, ◌+◌, ◌<◌, ◌≤◌, length};
ghost use Rattle.numbers.specs.Lists.{tabulate, laid};
ghost use Rattle.operators.specs.Pattern.{role_of};
ghost use Rattle.operators.specs.Numbered.{name_no, relations_laid};
ghost use Rattle.operators.specs.Base.{live_at, follows, base_of, place_of, base_word, base_words, OnlyAfter, OnlyBefore, Sizes};
ghost use Rattle.operators.specs.Bits.{mix_of, single};

use crate::words;

// Is the place not held fixed? On the row's or column's own axis, along it, none is.
fn live(bloch: bool, along: bool, i: usize) -> bool
    ensures { result ≡ live_at bloch (role_of along) i }
{
    if along {
        return true;
    }
    bloch || i != 0
}

// Does j come next after i?
fn follows(n: usize, bloch: bool, i: usize, j: usize) -> bool
    requires { i < 64 }
    ensures { result ≡ follows n bloch i j }
{
    let near = j == i + 1 && i + 1 < n;
    near || (bloch && i + 1 == n && j == 0)
}

// Is j related to i by relation number w? A number, not an enum: it is the place of the relation's words in the list of a level,
// where `no` of tables.rt and the loops over all eighteen find them.
fn related(n: usize, bloch: bool, w: usize, i: usize, j: usize) -> bool
    requires { (w < 6) × (i < 64) × (j < 64) }
    ensures { result ≡ base_of n bloch (name_no w) i j }
{
    let here = i == j;
    let up = follows(n, bloch, i, j);
    let down = follows(n, bloch, j, i);
    if w < 2 {
        return live(bloch, w == 0, i) && here;
    }
    if w < 4 {
        let along = w == 2;
        return live(bloch, along, i) && live(bloch, along, j) && (here || (up || down));
    }
    if w == 4 {
        return live(bloch, false, j) && (here || up);
    }
    live(bloch, false, i) && (here || down)
}

// The only place that can come next after i.
fn place_after(n: usize, i: usize) -> usize
    requires { i < 64 }
    ensures { OnlyAfter n i result }
{
    if i + 1 < n {
        return i + 1;
    }
    0
}

// The only place that i can come next after. No twin of `place_after`: another end wraps, and to another place.
fn place_before(n: usize, i: usize) -> usize
    ensures { OnlyBefore n i result }
{
    if i > 0 {
        return i - 1;
    }
    n.saturating_sub(1)
}

// The set, with j if it is a place that relation number w has at i.
fn with_place(n: usize, bloch: bool, w: usize, i: usize, set: u64, j: usize) -> u64
    requires { (n ≤ 64) × (w < 6) × (i < 64) }
    ensures { result ≡ mix_of true set (place_of n bloch w i j) (single j) }
{
    if j >= n {
        return set;
    }
    words::mix(true, set, related(n, bloch, w, i, j), words::unit(j))
}

// The places that relation number w has at i: none but i and the places beside it.
pub fn base_word(n: usize, bloch: bool, w: usize, i: usize) -> u64
    requires { (n ≤ 64) × (w < 6) × (i < 64) }
    ensures { result ≡ base_word n bloch w i }
{
    let here = with_place(n, bloch, w, i, 0, i);
    let up = with_place(n, bloch, w, i, here, place_after(n, i));
    with_place(n, bloch, w, i, up, place_before(n, i))
}

// The n words of relation number w, from at on.
fn fill_relation(n: usize, bloch: bool, w: usize, t: &mut [u64], at: usize)
    requires { (n ≤ 64) × (w < 6) × (at + n ≤ length t.old) }
    ensures { t.new ≡ laid t.old at (tabulate (base_word n bloch w) n 0) }
{
    // An index: a word is worked out from its number, and the list's items with their numbers would be no shorter.
    for i in 0..n {
        t[at + i] = base_word(n, bloch, w, i);
    }
}

// Level 0's eighteen relations, laid over the list.
pub fn fill_base(n: &[usize], bloch: &[bool], t: &mut [u64])
    requires { Sizes n.now bloch.now t.old }
    ensures { t.new ≡ relations_laid (base_words n.now bloch.now) 18 t.old }
{
    // An index: relation q is one of axis q / 6, and its words stand from place 64 q on.
    for q in 0..18 {
        let d = q / 6;
        fill_relation(n[d], bloch[d], q % 6, t, 64 * q);
    }
}
