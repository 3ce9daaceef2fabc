// Values laid into lent lists, one in each place.

ghost use Rattle.std.specs.Prelude.{◌≡◌, ℕ, List, true, false, [], ◌∷◌, ◌+◌, ◌-◌, ◌*◌, ◌<◌, ◌≤◌, ◌^◌, length, get_or, set};
ghost use Rattle.numbers.specs.Places.{set_number, number_at};
ghost use Rattle.numbers.specs.Lists.{tabulate, Laid, all_finite, any_flag, Marked, places_in, repeats as repeats_in};
ghost use Rattle.numbers.specs.Terms.{Below};

use crate::C64;

// What is laid into lent lists: whole numbers into lists of whole numbers, numbers into lists of doubles. Past a list's end it is left out.
pub trait Entry: Copy {
    type Place;

    ghost set: { List Self.Place → ℕ → Self → List Self.Place };

    fn put(self, list: &mut [Self::Place], k: usize)
        ensures { list.new ≡ set list.old k self };
}

impl Entry for usize {
    type Place = usize;

    ghost set = { λ list k v. set list k v };

    fn put(self, list: &mut [usize], k: usize) {
        if k < list.len() {
            list[k] = self;
        }
    }
}

impl Entry for C64 {
    type Place = f64;

    ghost set = { set_number };

    fn put(self, list: &mut [f64], k: usize) {
        crate::put(list, k, self);
    }
}

// An entry at place k. The place behind it. `requires`: a place far from the largest number, as in all lists that can be lent.
pub fn push<T: Entry>(list: &mut [T::Place], k: usize, v: T) -> usize
    requires { k < 2 ^ 40 }
    ensures { Laid T.set list.old k (v ∷ []) list.new result }
{
    v.put(list, k);
    k + 1
}

// Whether the n numbers from place k on are finite. `requires`: the list has them.
pub fn finite_numbers(list: &[f64], k: usize, n: usize) -> bool
    requires { (k + n < 2 ^ 40) × (2 * (k + n) ≤ length list.now) }
    ensures { result ≡ all_finite (tabulate (number_at list.now) n k) }
{
    (k..k + n).all(|m| crate::get(list, m).is_finite())
}

// Whether position c is flagged; one past the flags is not.
pub fn flagged(flags: &[bool], c: usize) -> bool
    ensures { result ≡ get_or flags.now c false }
{
    flags.get(c).copied().unwrap_or(false)
}

// Whether one of the n columns from place k on is flagged. `requires`: the list has them.
pub fn any_flag(flags: &[bool], columns: &[usize], k: usize, n: usize) -> bool
    requires { k + n ≤ length columns.now }
    ensures { result ≡ any_flag flags.now (places_in columns.now k n) }
{
    for &c in &columns[k..k + n] {
        if flagged(flags, c) {
            return true;
        }
    }
    false
}

// The flag of each of the first n columns is set. `requires`: the list has them, and there is a flag for each.
pub fn mark_each(flags: &mut [bool], columns: &[usize], n: usize)
    requires n_in_bounds { n ≤ length columns.now }
    requires below { Below (length flags.old) columns.now n }
    ensures { Marked true (places_in columns.now 0 n) flags.old flags.new }
{
    for &c in &columns[..n] {
        flags[c] = true;
    }
}

// Whether a column stands twice among the first n.
pub fn repeats(columns: &[usize], n: usize) -> bool
    requires { n ≤ length columns.now }
    ensures { result ≡ repeats_in (places_in columns.now 0 n) }
{
    (0..n).any(|m| columns[m + 1..n].contains(&columns[m]))
}
