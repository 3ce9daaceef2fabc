// What the calls leave in the lists that they are lent. What would lie past the end of a list is left out.

ghost use Rattle.std.specs.Prelude.{◌≡◌, ℕ, List, Err, [], ◌∷◌, ◌≤◌, length};
ghost use Rattle.numbers.specs.Lists.{laid};
ghost use Rattle.store.specs.Steps.{answer_of};
ghost use Rattle.yonaduvi.specs.Exports.{list_left, needs_words};

use numbers::lists;
use store::needs::Needs;
use store::setup::Refusal;

pub fn put_two(out: &mut [usize], a: usize, b: usize)
    ensures { out.new ≡ laid out.old 0 (a ∷ (b ∷ [])) }
{
    let k = lists::push(out, 0, a);
    lists::push(out, k, b);
}

// Values from a list's beginning on. `requires`: few of them, as both callers have.
pub fn put(list: &mut [usize], values: &[usize])
    requires { length values.now ≤ 64 }
    ensures { list.new ≡ laid list.old 0 values.now }
{
    let n = values.len();
    for c in 0..n {
        lists::push(list, c, values[c]);
    }
}

// What an answer leaves in a list: the values, or what stood there (refusals 1 to 4), or zero in every place.
pub fn leave_answer(a: Result<usize, Refusal>, list: &mut [usize], values: &[usize])
    requires { length values.now ≤ 64 }
    ensures { list.new ≡ list_left (answer_of a) list.old values.now }
{
    match a {
        Ok(_) => put(list, values),
        Err(Refusal::Input(_)) => {}
        Err(_) => list.fill(0),
    }
}

// What a refusal leaves in a list: refusals 1 to 4 what stood there, the others zero in every place.
pub fn leave(r: Refusal, list: &mut [usize])
    ensures { (vs : List ℕ) → list.new ≡ list_left (answer_of (Err r)) list.old vs }
{
    leave_answer(Err(r), list, &[]);
}

// The places that each of the twelve lists needs, in the order in which a setup takes them.
pub fn needs_words(n: Needs) -> [usize; 12]
    ensures { result ≡ needs_words n }
{
    [
        n.ends, n.eps, n.starts, n.terms, n.terms, n.tstarts, n.terms, n.terms, n.ostarts,
        n.oterms, n.oterms, n.scaling,
    ]
}

// The level count, then the cells of each axis of each level.
pub fn cells_words(cells: [usize; 36], levels: usize) -> [usize; 37]
    ensures { result ≡ levels ∷ cells }
{
    let mut words = [0usize; 37];
    words[0] = levels;
    for q in 0..36 {
        words[q + 1] = cells[q];
    }
    words
}

#[cfg(test)]
mod tests {
    use super::*;
    use lattice::check;

    // The refusals of an input leave what stood there, the others zero in every place.
    #[test]
    fn left_by_each_refusal() -> Result<(), Refusal> {
        let kept = [7usize, 8, 9];
        let zeros = [0usize; 3];
        for (r, want) in [
            (Refusal::Input(check::Refusal::Cells(1)), kept),
            (Refusal::Input(check::Refusal::Scalar(2)), kept),
            (Refusal::Input(check::Refusal::Length(3)), kept),
            (Refusal::Input(check::Refusal::Entry(4)), kept),
            (Refusal::TooMany, zeros),
            (Refusal::Twice(1), zeros),
            (Refusal::Short(2), zeros),
            (Refusal::NotFinite(3), zeros),
        ] {
            let mut list = kept;
            leave(r, &mut list);
            if list != want {
                return Err(r);
            }
        }
        Ok(())
    }
}
