// Relations of an axis as words, one level down.

ghost use Rattle.std.specs.Prelude.{◌≡◌, ℕ, Bool, ◌+◌, ◌<◌, ◌≤◌, length};
ghost use Rattle.numbers.specs.Lists.{tabulate, laid, entry_at};
ghost use Rattle.operators.specs.Bits.{gathered};
ghost use Rattle.operators.specs.Compose.{composed_word};

use crate::words;

// The places that the words of a list bring from the places that p takes.
fn gathered<P: Fn(usize) -> bool>(p: P, list: &[u64]) -> u64
    requires { (k : ℕ) → k < length list.now → P.pre p k }
    ensures { (q : ℕ → Bool) → ((k : ℕ) (b : Bool) → k < length list.now → P.post p k b → b ≡ q k)
        → result ≡ gathered (length list.now) q (entry_at list.now) }
{
    let mut w = 0;
    for (k, v) in list.iter().enumerate() {
        w = words::mix(true, w, p(k), *v);
    }
    w
}

// turned f, then r, then g: the m words of a relation one level down.
pub fn compose(f: &[u64], r: &[u64], g: &[u64], m: usize, out: &mut [u64], at: usize)
    requires { (length f.now ≤ 64) × (length r.now ≡ length f.now) × (length g.now ≡ length f.now) × (m ≤ 64) × (at + m ≤ length out.old) }
    ensures { out.new ≡ laid out.old at (tabulate (composed_word (length f.now) (entry_at f.now) (entry_at r.now) (entry_at g.now)) m 0) }
{
    // An index: c is a place on the coarse axis, and the bit of a word as well as the word's own place.
    for c in 0..m {
        // The places that r brings from the places k whose word in f has c, then those that g brings from these.
        let u = gathered(move |k| words::bit(f[k], c), r);
        out[at + c] = gathered(move |k| words::bit(u, k), g);
    }
}
