// The flagged rows of a part, one behind another.

ghost use Rattle.std.specs.Prelude.{◌≡◌, List, Float, ℕ, ◌+◌, ◌*◌, ◌<◌, ◌≤◌, ◌^◌, length};
ghost use Rattle.renew.specs.Each.{Takes, EachRow};

use crate::{NotFinite, flag};

// Those of n rows whose flags are set are worked out in the list by `step`, up to the first that it finds not finite. Their flags begin at `base`.
pub fn renew_each<F: Fn(&mut [f64], usize) -> bool>(
    flags: &[u64],
    base: usize,
    n: usize,
    level: usize,
    list: &mut [f64],
    step: F,
) -> Result<(), NotFinite>
    requires flags_there { (base ≤ 2 ^ 40) × (n ≤ 2 ^ 40) × (base + n ≤ 64 * length flags.now) }
    requires takes { (xs : List Float) (r : ℕ) → length xs ≡ length list.old → r < n → Takes F.Fn step xs r }
    ensures { EachRow F.Fn step flags.now base n level list.old result list.new }
{
    for r in 0..n {
        if flag::flag(flags, base + r) && !step(list, r) {
            return Err(NotFinite(level));
        }
    }
    Ok(())
}
