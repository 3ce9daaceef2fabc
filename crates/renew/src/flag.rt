// The flags of the rows of a store: one bit for each row, 64 to a word.

ghost use Rattle.std.specs.Prelude.{◌≡◌, ◌*◌, ◌<◌, length};
ghost use Rattle.store.specs.Parts.{flag_at};

use operators::words;

// Is flag q set?
pub fn flag(flags: &[u64], q: usize) -> bool
    requires { q < 64 * length flags.now }
    ensures { result ≡ flag_at flags.now q }
{
    words::bit(flags[q / 64], q % 64)
}
