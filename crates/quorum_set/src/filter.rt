//! Sets made by a test.
ghost use Rattle.std.specs.Prelude.{◌≡◌, ◌<◌, ℕ, Bool};
ghost use Rattle.numbers.specs.Bounds.{max_voters};
ghost use Rattle.numbers.specs.Sets.{set_where};

use crate::qset::QSet;
use numbers::MAX_VOTERS;

/// Returns the set of the numbers below 64 that pass the test.
pub fn set_where<F: Fn(u8) -> bool>(passes: F) -> QSet
    requires { F.IsAlwaysCallable passes }
    ensures { (p : ℕ → Bool) → ((i : ℕ) (b : Bool) → i < max_voters → F.post passes i b → b ≡ p i) → result ≡ set_where p }
{
    let mut set = QSet::empty();
    for i in 0..MAX_VOTERS as u8 {
        if passes(i) {
            set.insert(i);
        }
    }
    set
}
