//! The turns that are left to a member.
ghost use Rattle.std.specs.Prelude.{◌≡◌, ◌+◌, true, false};

use std::marker::Model;

/// How many turns are left to a member. Only [`Turns::take`] lowers the number. Contracts see the
/// number.
#[derive(Drop)]
pub(crate) struct Turns {
    left: u64,
}

impl Model for Turns {
    ghost use Rattle.std.specs.Prelude.{ℕ};

    ghost Value = { ℕ };

    ghost view = { λ t. t.left };
}

impl Turns {
    /// Returns this number of turns.
    pub(crate) fn new(count: u64) -> Turns
        ensures { result ≡ count }
    {
        Turns { left: count }
    }

    /// Takes a turn. Returns `false` if and only if none was left, and then changes nothing.
    pub(crate) fn take(&mut self) -> bool
        ensures taken { result ≡ true → self.old ≡ self.new + 1 }
        ensures spent { result ≡ false → (self.old ≡ 0) × (self.new ≡ 0) }
    {
        match self.left.checked_sub(1) {
            Some(left) => {
                self.left = left;
                true
            }
            None => false,
        }
    }
}
