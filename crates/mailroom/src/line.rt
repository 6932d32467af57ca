//! The locks under which voters' replies are posted.
ghost use Rattle.std.specs.Prelude.{◌≡◌};

use std::marker::Model;
use std::sync::{Mutex, MutexGuard, Wait};

/// A lock that belongs to one voter. Contracts see the voter's number.
#[derive(Drop)]
pub(crate) struct Line {
    voter: u8,
    lock: Mutex<()>,
}

impl Model for Line {
    ghost use Rattle.std.specs.Prelude.{ℕ};

    ghost Value = { ℕ };

    ghost view = { λ l. l.voter };
}

/// A voter's line while it is held. It is free again when this is dropped.
#[derive(Drop)]
pub(crate) struct Held<'a> {
    pub(crate) voter: u8,
    _guard: MutexGuard<'a, ()>,
}

impl Line {
    /// Creates the line of a voter.
    pub(crate) fn new(voter: u8) -> Line
        ensures { result ≡ voter }
    {
        Line {
            voter,
            lock: Mutex::new(()),
        }
    }

    /// Waits until nobody holds the line, and holds it.
    pub(crate) fn hold(&self, rt: &impl Wait) -> Held<'_>
        ensures { result.voter ≡ self.now }
    {
        Held {
            voter: self.voter,
            _guard: self.lock.lock(rt),
        }
    }
}
