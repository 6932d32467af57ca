//! How many messages are lost.
ghost use Rattle.std.specs.Prelude.{◌≡◌};
ghost use Rattle.mailroom.specs.Losses.{and_losses};

/// How many messages of a step are lost.
#[derive(Clone, Copy)]
pub struct Losses {
    /// How many are lost. This stays at its greatest value, 2^64 - 1.
    pub lost: u64,
    /// How many of these found no memory.
    pub starved: u64,
}

impl Losses {
    /// Returns the losses of a step that loses nothing.
    pub fn none() -> Losses
        ensures { result ≡ record { lost = 0; starved = 0 } }
    {
        Losses {
            lost: 0,
            starved: 0,
        }
    }

    /// Returns the loss of one message that found memory.
    pub fn one() -> Losses
        ensures { result ≡ record { lost = 1; starved = 0 } }
    {
        Losses {
            lost: 1,
            starved: 0,
        }
    }

    /// Returns the loss of one message that found no memory.
    pub fn one_starved() -> Losses
        ensures { result ≡ record { lost = 1; starved = 1 } }
    {
        Losses {
            lost: 1,
            starved: 1,
        }
    }

    /// Returns the losses of both steps.
    pub fn and(self, later: Losses) -> Losses
        ensures { result ≡ and_losses self later }
    {
        Losses {
            lost: self.lost.saturating_add(later.lost),
            starved: self.starved.saturating_add(later.starved),
        }
    }
}

/// What became of the messages in an outbox.
#[derive(Clone, Copy)]
pub(crate) struct Posted {
    /// How many got into a mailbox.
    pub(crate) posted: u64,
    /// How many messages are lost.
    pub(crate) losses: Losses,
}

impl Posted {
    /// Returns that nothing got into a mailbox.
    pub(crate) fn nothing(losses: Losses) -> Posted
        ensures { result ≡ record { posted = 0; losses = losses } }
    {
        Posted { posted: 0, losses }
    }
}
