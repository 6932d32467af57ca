//! What a node has to send.
ghost use Rattle.std.specs.Prelude.{◌≡◌, ◌≤◌, [], length};
ghost use Rattle.node.specs.Outboxes.{AreOf, OutboxState};

use message::ToClient;
use std::marker::Model;
use voter::Replies;

/// The messages of one voter that have to go out: its replies to a message, or its reminders. Only a
/// node fills an outbox, and nobody takes a single message out of it. So whoever sends its messages can
/// count whether all were sent. Contracts see an `OutboxState`.
#[derive(Drop)]
pub struct Outbox {
    pub(crate) voter: u8,
    pub(crate) messages: Replies,
}

impl Model for Outbox {
    ghost use Rattle.node.specs.Outboxes.{AreOf, OutboxState};

    ghost Value = { OutboxState };

    ghost view = { λ b. record { voter = b.voter; messages = b.messages.items } };

    ghost invariant = { λ b. AreOf b.voter b.messages.items };
}

impl Outbox {
    /// Creates an empty outbox of voter 0.
    pub fn new() -> Outbox
        ensures { result ≡ record { voter = 0; messages = [] } }
    {
        Outbox {
            voter: 0,
            messages: Replies::new(),
        }
    }

    /// Drops the messages.
    pub fn clear(&mut self)
        ensures { self.new ≡ record { voter = self.old.voter; messages = [] } }
    {
        self.messages.clear();
    }

    /// Returns the messages, three at most, in the order in which the voter made them.
    pub fn messages(&self) -> &[ToClient]
        ensures value { result.now ≡ self.now.messages }
        ensures of_voter { AreOf self.now.voter self.now.messages }
        ensures few { length self.now.messages ≤ 3 }
    {
        self.messages.as_slice()
    }
}
