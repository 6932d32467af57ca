//! Steps of a world, and what they did.
ghost use Rattle.std.specs.Prelude.{◌≡◌};
ghost use Rattle.world_state.specs.Steps.{is_silent};

use requester::Seen;

/// A step of a world.
#[derive(Clone, Copy, Debug, PartialEq, Eq)]
pub enum Step {
    /// This client draws the next ticket of the plan in use, and asks the quorum that the ticket
    /// stands for.
    Ask(u8),
    /// The message with this number arrives. It may have arrived before.
    Deliver(u64),
    /// This client leaves.
    Leave(u8),
    /// This client gives up its request.
    GiveUp(u8),
    /// This client sends its reminder: it repeats what it asked for.
    RemindClient(u8),
    /// This voter sends its reminder: it repeats what it sent to the holder of its vote.
    RemindVoter(u8),
    /// The plan is exchanged. Later asks draw tickets of the second plan, from 0 on.
    Exchange,
}

/// A client that entered or left.
#[derive(Clone, Copy, Debug, PartialEq, Eq)]
pub struct Event {
    /// The client's number, from 0.
    pub client: u8,
    /// Whether the client entered; otherwise it left.
    pub entered: bool,
}

/// What a step did.
#[derive(Clone, Copy, Debug, PartialEq, Eq)]
pub struct Stepped {
    /// How many messages the step sent. They are the last ones of the world.
    pub sent: usize,
    /// Whether a client entered or left. If so, it is the client of the world's last event.
    pub seen: Seen,
}

impl Stepped {
    /// Returns whether the step was silent: it sent nothing, and let nobody enter or leave.
    pub fn is_silent(&self) -> bool
        ensures { result ≡ is_silent self.now.sent self.now.seen }
    {
        match self.seen {
            Seen::Nothing => self.sent == 0,
            Seen::Entered => false,
            Seen::Left => false,
        }
    }
}
