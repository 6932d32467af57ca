//! Laws: what is proved about the definitions.
ghost use Rattle.lock_blocks.specs.Lines.{ClientsCanRead, VotersCanRead};
ghost use Rattle.lock_blocks.specs.Sent.{FitClientRoom, FitVoterRoom, OfEachClient, OfEachVoter};

/// Each message that a voter sends has a line, so that its client takes it: the replies of a step and
/// of an eviction that leave a voter whose numbers fit in 64 bits, and reminders.
pub fn voters_send_lines()
    ensures { OfEachVoter ClientsCanRead }
{}

/// Each message that a client sends has a line, so that its voter takes it. This holds of each step,
/// of reminders, of what it sends to disclaim its requests, and of signs of life.
pub fn clients_send_lines()
    ensures { OfEachClient VotersCanRead }
{}

/// The rooms in the header are enough. What a voter sends in one call is at most 240 bytes long, and
/// what a client sends at most 4,864. So no call with that room fails with `NoRoom`.
pub fn rooms_are_enough()
    ensures voters { OfEachVoter FitVoterRoom }
    ensures clients { OfEachClient FitClientRoom }
{}
