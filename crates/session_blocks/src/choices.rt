//! Whom a session asks.
ghost use Rattle.std.specs.Prelude.{◌≡◌, OnErr};
ghost use Rattle.fail_over.specs.Choices.{next_quorum};
ghost use Rattle.session_blocks.specs.ChoiceSteps.{QuorumIsChosen};
ghost use Rattle.blocks.specs.Numbers.{returned};

use blocks::Refusal;

/// Writes the place in a cycle of quorums of the one that a session asks with a ticket. Fails with `BadArgument` if each quorum has
/// a voter with no room, or there is no quorum.
pub fn next_quorum(
    cycle: &[u64],
    ticket: u64,
    avoided: u64,
    full: u64,
    place: &mut u64,
) -> Result<(), Refusal>
    ensures chosen { QuorumIsChosen (next_quorum cycle.now ticket avoided full) place.new (returned result) }
    ensures refused { OnErr result (place.new ≡ place.old) }
{
    let Some(chosen) = fail_over::next_quorum(cycle, ticket, avoided, full) else {
        return Err(Refusal::BadArgument);
    };
    *place = chosen as u64;
    Ok(())
}
