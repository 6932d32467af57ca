//! Laws: what is proved about the definitions.
ghost use Rattle.std.specs.Prelude.{List};
ghost use Rattle.voter_node.specs.LeftOut.{HaveSameLeast, Host, HostTurn, LeaveOut, host_after};

/// Saves that are left out are missed by nobody: if a host restarts by forgetting, and leaves a save
/// out only where [`must_save`](crate::VoterNode::must_save) allows it, what is on its disk has the same
/// least as what its node takes for saved. So a crash leads to the same node.
pub fn saves_may_be_left_out()
    ensures { (h : Host) (turns : List HostTurn) → HaveSameLeast h.disk h.node.saved → LeaveOut h.node turns
        → HaveSameLeast (host_after h turns).disk (host_after h turns).node.saved }
{}
