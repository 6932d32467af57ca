//! Laws: what holds after any list of what may happen in the quiet time.
ghost use Rattle.std.specs.Prelude.{◌≡◌, ◌<◌, ◌⊎◌, ℕ, List, Some};
ghost use Rattle.numbers.specs.Bounds.{max_clients};
ghost use Rattle.quiet_time.specs.Runs.{AllLeave, Begins, CanEnd, Event, IsSaid, Lock, all_happen, ended};
ghost use Rattle.quiet_time.specs.Lives.{life_of};
ghost use Rattle.quiet_time.specs.Quiet.{since_start};
ghost use Rattle.voter_node.specs.Lives.{node_after};
ghost use Rattle.voter_node.specs.Nodes.{node_of};
ghost use Rattle.voter.specs.Saved.{least_voter};
ghost use Rattle.voter.specs.Steps.{IsSound};
ghost use Rattle.voter.specs.declared.state.Grant.{Grant};
ghost use Rattle.voter.specs.declared.state.VoterState.{VoterState};

use voter::{voters_meet_the_contract, voters_stay_sound};

/// Nobody gets a vote in the quiet time who did not say in it that he is inside: each grant is the one from before the
/// start, or that of a request by which its client said so.
pub fn votes_go_to_those_inside()
    ensures { (l : Lock) (events : List Event) (g : Grant) → Begins l → (all_happen l events).vote.held ≡ Some g
        → (l.vote.held ≡ Some g) ⊎ IsSaid events g.client g.stamp }
{
    voters_meet_the_contract();
}

/// As the quiet time ends nobody has a vote who did not say in it that he is inside. The premise is that the old grant
/// can be let go: the vote does not go on, or a grant is left.
pub fn old_votes_end()
    ensures { (l : Lock) (events : List Event) (g : Grant) → Begins l → CanEnd (all_happen l events)
        → (ended (all_happen l events)).vote.held ≡ Some g → IsSaid events g.client g.stamp }
{
    voters_meet_the_contract();
    voters_stay_sound();
}

/// Who has a vote, and says in the quiet time that he is inside by that request, has it as the time ends: unless his own
/// message ends the grant, somebody lets it go, or his session is over.
pub fn votes_of_those_inside_stay()
    ensures { (l : Lock) (events : List Event) (g : Grant) → Begins l → l.vote.held ≡ Some g → 0 < g.stamp → g.client < max_clients
        → IsSaid events g.client g.stamp → AllLeave events g → (ended (all_happen l events)).vote.held ≡ Some g }
{
    voters_meet_the_contract();
    voters_stay_sound();
}

/// A voter that forgets all but the least begins so.
pub fn voters_that_forget_begin()
    ensures { (v : VoterState) → IsSound v
        → Begins (record { vote = least_voter v; since = since_start v.granted }) }
{}

/// In its quiet time the vote of a lock changes as that of a node of `voter_node` does, which has a life of its own and is
/// saved after each step. What leaves is not in this law: that its replies are those of the node is so by definition.
pub fn quiet_votes_live_as_nodes()
    ensures { (l : Lock) (events : List Event)
        → node_after (node_of l.vote) (life_of l events) ≡ node_of (all_happen l events).vote }
{}
