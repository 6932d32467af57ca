//! Laws: what befalls a lock whose voters run as nodes.
ghost use Rattle.std.specs.Prelude.{◌≡◌, ℕ, List};
ghost use Rattle.std.specs.List.{AllByRecursion};
ghost use Rattle.leases.specs.Comeback.{AreLawful};
ghost use Rattle.world.specs.Incidents.{Incident, HasLimit, IsReborn, IsSkipped, all_befall};
ghost use Rattle.leases.specs.NodeRuns.{EvictsNone, HasVoter, MayRun, Places, WasSent, given_out, incidents_of, saved_after, with_voter};
ghost use Rattle.leases.specs.Orderly.{AreOrderly};
ghost use Rattle.leases.specs.Services.{AlongEpisodes, Befalls, Episode, IsLawfulEpisode, IsOrderlyEpisode, IsAllSaved, LeavesVoters, MayFollow, all_serve, incidents_served, serve};
ghost use Rattle.voter.specs.declared.state.VoterState.{VoterState};
ghost use Rattle.voter_node.specs.Nodes.{Event};
ghost use Rattle.world.specs.Restarts.{Saved, begin};
ghost use Rattle.world_state.specs.Steps.{Dealing};

use world::parts_keep_their_rules;

/// The runs of a node are incidents. Take a voter of any world, live and saved, and a node of it.
/// Whatever comes to the node, with any saves and crashes, its incidents lead to the same world with two
/// changes: the voter is there, live and saved, as the node has it saved, and the messages that the node
/// gave out were sent.
///
/// The voter's limit of grants may be a block, far below the stamps that clients use. Only a REQUEST that
/// nobody sent has to have a stamp up to its client's limit.
///
/// The incidents of a step befall when the step is saved, or never if the node crashes before. So what
/// befalls others meanwhile is before or after them, and the laws on incidents hold for services that are
/// made of nodes: those on passes in any case, those on clients inside if all messages were sent.
pub fn nodes_run_as_incidents()
    ensures led { (deal : Dealing) (s : Saved) (places : Places) (y : VoterState) (events : List Event)
        → MayRun s places y events
        → all_befall deal (incidents_of places y events) s ≡ with_voter s y.id (saved_after y events) (given_out y events) }
    // So it is with what comes next.
    ensures goes_on { (deal : Dealing) (s : Saved) (places : Places) (y : VoterState) (events : List Event)
        → MayRun s places y events
        → HasVoter (all_befall deal (incidents_of places y events) s) y.id (saved_after y events) }
    // If all messages were sent, nothing is made up but evictions,
    ensures lawful { (deal : Dealing) (s : Saved) (places : Places) (y : VoterState) (events : List Event)
        → MayRun s places y events → AllByRecursion (WasSent places) events
        → AreLawful deal s (incidents_of places y events) }
    // and nothing at all if there are none.
    ensures orderly { (deal : Dealing) (s : Saved) (places : Places) (y : VoterState) (events : List Event)
        → AllByRecursion (WasSent places) events → AllByRecursion EvictsNone events
        → AreOrderly deal s (incidents_of places y events) }
{
    parts_keep_their_rules();
}

/// A service of nodes runs as incidents: the runs of its voters' nodes, and what befalls clients between
/// them, in any order, lead to what these incidents lead to. So what the laws say of any list of incidents
/// holds for services of nodes.
///
/// Voters may have blocks of grants. A voter's next block is an episode: another limit, and its save.
pub fn services_run_as_incidents()
    // A new service is one,
    ensures first { (voters clients limit : ℕ) → IsAllSaved (begin voters clients limit) }
    // and it stays one by what leaves the voters as they are, and if a voter gets another limit, skips
    // numbers, or is reborn.
    ensures stays { (deal : Dealing) (s : Saved) (i : Incident) → IsAllSaved s → LeavesVoters deal s i
        → IsAllSaved (serve deal s (Befalls i)) }
    ensures limited { (deal : Dealing) (s : Saved) (v limit : ℕ) → IsAllSaved s → IsAllSaved (serve deal s (Befalls (HasLimit v limit))) }
    ensures skipped { (deal : Dealing) (s : Saved) (v above : ℕ) → IsAllSaved s → IsAllSaved (serve deal s (Befalls (IsSkipped v above))) }
    ensures reborn { (deal : Dealing) (s : Saved) (v above : ℕ) → IsAllSaved s → IsAllSaved (serve deal s (Befalls (IsReborn v above))) }
    ensures led { (deal : Dealing) (s : Saved) (episodes : List Episode) → IsAllSaved s → AlongEpisodes deal (MayFollow deal) s episodes
        → all_befall deal (incidents_served deal s episodes) s ≡ all_serve deal s episodes }
    ensures lawful { (deal : Dealing) (s : Saved) (episodes : List Episode) → IsAllSaved s → AlongEpisodes deal (MayFollow deal) s episodes
        → AlongEpisodes deal IsLawfulEpisode s episodes → AreLawful deal s (incidents_served deal s episodes) }
    ensures orderly { (deal : Dealing) (s : Saved) (episodes : List Episode) → IsAllSaved s → AlongEpisodes deal (MayFollow deal) s episodes
        → AlongEpisodes deal IsOrderlyEpisode s episodes → AreOrderly deal s (incidents_served deal s episodes) }
{
    parts_keep_their_rules();
}
