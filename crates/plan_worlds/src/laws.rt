//! Laws: who is inside, in worlds with messages, while plans replace one another.
ghost use Rattle.std.specs.Prelude.{◌≡◌, ◌≤◌, ◌+◌, ◌++◌, ℕ, List};
ghost use Rattle.voter.specs.declared.state.Grant.{Grant};
ghost use Rattle.world_state.specs.Steps.{Dealing};
ghost use Rattle.world.specs.Restarts.{IsIn, stamp_of};
ghost use Rattle.world.specs.Runs.{AreLimits};
ghost use Rattle.world.specs.Visible.{AreQuorums, DealsFrom, IsExclusive};
ghost use Rattle.generations.specs.Example.{three_plans};
ghost use Rattle.generations.specs.Plans.{HaveCommon, IsSuccession, Plans};
ghost use Rattle.generations.specs.Turns.{AsksBy};
ghost use Rattle.plan_worlds.specs.Example.{both_quorums, by_even, first_enters, first_is_in, first_leaves, new_world, one_each, third_enters, third_is_in};
ghost use Rattle.plan_worlds.specs.Worlds.{AreInOrder, Event, IsVoteOf, IsLeft, IsRetired, World, all_happen, first_world};

use world::parts_keep_their_rules;

/// At most one client is inside at a time, while plans replace one another, and only neighbours have common voters.
///
/// This is over every list of incidents that leave votes to those that may count on them: steps, messages that are lost, late or
/// repeated, saves, crashes and restarts, clients that start anew, and voters that are reborn once all clients are done with them.
/// The quorum of a request is one of its plan. Besides, voters retire plans:
///
/// - a voter retires a plan only while no request of it, or of a plan before it, has its vote, as the voter is and as it is saved;
/// - afterwards it gives its vote to no such request, also once it is reborn;
/// - a voter gives its vote to a request of plan n + 2, or of a later one, only once each quorum of plan n has a voter that retired it.
pub fn at_most_one_client_is_inside_over_plans()
    ensures { (voters clients limit : ℕ) (plans : Plans) (by : AsksBy) (quorums : List (List ℕ)) (deal : Dealing) (oldest : ℕ → ℕ)
        (events : List Event)
        → AreLimits voters clients limit → IsSuccession voters plans → AreQuorums voters quorums → DealsFrom quorums deal
        → AreInOrder plans by deal (first_world voters clients limit oldest) events
        → IsExclusive (all_happen deal (first_world voters clients limit oldest) events).saved.live.visible }
{
    parts_keep_their_rules();
}

/// No voter is two plans ahead of a client that is inside: while one is inside by plan n, no request of plan n + 2, or of a later one,
/// has any vote, as the voter is or as it is saved.
pub fn no_voter_is_two_plans_ahead()
    ensures { (voters clients limit : ℕ) (plans : Plans) (by : AsksBy) (quorums : List (List ℕ)) (deal : Dealing) (oldest : ℕ → ℕ)
        (events : List Event) (c v : ℕ) (grant : Grant)
        → AreLimits voters clients limit → IsSuccession voters plans → AreQuorums voters quorums → DealsFrom quorums deal
        → AreInOrder plans by deal (first_world voters clients limit oldest) events
        → IsIn (all_happen deal (first_world voters clients limit oldest) events).saved c
        → IsVoteOf (all_happen deal (first_world voters clients limit oldest) events).saved v grant
        → by c (stamp_of (all_happen deal (first_world voters clients limit oldest) events).saved c) + 2 ≤ by grant.client grant.stamp
        → ⊥ }
{
    parts_keep_their_rules();
}

/// A plan is retired once each voter of a quorum of the next plan retired it: each quorum of the plan has one of these voters.
pub fn plans_that_a_quorum_left_are_retired()
    ensures { (voters : ℕ) (plans : Plans) (oldest : ℕ → ℕ) (plan : ℕ)
        → IsSuccession voters plans → IsLeft plans oldest plan → IsRetired plans oldest plan }
{}

/// What the laws ask for can be had: of three plans the first and the third one have no common voter, and a client is inside by the
/// first plan, and later another one by the third. In between a quorum of the second plan retires the first one. One voter never hears
/// that the first client left.
pub fn clients_of_far_plans_follow()
    ensures { IsSuccession 6 three_plans × (HaveCommon 6 (three_plans 0) (three_plans 2) → ⊥)
        × AreLimits 6 2 10 × AreQuorums 6 both_quorums × DealsFrom both_quorums one_each
        × AreInOrder three_plans by_even one_each new_world (first_enters ++ (first_leaves ++ third_enters))
        × IsIn first_is_in.saved 0 × IsIn third_is_in.saved 1 }
{}
