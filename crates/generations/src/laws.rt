//! Laws: what holds while plans replace one another.
ghost use Rattle.std.specs.Prelude.{◌≡◌, ◌≤◌, ◌⊎◌, ◌+◌, ◌++◌, ℕ, List, Some, true};
ghost use Rattle.std.specs.List.{AllByRecursion};
ghost use Rattle.numbers.specs.Sets.{has};
ghost use Rattle.quorum_set.specs.Coteries.{QuorumSystem};
ghost use Rattle.world.specs.Visible.{IsAmong};
ghost use Rattle.passes.specs.Grants.{AreApart, AreOfOne, Gave, HaveLimits, IsPass, Pass, Voters};
ghost use Rattle.passes.specs.Guarded.{Entry};
ghost use Rattle.passes.specs.Turns.{AreTaken};
ghost use Rattle.generations.specs.Example.{by_first, by_second, by_third, first_enters, second_enters, third_enters, three_plans};
ghost use Rattle.generations.specs.Exchanges.{AreExchanges, AreInOrder, Event, IsFirst, IsInside, World, all_happen, first_world};
ghost use Rattle.generations.specs.Plans.{AreBridged, HaveCommon, IsSuccession, Plans, quorums_of};
ghost use Rattle.generations.specs.TurnExample.{by_number, ceilings, first_entry, floors, six_voters, third_entry};
ghost use Rattle.generations.specs.Turns.{AreInTurn, AreLaterOrOne, AreNear, AreSettled, AsksBy, HasLearned, HasTurn, IsSettled, KeepMarks, Marks};
ghost use Rattle.generations.specs.Voters.{Request};

use passes::{passes_are_apart, turns_grow};

/// At most one request is inside at any time, over any succession of plans: while one has the votes of a quorum of its plan,
/// no other one has those of a quorum of its own plan, whichever that is.
///
/// Votes are given, and end, at any time, and voters crash and restart from what they saved. A voter tells nobody that he has
/// its vote before it saved that. It retires a plan only while no request of this plan has the vote, and then gives none to such
/// a request. The order rule: a voter gives its vote to a request of plan n + 2, or of a later one, only once each quorum of plan n
/// has a voter that retired it.
pub fn at_most_one_is_inside_over_plans()
    ensures { (count : ℕ) (plans : Plans) (start : World) (events : List Event) (first second : Request)
        → IsSuccession count plans → IsFirst start → AreInOrder plans start events
        → IsInside plans (all_happen start events) first → IsInside plans (all_happen start events) second
        → first ≡ second }
{}

/// Nobody is two plans behind: while a request of plan n is inside, no voter has given its vote by plan n + 2, or by a later
/// one.
pub fn nobody_is_two_plans_behind()
    ensures { (plans : Plans) (start : World) (events : List Event) (first second : Request) (v : ℕ)
        → IsFirst start → AreInOrder plans start events → IsInside plans (all_happen start events) first
        → (all_happen start events v).live.vote ≡ Some second → first.plan + 2 ≤ second.plan → ⊥ }
{}

/// Exchanges keep the order rule by voters alone, if each voter begins with plan 0, and takes plan n + 2 only once each voter of
/// a quorum of plan n + 1 retired plan n.
pub fn exchanges_are_in_order()
    ensures { (count : ℕ) (plans : Plans) (events : List Event)
        → IsSuccession count plans → AreExchanges plans first_world events → AreInOrder plans first_world events }
{}

/// Coteries make a succession of plans if each has a bridge to the next one.
pub fn bridges_make_successions()
    ensures { (coteries : ℕ → QuorumSystem) → AreBridged coteries → IsSuccession (coteries 0).voters (quorums_of coteries) }
{}

/// What the laws on exclusion ask for can be had: of three plans the first and the third one have no common voter, and a request
/// of each is inside, one after the other.
pub fn three_plans_replace_one_another()
    ensures { IsSuccession 6 three_plans × (HaveCommon 6 (three_plans 0) (three_plans 2) → ⊥)
        × AreExchanges three_plans first_world (first_enters ++ (second_enters ++ third_enters))
        × IsInside three_plans (all_happen first_world first_enters) by_first
        × IsInside three_plans (all_happen first_world (first_enters ++ second_enters)) by_second
        × IsInside three_plans (all_happen first_world (first_enters ++ (second_enters ++ third_enters))) by_third }
{}

/// Any two passes of one plan, or of a plan and the next one, are of one request, or both have a grant of some voter, and none
/// of the same number.
pub fn passes_of_near_plans_are_apart()
    ensures { (count : ℕ) (plans : Plans) (n m : ℕ) (voters : Voters) (first second : Pass)
        → IsSuccession count plans → HaveLimits voters → AreNear n m
        → IsPass (plans n) (Gave voters) first → IsPass (plans m) (Gave voters) second
        → AreOfOne first second ⊎ AreApart first.grants second.grants }
{
    passes_are_apart();
}

/// Turns grow over all plans: of two passes with turns the newer one has the greater turn, or both are of one request. It is
/// newer at every voter that has a grant in both, or is of a plan after the next one.
///
/// Each voter has a floor and a ceiling for each plan. To requests of plan n + 1 it gives only numbers above its floor of plan n.
/// For a request of plan n that has its vote it skips numbers only up to its ceiling of plan n, which is no smaller than its
/// floor. And before plan n + 2 begins, each voter of a quorum of plan n + 1 learned the ceiling of a voter of each quorum of
/// plan n, and has a floor of plan n + 1 that is no smaller.
pub fn turns_grow_over_plans()
    ensures { (count : ℕ) (plans : Plans) (by : AsksBy) (voters : Voters) (floor ceiling : Marks) (last : ℕ) (first second : Entry)
        → IsSuccession count plans → HaveLimits voters → KeepMarks by voters floor ceiling
        → AreSettled plans floor ceiling last
        → HasTurn plans by voters last first → HasTurn plans by voters last second
        → AreInTurn by first.pass second.pass first.turn second.turn }
{
    turns_grow();
}

/// A plan is settled, if each voter of a quorum of the next one learned the ceilings of a quorum of this plan.
pub fn quorums_that_learn_settle()
    ensures { (count : ℕ) (plans : Plans) (floor ceiling : Marks) (n : ℕ) (quorum : List ℕ)
        → IsSuccession count plans → IsAmong (plans (n + 1)) quorum
        → ((u : ℕ) → has quorum u ≡ true → HasLearned plans floor ceiling n u) → IsSettled plans floor ceiling n }
{}

/// A store that takes what shows no smaller turn than it took before takes no older request after a newer one, over all plans.
pub fn stores_take_newer_requests_over_plans()
    ensures { (count : ℕ) (plans : Plans) (by : AsksBy) (voters : Voters) (floor ceiling : Marks) (last : ℕ) (entries : List Entry)
        → IsSuccession count plans → HaveLimits voters → KeepMarks by voters floor ceiling
        → AreSettled plans floor ceiling last
        → AllByRecursion (HasTurn plans by voters last) entries → AreTaken entries → AreLaterOrOne by entries }
{
    turns_grow_over_plans();
}

/// What the laws on turns ask for can be had: a pass of the first one of three plans has turn 1, and one of the third plan,
/// which has no common voter with the first, has turn 2.
pub fn two_passes_have_turns()
    ensures { HaveLimits six_voters × KeepMarks by_number six_voters floors ceilings × AreSettled three_plans floors ceilings 2
        × HasTurn three_plans by_number six_voters 2 first_entry × HasTurn three_plans by_number six_voters 2 third_entry }
{}
