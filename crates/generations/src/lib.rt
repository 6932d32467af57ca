//! Plans that replace one another in a running cluster, any number of them. Laws alone.
//!
//! A cluster exchanges its plan again and again. Each plan has a bridge to the next one
//! ([`Bridge`](quorum_set::Bridge)), so quorums of both may be in use at once. Plans that are further apart need not
//! have a common voter. These laws say what still holds then, from voters alone.
//!
//! # At most one is inside
//!
//! A voter keeps the request that has its vote, if one has it, and the oldest and the newest plan that it takes requests of
//! (`specs/Voters.antt`). Votes are given, and end; voters take the next plan, retire their oldest one, save, crash and
//! restart, in any order (`specs/Exchanges.antt`). **At most one request is inside at any time**
//! ([`at_most_one_is_inside_over_plans`]), if a plan begins only once the one before the last one is retired: each quorum
//! of it has a voter that retired it. Exchanges keep that order by voters alone ([`exchanges_are_in_order`]): a voter takes
//! plan n + 2 only once each voter of a quorum of plan n + 1 retired plan n. Nobody is two plans behind then: while a
//! request is inside, no voter has given its vote by a plan after the next one ([`nobody_is_two_plans_behind`]).
//!
//! Plans of coteries with bridges are such plans ([`bridges_make_successions`]), and three plans can replace one another so,
//! of which the first and the third one have no common voter ([`three_plans_replace_one_another`]).
//!
//! A request is inside by these laws while its voters keep their votes for it. A client whose votes were let go may believe
//! that it is inside: for it there are leases, guards and turns.
//!
//! # Passes and turns
//!
//! Two passes of one plan, or of a plan and the next one, are of one request, or have a common voter and no common grant
//! ([`passes_of_near_plans_are_apart`]). Passes of plans that are further apart may have no common voter, so a guard that
//! compares grants does not tell which one is newer. Turns do: **they grow over all plans** ([`turns_grow_over_plans`]), and a
//! store that compares them takes no older request after a newer one ([`stores_take_newer_requests_over_plans`]). For that each
//! plan has to be *settled* before the one after the next one begins (`specs/Turns.antt`): each voter of a quorum of the next
//! plan learned how far a quorum of this plan gave and skipped numbers ([`quorums_that_learn_settle`]), and gives greater ones
//! from then on. This can be had, too ([`two_passes_have_turns`]).
//!
//! In these laws is not which process a voter is, what it does to be settled, nor that voters with a plan are at the places
//! that the plan says. No plan is taken back.
//!
//! Depends on `passes`, and on definitions of `quorum_set`, `world` and `numbers`.
#![tactic(auto)]

mod laws;

pub use laws::{
    at_most_one_is_inside_over_plans, bridges_make_successions, exchanges_are_in_order,
    nobody_is_two_plans_behind, passes_of_near_plans_are_apart, quorums_that_learn_settle,
    stores_take_newer_requests_over_plans, three_plans_replace_one_another, turns_grow_over_plans,
    two_passes_have_turns,
};
