//! Worlds with messages, crashes and incidents, in which plans replace one another. Laws alone.
//!
//! The laws of `generations` on who is inside have no messages: a request is inside while all voters of a quorum
//! keep their votes for it. Those of `leases` have messages, crashes and lost states, and one list of quorums, of
//! which any two meet. Here are worlds of both kinds in one: clients and voters are the proved automata, and plans
//! follow one another, of which only neighbours have common voters.
//!
//! # Worlds over plans
//!
//! `specs/Worlds.antt` has the definitions. What may happen is a list of events: an incident of `world` befalls, or a
//! voter retires its oldest plan. It is asked of them:
//!
//! - incidents leave votes to those that may count on them, as in
//!   [`at_most_one_is_inside_with_rebirths`](leases::at_most_one_is_inside_with_rebirths): no grant is let go while it
//!   may count, and a voter is reborn once all clients are done with it, or while nobody has its vote.
//!   Messages may be lost, late and repeated; clients and voters save, lose what they did not need to save, crash and
//!   restart; a client may start anew at any time;
//! - a request, while it runs, asks a quorum of its plan;
//! - a voter retires a plan only while no request of it, or of a plan before it, has its vote, as the voter is and as
//!   it is saved. Afterwards it gives its vote to no such request, not even one that waits, and not after a rebirth
//!   either: which plans are retired is not part of what a voter may lose;
//! - a voter gives its vote to a request of plan n + 2, or of a later one, only once each quorum of plan n has a voter
//!   that retired plan n. That is so once each voter of a quorum of plan n + 1 did
//!   ([`plans_that_a_quorum_left_are_retired`]).
//!
//! # What is proved
//!
//! **At most one client is inside at a time** ([`at_most_one_client_is_inside_over_plans`]), whichever plans clients
//! ask by. While a client is inside by plan n, nobody has a vote by plan n + 2, or by a later one
//! ([`no_voter_is_two_plans_ahead`]). All this can be had: two clients are inside, one after the other, by plans that
//! have no common voter ([`clients_of_far_plans_follow`]).
//!
//! The voters are those of `voter`, which know of no plans. The process around a voter keeps these rules: it retires a
//! plan only once no request of it waits for the vote, and from then on hands no REQUEST of it to the voter. In these
//! laws is not how a process knows the plan of a request, nor that a plan is retired. No plan is taken back. A voter
//! that lets a grant go while its client may count on it is not in them: for that there are leases, guards and turns.
//!
//! Depends on `generations`, `leases` and `world`, and on definitions of `quorum_set`, `requester`, `voter` and
//! `world_state`.
#![tactic(auto)]

mod laws;

pub use laws::{
    at_most_one_client_is_inside_over_plans, clients_of_far_plans_follow,
    no_voter_is_two_plans_ahead, plans_that_a_quorum_left_are_retired,
};
