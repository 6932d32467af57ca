//! What holds if voters let grants go while their clients have them, and if voters and clients come
//! back without their states. Laws alone.
//!
//! A client that dies or stands still inside shuts the lock. So a voter may let its grant go, after a
//! time that nobody has to trust: a *lease*. Then two clients may believe that they are inside. What
//! the lock protects keeps a guard ([`Fence`](fence::Fence)), and only what the guard admits counts.
//!
//! The laws are over every list of *incidents* (`specs/Incidents.antt` of `world`):
//!
//! - the steps, losses, repeats, saves, crashes and restarts of `world`;
//! - a voter takes a message that nobody sent. An *eviction* is one: the RELEASE of its current grant,
//!   in the client's name. `Voter::evict` does this;
//! - a voter that lost its state is *reborn*, with at least as many grants as it ever gave;
//! - a client that lost its state *starts anew*, with a clock that is at least every stamp that it
//!   used;
//! - a voter may give grants up to another number, such as its next block (`Voter::extend`), or skips
//!   numbers and keeps its grant (`Voter::raise`), and a client raises its clock (`Requester::raise`).
//!
//! # What is proved
//!
//! Of two clients that were inside, at any two times, the passes are apart: both have a grant of some
//! voter, and no grant is in both ([`passes_are_apart`]). A request has one pass
//! ([`requests_have_one_pass`]). So, of the passes that a guard admits, whoever shows them, when and
//! how often:
//!
//! - of any two, the later one is of the same request, or newer ([`admitted_passes_are_in_order`]);
//! - **no two interleave** ([`admitted_passes_do_not_interleave`]);
//! - the turns that the guard counts name their requests ([`turns_name_requests`]);
//! - a guard that saw only what clients held refuses a pass only if a grant in it is no longer its
//!   voter's current one ([`current_passes_are_admitted`]).
//!
//! Of the clients themselves:
//!
//! - of those whose grants are all current, at most one is inside
//!   ([`at_most_one_is_inside_by_current_grants`]);
//! - **at most one is inside, also while clients start anew**, as long as no grant is let go and a voter
//!   is reborn only when all clients are done with it ([`at_most_one_is_inside_with_rebirths`]). While
//!   nobody has its vote, they are ([`free_votes_are_over`]): so a free vote may be forgotten;
//! - after evictions, rebirths and clients anew, once all clients are idle, as they are and as saved, at
//!   most one is inside for as long as no incident befalls ([`exclusion_comes_back`]);
//! - after these, once all clients are idle as they are, **requests get on again**: the laws of `progress`
//!   that name no rounds hold ([`progress_comes_back`]), and **rounds count again**, for any choice of quorums that
//!   meet and a limit of grants for each voter: whoever asks enters ([`rounds_come_back`]);
//! - no request up to a stamp that a voter has finished is known there again, while the voter keeps its
//!   state ([`finished_requests_stay_out`]).
//!
//! Without incidents the order of passes is that of entering (`src/in_order.rt`), over every list of steps,
//! crashes and restarts:
//!
//! - clients that are inside at one moment, by their phases, are one ([`clients_inside_are_one`]);
//! - a new guard admits what clients show in the order in which they have it
//!   ([`passes_in_order_are_admitted`]);
//! - a guard refuses a pass that comes after a later one was admitted ([`late_passes_are_refused`]).
//!
//! A voter's process may be a [`VoterNode`](voter_node::VoterNode), which takes many messages before it is
//! saved, and sends after it. Its runs are incidents too ([`nodes_run_as_incidents`]), and so are those of a
//! service with a node for each voter ([`services_run_as_incidents`]), also if voters have blocks of grants.
//! So all of this holds for these; what is said of clients inside, if all messages to them were sent
//! (`src/node_runs.rt`).
//!
//! Fencing tokens are from Gray and Cheriton's leases (SOSP 1989) and Burrows' sequencers (Chubby, OSDI
//! 2006). Here a token is one number for each voter, as votes of one quorum have no common counter.
//!
//! What of this holds of voters alone, whatever their clients are, has `passes`. The voters of a world are
//! such voters ([`worlds_have_voters`]): each has a life by itself, in which it says what the world has sent
//! from it. So the laws on passes here are those of `passes`, of the clients of one world.
//!
//! Depends on `passes`, `world`, `world_state`, `progress`, `voter_node` and `fence`, and on definitions of
//! `voter`, `requester`, `message` and `numbers`.
#![tactic(auto)]

mod again;
mod in_order;
mod laws;
mod node_runs;

pub use again::{progress_comes_back, rounds_come_back};
pub use in_order::{clients_inside_are_one, late_passes_are_refused, passes_in_order_are_admitted};
pub use laws::{
    admitted_passes_are_in_order, admitted_passes_do_not_interleave,
    at_most_one_is_inside_by_current_grants, at_most_one_is_inside_with_rebirths,
    current_passes_are_admitted, exclusion_comes_back, finished_requests_stay_out,
    free_votes_are_over, passes_are_apart, requests_have_one_pass, turns_name_requests,
    worlds_have_voters,
};
pub use node_runs::{nodes_run_as_incidents, services_run_as_incidents};
