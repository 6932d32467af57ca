//! One lock of one session, whole: its client, its votes, and the calls for it.
//!
//! A [`LockClient`] joins three automata that are proved apart: the client of the voting lock (`requester`), what the session keeps of
//! each voter's vote (`vote_leases`), and the calls of the process for the lock (`callers`). Its host passes messages, calls, the
//! leases of the voters, and times. It says nothing of votes, and nothing of phases:
//!
//! - [`LockClient::ask`] asks at the votes with the stamp of the request, and [`LockClient::leave`] and [`LockClient::give_up`] end it
//!   there. They fail while a call has the lock under the request.
//! - [`LockClient::take`] has the client take a message. A LOCKED is taken by its vote, and renews it if the client is inside. For
//!   each RELINQUISH that leaves the vote is given back, also if one FAIL gives several back.
//! - [`LockClient::until`] is the first end of the votes of the quorum, if each goes on for the request that runs, and counts.
//!   [`LockClient::hand`] hands the lock to a call only before that, and [`LockClient::tells`] says it to the call that has the lock.
//! - [`LockClient::next`] is what the calls say to do next, by these votes and this phase.
//!
//! The session has one lease of each voter, for all its locks. Before it hears of a later incarnation, its host calls
//! [`LockClient::keep`] for each lock. Whether a vote is doubtful that did not begin to count depends on `since`, when its voter's
//! incarnation became known: no lease says that, as one that acknowledged nothing has no time. No law needs it, as a doubtful vote
//! only has the session leave.
//!
//! While a call has the lock, the client is inside by the request under which it has it. Parts of which this is not so are no lock
//! ([`LockClient::of`]). The steps are those of `specs/Locks.antt`. No call takes memory.
//!
//! # What is proved
//!
//! - **What a session does by these calls is as its calls say** ([`what_the_node_does_is_as_told`]): it ends no request under which a
//!   call has the lock, gives no vote back while one has it, and tells a time only if all votes of a quorum count up to it. This is the
//!   premise of `callers::at_most_one_call_works`, which leaves it to the host.
//! - So of all calls of all processes that use these locks at most one works ([`at_most_one_works`]). What is left to a host is in
//!   `IsMet` and `IsNoStepOf` of `specs/Worlds.antt`: it asks a quorum, and passes the session's leases, the time of its clock, and
//!   messages that voters sent to it; and it ends requests, gives votes back, and takes LOCKEDs by these calls alone. What is asked of
//!   voters is in `WasSaid` there, and in `AreTold` of `vote_leases`. The laws are about locks from when they are new.
//! - The premises can be met, by a call of one session, and after it by one of another ([`a_call_works`], [`another_call_works`]).
//! - What is next can be done: no call refuses it, but if no stamp is left ([`what_is_next_can_be_done`]).
//!
//! Depends on `requester`, `vote_leases`, `callers`, `working`, `lease_clock`, `message`, `quorum_set` and `numbers`.
#![tactic(auto)]

mod fault;
mod laws;
mod lock;
mod votes;

pub use fault::LockFault;
pub use laws::{
    a_call_works, another_call_works, at_most_one_works, what_is_next_can_be_done,
    what_the_node_does_is_as_told,
};
pub use lock::LockClient;
