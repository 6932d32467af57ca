//! At most one works, by clocks alone: exclusion by leases, with no guard. Laws alone, of one lock.
//!
//! Voters give their votes to requests of sessions, and let a grant go once its session is silent for a TTL by the
//! voter's lease clock (`lease_clock`). A session *works* under a request while it has the vote of each voter of a
//! quorum: it took a LOCKED, and an acknowledgement of a heartbeat that left less than `lease` ago, of equal *lapses*
//! (`specs/Sessions.antt`). It may go on for `stop` after that.
//!
//! A voter's lapses of a session are how often it let a grant of it go, or lost its state. Each LOCKED and each
//! acknowledgement says them. So no late word revives a vote that the voter let go (`specs/Voters.antt`).
//!
//! Messages are late, lost, repeated and out of order. Sessions ask, work, give back, fall silent, and come back. The
//! number of a silent session is given on to another one. Voters crash, and restart from what they saved. Or a voter may
//! have lost its state: then it is quiet for a TTL, and gives its vote only to a session that says that it works with it
//! (`specs/Events.antt`).
//!
//! # What is proved
//!
//! - Who works has the vote of each voter of its quorum ([`who_works_has_its_votes`]).
//! - At most one request of one session works, if any two quorums share a voter ([`at_most_one_works`]).
//! - What these ask for can be had ([`one_works_after_another`], [`one_works_on`]).
//!
//! The laws ask that clocks go at stated rates. Outside of them are a clock that stops, a session that does not stop in
//! `stop`, and a grant that an operator ends though its session is not silent. They are about definitions: that voters and
//! sessions of a service do these steps is not proved here.
//!
//! Depends on `lease_clock`.
#![tactic(auto)]

mod laws;

pub use laws::{at_most_one_works, one_works_after_another, one_works_on, who_works_has_its_votes};
