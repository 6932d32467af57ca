//! The lease clock of a voter: for how long the session of a client was silent, up to when all that
//! was sent was heard.
//!
//! A voter sends itself *markers* through the way by which clients' messages come. What came before
//! a marker was sent is heard once the marker is back. So [`LeaseClock::reading`] goes on only
//! while markers come back, one after the other: time in which nobody could be heard, or in which
//! the voter stood still, is skipped, and counts for no session. A session that is heard is heard
//! [`LeaseClock::at`] the clock's time, and is silent for a TTL once the reading is a TTL later
//! ([`LeaseClock::is_silent`]).
//!
//! The calls are the steps of `specs/Clocks.antt`. Times are nanoseconds of one clock of the caller
//! that never falls. A time that is before the last marker left counts as when that left. No call
//! takes memory.
//!
//! # What is proved
//!
//! - The clock is never ahead: a session that was heard at some time is silent for a TTL only if a
//!   TTL has passed since ([`clocks_are_never_ahead`]).
//! - Its reading grows by exactly what counts: up to two periods for each marker that comes back
//!   after the one before it ([`silence_is_counted`]).
//! - A dead session is silent once this much has passed since it was heard: a TTL, what was skipped, and the age of the
//!   newest marker that came back ([`dead_sessions_are_silent`]).
//! - Of one voter and one client that has its grant, whatever is late, lost, repeated or out of
//!   order, and with clocks whose rates differ: who works has its grant
//!   ([`who_works_has_its_grant`], by leases as Gray and Cheriton have them, SOSP 1989). The voter
//!   may restart there, but loses no state, and the client's number is given to nobody else.
//!
//! Depends on the kit's `arrayvec`.
#![tactic(auto)]

mod clock;
mod laws;
mod marker;
mod saved;

pub use clock::LeaseClock;
pub use laws::{
    a_client_works_and_is_let_go, clocks_are_never_ahead, dead_sessions_are_silent,
    silence_is_counted, who_works_has_its_grant,
};
pub use saved::{SAVED_WORDS, SavedWords};
