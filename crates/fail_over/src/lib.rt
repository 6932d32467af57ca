//! Fail-over: which quorum a session asks, and when it gives up a request that waits and asks another one.
//!
//! A session asks the quorums of a plan's cycle in turn: ticket t has the one at t modulo the cycle's length. It leaves out quorums
//! with a voter that it avoids, and with a voter that had no room for the lock ([`next_quorum`]). It avoids a voter that was
//! silent for the fail-over time ([`silent`]), and one in its quiet time ([`avoided`]). If no other quorum is left, it asks one whose
//! voters all have room: those that it avoids may give their votes later.
//!
//! A request that was asked longer ago than the fail-over time, and waits for a voter that the session avoids, is given up if others would
//! do ([`is_stuck`]). When a voter says that it ends, or is quiet, no time has to pass ([`waits_for`]).
//!
//! A set of voters is a word: voter v is in it if bit v is 1. The calls are the definitions of `specs/Choices.antt`. No call takes
//! memory, and each goes through the quorums twice at most.
//!
//! # What is proved
//!
//! - Each call returns exactly what is defined.
//! - **If some quorum has no voter that is avoided, and none that has no room, such a one is asked** ([`who_is_asked_answers`]).
//!   Whoever is asked has room, and nobody is asked if no quorum has ([`who_is_asked_has_room`]).
//! - While a ticket's own quorum would do, it is asked: so whole cycles use each quorum as often as the plan says
//!   ([`the_plan_is_kept`]). Otherwise no more tickets are passed over than have to be ([`none_is_passed_over`]).
//! - **No request waits for a voter that is avoided while others would do**, except for the fail-over time
//!   ([`nobody_waits_for_the_silent`]). After one that is given up, a quorum is asked that has none of the avoided voters for which it waited
//!   ([`who_fails_over_asks_others`]).
//! - The premises can be met ([`others_are_asked`], [`a_request_fails_over`]).
//!
//! That votes exclude one another depends on none of this: any quorum may be asked at any time.
//!
//! Depends on `quorum_set` and `numbers`.
#![tactic(auto)]

mod choices;
mod laws;
mod voters;
mod waiting;

pub use choices::next_quorum;
pub use laws::{
    a_request_fails_over, nobody_waits_for_the_silent, none_is_passed_over, others_are_asked,
    the_plan_is_kept, who_fails_over_asks_others, who_is_asked_answers, who_is_asked_has_room,
};
pub use voters::{avoided, silent};
pub use waiting::{Waiting, is_stuck, waits_for};
