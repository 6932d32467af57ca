//! The calls of the library for a lock at a voter in the law on who works: laws alone.
//!
//! `working_votes` has turns of the automata of voters, also in their quiet times, and says who has their votes while somebody works. Here
//! each call of `lock_blocks` by which a host takes a line, lets a grant go, ends a quiet time, or reminds is one of these turns, for the one
//! vote that the bytes are. So what C and Go call is what that law is about.
//!
//! # What is proved
//!
//! - A line that a session may say, by the row of its number, is a message that comes to the voter, whether it is put off or taken
//!   ([`what_is_taken_is_a_turn`]). One that it may not say changes nothing, as the contract of the call has it.
//! - To let a grant go is to evict it ([`what_is_let_go_is_a_turn`]).
//! - To end the quiet time of a lock evicts a doubtful grant, and does nothing else ([`quiet_times_end_by_a_turn`]). After that nothing is
//!   doubtful ([`nothing_is_doubtful_then`]).
//! - A reminder says what a turn says, if the grant is not doubtful ([`a_reminder_is_a_turn`]).
//!
//! What leaves is what somebody hears of the replies of the turn. The calls of the lease clock write what the law has
//! (`leaves`, `returned`, `at` and `is_silent` of `lease_clock`), by their contracts. Which calls a host makes, and when, is the host's.
//!
//! Depends on `working_votes`, `lock_blocks`, `blocks`, `lock_node`, `quiet_time`, `sessions`, `voter` and `message`.
#![tactic(auto)]

mod laws;

pub use laws::{
    a_reminder_is_a_turn, nothing_is_doubtful_then, quiet_times_end_by_a_turn,
    what_is_let_go_is_a_turn, what_is_taken_is_a_turn,
};
