//! A way in: lets a client of a stuck world in, by reminders and by messages that are sent after
//! them.
//!
//! `progress` proves that there is such a way whenever clients ask, nobody is inside and voters have
//! grants left. This crate looks for one by making it: it reminds the client whose request precedes
//! the others, then the voters that this client waits for, then the other clients. After each
//! reminder it lets the new messages arrive in order. Nobody asks, leaves or gives up meanwhile.
//!
//! # What is proved
//!
//! If [`let_in`] returns a way, its steps led from the old world to the new one. They are reminders
//! and arrivals of messages that were sent after the call began, and they let that client in and
//! nobody else.
//!
//! If it returns none, or memory runs out, such steps led to the new world too, and nobody entered or
//! left. If somebody is inside, or nobody asks, it makes no step. That a way is found is only tested.
//!
//! Depends on `world`, `world_state`, `voter`, `requester` and `message`.
#![tactic(auto)]

mod make;
mod rounds;

pub use rounds::{WayIn, let_in};
