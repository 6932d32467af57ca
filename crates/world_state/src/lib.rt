//! The state of a world of the voting lock, and one step of it.
//!
//! A [`State`] has all clients and voters of one lock, and every message that was ever sent. A [`Step`] is
//! one call of a client or a voter, or the arrival of one message. The messages that a step sends are
//! numbered and kept for good. [`Cycles`] says which quorum each ticket stands for, by one plan or by two.
//!
//! The crate `world` runs lists of steps, and has the laws about them.
//!
//! # What is proved
//!
//! A step is exactly the definition in `specs/Steps.antt`, which is made of the steps of `voter` and
//! `requester`. A step that fails changes nothing, and it fails with `OutOfMemory` only if no other fault
//! applies. Each message has to name a client and a voter that are there, as the messages of every run do.
//!
//! ```
//! let room = state.make_room().is_ok();
//! let stepped = state.act(&cycles, Step::Ask(0), room)?; // stepped.sent: one REQUEST for each voter asked
//! ```
#![tactic(auto)]

mod cycles;
mod fault;
mod lists;
mod moves;
mod state;
mod step;

pub use cycles::Cycles;
pub use fault::WorldFault;
pub use lists::note;
pub use moves::{client_of, voter_of};
pub use state::State;
pub use step::{Event, Step, Stepped};
