//! The library for C, of what a session keeps: its leases, votes, stamps and claims, the calls for a
//! lock, a lock whole, and whom it asks. `qlock_c` has the rest of the library.
//!
//! A call gets a state as bytes, which are the caller's, and writes the new state in their place. No
//! call takes memory, and there is nothing else that one call leaves to the next: calls on different
//! states may run at once.
//!
//! - `src/session_calls.rt`: what a session keeps of its votes, its stamps and its claims, and the
//!   calls for a lock, over `session_blocks`; its stamps at all voters over `client_blocks`.
//! - `src/held_calls.rt`: a session's lock, whole, over `client_blocks`.
//! - `src/choice_calls.rt`: which quorum a session asks, and when it gives up a request that waits,
//!   over `fail_over` and `session_blocks`.
//!
//! `include/qlock.h` at the top of the repository says the same for C, and `docs/embedding.md` how
//! to use it.
//!
//! A call that does not return 0 writes nothing. What a call that returns 0 writes is a step of
//! `session_blocks`, of `client_blocks` or of `fail_over`.
//!
//! Depends on `session_blocks`, `client_blocks`, `client_node`, `fail_over`, `claims`, `vote_leases`,
//! `blocks` and `numbers`.
#![tactic(auto)]

mod choice_calls;
mod held_calls;
mod session_calls;
