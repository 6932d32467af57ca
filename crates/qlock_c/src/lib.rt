//! The library for C: the voter and the client of the lock, the guard of what the lock protects; at
//! a voter the row of a client number, a lock with the rows that may speak about it, its quiet
//! time, its start, the lease clock and token buckets; and the headers and lines of control of a
//! service's messages. `qlock_session_c` has the rest of the library, of what a session keeps.
//!
//! A call gets the state as bytes, which are the caller's, and writes the new state in their place.
//! Messages are lines of text, as `message` reads and writes them. No call takes memory, and there
//! is nothing else that one call leaves to the next: calls on different states may run at once.
//!
//! - `src/voter_calls.rt`, `src/client_calls.rt`, `src/fence_calls.rt`, `src/quorum_calls.rt`,
//!   `src/lock_calls.rt`: the functions that C calls, over `lock_blocks`.
//! - `src/row_calls.rt`, `src/clock_calls.rt`, `src/bucket_calls.rt`, `src/start_calls.rt`,
//!   `src/envelope_calls.rt`: those over `blocks`.
//! - `src/version.rt`: the version, as a number.
//! - `src/laws.rt`: each message has a line that its receiver takes, and the rooms in the header
//!   are enough.
//!
//! `include/qlock.h` at the top of the repository says the same for C, and `docs/embedding.md` how
//! to use it.
//!
//! A call that does not return 0 writes nothing. Where a call that changes a state or sends returns
//! 0, the automaton's own step gives the new state and the lines: `VoterSteps`, `ClientSteps` and
//! `FenceSteps` in `lock_blocks/specs/`. What is said of quorums is in `QuorumSteps` there, and
//! what a lock with rows does in `LockSteps`. Rows, lease clocks, token buckets, starts, headers,
//! lines of control and refusals are in the crate `blocks`.
//!
//! Depends on `lock_blocks`, `blocks`, `envelope`, `quiet_time`, `voter`, `requester`,
//! `session_rows`, `starts`, `message`, `texts`, `words` and `numbers`.
#![tactic(auto)]

mod bucket_calls;
mod client_calls;
mod clock_calls;
mod envelope_calls;
mod fence_calls;
mod laws;
mod lock_calls;
mod quorum_calls;
mod row_calls;
mod start_calls;
mod version;
mod voter_calls;
