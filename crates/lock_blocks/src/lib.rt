//! Voters, clients and guards as bytes, the lines that they take and send, and what the calls of a
//! voter, a client, a guard, a lock and of quorums do: what `qlock_c` exports of them.
//!
//! The bytes are the caller's. A call reads the state, makes the automaton's own step, and writes
//! the new state in place, and the lines of what to send. A call that is refused writes nothing. No
//! call takes memory.
//!
//! - [`voters`]: each call is a step of `voter`, or shows the voter (`specs/VoterSteps.antt`).
//! - [`clients`]: each call is a step of `requester`, or shows the client
//!   (`specs/ClientSteps.antt`).
//! - [`guards`]: each call is a step of `fence` (`specs/FenceSteps.antt`).
//! - [`locks`]: a vote at a voter, with the rows of the sessions that may speak about it, as
//!   `lock_node` and `quiet_time` have it (`specs/LockSteps.antt`).
//! - [`tables`]: what those rows say of a session and of a grant (`specs/LockSteps.antt`).
//! - [`quorums`]: what is said of quorums (`specs/QuorumSteps.antt`).
//! - [`saved_bytes`]: the states as bytes (`specs/Bytes.antt`).
//! - [`lines`]: messages as lines, in a text of fixed room (`specs/Lines.antt`).
//!
//! `specs/Sent.antt` says what is sent by all these calls. The laws about it are in `qlock_c`.
//!
//! Depends on `blocks`, `lock_node`, `quiet_time`, `voter`, `voter_node`, `requester`, `fence`,
//! `session_rows`, `sessions`, `message`, `texts`, `words`, `quorum_set` and `numbers`.
#![tactic(auto)]

pub mod clients;
pub mod guards;
pub mod lines;
pub mod locks;
pub mod quorums;
pub mod saved_bytes;
pub mod tables;
pub mod voters;
