//! One lock of a session as bytes: its client, the votes of all voters and the calls for it, each a block of its own, and what the calls
//! of all three do: what `qlock_session_c` exports of a session's lock. And what it exports of a session's stamps at all voters.
//!
//! The blocks are the caller's. A call reads all three, makes the step of the lock, and writes in place what changed. A call that is
//! refused writes nothing, and each is refused with `BadState` if and only if the bytes are no lock: one block is none, or a call has the
//! lock in them and the client is not inside by the request under which that has it. So it is if bytes that should be leases are none. No
//! call takes memory.
//!
//! So are the stamps of a session at all voters, which no lock has a part in. By them a call shows whom the session may ask.
//!
//! - [`lists`]: 64 votes, 64 leases and the stamps at 64 voters, one after the other (`specs/Bytes.antt`).
//! - [`locks`]: each call is a step of `client_node`, or shows the lock (`specs/HeldSteps.antt`).
//! - [`owners`]: the voters at which a stamp is the session's own (`specs/OwnerSteps.antt`).
//!
//! Depends on `client_node`, `vote_leases`, `own_stamps`, `callers`, `requester`, `session_blocks`, `lock_blocks`, `blocks`, `message`,
//! `quorum_set`, `words`, `numbers` and the kit's `arrayvec`.
#![tactic(auto)]

pub mod lists;
pub mod locks;
pub mod owners;
