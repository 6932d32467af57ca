//! What a session keeps of its votes, of its stamps, of its claims and of the calls for a lock as bytes, and what the calls of these do;
//! and the quorum that a session asks, as a number: what `qlock_session_c` exports of them.
//!
//! A *block* is a state as bytes, which are the caller's. A call reads it, makes the step of the state, and writes it in place. A
//! call that is refused writes nothing, and each is refused with `BadState` if and only if the bytes are none. No call takes
//! memory. Each is a step of `vote_leases`, of `own_stamps`, of `claims` or of `callers` (`specs/SessionSteps.antt`). A call that gets a
//! phase is refused with `BadArgument` besides, if and only if the number is none. The call by which a session chooses a quorum is
//! `next_quorum` of `fail_over` (`specs/ChoiceSteps.antt`), and refused with `BadArgument` if and only if there is none to ask.
//!
//! Depends on `vote_leases`, `own_stamps`, `claims`, `callers`, `fail_over`, `blocks`, `words` and the kit's `arrayvec`.
#![tactic(auto)]

pub mod choices;
pub mod leases;
pub mod own_calls;
pub mod own_claims;
pub mod stamps;
pub mod votes;
