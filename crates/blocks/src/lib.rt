//! Rows, lease clocks and token buckets as bytes, headers and lines of control as words, and why a call for C is
//! refused: what `qlock_c` exports of a voter's sessions.
//!
//! A *block* is a state as bytes, which are the caller's. A call reads it, makes the step of the
//! state, and writes it in place. A call that is refused writes nothing. No call takes memory.
//!
//! - [`rows`]: the row of a client's number. Each call is a step of `session_rows` or of `lost_rows`
//!   (`specs/RowSteps.antt`). [`rows::row_in`] reads the row of a number in a table of all
//!   (`specs/Tables.antt`).
//! - [`clocks`]: the lease clock of a voter. Each call is a step of `lease_clock`
//!   (`specs/ClockSteps.antt`).
//! - [`buckets`]: a token bucket. Each call is a step of `token_bucket` (`specs/BucketSteps.antt`).
//! - [`headers`]: the header of a message. Each call reads the one header that the bytes begin with, or
//!   writes its line (`specs/HeaderSteps.antt`).
//! - [`control`]: lines of control that have numbers only. Each call reads the one line that the bytes
//!   are, or writes one (`specs/ControlSteps.antt`).
//! - [`lock_lines`]: lines with the name of a lock. Each call reads the one line that the bytes are, writes one, or
//!   cuts off the one that the bytes begin with (`specs/LineSteps.antt`).
//! - [`places`]: what a voter keeps of the voter of a place, and the start of a voter. Each call is a step of `starts`
//!   (`specs/StartSteps.antt`).
//! - [`Refusal`]: why a call was refused, and the number that C sees ([`number_of`]).
//!
//! Depends on `envelope`, `session_lines`, `line_words`, `lost_rows`, `session_rows`, `sessions`, `lease_clock`, `token_bucket`, `starts`, `fence`, `requester`, `voter`,
//! `words` and `numbers`.
#![tactic(auto)]

pub mod buckets;
pub mod clocks;
pub mod control;
pub mod headers;
pub mod lock_lines;
pub mod places;
mod refusal;
pub mod rows;

pub use refusal::{DONE, Refusal, number_of};
