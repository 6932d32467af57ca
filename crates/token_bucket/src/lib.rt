//! A token bucket: how fast something may grow that others name.
//!
//! A [`TokenBucket`] gains `rate` tokens a second, up to `most`, and begins with half of `most`. Whoever takes
//! tokens takes no more than there are ([`TokenBucket::spend`]). So over any time little more is taken than
//! `rate` allows, while `most` may be taken at once. The idea is Turner's ("New directions in communications (or
//! which way to the information age?)", IEEE Communications Magazine 24(10), 1986), who has it as a counter for
//! each source, which fills as the source sends and empties at a fixed rate.
//!
//! The calls are the steps of `specs/Buckets.antt`. Times are nanoseconds of one clock of the caller. A time
//! before that of the last spending counts as that. What is left is kept exactly, in billionths of a token. No
//! call takes memory.
//!
//! # What is proved
//!
//! - From any time to any later one at most `most` tokens are spent, and `rate` for each second, whatever the
//!   calls and in whatever order their times are ([`spending_is_bounded`]).
//! - A bucket of which nobody takes fills: once `most / rate` seconds have passed since the last spending, `most` tokens are left,
//!   and can be spent at once ([`unused_buckets_fill`]).
//! - A saved bucket is restored as it was ([`TokenBucket::restore`]).
#![tactic(auto)]

mod bucket;
mod fault;
mod laws;

pub use bucket::{SAVED_WORDS, TokenBucket};
pub use fault::BucketFault;
pub use laws::{spending_is_bounded, unused_buckets_fill};
