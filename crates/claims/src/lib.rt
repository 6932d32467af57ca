//! What a session keeps of its claims of a number: which epoch it claims, which voters accepted that, and above which stamp it
//! begins.
//!
//! A session that wants a number hears of the number's epochs, and claims the next one at all voters. Once each voter of a quorum
//! accepted the claim, the number is its own under this epoch. All that others asked under the number, under any epoch before, was
//! under stamps up to the greatest base that these voters told. If the session takes its claim back, it never claims that
//! epoch again: the word that gives it back may come late.
//!
//! The calls of [`Claim`] are the steps of `specs/Claims.antt`. No call takes memory.
//!
//! # What is proved
//!
//! - Each voter of a quorum that accepted a claim by these calls told the session so: a number that is a session's own by them is
//!   one that a quorum gave it ([`claimed_numbers_were_given`]).
//! - A claim that goes on is of an epoch that the session never took back ([`claims_are_made_once`]).
//! - So no two sessions have a number under one epoch by these calls ([`epochs_are_claimed_by_one`]).
//! - And each stamp that was used under an epoch before is at most the one above which the session begins
//!   ([`claims_begin_above`]).
//! - The premises can be met ([`two_sessions_claim`]).
//! - A claim that is saved is restored as it was.
//!
//! Depends on `sessions`, `numbers` and `quorum_set`.
#![tactic(auto)]

mod claim;
mod laws;

pub use claim::{Claim, SAVED_WORDS};
pub use laws::{
    claimed_numbers_were_given, claims_are_made_once, claims_begin_above,
    epochs_are_claimed_by_one, two_sessions_claim,
};
