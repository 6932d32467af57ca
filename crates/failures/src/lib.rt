//! What a coterie bears: which voters may fail, and what is left when some do.
//!
//! A client needs all members of one quorum. So the lock can be taken as long as some quorum has no
//! failed member. If all members of a set fail that has a common member with each quorum, it can't.
//! Such a set is a *transversal*, and the members of a smallest one, less one, are how many voters
//! may fail whichever they are: the *resilience* (Naor and Wool, SIAM J. Comput. 27(2), 1998).
//!
//! - [`coterie_without`] returns the quorums without a failed member, as a coterie.
//! - [`bears`] says whether there is such a quorum.
//! - [`transversal_of`] returns a smallest transversal.
//!
//! ```
//! // majority of five: any two may fail, and some three may not
//! let blocking = transversal_of(&majority, 1_000_000);
//! blocking.voters.len(); // 3
//! ```
//!
//! Depends on `quorum_set` and `numbers`.
#![tactic(auto)]

mod transversal;
mod without;

pub use transversal::{Transversal, transversal_of, with_voter};
pub use without::{bears, coterie_without};
