//! Candidate weights for a coterie's quorums and voters, by the simplex method in exact arithmetic.
//!
//! How much to use each quorum is the solution of a linear program: use the quorums as much as
//! possible in total, but no voter more often than its capacity. This solution loads the busiest
//! voter least, for the voter's capacity, and the solution of the dual weighs the voters (Naor and
//! Wool, SIAM J. Comput. 27(2), 1998).
//!
//! Here Dantzig's simplex method solves the program, from the empty solution, in whole numbers over
//! one denominator (`fraction::Shared`). Both solutions are read off the tableau as they are. The method is the revised one: only
//! the columns of the voters' slacks are stored, since the quorums' columns are sums of them. So a
//! pivot costs about the square of the number of voters.
//!
//! Nothing is claimed about the numbers except how many there are. Whether they are a certificate
//! is decided by `certificate::check`, so nobody has to trust the method. This crate depends on
//! `quorum_set`, `fraction` and `numbers`.
//!
//! ```text
//! // Any two of three voters.
//! let candidate = solve(alloc, &majority, &[1, 1, 1], 10_000)?;
//! assert_eq!(rt; candidate.quorum_weights.len(), 3);
//! assert_eq!(rt; candidate.voter_weights.len(), 3);
//! ```
#![tactic(auto)]

mod candidate;
mod choice;
mod fault;
mod method;
mod tableau;

pub use candidate::{Candidate, solve};
pub use fault::SimplexFault;
