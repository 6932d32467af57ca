//! Weights of a coterie's quorums and voters, by a search in floating point and one exact solve.
//!
//! How much to use each quorum is the solution of a linear program: use the quorums as much as
//! possible in total, but no voter more often than its capacity. The solution of its dual weighs the
//! voters (Naor and Wool, SIAM J. Comput. 27(2), 1998).
//!
//! [`search`] finds a solution by Dantzig's simplex method in floating point. Only the columns of the
//! voters' slacks are stored, since the quorums' columns are sums of them. The last [`Tableau`] says
//! which quorums are used and which voters are busy, its *basis*. [`quorum_weights`] and
//! [`voter_weights`] solve its equations modulo the prime 2^61 - 1. Each weight is then the one
//! fraction with small numbers that is the solution modulo the prime.
//!
//! A basis is one corner of the *face* of all solutions that are as good, and its numbers may be large
//! where others are small. [`inner_weights`] goes to a point inside the face and rounds it. It mends
//! the voters' counts by short whole combinations of quorums (Lenstra, Lenstra and Lovász, Math. Ann.
//! 261, 1982).
//!
//! Nothing is claimed about the numbers except how many there are. Whether they are a certificate is
//! decided by `certificate::check`, so nobody has to trust the search, and no result depends on a
//! float.
//!
//! Depends on `quorum_set`, `divisor` and `numbers`.
//!
//! ```text
//! // A hub 0 with three rims: {0, 1}, {0, 2}, {0, 3} and {1, 2, 3}.
//! let tableau = search(alloc, &wheel, &[1, 1, 1, 1])?;
//! quorum_weights(alloc, &wheel, &[1, 1, 1, 1], &tableau)?;     // Some: 1, 1, 1, 2
//! voter_weights(alloc, &wheel, &tableau)?;                     // Some: 2, 1, 1, 1
//! ```
#![tactic(auto)]

mod exact;
mod face;
mod lattice;
mod ratio;
mod residue;
mod system;
mod tableau;

pub use exact::{quorum_weights, voter_weights};
pub use face::inner_weights;
pub use tableau::{Tableau, search};
