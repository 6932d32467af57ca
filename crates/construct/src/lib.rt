//! Known families of coteries, made for any size: grids, majorities, trees, wheels, and cyclic
//! coteries over a base set.
//!
//! Each construction returns exactly the quorums of its definition, in the definition's order, or
//! the fault of its sizes: `BadSize` if they are too small, `TooLarge` if the coterie would be out
//! of bounds. All but cyclic lists are proved to be coteries at every size that they take. A cyclic
//! list is a coterie if its base allows it; if not, `cyclic` returns the first pair of quorums at
//! fault. The crate depends on `quorum_set`, which defines coteries, on `numbers`, and on `itertools`,
//! which lists combinations. Other crates deal with the texts of coteries and with plans.
//!
//! Two things matter for the choice: the load that the best plan puts on the busiest voter (Naor
//! and Wool, SIAM J. Comput. 27(2), 1998), and how many members a lock has to ask. Of n voters:
//!
//! - A grid of r rows of c asks r + c - 1, at a load of (r + c - 1) / n.
//! - A majority asks n / 2 + 1, at a load just above one half.
//! - A tree of height h asks h + 1 at best, at a load of 2 / (h + 2), and still works without its
//!   root.
//! - A wheel of k voters on the rim asks 2 at best, at a load of k / (2 k - 1).
//! - A perfect difference set of size c asks c, at a load of c / n.
//!
//! The loads are known from the literature; nothing is proved about them here.
//!
//! ```
//! let grid = grid(alloc, 3, 3)?;            // 9 voters; quorum 0 is 0, 1, 2, 3, 6
//! let plane = cyclic(alloc, 7, &[0, 1, 3])?; // 7 voters; quorum 1 is 1, 2, 4
//! grid(alloc, 1, 5)                          // Err(ConstructFault::BadSize)
//! cyclic(alloc, 4, &[0, 2])                  // Err(ConstructFault::Coterie(CoterieFault::Disjoint(0, 1)))
//! ```
#![tactic(auto)]

mod fault;
mod laws;
mod lists;
mod set;
mod shapes;

pub use fault::ConstructFault;
pub use laws::{
    cyclic_coteries_have_a_quorum_for_each_shift, cyclic_sets_cross_or_not, grids_are_coteries,
    grids_have_a_quorum_for_each_voter, majorities_are_all_sets_of_their_size,
    majorities_are_combinations, majorities_are_coteries, trees_are_coteries,
    trees_double_their_exponent, wheels_are_coteries, wheels_have_a_quorum_for_each_spoke,
};
pub use lists::{push_set, sets_of};
pub use shapes::cyclic::cyclic;
pub use shapes::grid::grid;
pub use shapes::majority::majority;
pub use shapes::tree::tree;
pub use shapes::wheel::wheel;
