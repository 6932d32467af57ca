//! What an operator asks of a coterie: what is left when voters fail, how many may fail, and
//! whether a plan of one coterie may be exchanged for a plan of another.
//!
//! - [`without_page`] writes the coterie that is left when voters fail, so that it can be planned.
//! - [`resilience_page`] says how many voters may fail, and which groups of them, such as racks. With a
//!   plan, or other weights, it says the same of the quorums that these use.
//! - [`bridge_page`] says whether each quorum of one coterie meets each quorum of another.
//!
//! Voters are given by their names. In [`bridge_page`] voters of the two coteries are the same if
//! they have the same name, so a group may grow, or list its voters in another order.
//!
//! # What is proved
//!
//! The page of [`without_page`] is determined letter by letter: it is the text of the coterie that is
//! left, or names the failed voters if no quorum is left.
//!
//! [`first_quorums_apart`] returns the first two quorums without a common voter, or there is a bridge.
//! The set of [`resilience_of`] meets every quorum. If it is a smallest one, none is smaller, and any
//! voters that are fewer leave a quorum. That the search ends within a million steps is only tested.
//! [`groups_of`] returns the groups of voters by name, and [`used_coterie`] the quorums of positive
//! weight: they are a coterie.
//!
//! The page of [`resilience_page`] says how many voters may fail, and names a set whose failure leaves no
//! quorum. If it does not call the number an upper bound, the set is a smallest one. It says for each
//! group whether a quorum is left, and its second part is about the quorums that the weights use.
//! What the page of [`bridge_page`] says is only tested.
//!
//! Depends on `failures`, which finds what is left, on `quorum_set`, on `coterie_file` for names and
//! texts, and on `certificate` for weights.
//!
//! ```
//! // three racks a, b and c of three: a quorum is two of three voters in two of three racks
//! let page = without_page(alloc, &named, words)?; // of the word a1: the 15 quorums without a1
//! let page = resilience_page(alloc, &named, None)?; // any three may fail, and each rack as a whole
//! ```
#![tactic(auto)]

mod bridge;
mod groups;
mod laws;
mod names;
mod resilience;
mod used;
mod without;

pub use bridge::{bridge_page, first_quorums_apart};
pub use groups::groups_of;
pub use laws::borne_groups_leave_a_quorum;
pub use names::first_unknown;
pub use resilience::{Resilience, resilience_of, resilience_page};
pub use used::used_coterie;
pub use without::without_page;
