//! Bounds on loads that are known for every coterie, as laws.
//!
//! Let the smallest quorum of a coterie of n voters have c members. Naor and Wool (*The load,
//! capacity, and availability of quorum systems*, SIAM J. Comput. 27(2), 1998) show that its load is
//! at least c / n, and at least 1 / c. So it is at least 1 / √n.
//!
//! A plan's certificate shows that this plan has the smallest load. These laws say, before there is
//! a plan, below which load none can come. The first two bounds hold for plans and for lists of quorum
//! numbers of any length, and also with capacities.
//!
//! # What is proved
//!
//! - **Some voter bears the average** ([`some_voter_bears_the_average`]): each entry of a list uses c
//!   voters at least, and there are n.
//! - **The smallest quorum bears every entry** ([`smallest_quorum_bears_every_entry`]): each entry has
//!   a common member with the smallest quorum, which has c members.
//! - **Loads have bounds** ([`loads_have_bounds`]): both, of the weights of quorums and of the load.
//!
//! There is no code, only laws over the definitions of `certificate` and `quorum_set`.
//!
//! Depends on `certificate`, `quorum_set`, `divisor` and `numbers`.
#![tactic(auto)]

mod laws;

pub use laws::{
    loads_have_bounds, smallest_quorum_bears_every_entry, some_voter_bears_the_average,
};
