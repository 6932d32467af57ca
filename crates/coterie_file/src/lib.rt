//! Coteries as texts: a coterie whose voters have names, read from TOML and written in one layout.
//!
//! In `quorum_set` a coterie (Garcia-Molina and Barbara, JACM 32(4), 1985) has sets of voters'
//! numbers. Here the voters also have names, and a text lists them. A voter's number is its place
//! in `voters`, and a quorum's number is its place in `quorums`. Each voter has a capacity, a number
//! from 1 to 1000: a voter of capacity 2 may be asked twice as often as one of capacity 1. A text
//! may list the capacities in `capacity`. Otherwise they are 1. `read_coterie` returns the coterie
//! or the first fault, as a function of the text alone (unless it runs out of memory). The programs
//! that plan, deal and run over a coterie start from this crate. It knows nothing of plans.
//!
//! ```text
//! let text = "voters = ['a', 'b', 'c']\nquorums = [['a', 'b'], ['b', 'c'], ['a', 'c']]";
//! let named = read_coterie(alloc, text)?;
//! named.coterie().quorum(1)          // the set of 1 and 2
//! named.name(2)                      // "c"
//! named.capacities()                 // 1, 1 and 1: the text has no key `capacity`
//! write_coterie(alloc, &named)?      // the same coterie, a line for each quorum
//! read_coterie(alloc, "voters = ['a', 'a']\nquorums = [['a']]")    // Err(FileFault::RepeatedName(1))
//! ```
#![tactic(auto)]

mod capacities;
mod fault;
mod laws;
mod lists;
mod named;
mod names;
mod reading;
mod writing;

pub use fault::FileFault;
pub use laws::{
    capacities_are_arrays_of_integers, capacities_have_no_fault, first_repeat_is_least,
    lists_are_arrays_of_strings, names_have_no_fault, quorums_have_the_listed_voters,
    texts_have_no_stray_voter, texts_read_as_coteries,
};
pub use lists::NameLists;
pub use named::Named;
pub use reading::read_coterie;
pub use writing::write_coterie;
