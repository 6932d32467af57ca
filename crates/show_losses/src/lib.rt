//! The page of weights that were found for when voters are down: the weights, and what the losses leave.
//!
//! - [`losses_words`] is the page of the weights, and a table: for each loss of voters, how many tickets are
//!   left, their load, that of new weights without these voters, and how many times as great the first load
//!   is. The worst loss comes first, and at most a hundred have a line. A load of new weights that may not be
//!   the best is marked. Then comes a bound: no weights with so small a load keep this quotient smaller for
//!   each loss.
//!
//! Proved: a line of the table has the figures of its failure, exactly, as `losses` defines them. What the
//! page says, and in which order, is only tested.
//!
//! Depends on `losses` and `robust` for the figures, on `show_words` for the page of weights, and on
//! `coterie_file` for names.
#![tactic(auto)]

mod page;
mod rows;

pub use page::losses_words;
