//! Tests of the crates of planning and dealing through their public calls. This crate has nothing but
//! tests.
//!
//! - `coterie_texts` reads and writes coteries, and `shapes` constructs them.
//! - `fractions` computes.
//! - `failing` has voters fail, and `voters_down` has weights with voters down.
//! - `regrets` has weights for when voters are down.
//! - `nearness` has weights near the best for irregular coteries, `irregular` has plans for them, and
//!   `draws` draws some.
//! - `certificates` copies a plan, `searches` solves, and `plans` finds them.
//! - `pairs` puts two plans together, and `offices` deals.
//!
//! What contracts determine is not tested again, except by worked examples of the definitions.
//!
//! The tests are not in the crates that they test, so these are proved once, and not again together
//! with their tests.
#![tactic(auto)]

#[cfg(test)]
mod certificates;
#[cfg(test)]
mod coterie_texts;
#[cfg(test)]
mod draws;
#[cfg(test)]
mod failing;
#[cfg(test)]
mod fractions;
#[cfg(test)]
mod irregular;
#[cfg(test)]
mod nearness;
#[cfg(test)]
mod offices;
#[cfg(test)]
mod pairs;
#[cfg(test)]
mod plans;
#[cfg(test)]
mod regrets;
#[cfg(test)]
mod searches;
#[cfg(test)]
mod shapes;
#[cfg(test)]
mod voters_down;
