//! What the texts of an input describe: a coterie, and a plan or weights of it.
//!
//! The program `qlock` and the planning library for C read the same texts. [`coterie_of`] reads a
//! coterie, [`planned_of`] a coterie and a plan of it, and [`weighed_of`] a coterie and weights of it,
//! which may be a plan's. [`plan_text_of`] writes a plan of a coterie, and [`weights_text_of`] weights with
//! a cycle of a wanted length. Texts are bytes, and a coterie's have to be UTF-8. An [`InputFault`] says why one was
//! refused, and [`line_of`] writes its line for callers that have no memory to spare: its code and name,
//! and its numbers, in a text of fixed room.
//!
//! What is read is a stated function of the bytes, unless memory runs out. The plan of a [`Planned`]
//! is one of its coterie, and it is optimal. The line of each fault is the stated one; that it is the
//! text of the fault is tested in `test_texts`.
//!
//! Depends on `coterie_file`, `plan_texts`, `certificate`, `planner` and `near`.
//!
//! ```
//! let planned = planned_of(alloc, coterie, plan)?;
//! let load = planned.plan.load();
//! ```
#![tactic(auto)]

mod fault;
mod lines;
mod planned;
mod planning;
mod reading;

pub use fault::InputFault;
pub use lines::line_of;
pub use planned::{Planned, Weighed};
pub use planning::{plan_text_of, weights_text_of};
pub use reading::{coterie_of, planned_of, weighed_of};
