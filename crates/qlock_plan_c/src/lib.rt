//! The planning library for C: plans and weights of coteries, and the quorums of their tickets.
//!
//! A call reads texts by `plan_inputs`, as the program `qlock` does, and writes a text or numbers. Memory
//! comes from `malloc`. There is nothing else that one call leaves to the next.
//!
//! - `src/planning_calls.rt`: the names of voters, a plan or weights of a coterie, and the check of these.
//! - `src/dealing_calls.rt`: the quorums of tickets in two orders, and how even the second is.
//! - `src/order.rt`: the order of tickets.
//! - `src/outcome.rt`, `src/output.rt`: how a call ends, and what it writes to `out`.
//!
//! `include/qlock_plan.h` at the top of the repository says the same for C, and `docs/embedding.md`
//! how to use it.
//!
//! What is written is a stated function of the texts, for `qlock_plan` the text of an optimal plan, and each
//! end of a call is stated: `specs/Calls.antt`. Only where memory ends is not.
//!
//! Depends on `plan_inputs`, `coterie_file`, `certificate`, `planner`, `dealer`, `even`, `quorum_set`, `words` and
//! `numbers`.
#![tactic(auto)]

mod dealing_calls;
mod order;
mod outcome;
mod output;
mod planning_calls;
