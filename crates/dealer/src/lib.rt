//! Deals the quorums of a coterie by a plan.
//!
//! A plan's weights say how often a cycle uses each quorum. A [`Cycle`] goes by rounds. Round 1
//! lists each quorum with a weight of 1 or more, in the order of their numbers. Round 2 lists each
//! quorum with a weight of 2 or more, and so on. A ticket is a number from 0 on. It stands for the
//! quorum at its place in the cycle, which begins again at its end. So whoever hands out the
//! tickets 0, 1, 2, .. deals the quorums in the plan's proportions.
//!
//! A cycle may have a million places, and is not stored as a list. Rounds list the same quorums if
//! no weight lies between them. A run of such rounds is kept as a block: its first place, the
//! weight that a quorum needs to be listed there, and the number of quorums that are. A list next
//! to the blocks has the quorums of positive weight.
//!
//! A look-up finds the block by binary search, and then walks along these quorums to the place
//! within the round. If the round lists all of them, as the rounds of the first block do, the place
//! is an index.
//!
//! An [`Account`] says how often a list of tickets uses each quorum and each voter. Its ratio is the
//! greatest count of a voter, divided by the voter's capacity. This is proved of k whole cycles:
//! they use each quorum k times its weight, and no list of that length has a smaller ratio. If all
//! capacities are 1, no list of that length uses its busiest voter less often (Naor and Wool, SIAM
//! J. Comput. 27(2), 1998, section 2: the load of a strategy).
//!
//! ```text
//! // The wheel with three rims, quorums {0,1}, {0,2}, {0,3}, {1,2,3} with the weights 1, 1, 1, 2:
//! let Ok(cycle) = Cycle::of(alloc, plan) else { .. };
//! cycle.quorum_at(3);                        // 3, as tickets 0 to 4 name the quorums 0, 1, 2, 3, 3
//! let account = cycle.account(alloc, &[4, 0, 3, 1, 2])?;
//! account.voters.as_slice();                 // [3, 3, 3, 3]
//! ```
//!
//! # Many threads
//!
//! An [`Office`] hands out the tickets of a cycle to any number of threads. Each thread draws with
//! a [`Clerk`] of its own, which may draw a part of the office's quota and keeps a [`Receipt`] for
//! each draw. A draw is one atomic addition and waits for nobody. Clerks are split off one another
//! and joined again, and the last one closes the office:
//!
//! ```text
//! let Ok((office, mut root)) = Office::new(alloc, cycle, 2000) else { .. };
//! let mut clerk = root.split(&office, 1000); // move it to another thread, with &office
//! let receipt = office.draw(&mut clerk)?;    // receipt.quorum is whom to ask
//! root.join(&office, clerk)?;                // the receipts follow the own ones
//! let (account, receipts) = office.close(alloc, root)?;
//! ```
//!
//! Proved, whatever the threads do:
//!
//! - A ticket is above all that its clerk drew before, and its receipt has the quorum at the
//!   ticket's place.
//! - A draw fails with `QuotaSpent` if and only if the clerk's rest is 0.
//! - A close fails with `ClerksOut` if and only if the last clerk doesn't have the whole quota.
//! - A close that succeeds returns the receipts of the tickets 0, 1, 2, .., each once. So the
//!   account of whole cycles is as even as the plan promises.
//!
//! Not proved: in which order threads draw, and that there is memory for a receipt. If there is
//! none, no ticket is taken.
//!
//! # Two plans
//!
//! [`Plans`] is one plan, or two with a bridge between their coteries: the one in use, and the one
//! that it may be exchanged for.
//!
//! Depends on `certificate`, whose [`Plan`](certificate::Plan) it takes, on `quorum_set`, `divisor`
//! and `numbers`, and on `atomic_table`. Everything that draws quorums depends on this crate.
#![tactic(auto)]

mod account;
mod clerk;
mod counts;
mod cycle;
mod fault;
mod laws;
mod office;
mod plans;
mod receipt;
mod rounds;
mod tickets;

pub use account::Account;
pub use clerk::Clerk;
pub use counts::Counts;
pub use cycle::Cycle;
pub use fault::{DealFault, OfficeFault, Unclosed};
pub use laws::{
    cycles_follow_weights, tickets_fill_cycles_in_any_order, tickets_name_quorums,
    voters_are_counted_by_quorum, whole_cycles_follow_weights,
};
pub use office::Office;
pub use plans::Plans;
pub use receipt::Receipt;
