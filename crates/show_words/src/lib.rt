//! What people read of plans, of dealt tickets and of stories: words with the names of voters.
//!
//! - [`weights_words`] makes a page of the figures of a plan, or of other weights: the load, whom to ask
//!   how often, and why no load is below the bound. With capacities it also has the throughput, and how
//!   busy each voter is for its capacity. A load above its bound is marked.
//! - [`check_words`] has the load, the bound and the cycle of weights, a line each.
//! - [`tickets_page`] has a line for each ticket, how often each voter is used, and the busiest
//!   count. With capacities it has the ratio too, and in the even order how even that is.
//! - [`names_page`] has a line for each ticket with the names of its voters alone.
//! - [`world_words`] plays a story, and says in sentences what happens: who asks whom, who gets which
//!   vote, and who waits for whom. If clients wait at the end while nobody is inside, it says how one gets
//!   in.
//!
//! - [`push_message_words`], [`push_names`], [`push_members`], [`push_quorum_members`], [`push_percent`],
//!   [`push_tenths`], [`push_quotient`], [`push_excess`], [`push_gap`] and [`push_mark`] write parts of
//!   pages.
//!
//! They are proved safe, and a private call plays each turn that it is given. A way in is what
//! `Player::into_way` of `stories` returns. What all of them say is only tested.
//!
//! Depends on `certificate` for weights, on `show_figures` for figures and dealt tickets, on `commands` for
//! the lines of an account, on `stories` for stories, and on `coterie_file` for names.
//!
//! ```
//! // Of the wheel with three rims:
//! let text = weights_words(alloc, &named, plan.weights())?; // load 3/5,  60.0 %: ..
//! let page = tickets_page(alloc, weighed, 5, true)?;        // 0 0 hub rim1 ..
//! ```
#![tactic(auto)]

mod checks;
mod names;
mod reasons;
mod share;
mod ticket_names;
mod tickets;
mod voters;
mod weights;
mod worlds;

pub use checks::check_words;
pub use names::{push_members, push_names, push_quorum_members};
pub use share::{push_excess, push_gap, push_mark, push_percent, push_quotient, push_tenths};
pub use ticket_names::names_page;
pub use tickets::tickets_page;
pub use weights::weights_words;
pub use worlds::{push_message_words, world_words};
