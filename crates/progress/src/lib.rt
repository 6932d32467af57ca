//! Progress of the voting lock: laws on how requests go on, over every list of steps of a world.
//!
//! `world` proves that at most one client is inside. This crate proves that requests get on: what
//! other clients can do to a request, what reminders can do for it, and that whoever asks gets in. It
//! has no code, only laws over the definitions of `world`, `voter` and `requester`.
//!
//! # What is proved
//!
//! - **No overtaking** ([`nobody_overtakes_often`]): once every voter of its quorum knows a request,
//!   no other client enters more than twice before that request ends.
//! - **No vote is lost for good** ([`lost_votes_come_back`]): a vote whose request is over comes back by
//!   one reminder of its voter and two messages, whatever was lost before. A vote that its client gave
//!   back goes on by one reminder of that client and one message ([`returned_votes_go_on`]).
//! - **Alone, one gets in** ([`who_asks_alone_gets_in`]): a client that asks while all others are idle
//!   gets in by reminders and by messages that are sent after them, whatever was lost before.
//! - **A way in** ([`somebody_can_enter`]): whenever clients ask and nobody is inside, reminders and
//!   messages that are sent after them let a client in.
//! - **Whoever asks can still get in** ([`everybody_can_enter`]): by reminders, by messages that are sent
//!   after them, and by clients that leave.
//! - **Whoever asks gets in** ([`fair_rounds_let_everybody_in`]): a client that asks, and does not give
//!   up, enters within (n + 8) * (3 n + 2 h + l) fair rounds, for n clients, h hasty withdrawals and
//!   l arrivals of late REQUESTs. A withdrawal is hasty if its request did not run for two whole rounds.
//!   Somebody enters within (n + 8) * (n + 2 g + l), for g withdrawals ([`fair_rounds_let_somebody_in`]),
//!   and nothing stands still for n + 8 rounds ([`fair_rounds_move_somebody`]).
//! - **While voters are down and clients are dead** the same holds in live rounds, with n + 9 for n + 8 and c live
//!   clients in the brackets ([`live_rounds_let_everybody_in`], [`live_rounds_let_somebody_in`], [`live_rounds_move_somebody`]):
//!   fair rounds of those that are live, in which each client ends its request if it waits for a voter that is
//!   down, and each voter drops the request of a client that is not live, for instance by letting its grant go. If
//!   all are live, fair rounds are live rounds ([`fair_rounds_are_live_rounds`]). Any number of live rounds can be
//!   made, whoever is live, with all that these laws ask for ([`live_rounds_can_be_made`]).
//! - **The numbers that `qlock-show waiting` shows are enough** ([`rounds_are_enough`],
//!   [`patient_rounds_are_enough`]): these are the two bounds without late REQUESTs.
//! - **Fair rounds need not be neighbours** ([`rounds_may_be_longer`]): steps before a fair round and after
//!   it may be counted to it. Any number can be made in every world, in which no REQUEST is late and
//!   nobody gives up ([`fair_rounds_can_be_made`]). If steps led to the world, each takes at most
//!   2 n + 2 grants of a voter.
//!
//! In a fair round everybody is reminded, the messages of the reminders and the replies to them arrive,
//! and who was inside when it began leaves. All else is up to an adversary.
//!
//! The two ways in are freedom from deadlock, in every world that was reached. They say that a way
//! exists, and not that a run takes it: fair rounds that are made, up to the first entry. The laws on fair rounds are bounded waiting: they hold of every
//! run that has these rounds.
//!
//! A law speaks of lists of steps, and not of time, threads or endless runs. Its premises say all that it
//! needs of a schedule.
//!
//! # After losses
//!
//! Before the rounds anything may have happened, crashes and losses of saved states too. Then somebody
//! enters within (n + 9) * (c + 2 g + l + v) live rounds, for v voters
//! ([`live_rounds_let_somebody_in_after_losses`]). A client whose request is heard enters within
//! (n + 9) * (3 c + 2 h + l + v) ([`live_rounds_let_everybody_in_after_losses`]), and each request that was
//! made after the last loss is heard ([`new_requests_are_heard`]).
//!
//! After crashes and incidents these laws hold once all clients were idle: `progress_comes_back` of `leases`, and
//! `rounds_come_back`, for which it is enough that each was idle or dead.
//!
//! Depends on `world`, `world_state`, `voter` and `requester`, and on the crates that these are made of.
#![tactic(auto)]

mod after_losses;
mod laws;

pub use after_losses::{
    live_rounds_let_everybody_in_after_losses, live_rounds_let_somebody_in_after_losses,
    new_requests_are_heard,
};
pub use laws::{
    everybody_can_enter, fair_rounds_are_live_rounds, fair_rounds_can_be_made,
    fair_rounds_let_everybody_in, fair_rounds_let_somebody_in, fair_rounds_move_somebody,
    live_rounds_can_be_made, live_rounds_let_everybody_in, live_rounds_let_somebody_in,
    live_rounds_move_somebody, lost_votes_come_back, nobody_overtakes_often,
    patient_rounds_are_enough, returned_votes_go_on, rounds_are_enough, rounds_may_be_longer,
    somebody_can_enter, who_asks_alone_gets_in, worlds_keep_their_rules,
};
