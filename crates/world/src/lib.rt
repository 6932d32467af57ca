//! A world of the voting lock: some voters, some clients, and every message that was ever sent.
//!
//! A client that wants the lock draws the next ticket, which stands for a quorum of the plan's
//! cycle. It asks its voters, and enters once it holds all votes (Maekawa, ACM TOCS 3(2), 1985).
//!
//! Nothing happens in a world by itself. Each [`Step`] is one call of a client or a voter, or the
//! arrival of one message. The messages that a step sends are numbered and kept for good. A message
//! may arrive late, again, or never. So a list of steps is one history of the lock over a network
//! that loses, repeats and delays. [`run`] runs a whole list of steps in a new world; a [`World`]
//! runs them one by one. In a [`SavedWorld`] clients and voters also crash.
//!
//! A world has one plan, or two over a bridge: each quorum of one has a common voter with each
//! quorum of the other. [`Step::Exchange`] exchanges the first plan for the second, whatever is
//! under way. Later asks draw tickets of the second plan; requests that began before it keep their
//! quorums.
//!
//! # What is proved
//!
//! - A step is exactly the definition in `world_state`, which is made of the steps of `voter` and
//!   `requester`. A step that fails changes nothing, and it fails with `OutOfMemory` only if no other
//!   fault applies.
//! - **At most one client is inside**, over every list of steps: the events of [`run`] read enter
//!   c, leave c, enter d, leave d, .. The law [`at_most_one_is_inside`] says so as long as any two
//!   quorums share a voter, whichever quorum each ticket stands for. It also holds while a plan is
//!   exchanged.
//! - The same holds if clients and voters crash and restart from what they saved
//!   ([`at_most_one_is_inside_with_restarts`]). Who has a vote later has it by a greater grant number
//!   ([`later_votes_have_greater_numbers`], [`later_passes_are_newer`]).
//! - A [`SavedWorld`] saves and sends, and restarts its clients and voters, exactly as the definition in
//!   `specs/Restarts.antt`. A restart takes back silent steps, and nothing else: steps alone lead to the
//!   same live world ([`restarts_undo_silent_steps`]).
//! - The tickets of each plan are drawn in order, from 0 on.
//! - Every message names a client and a voter of the world, and has its numbers in range
//!   ([`messages_are_in_range`]). So each message has a line of text.
//!
//! It is not promised that anybody enters.
//!
//! A [`SavedWorld`] can be taken apart into its [`Cycles`] and its [`Stored`] state, for worlds in which more
//! happens than steps and crashes. What happens there is defined here (`specs/Incidents.antt`). So are
//! ways in (`specs/WayIn.antt`) and how long a client waits (`specs/Waiting.antt`): laws and programs
//! share them.
//!
//! Depends on `world_state`, which has the state and its steps, on `dealer`, whose cycles give the quorums,
//! and on `voter` and `requester`. It also depends on `message`, `certificate`, `quorum_set` and `numbers`.
//!
//! ```
//! // Two of three voters, two clients, stamps up to 1000:
//! let mut world = World::new(alloc, Plans::single(plan), 2, 1000)?;
//! let stepped = world.step(Step::Ask(0))?;   // stepped.sent: 2
//! world.message(1);                          // REQUEST with stamp 1 to voter 1
//! world.step(Step::Deliver(1))?;             // voter 1 answers LOCKED: message 2
//! world.visible();                           // nobody entered yet
//! ```
#![tactic(auto)]

mod laws;
mod saved;
mod stored;
mod trace;
mod world;

pub use laws::{
    at_most_one_is_inside, at_most_one_is_inside_with_restarts, later_passes_are_newer,
    later_votes_have_greater_numbers, messages_are_in_range, parts_keep_their_rules,
    restarts_undo_silent_steps, steps_add, worlds_stay_coherent,
};
pub use saved::SavedWorld;
pub use stored::{Maker, Stored, copy_client, copy_voter};
pub use trace::{Trace, run};
pub use world::World;
pub use world_state::{Cycles, Event, State, Step, Stepped, WorldFault, note};
