//! Stories of the voting lock: scripts in which plans are exchanged, clients and voters crash, and more
//! befalls them.
//!
//! A story has the lines of a script of `replay`, and these:
//!
//! | Line | Turn |
//! |---|---|
//! | `exchange` | later requests use the second plan |
//! | `crash-client C` | client C crashes, and restarts from what it saved |
//! | `crash-voter V` | the same of voter V |
//! | `evict V` | voter V lets its current grant go |
//! | `reborn-voter V` | voter V lost its state, and comes back with the number of grants that it gave |
//! | `anew-client C` | client C lost its state, and starts anew with its last stamp as its clock |
//! | `show C` | client C shows a guard the pass that it had when it was inside last |
//!
//! Empty lines, and lines that begin with `#`, are notes: they are left out.
//!
//! # What a crash is
//!
//! Save, then send: a client or a voter saves its state at each step of its own that sends a message,
//! or lets a client enter or leave. Other steps are silent. A crash brings it back to what it saved
//! last. So a crash undoes exactly the silent steps since then, and nobody else knew of them.
//!
//! A [`Player`] plays the turns in an [`IncidentWorld`](incidents::IncidentWorld), which saves, and brings
//! back what was saved. It also counts how many messages each client and each voter took since it was
//! saved: so many are forgotten in a crash.
//!
//! # What goes beyond crashes
//!
//! The numbers with which voters and clients come back are the smallest that the laws of `leases` allow. In
//! a service a voter has the end of its block of grants in their place, and a client a clock from a file
//! that is written ahead.
//!
//! A story has one guard, a [`Fence`](fence::Fence). A client that was never inside has no pass.
//!
//! # What is proved
//!
//! - A text is read if and only if, without notes, it is the text of a script. Otherwise the fault names
//!   its first bad line (`specs/Scripts.antt`).
//! - A story's world is the one that the definitions of `world` give for its turns: each step is saved
//!   and then sent, each crash is a restart, and each other turn but a show is an incident. If there are
//!   only steps, crashes and shows, at most one client is inside at a time.
//! - A story has a moment for each turn of its script, in order. It says what the turn did: how many
//!   messages were sent, from which number on, and whether a client entered or left; or the step's fault;
//!   or how many messages were forgotten; which grant was let go; what the guard did with a pass, and which
//!   grant in it is older (`specs/Plays.antt`, `specs/Guards.antt`).
//! - A way in from the end of a story ([`Player::into_way`]) is one of `ways`.
//!
//! Depends on `incidents`, `world`, `world_state` and `ways`, on `fence` for the guard, on `replay` for
//! the lines of steps, and on `dealer` for plans.
//!
//! ```
//! let script = read_story(alloc, b"world 1 9\n# a note\nask 0\ncrash-client 0\n")?;
//! let story = story_of(alloc, Plans::single(plan), &script)?; // two moments
//! ```
#![tactic(auto)]

mod guard;
mod happening;
mod player;
mod reading;
mod story;
mod turn;

pub use happening::{Happening, Late};
pub use player::Player;
pub use reading::{StoryScript, TurnLine, read_story};
pub use story::{Moment, Story, story_of};
pub use turn::Turn;
