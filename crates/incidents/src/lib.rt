//! Worlds in which more happens than steps and crashes: a voter lets its grant go, a voter is reborn, and
//! a client starts anew.
//!
//! An [`IncidentWorld`] does all that a [`SavedWorld`](world::SavedWorld) of `world` does: it makes steps,
//! saves, and restarts clients and voters. Three more calls make *incidents* (`specs/Incidents.antt` of
//! `world`):
//!
//! - [`IncidentWorld::evict`]: a voter takes a RELEASE of its own grant, in the client's name. The client
//!   is not asked, and may be inside;
//! - [`IncidentWorld::bring_back`]: a voter that lost its state comes back with a number of grants that is
//!   at least the number that it gave;
//! - [`IncidentWorld::start_anew`]: a client that lost its state comes back idle, with a clock that is at
//!   least the stamp of its last request. If it was inside, it left by this.
//!
//! # What is proved
//!
//! - Each call is exactly its incident, or fails, says why, and changes nothing. So the laws of
//!   `leases`, which are over every list of incidents, hold of what these calls make.
//! - Whatever befalls, clients, voters and messages stay numbered and in range. Each message has a line of
//!   text, if those have one that nobody sent ([`worlds_stay_fit`]).
//! - As long as nothing but steps and restarts happened, at most one client is inside at a time, and the
//!   world can be turned into a [`World`](world::World) ([`worlds_stay_calm`]).
//!
//! Depends on `world` and `world_state`, and on `voter`, `requester`, `message`, `dealer`,
//! `certificate`, `quorum_set` and `numbers`.
//!
//! ```
//! let mut world = IncidentWorld::new(alloc, Plans::single(plan), 2, 1000)?;
//! world.step(Step::Ask(1))?;
//! world.step(Step::Deliver(0))?;        // voter 0 grants its vote to client 1
//! let evicted = world.evict(0)?;        // and lets the grant go
//! evicted.grant.client;                 // 1
//! ```
#![tactic(auto)]

mod fault;
mod incident_world;
mod laws;
mod parts;

pub use fault::IncidentFault;
pub use incident_world::IncidentWorld;
pub use laws::{worlds_stay_calm, worlds_stay_fit};
pub use parts::Evicted;
