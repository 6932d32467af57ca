//! A world that is run step by step, and what can be seen of it.
ghost use Rattle.std.specs.Prelude.{◌≤◌, ◌^◌};

use message::Message;
use std::alloc::{AllocError, Global};
use test_plans::Kind;
use world::{Event, Step, Stepped, Trace, World, WorldFault};

/// How many clients a world has, and its limit of stamps and grants.
#[derive(Clone, Copy)]
pub struct Sizes {
    /// The number of clients, 1 to 64.
    pub clients: u8,
    /// The limit, 1 to 2^40.
    pub limit: u64,
    ghost some: { 1 ≤ clients },
    ghost few: { clients ≤ 64 },
    ghost least: { 1 ≤ limit },
    ghost most: { limit ≤ 2 ^ 40 },
}

/// A world, and the steps that it refused.
#[derive(Drop)]
pub struct Fold {
    /// The world.
    pub world: World,
    refused: Vec<(usize, WorldFault)>,
    steps: usize,
}

impl Fold {
    /// Returns a new world of these coteries.
    pub fn of_kind(alloc: Global, kind: Kind, sizes: Sizes) -> Result<Fold, AllocError> {
        let plans = kind.plans(alloc).ok_or(AllocError)?;
        Ok(Fold {
            world: World::new(alloc, plans, sizes.clients, sizes.limit)?,
            refused: Vec::new(alloc),
            steps: 0,
        })
    }

    /// Makes a step, and returns what it did. A step that is refused is noted.
    pub fn play(&mut self, step: Step) -> Result<Result<Stepped, WorldFault>, AllocError> {
        let place = self.steps;
        self.steps = self.steps.saturating_add(1);
        let answer = self.world.step(step);
        if let Err(fault) = answer {
            self.refused.push((place, fault))?;
        }
        Ok(answer)
    }

    /// Returns whether the first messages are these.
    fn has_sent(&self, messages: &[Message]) -> bool {
        for (number, message) in messages.iter().enumerate() {
            if number >= self.world.sent() || self.world.message(number) != *message {
                return false;
            }
        }
        true
    }

    /// Returns whether a run made the same messages, events and refusals.
    pub fn is_written_in(&self, trace: &Trace) -> bool {
        (self.world.sent() == trace.messages.len())
            & self.has_sent(&trace.messages)
            & (self.world.visible() == trace.visible.as_slice())
            & (self.refused.as_slice() == trace.refused.as_slice())
    }
}

/// Returns whether at most one client is inside at a time: a client enters only if nobody is
/// inside, and leaves only if it is inside.
pub fn is_exclusive(events: &[Event]) -> bool {
    let mut inside = None;
    for event in events {
        match inside {
            None if event.entered => inside = Some(event.client),
            Some(client) if !event.entered && client == event.client => inside = None,
            _ => return false,
        }
    }
    true
}
