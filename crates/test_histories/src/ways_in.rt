//! Worlds in which messages were lost, and who gets in by reminders.
use dealer::Plans;
use std::alloc::{AllocError, Global};
use test_plans::majority_plan;
use ways::let_in;
use world::Step::{Ask, Deliver, Leave};
use world::{Step, World};

/// Steps of a world of three voters and three clients, of which any two voters are a quorum, and who gets
/// in then.
const ROWS: [(&[Step], u8); 5] = [
    // all messages of one client were lost
    (&[Ask(2)], 2),
    // all messages of three clients were lost
    (&[Ask(2), Ask(1), Ask(0)], 0),
    // each of two clients has a vote of the other's quorum, and what follows was lost
    (
        &[Ask(0), Ask(1), Ask(2), Deliver(0), Deliver(3), Deliver(5)],
        0,
    ),
    // one round of reminders is not enough
    (&[Ask(1), Deliver(0), Ask(0), Ask(2), Deliver(5)], 0),
    // a RELEASE was lost, and its voter's vote is out to an idle client
    (
        &[
            Ask(0),
            Deliver(0),
            Deliver(1),
            Deliver(2),
            Deliver(3),
            Leave(0),
            Deliver(4),
            Ask(1),
            Ask(2),
        ],
        1,
    ),
];

/// Returns who gets in, if anybody does.
fn let_in_now(alloc: Global, world: &mut World) -> Result<Option<u8>, AllocError> {
    match let_in(alloc, world)? {
        Some(way) => Ok(Some(way.client)),
        None => Ok(None),
    }
}

/// Returns who gets in after these steps, if anybody does.
fn let_in_after(alloc: Global, steps: &[Step]) -> Result<Option<u8>, AllocError> {
    let plan = majority_plan(alloc).ok_or(AllocError)?;
    let mut world = World::new(alloc, Plans::single(plan), 3, 9)?;
    for step in steps {
        let _ = world.step(*step);
    }
    let_in_now(alloc, &mut world)
}

#[test]
fn whoever_leads_gets_in(rt: HostRuntime) {
    for (steps, client) in &ROWS {
        assert!(rt; let_in_after(rt.alloc(), steps) == Ok(Some(*client)));
    }
}
