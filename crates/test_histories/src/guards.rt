//! Grants that are let go, voters and clients without their states, and a guard that the passes are shown.
use crate::play::{ALL, Step, World, played};
use crate::rules::Rule;
use fence::{Fence, Pass};
use std::alloc::{AllocError, Global};

/// Client 1 is granted voter 0's vote. Then something befalls, and voter 0 grants its vote to client 0.
/// Both LOCKED arrive.
macro_rules! second_grant {
    ($befalls:expr) => {
        &[
            Step::Ask(1, &[0]),
            Step::Ask(0, &[0]),
            Step::Deliver("request 1 0 1"),
            $befalls,
            Step::Deliver("request 0 0 1"),
            Step::Deliver("locked 0 1 1 1 1"),
            Step::Deliver("locked 0 0 1 1 1"),
            Step::Deliver("locked 0 0 1 2 1"),
        ]
    };
}

/// Client 1 is inside and loses its state. It starts anew with a clock behind its last stamp, and asks
/// under that stamp again: its old LOCKED lets it in.
const ANEW_WITH_LESS: &[Step] = &[
    Step::Ask(1, &[0]),
    Step::Deliver("request 1 0 1"),
    Step::Deliver("locked 0 1 1 1 1"),
    Step::Anew(1, 0),
    Step::Ask(1, &[0]),
    Step::Deliver("locked 0 1 1 1 1"),
];

/// Client 1 leaves, loses its state before its RELEASE arrives, starts anew with this clock, and asks. The
/// old LOCKED comes again, then client 0's request, and then the late RELEASE.
macro_rules! late_release {
    ($clock:literal) => {
        &[
            Step::Ask(1, &[0]),
            Step::Deliver("request 1 0 1"),
            Step::Deliver("locked 0 1 1 1 1"),
            Step::Leave(1),
            Step::Anew(1, $clock),
            Step::Ask(1, &[0]),
            Step::Deliver("locked 0 1 1 1 1"),
            Step::Ask(0, &[0]),
            Step::Deliver("request 0 0 1"),
            Step::Deliver("release 1 0 1"),
            Step::Deliver("locked 0 0 1 2 1"),
        ]
    };
}

/// How many clients are inside at the end of a history, and the turns that a guard gives to the passes of
/// clients 0 and 1: that of the first one, twice, of the second one, and of the first one again; 0 if it
/// is refused.
type Ending = (usize, Option<[u64; 4]>);

const ENDINGS: [(&[Step], Ending); 7] = [
    // the guard refuses whoever has the older grant: client 0 has the newer one, and shows it first
    (second_grant!(Step::Evict(0, 1)), (2, Some([1, 1, 0, 1]))),
    // no grant with this number was given
    (second_grant!(Step::Evict(0, 2)), (1, None)),
    // a LOCKED of the voter that is reborn may still come
    (second_grant!(Step::Reborn(0, 1)), (2, Some([1, 1, 0, 1]))),
    // it gave more grants than that: the guard can't tell two clients with one grant apart
    (second_grant!(Step::Reborn(0, 0)), (2, Some([1, 1, 1, 1]))),
    (ANEW_WITH_LESS, (1, None)),
    // a clock that is the last stamp, and one that is behind it
    (late_release!(1), (1, None)),
    (late_release!(0), (2, Some([1, 1, 0, 1]))),
];

/// Returns the turn of each of two passes, of the first one twice and then once more; 0 if it is refused.
fn turns(first: &Pass, second: &Pass) -> [u64; 4] {
    let mut fence = Fence::new();
    [
        fence.admit(first).unwrap_or(0),
        fence.admit(first).unwrap_or(0),
        fence.admit(second).unwrap_or(0),
        fence.admit(first).unwrap_or(0),
    ]
}

/// Returns the turns of the passes of clients 0 and 1, if both are inside.
fn shown(world: &World) -> Option<[u64; 4]> {
    Some(turns(&world.pass(0)?, &world.pass(1)?))
}

/// Returns how a history ends.
fn ending(alloc: Global, steps: &[Step]) -> Result<Ending, AllocError> {
    let world = played(alloc, Rule::Sound, ALL, steps)?;
    Ok((world.inside(), shown(&world)))
}

#[test]
fn guards_tell_clients_apart_by_their_grants(rt: HostRuntime) {
    for (steps, wanted) in &ENDINGS {
        assert!(rt; ending(rt.alloc(), steps) == Ok(*wanted));
    }
}

/// Client 1 enters under stamp 2. Client 0 has asked under stamp 1, and its request is slow.
const FIRST: &[Step] = &[
    Step::Ask(0, &[0]),
    Step::Ask(1, &[0]),
    Step::GiveUp(1),
    Step::Ask(1, &[0]),
    Step::Deliver("request 1 0 2"),
    Step::Deliver("locked 0 1 2 1 2"),
];

/// Client 1 leaves, and client 0 enters under stamp 1.
const SECOND: &[Step] = &[
    Step::Leave(1),
    Step::Deliver("release 1 0 2"),
    Step::Deliver("request 0 0 1"),
    Step::Deliver("locked 0 0 1 2 2"),
];

/// Returns the stamps of client 1 and client 0, each when it has just entered, and how many entered.
fn stamps(alloc: Global) -> Result<([Option<u64>; 2], [u64; 4]), AllocError> {
    let mut world = played(alloc, Rule::Sound, ALL, FIRST)?;
    let first = world.stamp(1);
    world.play(SECOND)?;
    Ok(([first, world.stamp(0)], world.entries))
}

#[test]
fn stamps_are_no_fencing_numbers(rt: HostRuntime) {
    assert!(rt; stamps(rt.alloc()) == Ok(([Some(2), Some(1)], [1, 1, 0, 0])));
}
