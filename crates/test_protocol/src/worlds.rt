//! Runs of the automata together.
use std::alloc::{AllocError, Global};
use test_plans::Kind;
use world::Step::{Ask, Deliver, Exchange, Leave};
use world::{Event, Step, Trace, WorldFault, run};

/// Two clients of any two of three voters race, and client 1 enters and leaves.
const RACE: &[Step] = &[
    Ask(0),
    Ask(1),
    Deliver(2),
    Deliver(0),
    Deliver(3),
    Deliver(4),
    Deliver(6),
    Deliver(5),
    Leave(1),
    Deliver(7),
];

/// The plan is exchanged while a client asks.
const EXCHANGED: &[Step] = &[
    Ask(0),
    Exchange,
    Ask(1),
    Deliver(0),
    Deliver(1),
    Deliver(5),
    Deliver(6),
    Deliver(2),
    Deliver(3),
    Deliver(4),
    Deliver(9),
    Leave(0),
    Deliver(10),
    Deliver(11),
    Deliver(12),
    Deliver(13),
    Exchange,
];

/// Client 0 or 1 enters or leaves.
macro_rules! event {
    ($client:literal, $entered:literal) => {
        Event {
            client: $client,
            entered: $entered,
        }
    };
}

/// What a run did: how many messages were sent, who entered and left, who drew which ticket of each plan,
/// and which steps were refused.
type Told = (
    usize,
    &'static [Event],
    [&'static [(u8, u64)]; 2],
    &'static [(usize, WorldFault)],
);

const RUNS: [(Kind, &[Step], Told); 2] = [
    (
        Kind::Majority,
        RACE,
        (
            10,
            &[event!(1, true), event!(1, false)],
            [&[(0, 0), (1, 1)], &[]],
            &[],
        ),
    ),
    (
        Kind::MajorityThenAll,
        EXCHANGED,
        (
            14,
            &[event!(0, true), event!(0, false), event!(1, true)],
            [&[(0, 0)], &[(1, 0)]],
            &[(16, WorldFault::NoSecondPlan)],
        ),
    ),
];

/// Returns whether a run did this.
fn is_told(trace: &Trace, told: &Told) -> bool {
    let (sent, visible, [draws, draws2], refused) = *told;
    (trace.messages.len() == sent)
        & (trace.visible.as_slice() == visible)
        & (trace.draws.as_slice() == draws)
        & (trace.draws2.as_slice() == draws2)
        & (trace.refused.as_slice() == refused)
}

/// Returns whether two clients make these steps, and do this.
fn makes(alloc: Global, kind: Kind, steps: &[Step], told: &Told) -> Result<bool, AllocError> {
    let plans = kind.plans(alloc).ok_or(AllocError)?;
    Ok(is_told(&run(alloc, plans, 2, 1000, steps)?, told))
}

#[test]
fn runs_are_told(rt: HostRuntime) {
    for (kind, steps, told) in &RUNS {
        assert!(rt; makes(rt.alloc(), *kind, steps, told) == Ok(true));
    }
}
