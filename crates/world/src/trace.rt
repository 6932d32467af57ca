//! Runs of a world.
ghost use Rattle.std.specs.Prelude.{◌≡◌, ◌≢◌, ◌≤◌, ◌++◌, ◌∷◌, [], IfOk, OnOk};
ghost use Rattle.numbers.specs.Bounds.{max_clients, max_limit};
ghost use Rattle.world_state.specs.declared.fault.WorldFault.TheVariants.{OutOfMemory};
ghost use Rattle.std.specs.List.{AllByRecursion};
ghost use Rattle.message.specs.Lines.{HasLine};
ghost use Rattle.world.specs.Runs.{DrawsInOrder, refusals_of, run_by, start_by};
ghost use Rattle.world_state.specs.Steps.{dealing_of};
ghost use Rattle.world.specs.Visible.{IsExclusive};

use crate::world::World;
use dealer::Plans;
use message::Message;
use std::alloc::{AllocError, Global};
use world_state::{Event, Step, WorldFault};

/// What a list of steps did in a new world.
#[derive(Drop)]
pub struct Trace {
    /// Who entered and who left, in order.
    pub visible: Vec<Event>,
    /// Who drew a ticket of the first plan, and which one, in order: tickets 0, 1, 2, ..
    pub draws: Vec<(u8, u64)>,
    /// Who drew a ticket of the second plan, and which one, in order: tickets 0, 1, 2, ..
    pub draws2: Vec<(u8, u64)>,
    /// Every message that was sent, by number.
    pub messages: Vec<Message>,
    /// The steps that were refused, with the reason. Places in the list of steps count from 0.
    pub refused: Vec<(usize, WorldFault)>,
}

/// Runs a list of steps in a new world of these plans, and returns what they did.
///
/// The world has 1 to 64 clients. Stamps and grants go from 1 to the limit, which is 1 to 2^62. A
/// step that is refused changes nothing, and the run goes on. At most one client is inside at a
/// time.
///
/// Fails only if it runs out of memory.
pub fn run(
    alloc: Global,
    plans: Plans,
    clients: u8,
    limit: u64,
    steps: &[Step],
) -> Result<Trace, AllocError>
    requires some { 1 ≤ clients }
    requires few { clients ≤ max_clients }
    requires least { 1 ≤ limit }
    requires most { limit ≤ max_limit }
    ensures visible { IfOk result (λ trace. trace.visible.items ≡ (run_by plans clients limit steps.now).visible) }
    ensures draws { IfOk result (λ trace. trace.draws.items ≡ (run_by plans clients limit steps.now).draws) }
    ensures draws2 { IfOk result (λ trace. trace.draws2.items ≡ (run_by plans clients limit steps.now).draws2) }
    ensures messages { IfOk result (λ trace. trace.messages.items ≡ (run_by plans clients limit steps.now).sent) }
    ensures refused { IfOk result (λ trace.
        trace.refused.items ≡ refusals_of (dealing_of plans) 0 steps.now (start_by plans clients limit)) }
    ensures exclusive { IfOk result (λ trace. IsExclusive trace.visible.items) }
    ensures lines { IfOk result (λ trace. AllByRecursion HasLine trace.messages.items) }
    ensures tickets { IfOk result (λ trace. DrawsInOrder trace.draws.items) }
    ensures tickets2 { IfOk result (λ trace. DrawsInOrder trace.draws2.items) }
{
    let mut world = World::new(alloc, plans, clients, limit)?;
    let mut refused = Vec::new(alloc);
    for (place, step) in steps.iter().enumerate() {
        match world.step(*step) {
            Ok(_) => {}
            Err(fault) => keep(&mut refused, place, fault)?,
        }
    }
    Ok(world.into_trace(refused))
}

/// Appends a refused step and its fault to the list. Fails if the fault is out of memory, or the
/// list runs out of memory.
fn keep(
    refused: &mut Vec<(usize, WorldFault)>,
    place: usize,
    fault: WorldFault,
) -> Result<(), AllocError>
    ensures kept { OnOk result (refused.new.items ≡ refused.old.items ++ (place, fault) ∷ []) }
    ensures reason { OnOk result (fault ≢ OutOfMemory) }
{
    match fault {
        WorldFault::OutOfMemory => Err(AllocError),
        _ => {
            refused.push((place, fault))?;
            Ok(())
        }
    }
}
