//! Steps that help, one after the other.
ghost use Rattle.std.specs.Prelude.{◌≡◌, ◌≢◌, ◌<◌, ◌≤◌, ◌++◌, ℕ, List, length};
ghost use Rattle.requester.specs.declared.state.Seen.TheVariants.{Nothing, Entered, Left};
ghost use Rattle.world.specs.WayIn.{Helps};
ghost use Rattle.world_state.specs.declared.step.Event.{Event};
ghost use Rattle.world_state.specs.Steps.{events};
ghost use Rattle.ways.specs.declared.make.Went.TheVariants.{On, In};
ghost use Rattle.ways.specs.Leads.{LeadFurther, went_of};

use requester::Seen;
use std::alloc::AllocError;
use world::{Step, World, WorldFault};

/// The most messages that arrive after one reminder.
const MOST_ARRIVALS: usize = 10_000;

/// How a world goes on after a step that helps.
pub enum Went {
    /// Nobody entered yet.
    On,
    /// This client entered.
    In(u8),
}

/// Returns the client of the last event. There has to be one.
fn last_client(world: &World) -> u8
    requires { 0 < length world.now.state.visible }
    ensures { (before : List Event) (c : ℕ) → world.now.state.visible ≡ before ++ events c Entered → result ≡ c }
{
    match world.visible().last() {
        Some(event) => event.client,
        None => unreachable!(),
    }
}

/// Returns how a world goes on after a step in which this was seen. No step that helps lets a client
/// leave.
fn went_by(world: &World, seen: Seen) -> Went
    requires stays { seen ≢ Left }
    requires event { seen ≡ Entered → 0 < length world.now.state.visible }
    ensures nothing { seen ≡ Nothing → result ≡ On }
    ensures entered { seen ≡ Entered → (before : List Event) (c : ℕ) → world.now.state.visible ≡ before ++ events c Entered
        → result ≡ In c }
{
    match seen {
        Seen::Nothing => Went::On,
        Seen::Entered => Went::In(last_client(world)),
        Seen::Left => unreachable!(),
    }
}

/// Makes a step, and keeps it unless it is refused. A step that is refused changes nothing. Memory
/// for the step is reserved before it is made, so a call that fails makes none.
pub fn make(
    world: &mut World,
    steps: &mut Vec<Step>,
    first: usize,
    step: Step,
) -> Result<Went, AllocError>
    requires { Helps first step }
    ensures { LeadFurther first world.old steps.old.items (went_of result) world.new steps.new.items }
{
    if steps.reserve(1).is_err() {
        return Err(AllocError);
    }
    match world.step(step) {
        Ok(stepped) => {
            steps.push_reserved(step);
            Ok(went_by(world, stepped.seen))
        }
        Err(WorldFault::OutOfMemory) => Err(AllocError),
        Err(_) => Ok(Went::On),
    }
}

/// Lets messages arrive in order, from this one on, until somebody enters or none is left.
fn deliver_from(
    world: &mut World,
    steps: &mut Vec<Step>,
    first: usize,
    from: usize,
) -> Result<Went, AllocError>
    requires { first ≤ from }
    ensures { LeadFurther first world.old steps.old.items (went_of result) world.new steps.new.items }
{
    for number in from..from.saturating_add(MOST_ARRIVALS) {
        if number >= world.sent() {
            return Ok(Went::On);
        }
        match make(world, steps, first, Step::Deliver(number as u64)) {
            Ok(Went::On) => {}
            other => return other,
        }
    }
    Ok(Went::On)
}

/// Reminds a client or a voter, and lets the messages arrive that are sent from then on.
pub fn remind(
    world: &mut World,
    steps: &mut Vec<Step>,
    first: usize,
    reminder: Step,
) -> Result<Went, AllocError>
    requires { Helps first reminder }
    ensures { LeadFurther first world.old steps.old.items (went_of result) world.new steps.new.items }
{
    let from = world.sent().max(first);
    match make(world, steps, first, reminder) {
        Ok(Went::On) => deliver_from(world, steps, first, from),
        other => other,
    }
}
