//! Rounds of reminders.
ghost use Rattle.std.specs.Prelude.{◌≡◌, ◌+◌, Ok, None, IfErr, IfNone, IfOk, IfSome, MatchBool, MatchOption};
ghost use Rattle.requester.specs.Words.{is_asking, is_inside};
ghost use Rattle.world.specs.WayIn.{IsFree};
ghost use Rattle.world_state.specs.Steps.{client_at};
ghost use Rattle.ways.specs.Leaders.{IsBusy, IsLeader, LeadsBelow, NobodyAsks, is_earlier, request_of};
ghost use Rattle.ways.specs.Leads.{AreLedOn, LeadFurther, LeadsIn, went_of};

use crate::make::{Went, remind};
use message::Request;
use numbers::{MAX_CLIENTS, MAX_VOTERS};
use requester::{Phase, Requester};
use std::alloc::{AllocError, Global};
use world::{Step, World};

/// The most rounds of reminders.
const ROUNDS: usize = 8;

/// A way by which a client got in.
#[derive(Drop)]
pub struct WayIn {
    /// Reminders, and arrivals of messages that were sent after the first reminder.
    pub steps: Vec<Step>,
    /// The client that entered with the last step.
    pub client: u8,
}

/// Returns the phase of the client with this number. It is idle if there is none.
fn phase_of(world: &World, client: u8) -> Phase
    ensures { result ≡ (client_at world.now.state.clients client).phase }
{
    match world.client(client) {
        Some(it) => it.phase(),
        None => Phase::Idle,
    }
}

/// Returns whether the client with this number asks.
fn asks(world: &World, client: u8) -> bool
    ensures { result ≡ is_asking (client_at world.now.state.clients client).phase }
{
    match phase_of(world, client) {
        Phase::Asking => true,
        Phase::Idle | Phase::Inside => false,
    }
}

/// Returns whether the client with this number is inside.
fn is_in(world: &World, client: u8) -> bool
    ensures { result ≡ is_inside (client_at world.now.state.clients client).phase }
{
    match phase_of(world, client) {
        Phase::Inside => true,
        Phase::Idle | Phase::Asking => false,
    }
}

/// Returns the stamp of the client's current or last request, 0 if there was none.
fn stamp_of(world: &World, client: u8) -> u64
    ensures { result ≡ (client_at world.now.state.clients client).stamp }
{
    match world.client(client) {
        Some(it) => it.stamp(),
        None => 0,
    }
}

/// Returns the client's current or last request.
fn request_of(world: &World, client: u8) -> Request
    ensures { result ≡ request_of world.now.state client }
{
    Request {
        stamp: stamp_of(world, client),
        client,
    }
}

/// Returns whether some client is inside.
fn is_busy(world: &World) -> bool
    ensures { MatchBool result (IsBusy world.now.state) (IsFree world.now.state) }
{
    for client in 0..world.clients() {
        if is_in(world, client) {
            return true;
        }
    }
    false
}

/// Returns whether the client's request precedes that of the other one, if there is another one.
fn has_earlier(world: &World, client: u8, other: Option<u8>) -> bool
    ensures { result ≡ is_earlier world.now.state client other }
{
    match other {
        Some(other) => request_of(world, client).precedes(request_of(world, other)),
        None => true,
    }
}

/// Returns who leads of this client and those before it. Of those before it this is `first`.
fn leader_with(world: &World, client: u8, first: Option<u8>) -> Option<u8>
    requires { LeadsBelow world.now.state client first }
    ensures { LeadsBelow world.now.state (client + 1) result }
{
    if asks(world, client) && has_earlier(world, client, first) {
        Some(client)
    } else {
        first
    }
}

/// Returns the asking client whose request precedes that of each other one that asks. `None` if nobody
/// asks.
fn leader(world: &World) -> Option<u8>
    ensures { MatchOption result (NobodyAsks world.now.state) (IsLeader world.now.state) }
{
    let mut first = None;
    for client in 0..world.clients() {
        first = leader_with(world, client, first);
    }
    first
}

/// Returns whether the client waits for the vote of this voter.
fn lacks(world: &World, client: u8, voter: u8) -> bool {
    world.client(client).is_some_and(|it| it.quorum().contains(&voter) && it.held(voter).is_none())
}

/// Reminds the voters that this client waits for, one after the other.
fn remind_voters(
    world: &mut World,
    steps: &mut Vec<Step>,
    first: usize,
    client: u8,
) -> Result<Went, AllocError>
    ensures { LeadFurther first world.old steps.old.items (went_of result) world.new steps.new.items }
{
    for voter in 0..MAX_VOTERS as u8 {
        if lacks(world, client, voter) {
            match remind(world, steps, first, Step::RemindVoter(voter)) {
                Ok(Went::On) => {}
                other => return other,
            }
        }
    }
    Ok(Went::On)
}

/// Reminds the clients that ask, one after the other, without this one.
fn remind_others(
    world: &mut World,
    steps: &mut Vec<Step>,
    first: usize,
    leader: u8,
) -> Result<Went, AllocError>
    ensures { LeadFurther first world.old steps.old.items (went_of result) world.new steps.new.items }
{
    for client in 0..MAX_CLIENTS as u8 {
        if client != leader && asks(world, client) {
            match remind(world, steps, first, Step::RemindClient(client)) {
                Ok(Went::On) => {}
                other => return other,
            }
        }
    }
    Ok(Went::On)
}

/// Reminds the leader, the voters that it waits for, and the other clients, until somebody enters.
fn round(world: &mut World, steps: &mut Vec<Step>, first: usize) -> Result<Went, AllocError>
    ensures { LeadFurther first world.old steps.old.items (went_of result) world.new steps.new.items }
{
    let Some(leader) = leader(world) else {
        return Ok(Went::On);
    };
    match remind(world, steps, first, Step::RemindClient(leader)) {
        Ok(Went::On) => {}
        other => return other,
    }
    match remind_voters(world, steps, first, leader) {
        Ok(Went::On) => {}
        other => return other,
    }
    remind_others(world, steps, first, leader)
}

/// Makes rounds of reminders until somebody enters, or all rounds were made.
fn try_rounds(alloc: Global, world: &mut World) -> Result<Option<WayIn>, AllocError>
    ensures found { IfOk result (λ found. IfSome found (λ way. LeadsIn world.old world.new way.client way.steps.items)) }
    ensures missed { IfOk result (λ found. IfNone found (AreLedOn world.old world.new)) }
    ensures err { IfErr result (λ _. AreLedOn world.old world.new) }
{
    let mut steps = Vec::new(alloc);
    let first = world.sent();
    for _ in 0..ROUNDS {
        match round(world, &mut steps, first) {
            Ok(Went::On) => {}
            Ok(Went::In(client)) => return Ok(Some(WayIn { steps, client })),
            Err(error) => return Err(error),
        }
    }
    Ok(None)
}

/// Lets a client in, by reminders and by messages that are sent after them, and returns how. The
/// steps are made on the world.
///
/// Returns `None` if nobody asks or somebody is inside, and then makes no step. It also returns `None`
/// if nobody got in, as when the voters have no grants left. Fails only if it runs out of memory.
pub fn let_in(alloc: Global, world: &mut World) -> Result<Option<WayIn>, AllocError>
    ensures found { IfOk result (λ found. IfSome found (λ way. LeadsIn world.old world.new way.client way.steps.items)) }

    // If nobody got in, or memory ran out, the steps that were made helped, and nobody entered or left.
    ensures missed { IfOk result (λ found. IfNone found (AreLedOn world.old world.new)) }
    ensures err { IfErr result (λ _. AreLedOn world.old world.new) }

    // If somebody is inside, or nobody asks, no step is made.
    ensures busy { IsBusy world.old.state → (result ≡ Ok None) × (world.new ≡ world.old) }
    ensures unasked { NobodyAsks world.old.state → (result ≡ Ok None) × (world.new ≡ world.old) }
{
    if is_busy(world) {
        return Ok(None);
    }
    match leader(world) {
        Some(_) => try_rounds(alloc, world),
        None => Ok(None),
    }
}
