//! Worlds, which make steps one by one.
ghost use Rattle.std.specs.Prelude.{◌≡◌, ◌<◌, ◌≤◌, IfErr, IfOk, Ok, OnErr, Some, length, map, option_map, slice_get};
ghost use Rattle.std.specs.List.{AllByRecursion, range_with_len};
ghost use Rattle.numbers.specs.Bounds.{max_voters, max_clients, max_limit};
ghost use Rattle.requester.specs.Steps as requesters;
ghost use Rattle.voter.specs.Steps as polls;
ghost use Rattle.message.specs.Lines.{HasLine};
ghost use Rattle.world.specs.Runs.{DrawsInOrder, IsReached, start_by};
ghost use Rattle.world_state.specs.States.{contents_of, plans_of};
ghost use Rattle.world_state.specs.Steps.{Refuses, outcome_of, step_of};
ghost use Rattle.world.specs.Visible.{IsExclusive};

use crate::laws::worlds_stay_sound;
use crate::trace::Trace;
use arrayvec::ArrayVec;
use dealer::Plans;
use message::Message;
use quorum_set::Side;
use requester::Requester;
use std::alloc::{AllocError, Global};
use std::marker::Model;
use voter::Voter;
use world_state::{Cycles, Event, State, Step, Stepped, WorldFault};

/// The clients and the voters of one lock, and every message that was ever sent.
///
/// Contracts see it as a `Planned`: the plans, which give the quorum of each ticket, and a
/// `WorldState`.
#[derive(Drop)]
pub struct World {
    cycles: Cycles,
    state: State,
}

impl Model for World {
    ghost use Rattle.world.specs.States.{IsWorld};
    ghost use Rattle.world_state.specs.States.{plans_of, contents_of};
    ghost use Rattle.std.specs.Coded.{codes};
    ghost use Rattle.voter.specs.contracts.state.VoterState as known;
    ghost use Rattle.world_state.specs.Steps.{Planned};

    ghost Value = { Planned };

    ghost coded = { Prim.hlevel (codes, known.the_row.coded) };

    ghost view = { λ a. record { plans = plans_of a.cycles; state = contents_of a.state } };

    ghost invariant = { λ a. IsWorld (record { plans = plans_of a.cycles; state = contents_of a.state }) };
}

impl World {
    /// Returns a new world, with a new voter for each voter of the plans and 1 to 64 new clients.
    /// Stamps and grants go from 1 to the limit, which is 1 to 2^62. Fails only if it runs out of
    /// memory.
    pub fn new(alloc: Global, plans: Plans, clients: u8, limit: u64) -> Result<World, AllocError>
        requires some { 1 ≤ clients }
        requires few { clients ≤ max_clients }
        requires least { 1 ≤ limit }
        requires most { limit ≤ max_limit }
        ensures { IfOk result (λ world. world ≡ record { plans = plans; state = start_by plans clients limit }) }
    {
        worlds_stay_sound();
        let cycles = Cycles::of(alloc, plans)?;
        let voters = new_voters(alloc, cycles.voters(), limit)?;
        let clients = new_clients(alloc, clients, limit)?;
        Ok(World {
            cycles,
            state: State {
                clients,
                voters,
                sent: Vec::new(alloc),
                draws: Vec::new(alloc),
                draws2: Vec::new(alloc),
                side: Side::First,
                visible: Vec::new(alloc),
                out: ArrayVec::new(),
                replies: ArrayVec::new(),
            },
        })
    }

    /// Returns the world of these parts. Steps have led to it from a new one.
    pub fn of(cycles: Cycles, state: State) -> World
        requires { IsReached (record { plans = plans_of cycles; state = contents_of state }) }
        ensures { result ≡ record { plans = plans_of cycles; state = contents_of state } }
    {
        worlds_stay_sound();
        World { cycles, state }
    }

    /// Returns the cycles of the plans, and the state.
    pub(crate) fn into_parts(self) -> (Cycles, State)
        ensures plans { plans_of result.0 ≡ self.plans }
        ensures state { contents_of result.1 ≡ self.state }
        ensures reached { IsReached self }
    {
        (self.cycles, self.state)
    }

    /// Makes one step, and returns what it did. A step that fails changes nothing.
    ///
    /// Fails with the first of these that applies:
    ///
    /// - `NoSuchMessage`, `NoSuchClient` or `NoSuchVoter` if none has the step's number;
    /// - `NoSecondPlan` if the step exchanges the plan, and there is none or it is in use already;
    /// - the client's fault if its call fails;
    /// - `GrantsSpent` if the voter refuses the message;
    /// - `OutOfMemory`.
    pub fn step(&mut self, step: Step) -> Result<Stepped, WorldFault>
        ensures stepped { IfOk result (λ s. step_of self.old step ≡ Ok (outcome_of s self.new.state)) }
        ensures refused { IfErr result (Refuses (step_of self.old step)) }
        ensures unchanged { OnErr result (self.new ≡ self.old) }
        ensures plans { self.new.plans ≡ self.old.plans }
        ensures exclusive { IsExclusive self.new.state.visible }
    {
        worlds_stay_sound();
        let room = self.state.make_room().is_ok();
        self.state.act(&self.cycles, step, room)
    }

    /// Returns how many messages were sent.
    pub fn sent(&self) -> usize
        ensures { result ≡ length self.now.state.sent }
    {
        self.state.sent.len()
    }

    /// Returns the message with this number. Messages are numbered from 0 in the order in which
    /// they were sent, and each has a line of text.
    pub fn message(&self, number: usize) -> Message
        requires { number < length self.now.state.sent }
        ensures value { slice_get self.now.state.sent number ≡ Some result }
        ensures line { HasLine result }
    {
        self.state.sent[number]
    }

    /// Returns how many clients there are: at most 64. They are numbered from 0.
    pub fn clients(&self) -> u8
        ensures value { result ≡ length self.now.state.clients }
        ensures few { result ≤ max_clients }
    {
        self.state.clients.len() as u8
    }

    /// Returns the client with this number, if there is one.
    pub fn client(&self, number: u8) -> Option<&Requester>
        ensures { option_map (λ c. c.now) result ≡ slice_get self.now.state.clients number }
    {
        self.state.clients.get(usize::from(number))
    }

    /// Returns how many voters there are: at most 64. They are numbered from 0.
    pub fn voters(&self) -> u8
        ensures value { result ≡ length self.now.state.voters }
        ensures few { result ≤ max_voters }
    {
        self.state.voters.len() as u8
    }

    /// Returns the voter with this number, if there is one.
    pub fn voter(&self, number: u8) -> Option<&Voter>
        ensures { option_map (λ v. v.now) result ≡ slice_get self.now.state.voters number }
    {
        self.state.voters.get(usize::from(number))
    }

    /// Returns who entered and who left, in order. At most one client is inside at a time.
    pub fn visible(&self) -> &[Event]
        ensures value { result.now ≡ self.now.state.visible }
        ensures exclusive { IsExclusive result.now }
    {
        &self.state.visible
    }

    /// Turns the world into a trace of what it did, with the steps that it refused.
    pub(crate) fn into_trace(self, refused: Vec<(usize, WorldFault)>) -> Trace
        ensures visible { result.visible.items ≡ self.state.visible }
        ensures draws { result.draws.items ≡ self.state.draws }
        ensures draws2 { result.draws2.items ≡ self.state.draws2 }
        ensures messages { result.messages.items ≡ self.state.sent }
        ensures refused { result.refused ≡ refused }
        ensures exclusive { IsExclusive result.visible.items }
        ensures lines { AllByRecursion HasLine result.messages.items }
        ensures tickets { DrawsInOrder result.draws.items }
        ensures tickets2 { DrawsInOrder result.draws2.items }
    {
        let state = self.state;
        Trace {
            visible: state.visible,
            draws: state.draws,
            draws2: state.draws2,
            messages: state.sent,
            refused,
        }
    }
}

/// Returns `count` new voters, numbered from 0.
pub(crate) fn new_voters(alloc: Global, count: usize, limit: u64) -> Result<Vec<Voter>, AllocError>
    requires few { count ≤ max_voters }
    requires least { 1 ≤ limit }
    requires most { limit ≤ max_limit }
    ensures { IfOk result (λ voters. voters.items ≡ map (λ v. polls.start v limit) (range_with_len 0 count)) }
{
    let mut voters = Vec::with_capacity(alloc, count)?;
    for v in 0..count {
        voters.push(Voter::new(v as u8, limit))?;
    }
    Ok(voters)
}

/// Returns `count` new clients, numbered from 0.
pub(crate) fn new_clients(
    alloc: Global,
    count: u8,
    limit: u64,
) -> Result<Vec<Requester>, AllocError>
    requires few { count ≤ max_clients }
    requires least { 1 ≤ limit }
    requires most { limit ≤ max_limit }
    ensures { IfOk result (λ clients. clients.items ≡ map (λ c. requesters.start c limit) (range_with_len 0 count)) }
{
    let mut clients = Vec::with_capacity(alloc, usize::from(count))?;
    for c in 0..count {
        clients.push(Requester::new(c, limit))?;
    }
    Ok(clients)
}
