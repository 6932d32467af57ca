//! Worlds whose clients and voters crash and restart.
ghost use Rattle.std.specs.Prelude.{◌≡◌, ◌<◌, ◌≤◌, IfErr, IfOk, Ok, OnErr, OnOk, Some, length, option_map, slice_get};
ghost use Rattle.numbers.specs.Bounds.{max_clients, max_limit};
ghost use Rattle.message.specs.Lines.{HasLine};
ghost use Rattle.world.specs.Restarts.{Goes, OneClient, OneVoter, Restarts, maker};
ghost use Rattle.world.specs.States.{node_of, saved_of};
ghost use Rattle.world_state.specs.States.{plans_of};
ghost use Rattle.world.specs.SavedWorlds.{IsSavedWorld, begin_by, happens_by, live_of, live_step_of};
ghost use Rattle.world_state.specs.Steps.{Refuses, outcome_of};
ghost use Rattle.world.specs.Visible.{IsExclusive};

use crate::laws::saved_worlds_stay_sound;
use crate::stored::{Maker, Stored, copy_client, copy_voter};
use crate::world::{World, new_clients, new_voters};
use dealer::Plans;
use message::Message;
use requester::Requester;
use std::alloc::{AllocError, Global};
use std::marker::Model;
use voter::Voter;
use world_state::{Cycles, Event, Step, Stepped, WorldFault};

/// A world whose clients and voters are saved, and restart from what they saved.
///
/// Save, then send: a step that sends a message, or lets a client enter or leave, saves the client or
/// the voter that made it. Other steps are silent, and save nothing. So a restart takes back the silent
/// steps since the last one that was saved, and nobody else knew of them.
///
/// Contracts see it as a `PlannedSaved`: the plans, and a `Saved`, which has the live world and what is
/// saved. The other calls are of the live world, as those of [`World`].
#[derive(Drop)]
pub struct SavedWorld {
    cycles: Cycles,
    stored: Stored,
}

impl Model for SavedWorld {
    ghost use Rattle.world.specs.States.{saved_of};
    ghost use Rattle.world_state.specs.States.{plans_of};
    ghost use Rattle.std.specs.Coded.{codes};
    ghost use Rattle.voter.specs.contracts.state.VoterState as known;
    ghost use Rattle.world.specs.SavedWorlds.{IsSavedWorld, PlannedSaved};

    ghost Value = { PlannedSaved };

    ghost coded = { Prim.hlevel (codes, known.the_row.coded) };

    ghost view = { λ a. record { plans = plans_of a.cycles; saved = saved_of a.stored } };

    ghost invariant = { λ a. IsSavedWorld (record { plans = plans_of a.cycles; saved = saved_of a.stored }) };
}

impl SavedWorld {
    /// Returns a new world, as [`World::new`] does. The saved state of each client and each voter is
    /// its first one. Fails only if it runs out of memory.
    pub fn new(
        alloc: Global,
        plans: Plans,
        clients: u8,
        limit: u64,
    ) -> Result<SavedWorld, AllocError>
        requires some { 1 ≤ clients }
        requires few { clients ≤ max_clients }
        requires least { 1 ≤ limit }
        requires most { limit ≤ max_limit }
        ensures { IfOk result (λ world. world ≡ record { plans = plans; saved = begin_by plans clients limit }) }
    {
        saved_worlds_stay_sound();
        let saved_clients = new_clients(alloc, clients, limit)?;
        let world = World::new(alloc, plans, clients, limit)?;
        let saved_voters = new_voters(alloc, usize::from(world.voters()), limit)?;
        let (cycles, state) = world.into_parts();
        Ok(SavedWorld {
            cycles,
            stored: Stored {
                state,
                clients: saved_clients,
                voters: saved_voters,
            },
        })
    }

    /// Makes one step, and saves whoever made it unless the step was silent. Returns what the step did.
    /// A step that fails changes nothing; it fails as [`World::step`] does.
    pub fn step(&mut self, step: Step) -> Result<Stepped, WorldFault>
        ensures stepped { IfOk result (λ s. live_step_of self.old step ≡ Ok (outcome_of s self.new.saved.live)) }
        ensures happens { OnOk result (self.new ≡ happens_by self.old (Goes step)) }
        ensures refused { IfErr result (Refuses (live_step_of self.old step)) }
        ensures unchanged { OnErr result (self.new ≡ self.old) }
    {
        saved_worlds_stay_sound();
        let room = self.stored.state.make_room().is_ok();
        self.stored.step(&self.cycles, step, room)
    }

    /// Returns who makes a step.
    pub fn maker(&self, step: Step) -> Maker
        ensures { node_of result ≡ maker self.now.saved.live step }
    {
        self.stored.maker(step)
    }

    /// Has a client crash, and restart from what it saved. Fails only with `NoSuchClient`.
    pub fn restart_client(&mut self, client: u8) -> Result<(), WorldFault>
        ensures restarted { OnOk result (self.new ≡ happens_by self.old (Restarts (OneClient client))) }
        ensures there { OnOk result (client < length self.old.saved.live.clients) }
        ensures missing { IfErr result (λ fault.
            (fault ≡ WorldFault.NoSuchClient client) × (length self.old.saved.live.clients ≤ client)) }
        ensures unchanged { OnErr result (self.new ≡ self.old) }
    {
        saved_worlds_stay_sound();
        if let Some(fault) = self.stored.state.client_fault(client) {
            return Err(fault);
        }
        copy_client(&mut self.stored.state.clients, &self.stored.clients, client);
        Ok(())
    }

    /// Has a voter crash, and restart from what it saved. Fails only with `NoSuchVoter`.
    pub fn restart_voter(&mut self, voter: u8) -> Result<(), WorldFault>
        ensures restarted { OnOk result (self.new ≡ happens_by self.old (Restarts (OneVoter voter))) }
        ensures there { OnOk result (voter < length self.old.saved.live.voters) }
        ensures missing { IfErr result (λ fault.
            (fault ≡ WorldFault.NoSuchVoter voter) × (length self.old.saved.live.voters ≤ voter)) }
        ensures unchanged { OnErr result (self.new ≡ self.old) }
    {
        saved_worlds_stay_sound();
        if let Some(fault) = self.stored.state.voter_fault(voter) {
            return Err(fault);
        }
        copy_voter(&mut self.stored.state.voters, &self.stored.voters, voter);
        Ok(())
    }

    /// Returns how many messages were sent.
    pub fn sent(&self) -> usize
        ensures { result ≡ length self.now.saved.live.sent }
    {
        self.stored.state.sent.len()
    }

    /// Returns the message with this number. Messages are numbered from 0 in the order in which
    /// they were sent, and each has a line of text.
    pub fn message(&self, number: usize) -> Message
        requires { number < length self.now.saved.live.sent }
        ensures value { slice_get self.now.saved.live.sent number ≡ Some result }
        ensures line { HasLine result }
    {
        saved_worlds_stay_sound();
        self.stored.state.sent[number]
    }

    /// Returns the client with this number as it is, if there is one.
    pub fn client(&self, number: u8) -> Option<&Requester>
        ensures { option_map (λ c. c.now) result ≡ slice_get self.now.saved.live.clients number }
    {
        self.stored.state.clients.get(usize::from(number))
    }

    /// Returns the client with this number as it was saved, if there is one.
    pub fn saved_client(&self, number: u8) -> Option<&Requester>
        ensures { option_map (λ c. c.now) result ≡ slice_get self.now.saved.clients number }
    {
        self.stored.clients.get(usize::from(number))
    }

    /// Returns the voter with this number as it is, if there is one.
    pub fn voter(&self, number: u8) -> Option<&Voter>
        ensures { option_map (λ v. v.now) result ≡ slice_get self.now.saved.live.voters number }
    {
        self.stored.state.voters.get(usize::from(number))
    }

    /// Returns the voter with this number as it was saved, if there is one.
    pub fn saved_voter(&self, number: u8) -> Option<&Voter>
        ensures { option_map (λ v. v.now) result ≡ slice_get self.now.saved.voters number }
    {
        self.stored.voters.get(usize::from(number))
    }

    /// Returns who entered and who left, in order. At most one client is inside at a time.
    pub fn visible(&self) -> &[Event]
        ensures value { result.now ≡ self.now.saved.live.visible }
        ensures exclusive { IsExclusive result.now }
    {
        saved_worlds_stay_sound();
        &self.stored.state.visible
    }

    /// Returns the cycles of the plans, and the state with what is saved.
    pub fn into_parts(self) -> (Cycles, Stored)
        ensures plans { plans_of result.0 ≡ self.plans }
        ensures stored { saved_of result.1 ≡ self.saved }
        ensures kept { IsSavedWorld self }
    {
        (self.cycles, self.stored)
    }

    /// Returns the live world. Steps alone lead to it, without those that restarts took back.
    pub fn into_world(self) -> World
        ensures { result ≡ live_of self }
    {
        saved_worlds_stay_sound();
        World::of(self.cycles, self.stored.state)
    }
}
