//! Worlds with incidents.
ghost use Rattle.std.specs.Prelude.{◌≡◌, ◌<◌, ◌≤◌, IfErr, IfNone, IfOk, IfSome, Ok, OnErr, OnOk, Some, length, option_map, slice_get, true};
ghost use Rattle.numbers.specs.Bounds.{max_clients, max_limit};
ghost use Rattle.incidents.specs.Calls.{IsCalm, RefusesAnew, RefusesClient, RefusesEviction, RefusesRebirth, RefusesVoter, befalls_by, grant_at, letting_go};
ghost use Rattle.incidents.specs.Fit.{IsFit};
ghost use Rattle.world.specs.Incidents.{Happens, Hears, IsReborn, StartsAnew, is_above, is_ahead};
ghost use Rattle.message.specs.Lines.{HasLine};
ghost use Rattle.requester.specs.declared.state.Seen.TheVariants.{Nothing};
ghost use Rattle.world.specs.Restarts.{Goes, OneClient, OneVoter, Restarts, maker};
ghost use Rattle.world.specs.SavedWorlds.{begin_by, live_of, live_step_of};
ghost use Rattle.world.specs.States.{node_of};
ghost use Rattle.world_state.specs.Steps.{Refuses, client_at, outcome_of, vote, voter_at};
ghost use Rattle.world.specs.Visible.{IsExclusive};

use crate::fault::IncidentFault;
use crate::laws::{worlds_stay_calm, worlds_stay_fit};
use crate::parts::{
    Evicted, be_anew, be_reborn, count_of, crash_client, crash_voter, let_go, stamp_of,
};
use dealer::Plans;
use message::Message;
use requester::Requester;
use std::alloc::{AllocError, Global};
use std::marker::Model;
use voter::Voter;
use world::{Cycles, Event, Maker, SavedWorld, Step, Stepped, Stored, World, WorldFault};

/// A world whose clients and voters are saved and restart, as a [`SavedWorld`], and in which voters let
/// grants go, and voters and clients come back without their states.
///
/// Contracts see it as a `PlannedSaved`, as a `SavedWorld`. A call that fails changes nothing. As long as
/// nothing but steps and restarts happened, the world is calm (`IsCalm`): then all holds that holds of a
/// `SavedWorld`.
#[derive(Drop)]
pub struct IncidentWorld {
    cycles: Cycles,
    stored: Stored,
}

impl Model for IncidentWorld {
    ghost use Rattle.world.specs.States.{saved_of};
    ghost use Rattle.world_state.specs.States.{plans_of};
    ghost use Rattle.std.specs.Coded.{codes};
    ghost use Rattle.voter.specs.contracts.state.VoterState as known;
    ghost use Rattle.incidents.specs.Fit.{IsFit};
    ghost use Rattle.world.specs.SavedWorlds.{PlannedSaved};

    ghost Value = { PlannedSaved };

    ghost coded = { Prim.hlevel (codes, known.the_row.coded) };

    ghost view = { λ a. record { plans = plans_of a.cycles; saved = saved_of a.stored } };

    ghost invariant = { λ a. IsFit (record { plans = plans_of a.cycles; saved = saved_of a.stored }) };
}

impl IncidentWorld {
    /// Returns a new world, as [`SavedWorld::new`] does. Fails only if it runs out of memory.
    pub fn new(
        alloc: Global,
        plans: Plans,
        clients: u8,
        limit: u64,
    ) -> Result<IncidentWorld, AllocError>
        requires some { 1 ≤ clients }
        requires few { clients ≤ max_clients }
        requires least { 1 ≤ limit }
        requires most { limit ≤ max_limit }
        ensures world { IfOk result (λ world. world ≡ record { plans = plans; saved = begin_by plans clients limit }) }
        ensures calm { IfOk result IsCalm }
    {
        worlds_stay_fit();
        let world = SavedWorld::new(alloc, plans, clients, limit)?;
        let (cycles, stored) = world.into_parts();
        Ok(IncidentWorld { cycles, stored })
    }

    /// Makes one step, and saves whoever made it unless the step was silent. Returns what the step did. It
    /// fails as [`World::step`] does.
    pub fn step(&mut self, step: Step) -> Result<Stepped, WorldFault>
        ensures stepped { IfOk result (λ s. live_step_of self.old step ≡ Ok (outcome_of s self.new.saved.live)) }
        ensures happens { OnOk result (self.new ≡ befalls_by self.old (Happens (Goes step))) }
        ensures refused { IfErr result (Refuses (live_step_of self.old step)) }
        ensures unchanged { OnErr result (self.new ≡ self.old) }
        ensures calm { IsCalm self.old → IsCalm self.new }
    {
        worlds_stay_fit();
        worlds_stay_calm();
        let room = self.stored.state.make_room().is_ok();
        self.stored.step(&self.cycles, step, room)
    }

    /// Returns who makes a step.
    pub fn maker(&self, step: Step) -> Maker
        ensures { node_of result ≡ maker self.now.saved.live step }
    {
        self.stored.maker(step)
    }

    /// Has a client crash, and restart from what it saved. Fails with `NoSuchClient`, or if it runs out of
    /// memory.
    pub fn restart_client(&mut self, client: u8) -> Result<(), WorldFault>
        ensures restarted { OnOk result (self.new ≡ befalls_by self.old (Happens (Restarts (OneClient client)))) }
        ensures there { OnOk result (client < length self.old.saved.live.clients) }
        ensures refused { IfErr result (RefusesClient self.old.saved client) }
        ensures unchanged { OnErr result (self.new ≡ self.old) }
        ensures calm { IsCalm self.old → IsCalm self.new }
    {
        worlds_stay_fit();
        worlds_stay_calm();
        crash_client(&mut self.stored, client)
    }

    /// Has a voter crash, and restart from what it saved. Fails only with `NoSuchVoter`.
    pub fn restart_voter(&mut self, voter: u8) -> Result<(), WorldFault>
        ensures restarted { OnOk result (self.new ≡ befalls_by self.old (Happens (Restarts (OneVoter voter)))) }
        ensures there { OnOk result (voter < length self.old.saved.live.voters) }
        ensures refused { IfErr result (RefusesVoter self.old.saved voter) }
        ensures unchanged { OnErr result (self.new ≡ self.old) }
        ensures calm { IsCalm self.old → IsCalm self.new }
    {
        worlds_stay_fit();
        worlds_stay_calm();
        crash_voter(&mut self.stored, voter)
    }

    /// Has a voter let its current grant go, as by a RELEASE of its client. The client is not asked, and
    /// may be inside.
    ///
    /// Fails with `NoSuchVoter`, with `NoGrant` if the vote is free, with `GrantsSpent` if another request
    /// waits and no grant is left, or if it runs out of memory.
    pub fn evict(&mut self, voter: u8) -> Result<Evicted, IncidentFault>
        ensures evicted { IfOk result (λ e. self.new
            ≡ befalls_by self.old (Hears (letting_go self.old.saved voter e.grant))) }
        ensures there { OnOk result (voter < length self.old.saved.live.voters) }
        ensures grant { IfOk result (λ e. grant_at self.old.saved voter ≡ Some e.grant) }
        ensures sent { IfOk result (λ e. vote self.old.saved.live (letting_go self.old.saved voter e.grant)
            ≡ Ok (record { sent = e.sent; seen = Nothing; state = self.new.saved.live })) }
        ensures refused { IfErr result (RefusesEviction self.old.saved voter) }
        ensures unchanged { OnErr result (self.new ≡ self.old) }
    {
        worlds_stay_fit();
        let_go(&mut self.stored, voter)
    }

    /// Has a voter that lost its state come back. It gave at most `above` grants before: the next grant's
    /// number is greater.
    ///
    /// Fails with `NoSuchVoter`, or with `GrantsForgotten` if the voter gave more grants than `above`, or
    /// its limit is smaller.
    pub fn bring_back(&mut self, voter: u8, above: u64) -> Result<(), IncidentFault>
        ensures reborn { OnOk result (self.new ≡ befalls_by self.old (IsReborn voter above)) }
        ensures there { OnOk result (voter < length self.old.saved.live.voters) }
        ensures refused { IfErr result (RefusesRebirth self.old.saved voter above) }
        ensures unchanged { OnErr result (self.new ≡ self.old) }
    {
        worlds_stay_fit();
        be_reborn(&mut self.stored, voter, above)
    }

    /// Has a client that lost its state start anew. It used no stamp above `clock` before: its next stamp
    /// is greater. If it was inside, it left by this.
    ///
    /// Fails with `NoSuchClient`, with `StampsForgotten` if the client's last stamp is greater than
    /// `clock`, or its limit is smaller, or if it runs out of memory.
    pub fn start_anew(&mut self, client: u8, clock: u64) -> Result<(), IncidentFault>
        ensures anew { OnOk result (self.new ≡ befalls_by self.old (StartsAnew client clock)) }
        ensures there { OnOk result (client < length self.old.saved.live.clients) }
        ensures refused { IfErr result (RefusesAnew self.old.saved client clock) }
        ensures unchanged { OnErr result (self.new ≡ self.old) }
    {
        worlds_stay_fit();
        be_anew(&mut self.stored, client, clock)
    }

    /// Returns how many grants a voter gave, or `None` if there is no voter with this number. It can come
    /// back with this count.
    pub fn granted(&self, voter: u8) -> Option<u64>
        ensures there { IfSome result (λ n. (voter < length self.now.saved.live.voters)
            × (n ≡ (voter_at self.now.saved.live.voters voter).granted)) }
        ensures above { IfSome result (λ n. is_above (voter_at self.now.saved.live.voters voter) n ≡ true) }
        ensures missing { IfNone result (length self.now.saved.live.voters ≤ voter) }
    {
        if self.stored.state.voter_fault(voter).is_some() {
            return None;
        }
        Some(count_of(&self.stored.state.voters, voter))
    }

    /// Returns the stamp of a client's last request, 0 if there was none, or `None` if there is no client
    /// with this number. It can start anew with this clock.
    pub fn last_stamp(&self, client: u8) -> Option<u64>
        ensures there { IfSome result (λ n. (client < length self.now.saved.live.clients)
            × (n ≡ (client_at self.now.saved.live.clients client).stamp)) }
        ensures ahead { IfSome result (λ n. is_ahead (client_at self.now.saved.live.clients client) n ≡ true) }
        ensures missing { IfNone result (length self.now.saved.live.clients ≤ client) }
    {
        if self.stored.state.client_fault(client).is_some() {
            return None;
        }
        Some(stamp_of(&self.stored.state.clients, client))
    }

    /// Returns how many messages were sent.
    pub fn sent(&self) -> usize
        ensures { result ≡ length self.now.saved.live.sent }
    {
        self.stored.state.sent.len()
    }

    /// Returns the message with this number. Messages are numbered from 0 in the order in which they were
    /// sent, and each has a line of text.
    pub fn message(&self, number: usize) -> Message
        requires { number < length self.now.saved.live.sent }
        ensures value { slice_get self.now.saved.live.sent number ≡ Some result }
        ensures line { HasLine result }
    {
        worlds_stay_fit();
        self.stored.state.sent[number]
    }

    /// Returns the client with this number as it is, if there is one.
    pub fn client(&self, number: u8) -> Option<&Requester>
        ensures { option_map (λ c. c.now) result ≡ slice_get self.now.saved.live.clients number }
    {
        self.stored.state.clients.get(usize::from(number))
    }

    /// Returns the client with this number as it was saved, if there is one.
    pub fn saved_client(&self, number: u8) -> Option<&Requester>
        ensures { option_map (λ c. c.now) result ≡ slice_get self.now.saved.clients number }
    {
        self.stored.clients.get(usize::from(number))
    }

    /// Returns the voter with this number as it is, if there is one.
    pub fn voter(&self, number: u8) -> Option<&Voter>
        ensures { option_map (λ v. v.now) result ≡ slice_get self.now.saved.live.voters number }
    {
        self.stored.state.voters.get(usize::from(number))
    }

    /// Returns the voter with this number as it was saved, if there is one.
    pub fn saved_voter(&self, number: u8) -> Option<&Voter>
        ensures { option_map (λ v. v.now) result ≡ slice_get self.now.saved.voters number }
    {
        self.stored.voters.get(usize::from(number))
    }

    /// Returns who entered and who left, in order. In a calm world at most one client is inside at a
    /// time.
    pub fn visible(&self) -> &[Event]
        ensures value { result.now ≡ self.now.saved.live.visible }
        ensures exclusive { IsCalm self.now → IsExclusive result.now }
    {
        worlds_stay_calm();
        &self.stored.state.visible
    }

    /// Returns the live world. Steps alone lead to it, without those that restarts took back.
    pub fn into_world(self) -> World
        requires { IsCalm self }
        ensures { result ≡ live_of self }
    {
        worlds_stay_calm();
        World::of(self.cycles, self.stored.state)
    }
}
