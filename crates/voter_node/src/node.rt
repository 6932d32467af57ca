//! A voter whose messages wait until it is saved.
ghost use Rattle.std.specs.Prelude.{◌≡◌, ◌<◌, IfErr, OnOk};
ghost use Rattle.std.specs.Bool.{OnFalse, OnTrue};
ghost use Rattle.numbers.specs.Bounds.{max_clients};
ghost use Rattle.voter_node.specs.LeftOut.{HaveSameLeast};
ghost use Rattle.voter_node.specs.Nodes.{Takes, Evicts, Reminds, IsSaved, has_room, node_of, node_step, silent};

use crate::fault::NodeFault;
use crate::least::must_save;
use arrayvec::ArrayVec;
use message::{ToClient, ToVoter};
use std::marker::Model;
use voter::Voter;

/// How many messages may wait for a save.
pub const ROOM: usize = 256;

/// The messages that a save gives out.
pub type Messages = ArrayVec<ToClient, ROOM>;

/// A voter whose messages wait until its host has saved it.
///
/// Contracts see a `Node`.
#[derive(Drop)]
pub struct VoterNode {
    live: Voter,
    saved: Voter,
    outbox: Messages,
}

impl Model for VoterNode {
    ghost use Rattle.voter_node.specs.Nodes.{Node};
    ghost use Rattle.std.specs.Coded.{codes};
    ghost use Rattle.voter.specs.contracts.state.VoterState as known;

    ghost Value = { Node };

    ghost coded = { Prim.hlevel (codes, known.the_row.coded) };

    ghost view = { λ n. record { live = n.live; saved = n.saved; outbox = n.outbox.items } };
}

impl VoterNode {
    /// Returns the node of a voter that was just made and saved, or read from where it was saved.
    ///
    /// A host that restarts by forgetting calls [`Voter::forget`] on what it read before.
    pub fn new(voter: Voter) -> Self
        ensures { result ≡ node_of voter }
    {
        let saved = voter.copy();
        VoterNode {
            live: voter,
            saved,
            outbox: ArrayVec::new(),
        }
    }

    /// Returns the voter's number.
    pub fn id(&self) -> u8
        ensures { result ≡ self.now.live.id }
    {
        self.live.id()
    }

    /// Takes one message. The replies wait for the next save.
    ///
    /// Fails with `SaveFirst` if there may be no room for the replies, and otherwise with `GrantsSpent`
    /// if the message needs a new grant and none is left. The node is then unchanged.
    #[tactic(auto, unfolding(crate::specs::Nodes::node_step))]
    pub fn take(&mut self, message: &ToVoter) -> Result<(), NodeFault>
        requires voter { message.now.voter ≡ self.old.live.id }
        requires client { message.now.client < max_clients }
        ensures taken { OnOk result (node_step self.old (Takes message.now) ≡ Ok (silent self.new)) }
        ensures refused { IfErr result (λ fault.
            (node_step self.old (Takes message.now) ≡ Err fault) × (self.new ≡ self.old)) }
        ensures id { self.new.live.id ≡ self.old.live.id }
    {
        if !self.has_room() {
            return Err(NodeFault::SaveFirst);
        }
        match self.live.take(message) {
            Ok(replies) => {
                let _ = self.outbox.try_extend_from_slice(replies.as_slice());
                Ok(())
            }
            Err(_) => Err(NodeFault::GrantsSpent),
        }
    }

    /// Lets the current grant go if it has this number, as [`Voter::evict`] does. The replies wait for the
    /// next save.
    ///
    /// Fails with `SaveFirst` if there may be no room for the replies, and otherwise with `GrantsSpent`
    /// if a request waits and no grant is left. The node is then unchanged.
    #[tactic(auto, unfolding(crate::specs::Nodes::node_step))]
    pub fn evict(&mut self, grant: u64) -> Result<(), NodeFault>
        ensures evicted { OnOk result (node_step self.old (Evicts grant) ≡ Ok (silent self.new)) }
        ensures refused { IfErr result (λ fault.
            (node_step self.old (Evicts grant) ≡ Err fault) × (self.new ≡ self.old)) }
        ensures id { self.new.live.id ≡ self.old.live.id }
    {
        if !self.has_room() {
            return Err(NodeFault::SaveFirst);
        }
        match self.live.evict(grant) {
            Ok(replies) => {
                let _ = self.outbox.try_extend_from_slice(replies.as_slice());
                Ok(())
            }
            Err(_) => Err(NodeFault::GrantsSpent),
        }
    }

    /// Reminds the holder, as [`Voter::remind`] does. The messages wait for the next save.
    ///
    /// Fails with `SaveFirst` if there may be no room for them. The node is then unchanged.
    #[tactic(auto, unfolding(crate::specs::Nodes::node_step))]
    pub fn remind(&mut self) -> Result<(), NodeFault>
        ensures reminded { OnOk result (node_step self.old Reminds ≡ Ok (silent self.new)) }
        ensures refused { IfErr result (λ fault. (node_step self.old Reminds ≡ Err fault) × (self.new ≡ self.old)) }
        ensures id { self.new.live.id ≡ self.old.live.id }
    {
        if !self.has_room() {
            return Err(NodeFault::SaveFirst);
        }
        let reminders = self.live.remind();
        let _ = self.outbox.try_extend_from_slice(reminders.as_slice());
        Ok(())
    }

    /// Returns whether the messages of one more step have room.
    fn has_room(&self) -> bool
        ensures { result ≡ has_room self.now }
    {
        self.outbox.len() + 3 <= ROOM
    }

    /// Returns the voter that has to be saved before [`VoterNode::saved`] is called.
    pub fn to_save(&self) -> &Voter
        ensures { result.now ≡ self.now.live }
    {
        &self.live
    }

    /// Returns whether the voter has to be saved before its messages leave, by a host that restarts by
    /// forgetting.
    ///
    /// If it returns `false`, such a host may call [`VoterNode::saved`] without a save: what it would find
    /// after a crash is the same (`saves_may_be_left_out`). A host that restarts from all that it saved
    /// saves each time.
    pub fn must_save(&self) -> bool
        ensures must { OnTrue result (HaveSameLeast self.now.saved self.now.live → ⊥) }
        ensures need_not { OnFalse result (HaveSameLeast self.now.saved self.now.live) }
    {
        must_save(&self.saved, &self.live)
    }

    /// Notes that the host has saved the voter as it is. Returns the messages that waited for it, to be
    /// sent in this order.
    #[tactic(auto, unfolding(crate::specs::Nodes::node_step))]
    pub fn saved(&mut self) -> Messages
        ensures saved { node_step self.old IsSaved ≡ Ok (record { node = self.new; sends = result.items }) }
        ensures id { self.new.live.id ≡ self.old.live.id }
    {
        self.saved = self.live.copy();
        self.outbox.take()
    }
}
