//! The state of a world, and its steps once there is room for them.
ghost use Rattle.std.specs.Prelude.{◌≡◌, ◌<◌, ◌≤◌, ◌+◌, ◌++◌, Err, IfNone, IfSome, MatchBool, OnOk, length, true, map, nat_lt, slice_get, vec_capacity, vec_len};
ghost use Rattle.numbers.specs.Bounds.{max_voters, max_clients};
ghost use Rattle.message.specs.declared.message.Message.TheVariants as kinds;
ghost use Rattle.world_state.specs.declared.step.Step.TheVariants as steps;
ghost use Rattle.requester.specs.Steps.Cause.{Takes};
ghost use Rattle.world_state.specs.Numbered.{IsNumbered};
ghost use Rattle.world_state.specs.States.{HasRoom, cause_of, plans_of, contents_of};
ghost use Rattle.world_state.specs.Steps as worlds;
ghost use Rattle.world_state.specs.Steps.{Dealing, Does, WorldState, act, client_at, dealing_of, events, exchange, if_client, next_ticket, quorum_dealt, vote, voter_at};

use crate::cycles::Cycles;
use crate::fault::WorldFault;
use crate::lists::{draw, note, send_to_clients, send_to_voters};
use crate::moves::{self, Ending};
use crate::step::{Event, Step, Stepped};
use message::{Message, ToClient, ToVoter};
use quorum_set::{QSet, Side};
use requester::{ClientFault, Messages, Requester, Seen};
use std::alloc::AllocError;
use voter::{Replies, Voter, VoterFault};

/// Everything in a world except its plans.
#[derive(Drop)]
pub struct State {
    /// The clients, by number.
    pub clients: Vec<Requester>,
    /// The voters, by number.
    pub voters: Vec<Voter>,
    /// Every message that was ever sent, by number.
    pub sent: Vec<Message>,
    /// Who drew a ticket of the first plan, and which one, in order.
    pub draws: Vec<(u8, u64)>,
    /// Who drew a ticket of the second plan, and which one, in order.
    pub draws2: Vec<(u8, u64)>,
    /// The plan in use.
    pub side: Side,
    /// Who entered and who left, in order.
    pub visible: Vec<Event>,
    /// A buffer for the messages of a client's step, before they are appended to `sent`.
    pub out: Messages,
    /// A buffer for the replies of a voter's step, before they are appended to `sent`.
    pub replies: Replies,
}

impl State {
    /// Reserves room for any one step. Fails if out of memory.
    pub fn make_room(&mut self) -> Result<(), AllocError>
        ensures same { contents_of self.new ≡ contents_of self.old }
        ensures room { OnOk result (HasRoom self.new) }
    {
        self.sent.reserve(128)?;
        self.draws.reserve(1)?;
        self.draws2.reserve(1)?;
        self.visible.reserve(1)
    }

    /// Returns the message with this number, if one was sent.
    pub fn message(&self, number: u64) -> Option<Message>
        ensures { result ≡ slice_get self.now.sent.items number }
    {
        self.sent.get(number as usize).copied()
    }

    /// Returns the next ticket of the plan in use.
    fn next_ticket(&self) -> u64
        ensures { result ≡ next_ticket (contents_of self.now) }
    {
        match self.side {
            Side::First => self.draws.len() as u64,
            Side::Second => self.draws2.len() as u64,
        }
    }

    /// Returns `NoSuchClient` if no client has this number, else `None`.
    pub fn client_fault(&self, client: u8) -> Option<WorldFault>
        ensures found { IfNone result (client < length self.now.clients.items) }
        ensures missing { IfSome result (λ fault.
            (fault ≡ WorldFault.NoSuchClient client) × (length self.now.clients.items ≤ client)) }
    {
        if usize::from(client) < self.clients.len() {
            None
        } else {
            Some(WorldFault::NoSuchClient(client))
        }
    }

    /// Returns `NoSuchVoter` if no voter has this number, else `None`.
    pub fn voter_fault(&self, voter: u8) -> Option<WorldFault>
        ensures found { IfNone result (voter < length self.now.voters.items) }
        ensures missing { IfSome result (λ fault.
            (fault ≡ WorldFault.NoSuchVoter voter) × (length self.now.voters.items ≤ voter)) }
    {
        if usize::from(voter) < self.voters.len() {
            None
        } else {
            Some(WorldFault::NoSuchVoter(voter))
        }
    }

    /// Returns `NoSecondPlan` if there are not two plans, or the second is in use already, else
    /// `None`.
    pub fn exchange_fault(&self, are_two: bool) -> Option<WorldFault>
        ensures found { IfNone result ((are_two ≡ true) × (self.now.side ≡ Side.First)) }
        ensures missing { IfSome result (λ fault. (w : WorldState) → exchange are_two self.now.side w ≡ Err fault) }
    {
        match (are_two, self.side) {
            (true, Side::First) => None,
            _ => Some(WorldFault::NoSecondPlan),
        }
    }

    /// Records the step of a client whose messages are in `out`, and returns what the step did.
    fn tell(&mut self, client: u8, seen: Seen) -> Stepped
        requires sent { vec_len self.old.sent + max_voters ≤ vec_capacity self.old.sent }
        requires visible { vec_len self.old.visible + 1 ≤ vec_capacity self.old.visible }
        ensures sent { result.sent ≡ length self.old.out.items }
        ensures seen { result.seen ≡ seen }
        ensures state { contents_of self.new ≡ record (contents_of self.old) {
          sent = self.old.sent.items ++ map kinds.ToVoter self.old.out.items;
          visible = self.old.visible.items ++ events client seen;
        } }
    {
        send_to_voters(&mut self.sent, self.out.as_slice());
        note(&mut self.visible, client, seen);
        Stepped {
            sent: self.out.len(),
            seen,
        }
    }

    fn ask(&mut self, client: u8, quorum: &QSet, room: bool) -> Result<Stepped, WorldFault>
        requires room { room ≡ true → HasRoom self.old }
        requires quorum { 1 ≤ length quorum.now }
        ensures { (deal : Dealing)
            → quorum_dealt deal self.old.side (next_ticket (contents_of self.old)) ≡ quorum.now
            → Does (worlds.step deal (contents_of self.old) (steps.Ask client)) (contents_of self.old) result (contents_of self.new) }
    {
        if let Some(fault) = self.client_fault(client) {
            return Err(fault);
        }
        if !room {
            return Err(without_room(moves::client_of(&self.clients, client).ask_fault()));
        }
        match moves::ask(&mut self.clients, client, quorum, &mut self.out) {
            Ok(seen) => {
                match self.side {
                    Side::First => draw(&mut self.draws, client),
                    Side::Second => draw(&mut self.draws2, client),
                }
                Ok(self.tell(client, seen))
            }
            Err(fault) => Err(WorldFault::Client(fault)),
        }
    }

    fn end(&mut self, client: u8, ending: Ending, room: bool) -> Result<Stepped, WorldFault>
        requires room { room ≡ true → HasRoom self.old }
        ensures { Does (if_client (nat_lt client (length self.old.clients.items)) client
            (act (contents_of self.old) client (cause_of ending))) (contents_of self.old) result (contents_of self.new) }
    {
        if let Some(fault) = self.client_fault(client) {
            return Err(fault);
        }
        if !room {
            let who = moves::client_of(&self.clients, client);
            return Err(without_room(moves::end_fault(who, ending)));
        }
        match moves::end(&mut self.clients, client, ending, &mut self.out) {
            Ok(seen) => Ok(self.tell(client, seen)),
            Err(fault) => Err(WorldFault::Client(fault)),
        }
    }

    fn take(&mut self, message: &ToClient, room: bool) -> Result<Stepped, WorldFault>
        requires room { room ≡ true → HasRoom self.old }
        requires client { message.now.client < length self.old.clients.items }
        requires id { (client_at self.old.clients.items message.now.client).id ≡ message.now.client }
        requires voter { message.now.voter < max_voters }
        ensures { Does (act (contents_of self.old) message.now.client (Takes message.now))
            (contents_of self.old) result (contents_of self.new) }
    {
        if !room {
            return Err(WorldFault::OutOfMemory);
        }
        let seen = moves::take(&mut self.clients, message, &mut self.out);
        Ok(self.tell(message.client, seen))
    }

    /// Has a voter take a message. Without room for its replies, it fails with the voter's fault, else with
    /// out of memory.
    pub fn vote(&mut self, message: &ToVoter, room: bool) -> Result<Stepped, WorldFault>
        requires room { room ≡ true → HasRoom self.old }
        requires voter { message.now.voter < length self.old.voters.items }
        requires id { (voter_at self.old.voters.items message.now.voter).id ≡ message.now.voter }
        requires client { message.now.client < max_clients }
        ensures { Does (vote (contents_of self.old) message.now) (contents_of self.old) result (contents_of self.new) }
    {
        if !room {
            let voter = moves::voter_of(&self.voters, message.voter);
            return Err(without_room_at(voter.effect(message).refused));
        }
        match moves::vote(&mut self.voters, message, &mut self.replies) {
            Ok(()) => {
                send_to_clients(&mut self.sent, self.replies.as_slice());
                Ok(Stepped {
                    sent: self.replies.len(),
                    seen: Seen::Nothing,
                })
            }
            Err(fault) => Err(WorldFault::Voter(fault)),
        }
    }

    fn deliver(&mut self, number: u64, room: bool) -> Result<Stepped, WorldFault>
        requires room { room ≡ true → HasRoom self.old }
        requires numbered { IsNumbered (contents_of self.old) }
        ensures { (deal : Dealing)
            → Does (worlds.step deal (contents_of self.old) (steps.Deliver number)) (contents_of self.old) result (contents_of self.new) }
    {
        match self.message(number) {
            None => Err(WorldFault::NoSuchMessage(number)),
            Some(Message::ToVoter(message)) => self.vote(&message, room),
            Some(Message::ToClient(message)) => self.take(&message, room),
        }
    }

    fn remind_client(&mut self, client: u8, room: bool) -> Result<Stepped, WorldFault>
        requires room { room ≡ true → HasRoom self.old }
        ensures { (deal : Dealing)
            → Does (worlds.step deal (contents_of self.old) (steps.RemindClient client))
            (contents_of self.old) result (contents_of self.new) }
    {
        if let Some(fault) = self.client_fault(client) {
            return Err(fault);
        }
        if !room {
            return Err(WorldFault::OutOfMemory);
        }
        let reminders = moves::client_of(&self.clients, client).remind();
        send_to_voters(&mut self.sent, reminders.as_slice());
        Ok(Stepped {
            sent: reminders.len(),
            seen: Seen::Nothing,
        })
    }

    fn remind_voter(&mut self, voter: u8, room: bool) -> Result<Stepped, WorldFault>
        requires room { room ≡ true → HasRoom self.old }
        ensures { (deal : Dealing)
            → Does (worlds.step deal (contents_of self.old) (steps.RemindVoter voter))
            (contents_of self.old) result (contents_of self.new) }
    {
        if let Some(fault) = self.voter_fault(voter) {
            return Err(fault);
        }
        if !room {
            return Err(WorldFault::OutOfMemory);
        }
        let reminders = moves::voter_of(&self.voters, voter).remind();
        send_to_clients(&mut self.sent, reminders.as_slice());
        Ok(Stepped {
            sent: reminders.len(),
            seen: Seen::Nothing,
        })
    }

    fn exchange(&mut self, are_two: bool) -> Result<Stepped, WorldFault>
        ensures { Does (exchange are_two self.old.side (contents_of self.old)) (contents_of self.old) result (contents_of self.new) }
    {
        if let Some(fault) = self.exchange_fault(are_two) {
            return Err(fault);
        }
        self.side = Side::Second;
        Ok(Stepped {
            sent: 0,
            seen: Seen::Nothing,
        })
    }

    /// Makes one step. Without room for it, it fails with its own fault, else with out of memory.
    pub fn act(&mut self, cycles: &Cycles, step: Step, room: bool) -> Result<Stepped, WorldFault>
        requires room { room ≡ true → HasRoom self.old }
        requires numbered { IsNumbered (contents_of self.old) }
        ensures { Does (worlds.step (dealing_of (plans_of cycles.now)) (contents_of self.old) step)
            (contents_of self.old) result (contents_of self.new) }
    {
        match step {
            Step::Ask(client) => {
                let quorum = cycles.quorum(self.side, self.next_ticket());
                self.ask(client, quorum, room)
            }
            Step::Deliver(number) => self.deliver(number, room),
            Step::Leave(client) => self.end(client, Ending::Leaves, room),
            Step::GiveUp(client) => self.end(client, Ending::GivesUp, room),
            Step::RemindClient(client) => self.remind_client(client, room),
            Step::RemindVoter(voter) => self.remind_voter(voter, room),
            Step::Exchange => self.exchange(cycles.are_two()),
        }
    }
}

/// Returns the client's fault, if there is one, else out of memory.
fn without_room(fault: Option<ClientFault>) -> WorldFault
    ensures own { IfSome fault (λ f. result ≡ WorldFault.Client f) }
    ensures none { IfNone fault (result ≡ WorldFault.OutOfMemory) }
{
    match fault {
        Some(fault) => WorldFault::Client(fault),
        None => WorldFault::OutOfMemory,
    }
}

/// Returns the voter's fault, if it refuses, else out of memory.
fn without_room_at(refuses: bool) -> WorldFault
    ensures { MatchBool refuses (result ≡ WorldFault.Voter VoterFault.GrantsSpent) (result ≡ WorldFault.OutOfMemory) }
{
    if refuses {
        WorldFault::Voter(VoterFault::GrantsSpent)
    } else {
        WorldFault::OutOfMemory
    }
}
