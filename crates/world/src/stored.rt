//! The state of a world with the saved states of its clients and voters, and steps that save.
ghost use Rattle.std.specs.Prelude.{◌≡◌, ◌<◌, length, slice_set, true};
ghost use Rattle.world_state.specs.Numbered.{IsNumbered};
ghost use Rattle.world.specs.Restarts.{maker, receiver, save, save_unless};
ghost use Rattle.world.specs.SavedWorlds.{SavesAndSends};
ghost use Rattle.world.specs.States.{IsStored, node_of, saved_of};
ghost use Rattle.world_state.specs.States.{HasRoom, contents_of, plans_of};
ghost use Rattle.world_state.specs.Steps.{client_at, dealing_of, voter_at};

use message::Message;
use requester::Requester;
use voter::Voter;
use world_state::{Cycles, State, Step, Stepped, WorldFault, client_of, voter_of};

/// Who makes a step.
#[derive(Clone, Copy)]
pub enum Maker {
    /// The client with this number.
    Client(u8),
    /// The voter with this number.
    Voter(u8),
    /// Neither a client nor a voter.
    Nobody,
}

/// The state of a world, and what its clients and voters saved.
#[derive(Drop)]
pub struct Stored {
    /// The live world.
    pub state: State,
    /// The saved clients, by number.
    pub clients: Vec<Requester>,
    /// The saved voters, by number.
    pub voters: Vec<Voter>,
}

/// Makes the client with this number as it is in the other list.
pub fn copy_client(clients: &mut [Requester], others: &[Requester], number: u8)
    requires { length clients.old ≡ length others.now }
    ensures { clients.new ≡ slice_set clients.old number (client_at others.now number) }
{
    if usize::from(number) < clients.len() {
        clients[usize::from(number)] = client_of(others, number).copy();
    }
}

/// Makes the voter with this number as it is in the other list.
pub fn copy_voter(voters: &mut [Voter], others: &[Voter], number: u8)
    requires { length voters.old ≡ length others.now }
    ensures { voters.new ≡ slice_set voters.old number (voter_at others.now number) }
{
    if usize::from(number) < voters.len() {
        voters[usize::from(number)] = voter_of(others, number).copy();
    }
}

/// Returns who receives a message.
fn receiver_of(message: Option<Message>) -> Maker
    ensures { node_of result ≡ receiver message }
{
    match message {
        None => Maker::Nobody,
        Some(Message::ToVoter(message)) => Maker::Voter(message.voter),
        Some(Message::ToClient(message)) => Maker::Client(message.client),
    }
}

impl Stored {
    /// Returns who makes a step.
    pub fn maker(&self, step: Step) -> Maker
        ensures { node_of result ≡ maker (contents_of self.now.state) step }
    {
        match step {
            Step::Ask(client) => Maker::Client(client),
            Step::Deliver(number) => receiver_of(self.state.message(number)),
            Step::Leave(client) => Maker::Client(client),
            Step::GiveUp(client) => Maker::Client(client),
            Step::RemindClient(client) => Maker::Client(client),
            Step::RemindVoter(voter) => Maker::Voter(voter),
            Step::Exchange => Maker::Nobody,
        }
    }

    /// Saves a client or a voter as it is.
    fn save(&mut self, who: Maker)
        requires { IsStored self.old }
        ensures { saved_of self.new ≡ save (node_of who) (saved_of self.old) }
    {
        match who {
            Maker::Client(client) => copy_client(&mut self.clients, &self.state.clients, client),
            Maker::Voter(voter) => copy_voter(&mut self.voters, &self.state.voters, voter),
            Maker::Nobody => {}
        }
    }

    /// Saves a client or a voter as it is, unless its step was silent.
    pub fn save_unless(&mut self, silent: bool, who: Maker)
        requires { IsStored self.old }
        ensures { saved_of self.new ≡ save_unless silent (node_of who) (saved_of self.old) }
    {
        if !silent {
            self.save(who);
        }
    }

    /// Makes one step, and saves whoever made it, unless the step was silent. Without room for the
    /// step, it fails with its own fault, else with out of memory.
    pub fn step(&mut self, cycles: &Cycles, step: Step, room: bool) -> Result<Stepped, WorldFault>
        requires room { room ≡ true → HasRoom self.old.state }
        requires numbered { IsNumbered (contents_of self.old.state) }
        requires stored { IsStored self.old }
        ensures { SavesAndSends (dealing_of (plans_of cycles.now)) (saved_of self.old) step result (saved_of self.new) }
    {
        let who = self.maker(step);
        match self.state.act(cycles, step, room) {
            Ok(stepped) => {
                self.save_unless(stepped.is_silent(), who);
                Ok(stepped)
            }
            Err(fault) => Err(fault),
        }
    }
}
