//! Four voters and four clients that save and crash, and all messages that were sent.
use crate::rules::Rule;
use crate::saved::{Call, ClientKeeps, SavedClient, SavedVoter, VoterKeeps};
use fence::{Pass, pass_of};
use message::{Message, ToClient, ToVoter, read_message};
use requester::{Phase, Reply, Seen};
use std::alloc::{AllocError, Global};
use voter::Replies;

/// How many voters there are, and how many clients.
pub(crate) const COUNT: u8 = 4;

/// More messages than a round sends.
const MOST_SENT: usize = 2000;

/// What survives a crash.
#[derive(Clone, Copy)]
pub(crate) struct Keeps {
    pub(crate) voter: VoterKeeps,
    pub(crate) client: ClientKeeps,
}

/// All survives.
pub(crate) const ALL: Keeps = Keeps {
    voter: VoterKeeps::All,
    client: ClientKeeps::All,
};

/// The least that has to survive does.
pub(crate) const LEAST: Keeps = Keeps {
    voter: VoterKeeps::Least,
    client: ClientKeeps::Least,
};

/// A step of a history.
#[derive(Clone, Copy)]
pub(crate) enum Step {
    /// The client asks these voters.
    Ask(u8, &'static [u8]),
    /// The client gives up.
    GiveUp(u8),
    /// The client leaves.
    Leave(u8),
    /// The client is reminded.
    RemindClient(u8),
    /// The voter is reminded.
    RemindVoter(u8),
    /// The message of this line arrives, if it was sent: so the same steps serve whatever survives.
    Deliver(&'static str),
    /// The messages with these numbers arrive in this order, perhaps again.
    Arrive(&'static [usize]),
    /// There are this many rounds.
    Rounds(u32),
    /// The voter crashes.
    CrashVoter(u8),
    /// The client crashes.
    CrashClient(u8),
    /// The voter lets the grant with this number go.
    Evict(u8, u64),
    /// The voter lost its state, and is made again as one that gave this number of grants.
    Reborn(u8, u64),
    /// The client lost its state, and is made again with this clock.
    Anew(u8, u64),
}

/// Voters, clients, and all messages that were sent.
#[derive(Drop)]
pub(crate) struct World {
    rule: Rule,
    /// What survives the next crash.
    pub(crate) keeps: Keeps,
    voters: Vec<SavedVoter>,
    clients: Vec<SavedClient>,
    sent: Vec<Message>,
    /// How often each client entered.
    pub(crate) entries: [u64; 4],
    /// The most clients that were inside at once.
    pub(crate) most_inside: usize,
}

/// Returns new voters.
fn new_voters(alloc: Global) -> Result<Vec<SavedVoter>, AllocError> {
    let mut voters = Vec::new(alloc);
    for id in 0..COUNT {
        voters.push(SavedVoter::new(id))?;
    }
    Ok(voters)
}

/// Returns new clients.
fn new_clients(alloc: Global) -> Result<Vec<SavedClient>, AllocError> {
    let mut clients = Vec::new(alloc);
    for id in 0..COUNT {
        clients.push(SavedClient::new(id))?;
    }
    Ok(clients)
}

/// Sends messages to voters.
fn send_to_voters(sent: &mut Vec<Message>, messages: &[ToVoter]) -> Result<(), AllocError> {
    for message in messages {
        sent.push(Message::ToVoter(*message))?;
    }
    Ok(())
}

/// Sends messages to clients.
fn send_to_clients(sent: &mut Vec<Message>, messages: &[ToClient]) -> Result<(), AllocError> {
    for message in messages {
        sent.push(Message::ToClient(*message))?;
    }
    Ok(())
}

impl World {
    /// Returns new voters and clients that have sent nothing.
    pub(crate) fn new(alloc: Global, rule: Rule, keeps: Keeps) -> Result<World, AllocError> {
        let voters = new_voters(alloc)?;
        let clients = new_clients(alloc)?;
        Ok(World {
            rule,
            keeps,
            voters,
            clients,
            sent: Vec::new(alloc),
            entries: [0; 4],
            most_inside: 0,
        })
    }

    /// Returns how many messages were sent.
    pub(crate) fn sent(&self) -> usize {
        self.sent.len()
    }

    /// Returns how many clients are inside.
    pub(crate) fn inside(&self) -> usize {
        let clients = self.clients.iter();
        clients
            .filter(|client| client.live.phase() == Phase::Inside)
            .count()
    }

    /// Returns whether a client is inside.
    pub(crate) fn is_inside(&self, client: u8) -> bool {
        match self.clients.get(usize::from(client)) {
            Some(client) => client.live.phase() == Phase::Inside,
            None => false,
        }
    }

    /// Returns the pass of a client, or `None` if it is not inside.
    pub(crate) fn pass(&self, client: u8) -> Option<Pass> {
        pass_of(&self.clients.get(usize::from(client))?.live)
    }

    /// Returns the stamp of a client.
    pub(crate) fn stamp(&self, client: u8) -> Option<u64> {
        Some(self.clients.get(usize::from(client))?.live.stamp())
    }

    /// Sends what a client sends, and notes whether it entered.
    fn send(&mut self, client: u8, reply: Option<Reply>) -> Result<(), AllocError> {
        let Some(reply) = reply else {
            return Ok(());
        };
        if let Some(entries) = self.entries.get_mut(usize::from(client))
            && reply.seen == Seen::Entered
        {
            *entries = entries.saturating_add(1);
        }
        self.most_inside = self.most_inside.max(self.inside());
        send_to_voters(&mut self.sent, reply.out.as_slice())
    }

    /// Sends what a voter replies.
    fn reply(&mut self, replies: Option<Replies>) -> Result<(), AllocError> {
        match replies {
            Some(replies) => send_to_clients(&mut self.sent, replies.as_slice()),
            None => Ok(()),
        }
    }

    fn called(&mut self, client: u8, call: Call) -> Option<Reply> {
        self.clients.get_mut(usize::from(client))?.call(call)
    }

    fn call(&mut self, client: u8, call: Call) -> Result<(), AllocError> {
        let reply = self.called(client, call);
        self.send(client, reply)
    }

    fn told_voter(&mut self, message: ToVoter) -> Option<Replies> {
        let voter = self.voters.get_mut(usize::from(message.voter))?;
        voter.take(self.rule, message)
    }

    fn told_client(&mut self, message: ToClient) -> Option<Reply> {
        let client = self.clients.get_mut(usize::from(message.client))?;
        client.take(self.rule, message)
    }

    fn deliver(&mut self, message: Message) -> Result<(), AllocError> {
        match message {
            Message::ToVoter(message) => {
                let replies = self.told_voter(message);
                self.reply(replies)
            }
            Message::ToClient(message) => {
                let reply = self.told_client(message);
                self.send(message.client, reply)
            }
        }
    }

    /// Has the message with this line arrive, if it was sent.
    fn deliver_line(&mut self, line: &str) -> Result<(), AllocError> {
        match read_message(line.as_bytes()) {
            Ok(message) if self.sent.as_slice().contains(&message) => self.deliver(message),
            _ => Ok(()),
        }
    }

    /// Has the message with this number arrive, if it was sent.
    pub(crate) fn deliver_number(&mut self, number: usize) -> Result<(), AllocError> {
        match self.sent.get(number).copied() {
            Some(message) => self.deliver(message),
            None => Ok(()),
        }
    }

    fn deliver_all(&mut self, numbers: &[usize]) -> Result<(), AllocError> {
        for number in numbers {
            self.deliver_number(*number)?;
        }
        Ok(())
    }

    fn remind_client(&mut self, client: u8) -> Result<(), AllocError> {
        let Some(client) = self.clients.get_mut(usize::from(client)) else {
            return Ok(());
        };
        client.save();
        send_to_voters(&mut self.sent, client.live.remind().as_slice())
    }

    fn remind_voter(&mut self, voter: u8) -> Result<(), AllocError> {
        let Some(voter) = self.voters.get_mut(usize::from(voter)) else {
            return Ok(());
        };
        voter.save();
        send_to_clients(&mut self.sent, voter.live.remind().as_slice())
    }

    fn evicted(&mut self, voter: u8, grant: u64) -> Option<Replies> {
        self.voters.get_mut(usize::from(voter))?.evict(grant)
    }

    fn evict(&mut self, voter: u8, grant: u64) -> Result<(), AllocError> {
        let replies = self.evicted(voter, grant);
        self.reply(replies)
    }

    fn crash_voter(&mut self, voter: u8) {
        if let Some(voter) = self.voters.get_mut(usize::from(voter)) {
            voter.restart(self.keeps.voter);
        }
    }

    fn crash_client(&mut self, client: u8) {
        if let Some(client) = self.clients.get_mut(usize::from(client)) {
            client.restart(self.keeps.client);
        }
        self.most_inside = self.most_inside.max(self.inside());
    }

    fn bring_back(&mut self, voter: u8, above: u64) {
        if let Some(voter) = self.voters.get_mut(usize::from(voter)) {
            voter.bring_back(above);
        }
    }

    fn start_anew(&mut self, client: u8, clock: u64) {
        if let Some(client) = self.clients.get_mut(usize::from(client)) {
            client.start_anew(clock);
        }
    }

    /// Has whoever is inside leave, and everybody remind. Then the messages of the reminders arrive, in
    /// order, and all that are sent on their arrival.
    pub(crate) fn round(&mut self) -> Result<(), AllocError> {
        let first = self.sent.len();
        for number in 0..COUNT {
            self.call(number, Call::Leave)?;
            self.remind_client(number)?;
            self.remind_voter(number)?;
        }
        for number in first..first.saturating_add(MOST_SENT) {
            if number >= self.sent.len() {
                break;
            }
            self.deliver_number(number)?;
        }
        Ok(())
    }

    fn rounds(&mut self, count: u32) -> Result<(), AllocError> {
        for _ in 0..count {
            self.round()?;
        }
        Ok(())
    }

    /// Makes a step. A step that is refused changes nothing.
    pub(crate) fn step(&mut self, step: Step) -> Result<(), AllocError> {
        match step {
            Step::Ask(client, members) => self.call(client, Call::Ask(members)),
            Step::GiveUp(client) => self.call(client, Call::GiveUp),
            Step::Leave(client) => self.call(client, Call::Leave),
            Step::RemindClient(client) => self.remind_client(client),
            Step::RemindVoter(voter) => self.remind_voter(voter),
            Step::Deliver(line) => self.deliver_line(line),
            Step::Arrive(numbers) => self.deliver_all(numbers),
            Step::Rounds(count) => self.rounds(count),
            Step::Evict(voter, grant) => self.evict(voter, grant),
            _ => {
                self.befall(step);
                Ok(())
            }
        }
    }

    /// Has a voter or a client crash or come back, by a step of these.
    fn befall(&mut self, step: Step) {
        match step {
            Step::CrashVoter(voter) => self.crash_voter(voter),
            Step::CrashClient(client) => self.crash_client(client),
            Step::Reborn(voter, above) => self.bring_back(voter, above),
            Step::Anew(client, clock) => self.start_anew(client, clock),
            _ => {}
        }
    }

    /// Makes these steps in order.
    pub(crate) fn play(&mut self, steps: &[Step]) -> Result<(), AllocError> {
        for step in steps {
            self.step(*step)?;
        }
        Ok(())
    }
}

/// Returns a new world after these steps.
pub(crate) fn played(
    alloc: Global,
    rule: Rule,
    keeps: Keeps,
    steps: &[Step],
) -> Result<World, AllocError> {
    let mut world = World::new(alloc, rule, keeps)?;
    world.play(steps)?;
    Ok(world)
}
