//! A voter and a client that save, crash and restart.
//!
//! Whoever sends a message, enters or leaves is saved first; other steps are not saved.
ghost use Rattle.std.specs.Prelude.{◌<◌};

use crate::rules::{Rule, for_client, for_voter};
use arrayvec::ArrayVec;
use message::{ToClient, ToVoter};
use requester::{Reply, Requester, Seen};
use test_plans::set_of;
use voter::{Replies, SavedWords, Voter};

/// The greatest stamp and the greatest number of a grant.
const LIMIT: u64 = 100_000;

/// What of its saved state a voter has after a crash.
#[derive(Clone, Copy)]
pub(crate) enum VoterKeeps {
    /// All.
    All,
    /// The least that has to survive: its grant, and the number of its grants.
    Least,
    /// Nothing.
    Nothing,
}

/// What of its saved state a client has after a crash.
#[derive(Clone, Copy)]
pub(crate) enum ClientKeeps {
    /// All.
    All,
    /// The least that has to survive: its clock and its stamp. It is idle.
    Least,
    /// Its clock, its stamp and its request, with which it asks on.
    Request,
    /// Nothing.
    Nothing,
}

/// What a client does of itself.
#[derive(Clone, Copy)]
pub(crate) enum Call {
    /// It asks these voters.
    Ask(&'static [u8]),
    /// It gives up.
    GiveUp,
    /// It leaves.
    Leave,
}

fn words_of_voter(voter: &Voter) -> SavedWords {
    let mut words = ArrayVec::new();
    voter.save(&mut words);
    words
}

fn words_of_client(client: &Requester) -> SavedWords {
    let mut words = ArrayVec::new();
    client.save(&mut words);
    words
}

/// Returns the numbers with 0 in place of those from `low` on.
fn without(words: &[u64], low: usize) -> SavedWords {
    let mut changed = ArrayVec::new();
    for (i, word) in words.iter().enumerate() {
        let kept = if low <= i { 0 } else { *word };
        let _ = changed.try_push(kept);
    }
    changed
}

/// A voter, and the numbers that it saved last.
#[derive(Drop)]
pub(crate) struct SavedVoter {
    pub(crate) live: Voter,
    words: SavedWords,
}

impl SavedVoter {
    /// Returns a new voter that saved its first state.
    pub(crate) fn new(id: u8) -> SavedVoter
        requires { id < 64 }
    {
        let live = Voter::new(id, LIMIT);
        let words = words_of_voter(&live);
        SavedVoter { live, words }
    }

    pub(crate) fn save(&mut self) {
        self.words = words_of_voter(&self.live);
    }

    /// Takes a message by the rule. Returns the replies, if there are any.
    pub(crate) fn take(&mut self, rule: Rule, message: ToVoter) -> Option<Replies> {
        let heard = for_voter(rule, &self.live, message);
        if self.live.id() != heard.voter || heard.client >= 64 {
            return None;
        }
        let replies = self.live.take(&heard).ok()?;
        if !replies.is_empty() {
            self.save();
        }
        Some(replies)
    }

    /// Lets the grant with this number go. Returns the replies, if there are any.
    pub(crate) fn evict(&mut self, grant: u64) -> Option<Replies> {
        let replies = self.live.evict(grant).ok()?;
        self.save();
        Some(replies)
    }

    /// Restarts from what was saved and survives.
    pub(crate) fn restart(&mut self, keeps: VoterKeeps) {
        if let Some(saved) = Voter::restore(self.words.as_slice()) {
            self.live = saved;
        }
        match keeps {
            VoterKeeps::All => {}
            VoterKeeps::Least => self.live.forget(),
            VoterKeeps::Nothing => self.bring_back(0),
        }
        self.save();
    }

    /// Is made again as a voter that gave this number of grants.
    pub(crate) fn bring_back(&mut self, above: u64) {
        let id = self.live.id();
        if id < 64 && above <= LIMIT {
            self.live = Voter::reborn(id, above, LIMIT);
        }
    }
}

/// A client, and the numbers that it saved last.
#[derive(Drop)]
pub(crate) struct SavedClient {
    pub(crate) live: Requester,
    words: SavedWords,
}

impl SavedClient {
    /// Returns a new client that saved its first state.
    pub(crate) fn new(id: u8) -> SavedClient
        requires { id < 64 }
    {
        let live = Requester::new(id, LIMIT);
        let words = words_of_client(&live);
        SavedClient { live, words }
    }

    pub(crate) fn save(&mut self) {
        self.words = words_of_client(&self.live);
    }

    /// Saves it, unless the step with this reply was silent. Returns the reply.
    fn did(&mut self, reply: Reply) -> Option<Reply> {
        if !reply.out.is_empty() || reply.seen != Seen::Nothing {
            self.save();
        }
        Some(reply)
    }

    fn ask(&mut self, members: &[u8]) -> Option<Reply> {
        let quorum = set_of(members);
        if quorum.len() == 0 {
            return None;
        }
        self.live.ask(&quorum).ok()
    }

    /// Makes a call. Returns the reply, unless it is refused.
    pub(crate) fn call(&mut self, call: Call) -> Option<Reply> {
        let reply = match call {
            Call::Ask(members) => self.ask(members),
            Call::GiveUp => self.live.give_up().ok(),
            Call::Leave => self.live.leave().ok(),
        };
        self.did(reply?)
    }

    /// Takes a message by the rule. Returns the reply, if there is one.
    pub(crate) fn take(&mut self, rule: Rule, message: ToClient) -> Option<Reply> {
        let heard = for_client(rule, &self.live, message)?;
        if self.live.id() != heard.client || heard.voter >= 64 {
            return None;
        }
        let reply = self.live.take(&heard);
        self.did(reply)
    }

    /// Restarts from what was saved and survives.
    pub(crate) fn restart(&mut self, keeps: ClientKeeps) {
        if let ClientKeeps::Request = keeps {
            // the marks and the grants are the numbers from 7 on
            self.words = without(self.words.as_slice(), 7);
        }
        if let Some(saved) = Requester::restore(self.words.as_slice()) {
            self.live = saved;
        }
        match keeps {
            ClientKeeps::All | ClientKeeps::Request => {}
            ClientKeeps::Least => self.live.forget(),
            ClientKeeps::Nothing => self.start_anew(0),
        }
        self.save();
    }

    /// Is made again as a client with this clock.
    pub(crate) fn start_anew(&mut self, clock: u64) {
        let id = self.live.id();
        if id < 64 && clock <= LIMIT {
            self.live = Requester::anew(id, LIMIT, clock);
        }
    }
}
