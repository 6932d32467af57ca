//! Steps of the automata: two clients take turns at the lock of one voter.
ghost use Rattle.std.specs.Prelude.{◌≡◌};

use crate::by_bytes::{client_by_bytes, voter_by_bytes};
use arrayvec::ArrayVec;
use message::{ToClient, ToVoter};
use numbers::MAX_STAMP;
use quorum_set::QSet;
use requester::{ClientFault, Messages, Requester, Seen};
use std::alloc::Global;
use voter::{Replies, Voter};

/// One voter, two clients, and the counts.
#[derive(Drop)]
struct Lock {
    voter: Voter,
    first: Requester,
    second: Requester,
    /// What the client sent that took the last reply.
    answers: Messages,
    steps: u64,
    entered: u64,
    /// Whether who made a step is then saved as bytes and restored.
    saves: bool,
    ghost voter_is: { voter.id ≡ 0 },
    ghost first_is: { first.id ≡ 0 },
    ghost second_is: { second.id ≡ 1 },
}

impl Lock {
    fn new(saves: bool) -> Lock {
        Lock {
            voter: Voter::new(0, MAX_STAMP),
            first: Requester::new(0, MAX_STAMP),
            second: Requester::new(1, MAX_STAMP),
            answers: ArrayVec::new(),
            steps: 0,
            entered: 0,
            saves,
        }
    }

    /// Counts a step.
    fn count(&mut self, seen: Seen) {
        self.steps = self.steps.saturating_add(1);
        if seen == Seen::Entered {
            self.entered = self.entered.saturating_add(1);
        }
    }

    /// Takes the voter through bytes.
    fn keep_voter(&mut self) {
        if self.saves {
            voter_by_bytes(&mut self.voter);
        }
    }

    /// Takes a client through bytes: the first one, or the second.
    fn keep_client(&mut self, client: u8) {
        match client {
            _ if !self.saves => {}
            0 => client_by_bytes(&mut self.first),
            _ => client_by_bytes(&mut self.second),
        }
    }

    /// Has a client take a reply.
    fn tell_client(&mut self, message: &ToClient) {
        if message.voter != 0 {
            return;
        }
        let seen = match message.client {
            0 => self.first.take_into(message, &mut self.answers),
            1 => self.second.take_into(message, &mut self.answers),
            _ => return,
        };
        self.count(seen);
        self.keep_client(message.client);
    }

    /// Has the voter take a message, and the clients its replies.
    fn tell_voter(&mut self, message: &ToVoter, replies: &mut Replies) {
        if message.voter != 0 || message.client > 1 {
            return;
        }
        if self.voter.take_into(message, replies).is_err() {
            return;
        }
        self.count(Seen::Nothing);
        self.keep_voter();
        for reply in replies.as_slice() {
            self.tell_client(reply);
        }
    }

    /// Sends the messages of a client's call to the voter.
    fn send(
        &mut self,
        client: u8,
        called: Result<Seen, ClientFault>,
        sent: &Messages,
        replies: &mut Replies,
    ) {
        let Ok(seen) = called else {
            return;
        };
        self.count(seen);
        self.keep_client(client);
        for message in sent.as_slice() {
            self.tell_voter(message, replies);
        }
    }

    /// Has both clients ask. The first enters and leaves, and then the second. Nobody asks an empty
    /// quorum.
    fn round(&mut self, quorum: &QSet, out: &mut Messages, replies: &mut Replies) {
        if quorum.len() == 0 {
            return;
        }
        let called = self.first.ask_into(quorum, out);
        self.send(0, called, out, replies);
        let called = self.second.ask_into(quorum, out);
        self.send(1, called, out, replies);
        let called = self.first.leave_into(out);
        self.send(0, called, out, replies);
        let called = self.second.leave_into(out);
        self.send(1, called, out, replies);
    }
}

/// Returns the number of rounds, and whether `bytes` follows it. The words begin with the program's
/// name and the kind.
pub(crate) fn rounds_of(words: &[String]) -> Option<(u32, bool)> {
    let saves = words.len() == 4 && words[3].as_str() == "bytes";
    if words.len() != 3 && !saves {
        return None;
    }
    Some((words[2].parse::<u32>().ok()?, saves))
}

/// Makes this many rounds. Returns a line with the steps and with how often a client was inside, or
/// `None` if memory runs out.
pub(crate) fn line_of(alloc: Global, rounds: u32, saves: bool) -> Option<String> {
    let mut quorum = QSet::empty();
    quorum.insert(0);
    let mut lock = Lock::new(saves);
    let mut out = ArrayVec::new();
    let mut replies = ArrayVec::new();
    for _ in 0..rounds {
        lock.round(&quorum, &mut out, &mut replies);
    }
    format!(in alloc; "steps {} entered {}", lock.steps, lock.entered).ok()
}
