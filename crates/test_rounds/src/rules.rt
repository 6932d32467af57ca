//! Rules of asking a vote back, right and wrong, and what messages are.
//!
//! A wrong rule is expressed by messages that have no effect: whoever follows it does not take them.
use arrayvec::ArrayVec;
use incidents::IncidentWorld;
use message::{ClientBody, Message, ToClient, VoterBody};
use requester::{Phase, Requester};

/// Which rule voters and clients follow when a vote is asked back.
#[derive(Clone, Copy, PartialEq, Eq)]
pub enum Rule {
    /// Their own.
    Sound,
    /// Voter 0 never asks its vote back.
    VoteIsNotAskedBack,
    /// Client 0 keeps a vote that is asked back.
    AskedVoteIsKept,
    /// A client that can't win yet keeps a vote that is asked back, as one that still may.
    HinderedClientWaits,
    /// No voter lets a grant of a dead client go.
    DeadKeepTheirVotes,
    /// A client that waits for a voter that is down waits on.
    StuckClientsWait,
}

/// Returns the client that sends or receives a message.
pub fn client_of(message: Message) -> u8 {
    match message {
        Message::ToVoter(heard) => heard.client,
        Message::ToClient(heard) => heard.client,
    }
}

/// Returns the voter that sends or receives a message.
pub fn voter_of(message: Message) -> u8 {
    match message {
        Message::ToVoter(heard) => heard.voter,
        Message::ToClient(heard) => heard.voter,
    }
}

/// Returns whether a client asks, and lacks the vote of a voter that is down: one from this number on. Of the numbers
/// of a saved client the one at place 10 + v is its grant of voter v, 0 if it has none.
pub fn is_stuck(client: &Requester, live: u8) -> bool {
    let mut words = ArrayVec::new();
    client.save(&mut words);
    let grants = words.as_slice().get(10..74);
    client.phase() == Phase::Asking
        && client.quorum().iter().any(|voter| {
            *voter >= live
                && grants
                    .and_then(|grants| grants.get(usize::from(*voter)))
                    .copied()
                    == Some(0)
        })
}

/// Returns whether a message is a REQUEST.
pub fn is_request(message: Message) -> bool {
    matches!(message, Message::ToVoter(heard) if matches!(heard.body, VoterBody::Request { .. }))
}

/// Returns whether a message is a RELEASE.
pub fn is_release(message: Message) -> bool {
    matches!(message, Message::ToVoter(heard) if matches!(heard.body, VoterBody::Release { .. }))
}

/// Returns whether a message brings a vote to another client than client 0.
pub fn is_vote_of_other(message: Message) -> bool {
    matches!(message, Message::ToClient(heard)
        if heard.client != 0 && matches!(heard.body, ClientBody::Locked { .. }))
}

/// Returns whether a client can't win yet: a voter of its quorum sent FAIL, or has its vote back. Of
/// the numbers of a saved client 7 and 8 are the bits of such voters.
fn is_hindered(client: &Requester) -> bool {
    let mut words = ArrayVec::new();
    client.save(&mut words);
    let hindering = words.as_slice().get(7..9);
    hindering.is_some_and(|words| words.iter().any(|word| *word != 0))
}

/// Returns whether a client takes a message, by the rule.
pub fn takes(rule: Rule, world: &IncidentWorld, message: ToClient) -> bool {
    let ClientBody::Inquire { .. } = message.body else {
        return true;
    };
    match rule {
        Rule::Sound | Rule::DeadKeepTheirVotes | Rule::StuckClientsWait => true,
        Rule::VoteIsNotAskedBack => message.voter != 0,
        Rule::AskedVoteIsKept => message.client != 0,
        Rule::HinderedClientWaits => !world.client(message.client).is_some_and(is_hindered),
    }
}

/// Returns the message with this number, if it was sent.
pub fn message_of(world: &IncidentWorld, number: u64) -> Option<Message> {
    let number = number as usize;
    if number < world.sent() {
        Some(world.message(number))
    } else {
        None
    }
}
