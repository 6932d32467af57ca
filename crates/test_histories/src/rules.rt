//! Wrong rules, expressed by what their followers receive.
use message::{ClientBody, ToClient, ToVoter, VoterBody};
use requester::{Phase, Requester};
use voter::Voter;

/// Which rules voters and clients follow.
#[derive(Clone, Copy, PartialEq, Eq)]
pub(crate) enum Rule {
    /// Their own.
    Sound,
    /// Any RELEASE of the client that has the vote frees it.
    AnyReleaseFrees,
    /// A repeated LOCKED of a vote that was given back counts.
    VoteGivenBackCounts,
    /// A client's clock does not follow the stamps that its voters saw.
    ClockIgnoresVoters,
    /// A client that is idle takes no messages.
    IdleClientIsDeaf,
    /// A client keeps a vote that its voter asks for.
    AskedVoteIsKept,
}

/// Returns the message that a voter has to receive so that it follows the rule.
pub(crate) fn for_voter(rule: Rule, voter: &Voter, message: ToVoter) -> ToVoter {
    match (rule, message.body, voter.held()) {
        (Rule::AnyReleaseFrees, VoterBody::Release { .. }, Some(grant))
            if grant.client == message.client => {
            ToVoter {
                body: VoterBody::Release { stamp: grant.stamp },
                ..message
            }
        }
        _ => message,
    }
}

/// Returns the message that a client has to receive so that it follows the rule, or `None` if it has to
/// receive none.
pub(crate) fn for_client(rule: Rule, client: &Requester, message: ToClient) -> Option<ToClient> {
    match (rule, message.body) {
        (Rule::ClockIgnoresVoters, _) => Some(ToClient { seen: 0, ..message }),
        (Rule::IdleClientIsDeaf, _) if client.phase() == Phase::Idle => None,
        (Rule::AskedVoteIsKept, ClientBody::Inquire { .. }) => None,
        (Rule::VoteGivenBackCounts, ClientBody::Locked { stamp, grant })
            if !client.would_hold(&message) => {
            Some(ToClient {
                body: ClientBody::Locked {
                    stamp,
                    grant: grant.saturating_add(1),
                },
                ..message
            })
        }
        _ => Some(message),
    }
}
