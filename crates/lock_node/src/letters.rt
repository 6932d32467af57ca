//! Whose messages count, and who hears the answers.
ghost use Rattle.std.specs.Prelude.{◌≡◌, is_some};
ghost use Rattle.lock_node.specs.Letters.{hearer, may_let_go, may_say, standing_of, subject};

use message::{ClientBody, ToClient, VoterBody};
use session_rows::SessionRow;
use voter::Grant;

/// How a session stands at a voter.
#[derive(Clone, Copy, Debug, PartialEq, Eq)]
pub enum Standing {
    /// The number is the session's, under this epoch.
    Known,
    /// It may claim the number under this epoch.
    Unknown,
    /// The number has another session, or had one under a later epoch.
    Over,
}

/// Returns how a session stands, by the row of its number.
pub fn standing_of(row: &SessionRow, session: u128, epoch: u64) -> Standing
    ensures { result ≡ standing_of row.now session epoch }
{
    if row.owns(session, epoch) {
        Standing::Known
    } else if row.is_new(epoch) {
        Standing::Unknown
    } else {
        Standing::Over
    }
}

/// Returns whether the grant of a request of this stamp may be let go, by the row of its number.
///
/// It may if the session is silent, if nobody has the number, or if a later session has it. If another voter ended
/// the session, it may not know so: then silence alone counts.
pub fn may_let_go(row: &SessionRow, is_silent: bool, ended_elsewhere: bool, stamp: u64) -> bool
    ensures { result ≡ may_let_go row.now is_silent ended_elsewhere stamp }
{
    is_silent || !ended_elsewhere && (row.session().is_none() || row.is_before(stamp))
}

/// Returns whether a voter takes this of a session, under an epoch, by the row of its number.
///
/// The number has to be the session's, under this epoch. A REQUEST has one of the session's own stamps. A RELEASE
/// has at most the highest that is reserved, so it may end requests of earlier sessions. A RELINQUISH names a grant.
pub fn may_say(row: &SessionRow, session: u128, epoch: u64, body: &VoterBody) -> bool
    ensures { result ≡ may_say row.now session epoch body.now }
{
    match *body {
        VoterBody::Request { stamp } => row.takes(session, epoch, stamp),
        VoterBody::Relinquish { .. } => row.owns(session, epoch),
        VoterBody::Release { stamp } => row.owns(session, epoch) && stamp <= row.reserved(),
    }
}

/// Returns the stamp of the request that a message to a client is about.
///
/// An INQUIRE is about the request that has the vote. It is 0 if the client has none.
pub fn subject(held: Option<Grant>, message: &ToClient) -> u64
    ensures { result ≡ subject held message.now.client message.now.body }
{
    match (message.body, held) {
        (ClientBody::Locked { stamp, .. } | ClientBody::Fail { stamp }, _) => stamp,
        (ClientBody::Inquire { .. }, Some(grant)) if grant.client == message.client => grant.stamp,
        (ClientBody::Inquire { .. }, _) => 0,
    }
}

/// Returns the session that hears of a stamp: the one that has the number, if the stamp is above its base.
///
/// So nobody hears of a request of an earlier session of the number.
pub fn hearer(row: &SessionRow, stamp: u64) -> Option<u128>
    ensures { result ≡ hearer row.now stamp }
{
    if row.is_before(stamp) {
        None
    } else {
        row.session()
    }
}

/// Returns whether a session hears this message, by the row of its number and by who has the vote.
pub fn hears(row: &SessionRow, held: Option<Grant>, message: &ToClient) -> bool
    ensures { result ≡ is_some (hearer row.now (subject held message.now.client message.now.body)) }
{
    hearer(row, subject(held, message)).is_some()
}
