//! What was said of a lock since the start of its voter.
ghost use Rattle.std.specs.FinMap.{get};
ghost use Rattle.std.specs.Prelude.{◌≡◌, ◌<◌, slice_index};
ghost use Rattle.numbers.specs.Bounds.{max_clients};
ghost use Rattle.quiet_time.specs.Quiet.{forgotten, is_awaited, is_old, is_said, noted, since_start, waits_inside};

use message::{ToVoter, VoterBody};
use numbers::MAX_CLIENTS;
use voter::{Grant, Voter};

/// What was said of a lock since the start of its voter.
#[repr(C)]
#[derive(Clone, Copy)]
pub struct SinceStart {
    /// How many grants the vote had given before the start: a grant with a number up to this is from before.
    pub begun: u64,
    /// By client: the stamp of the request by which it said since that it is inside, 0 for none.
    pub inside: [u64; MAX_CLIENTS],
}

impl SinceStart {
    /// Returns that nothing was said since a start, before which the vote had given `begun` grants.
    pub fn new(begun: u64) -> Self
        ensures { result ≡ since_start begun }
    {
        SinceStart {
            begun,
            inside: [0; MAX_CLIENTS],
        }
    }

    /// Returns whether a client said since the start that it is inside by the request of this stamp.
    fn is_said(&self, client: u8, stamp: u64) -> bool
        ensures { result ≡ is_said self.now client stamp }
    {
        stamp > 0 && self.stamp_of(client) == stamp
    }

    /// Returns whether the vote has a grant from before the start whose client did not say since that it is inside by
    /// it.
    pub fn is_old(&self, held: Option<Grant>) -> bool
        ensures { result ≡ is_old self.now held }
    {
        match held {
            Some(grant) => grant.grant <= self.begun && !self.is_said(grant.client, grant.stamp),
            None => false,
        }
    }

    /// Returns whether somebody waits who said since the start that he is inside.
    pub fn is_awaited(&self, voter: &Voter) -> bool
        ensures { result ≡ is_awaited self.now voter.now }
    {
        (0..MAX_CLIENTS as u8).any(|client| self.waits_inside(voter, client))
    }

    /// Returns whether a client waits that said since the start that it is inside, by the stamp under which it waits.
    fn waits_inside(&self, voter: &Voter, client: u8) -> bool
        ensures { result ≡ waits_inside self.now client (get voter.now.waiting client) }
    {
        let said = self.stamp_of(client);
        said > 0 && waiting_stamp(voter, client) == Some(said)
    }

    /// Returns the stamp by which a client said that it is inside, 0 for none.
    fn stamp_of(&self, client: u8) -> u64
        ensures { result ≡ slice_index self.now.inside client }
    {
        match self.inside.get(usize::from(client)) {
            Some(stamp) => *stamp,
            None => 0,
        }
    }

    /// Notes what a message said, after the voter took it: `closed` is whether only who is inside gets the vote.
    pub(crate) fn note(&mut self, closed: bool, says_inside: bool, voter: &Voter, message: &ToVoter)
        requires client { message.now.client < max_clients }
        ensures { self.new ≡ noted closed says_inside self.old voter.now message.now.client message.now.body }
    {
        if let VoterBody::Request { stamp } = message.body {
            if closed && says_inside && voter.known(message.client) == Some(stamp) {
                self.inside[usize::from(message.client)] = stamp;
            }
        }
    }

    /// Forgets what a client said, 0 to 63: its session is over.
    pub fn forget(&mut self, client: u8)
        requires { client < max_clients }
        ensures { self.new ≡ forgotten self.old client }
    {
        self.inside[usize::from(client)] = 0;
    }
}

/// Returns the stamp by which a client waits.
fn waiting_stamp(voter: &Voter, client: u8) -> Option<u64>
    ensures { result ≡ get voter.now.waiting client }
{
    let _ = voter.granted();
    match voter.held() {
        Some(grant) if grant.client == client => None,
        _ => voter.known(client),
    }
}
