//! One lock of one session.
ghost use Rattle.std.specs.Prelude.{◌≡◌, ◌≤◌, ◌<◌, Err, IfErr, IfNone, IfOk, IfSome, None, Ok, OnOk, Some, false, length, true};
ghost use Rattle.numbers.specs.Bounds.{max_clients, max_limit, max_voters};
ghost use Rattle.callers.specs.Calls.{call_fault, closed, emptied, ends_try, is_new_loss, lost, lost_of, spoiled, tries_refused, unlocked, unwanted, wanted};
ghost use Rattle.client_node.specs.Locks.{IsSound, ask_lock, begun_lock, give_up_lock, hand_lock, handed_until, is_before, is_doubtful, is_had_inside, keep_lock, leave_lock, next, phase_of, raise_lock, take_lock, tells, until, with_calls};

use crate::fault::LockFault;
use crate::votes;
use callers::{CallFault, Calls, Next, Phase};
use message::ToClient;
use numbers::MAX_VOTERS;
use quorum_set::QSet;
use requester::{ClientFault, Messages, Phase as ClientPhase, Requester, Seen};
use std::marker::Model;
use vote_leases::{Incarnation, Vote, VoterLease};

/// One lock of one session: its client, what is kept of the vote of each voter, and the calls for the lock.
///
/// Contracts see it as a `Lock`.
#[derive(Drop)]
pub struct LockClient {
    client: Requester,
    votes: [Vote; MAX_VOTERS],
    calls: Calls,
}

impl Model for LockClient {
    ghost use Rattle.client_node.specs.Locks.{Lock, IsSound};
    ghost use Rattle.std.specs.Coded.{codes};
    ghost use Rattle.requester.specs.contracts.state.ClientState as known;
    ghost use Rattle.vote_leases.specs.contracts.vote.Vote as vote_known;
    ghost use Rattle.callers.specs.contracts.calls.Calls as calls_known;

    ghost Value = { Lock };

    ghost coded = { Prim.hlevel (codes, known.the_row.coded, vote_known.the_row.coded, calls_known.the_row.coded) };

    ghost view = { λ l. record { client = l.client; votes = l.votes; calls = l.calls } };

    ghost invariant = { λ l. IsSound (record { client = l.client; votes = l.votes; calls = l.calls }) };
}

impl LockClient {
    /// Returns a lock that nobody wants yet, for the client of this number, 0 to 63. Its stamps go from `used` + 1 to the
    /// limit, which is 1 to 2^62.
    pub fn new(id: u8, limit: u64, used: u64) -> Self
        requires id { id < max_clients }
        requires least { 1 ≤ limit }
        requires most { limit ≤ max_limit }
        requires used { used ≤ limit }
        ensures { result ≡ begun_lock id limit used }
    {
        LockClient {
            client: Requester::anew(id, limit, used),
            votes: [Vote::new(used); MAX_VOTERS],
            calls: Calls::new(used),
        }
    }

    /// Returns the lock that has these parts, as they were saved. `None` if a call has the lock in them, and the client is not
    /// inside by the request under which that has it.
    pub fn of(client: Requester, votes: [Vote; MAX_VOTERS], calls: Calls) -> Option<Self>
        ensures parts { IfSome result (λ l. l ≡ record { client = client; votes = votes; calls = calls }) }
        ensures sound { IfSome result (λ l. is_had_inside client calls.holder ≡ true) }
        ensures refused { IfNone result (is_had_inside client calls.holder ≡ false) }
    {
        if is_had_inside(&client, &calls) {
            Some(LockClient {
                client,
                votes,
                calls,
            })
        } else {
            None
        }
    }

    /// Returns the client of the lock, to be read or saved: its phase, stamp and quorum, what it sends again, and so on.
    pub fn client(&self) -> &Requester
        ensures client { result.now ≡ self.now.client }
        ensures sound { IsSound self.now }
    {
        &self.client
    }

    /// Returns what is kept of the votes, by voter.
    pub fn votes(&self) -> &[Vote; MAX_VOTERS]
        ensures { result.now ≡ self.now.votes }
    {
        &self.votes
    }

    /// Returns the calls for the lock.
    pub fn calls(&self) -> &Calls
        ensures { result.now ≡ self.now.calls }
    {
        &self.calls
    }

    /// Returns the phase of the client, as the calls see it.
    pub fn phase(&self) -> Phase
        ensures { result ≡ phase_of self.now.client }
    {
        phase_of(&self.client)
    }

    /// Raises the clock of the client to this stamp, if it is behind. The next request's stamp is above it.
    pub fn raise(&mut self, clock: u64)
        ensures { self.new ≡ raise_lock self.old clock }
    {
        self.client.raise(clock);
    }

    /// Starts a request for the votes of a quorum that is not empty. Writes what to send to `out`, in place of what was
    /// there.
    ///
    /// Fails with `Busy` unless the client is idle, and then with `StampsSpent` if no stamp is left. Nothing changed then.
    pub fn ask(&mut self, quorum: &QSet, out: &mut Messages) -> Result<Seen, ClientFault>
        requires { 1 ≤ length quorum.now }
        ensures asked { IfOk result (λ seen. ask_lock self.old quorum.now
            ≡ Ok (record { out = out.new.items; seen = seen; lock = self.new })) }
        ensures refused { IfErr result (λ fault. (ask_lock self.old quorum.now ≡ Err fault) × (self.new ≡ self.old)) }
    {
        let seen = self.client.ask_into(quorum, out)?;
        votes::ask_all(&mut self.votes, self.client.stamp());
        Ok(seen)
    }

    /// Takes a message of a voter below 64 that names this client, and whose header says this incarnation, at this time. Votes
    /// count for `span` after a heartbeat, by these leases. Writes what to send to `out`, and returns whether the client
    /// entered.
    ///
    /// A LOCKED brings a vote, or renews it if the client is inside. What leaves gives votes back, and ends requests.
    pub fn take(
        &mut self,
        message: &ToClient,
        incarnation: Incarnation,
        leases: &[VoterLease],
        span: u64,
        now: u64,
        out: &mut Messages,
    ) -> Seen
        requires client { message.now.client ≡ self.old.client.id }
        requires voter { message.now.voter < max_voters }
        ensures { take_lock self.old incarnation leases.now span now message.now
            ≡ record { out = out.new.items; seen = result; lock = self.new } }
    {
        let was_inside = self.client.phase() == ClientPhase::Inside;
        let seen = self.client.take_into(message, out);
        let votes = &mut self.votes;
        votes::bring(votes, message, was_inside, incarnation, leases, span, now);
        votes::note_all(&mut self.votes, out.as_slice());
        seen
    }

    /// Keeps what counts for the vote of a voter, before the session hears of a later incarnation of it.
    pub fn keep(&mut self, voter: u8, leases: &[VoterLease])
        ensures { self.new ≡ keep_lock self.old leases.now voter }
    {
        votes::keep(&mut self.votes, voter, leases);
    }

    /// Leaves: ends the request by which the client is inside. Writes what to send to `out`.
    ///
    /// Fails with `HasLock` while a call has the lock under it, and else with `NotInside` unless the client is inside.
    /// Nothing changed then.
    pub fn leave(&mut self, out: &mut Messages) -> Result<Seen, LockFault>
        ensures left { IfOk result (λ seen. leave_lock self.old
            ≡ Ok (record { out = out.new.items; seen = seen; lock = self.new })) }
        ensures refused { IfErr result (λ fault. (leave_lock self.old ≡ Err fault) × (self.new ≡ self.old)) }
    {
        let request = self.client.stamp();
        if !self.calls.may_end(request) {
            return Err(LockFault::HasLock);
        }
        match self.client.leave_into(out) {
            Ok(seen) => {
                votes::end_all(&mut self.votes, request);
                Ok(seen)
            }
            Err(fault) => Err(LockFault::OfClient(fault)),
        }
    }

    /// Gives up the request by which the client asks. Writes what to send to `out`.
    ///
    /// Fails with `HasLock` while a call has the lock under it, and else with `NotAsking` unless the client is asking.
    /// Nothing changed then.
    pub fn give_up(&mut self, out: &mut Messages) -> Result<Seen, LockFault>
        ensures given_up { IfOk result (λ seen. give_up_lock self.old
            ≡ Ok (record { out = out.new.items; seen = seen; lock = self.new })) }
        ensures refused { IfErr result (λ fault. (give_up_lock self.old ≡ Err fault) × (self.new ≡ self.old)) }
    {
        let stamp = self.client.stamp();
        if !self.calls.may_end(stamp) {
            return Err(LockFault::HasLock);
        }
        match self.client.give_up_into(out) {
            Ok(seen) => {
                votes::end_all(&mut self.votes, stamp);
                Ok(seen)
            }
            Err(fault) => Err(LockFault::OfClient(fault)),
        }
    }

    /// Returns up to when all votes of the quorum count for the request that runs. `None` if one does not count, or none
    /// runs.
    pub fn until(&self, leases: &[VoterLease], span: u64) -> Option<u64>
        ensures { result ≡ until self.now leases.now span }
    {
        let client = &self.client;
        match client.phase() {
            ClientPhase::Idle => None,
            ClientPhase::Asking | ClientPhase::Inside => {
                votes::first_end(&self.votes, leases, client.quorum(), client.stamp(), span)
            }
        }
    }

    /// Returns whether one of the votes of the quorum may be somebody else's. `since` says of each voter since when its
    /// incarnation is known.
    pub fn is_doubtful(&self, leases: &[VoterLease], since: &[u64], span: u64, now: u64) -> bool
        ensures { result ≡ is_doubtful self.now leases.now since.now span now }
    {
        let client = &self.client;
        match client.phase() {
            ClientPhase::Idle => false,
            ClientPhase::Asking | ClientPhase::Inside => votes::any_doubtful(
                &self.votes,
                leases,
                since,
                client.quorum(),
                client.stamp(),
                span,
                now,
            ),
        }
    }

    /// Returns what the session has to do next for the calls, at this time.
    pub fn next(&self, leases: &[VoterLease], since: &[u64], span: u64, now: u64) -> Next
        ensures { result ≡ next self.now leases.now since.now span now }
    {
        let counts = is_before(now, self.until(leases, span));
        let is_doubtful = self.is_doubtful(leases, since, span, now);
        self.calls.next(self.phase(), counts, is_doubtful)
    }

    /// Hands the lock to the first call that waits, if all votes count at this time. Returns up to when that has it. `None` if
    /// it was not handed the lock: then nothing changed.
    pub fn hand(&mut self, leases: &[VoterLease], span: u64, now: u64) -> Option<u64>
        ensures handed { self.new ≡ hand_lock self.old leases.now span now }
        ensures until { result ≡ handed_until self.old leases.now span now }
    {
        let until = self.until(leases, span);
        let phase = self.phase();
        if self.calls.hands(phase, is_before(now, until)) {
            until
        } else {
            None
        }
    }

    /// Returns up to when the call that has the lock has it, by what the votes say now. `None` if they do not all count, or no
    /// call has it.
    pub fn tells(&self, leases: &[VoterLease], span: u64) -> Option<u64>
        ensures { result ≡ tells self.now leases.now span }
    {
        if self.calls.holder.is_some() {
            self.until(leases, span)
        } else {
            None
        }
    }

    /// Takes a call that comes, as [`Calls::wants`] does in the client's phase.
    pub fn wants(&mut self, tries: bool) -> Result<(), CallFault>
        ensures wanted { self.new ≡ with_calls self.old (wanted self.old.calls (phase_of self.old.client) tries) }
        ensures taken { OnOk result (call_fault self.old.calls (phase_of self.old.client) tries ≡ None) }
        ensures refused { IfErr result (λ fault. call_fault self.old.calls (phase_of self.old.client) tries ≡ Some fault) }
    {
        let phase = self.phase();
        self.calls.wants(phase, tries)
    }

    /// Notes that a call does not wait any more, which only tried or did not.
    pub fn unwants(&mut self, tries: bool)
        ensures { self.new ≡ with_calls self.old (unwanted self.old.calls tries) }
    {
        self.calls.unwants(tries);
    }

    /// Notes that somebody else has the lock. Returns whether that ends a call that only tries.
    pub fn refuses_tries(&mut self) -> bool
        ensures refused { self.new ≡ with_calls self.old (tries_refused self.old.calls (phase_of self.old.client)) }
        ensures ends { result ≡ ends_try self.old.calls (phase_of self.old.client) }
    {
        let phase = self.phase();
        self.calls.refuses_tries(phase)
    }

    /// Takes the lock back from the call that has it under this request. Returns whether that call was told before that the
    /// lock may be lost. `None` if no call has it under this request: then nothing changed.
    pub fn unlock(&mut self, request: u64) -> Option<bool>
        ensures unlocked { self.new ≡ with_calls self.old (unlocked self.old.calls request) }
        ensures lost { result ≡ lost_of self.old.calls request }
    {
        self.calls.unlocks(request)
    }

    /// Notes that the lock may be lost. Returns whether the call that has it has to be told.
    pub fn loses(&mut self) -> bool
        ensures lost { self.new ≡ with_calls self.old (lost self.old.calls) }
        ensures is_new { result ≡ is_new_loss self.old.calls }
    {
        self.calls.loses()
    }

    /// Notes that no call waits any more: they all failed.
    pub fn empties(&mut self)
        ensures { self.new ≡ with_calls self.old (emptied self.old.calls) }
    {
        self.calls.empties();
    }

    /// Closes: no call waits any more, and none is taken from now on.
    pub fn closes(&mut self)
        ensures { self.new ≡ with_calls self.old (closed self.old.calls) }
    {
        self.calls.closes();
    }

    /// Returns what the session has to do if a vote that it has may be somebody else's.
    pub fn spoiled(&self) -> Next
        ensures { result ≡ spoiled self.now.calls (phase_of self.now.client) }
    {
        self.calls.spoiled(self.phase())
    }
}

/// Returns the phase of a client, as its calls see it.
fn phase_of(client: &Requester) -> Phase
    ensures { result ≡ phase_of client.now }
{
    match client.phase() {
        ClientPhase::Idle => Phase::Idle,
        ClientPhase::Asking => Phase::Asking,
        ClientPhase::Inside => Phase::Inside(client.stamp()),
    }
}

/// Returns whether the client is inside by the request under which a call has the lock, if one has it.
fn is_had_inside(client: &Requester, calls: &Calls) -> bool
    ensures { result ≡ is_had_inside client.now calls.now.holder }
{
    match calls.holder {
        None => true,
        Some(holder) => {
            client.phase() == ClientPhase::Inside && client.stamp() == holder.request
        }
    }
}

/// Returns whether a time is before this one, if there is one.
fn is_before(now: u64, end: Option<u64>) -> bool
    ensures { result ≡ is_before now end }
{
    match end {
        None => false,
        Some(end) => now < end,
    }
}
