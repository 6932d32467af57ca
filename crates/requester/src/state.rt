//! What a client knows, and its steps.
ghost use Rattle.std.specs.Prelude.{◌≡◌, ◌==◌, ◌<◌, ◌≤◌, ◌+◌, ◌^◌, ◌++◌, [], true, Err, IfErr, IfNone, IfOk, Ok, length, replicate};
ghost use Rattle.numbers.specs.Bounds.{max_voters};
ghost use Rattle.arrayvec.specs.ArrayVec.{array_vec_len};
ghost use Rattle.numbers.specs.Sets.{IsSet};
ghost use Rattle.requester.specs.Words.{held_of, holds, holds_under, is_covered, is_current, is_hindered, is_idle, is_member, last_of};
ghost use Rattle.requester.specs.Soundness.{AreMembers, HoldsOfMembers};
ghost use Rattle.requester.specs.Steps.{ask, ask_fault, clear_votes, end_request, unless, take_fail, give_up, hold, take_inquire, is_fresh, leave, take_locked, relinquish, relinquish_inquired, relinquish_marked, remind, remind_member, take, take_body, tell, send_to_members, start, would_hold};
ghost use Rattle.requester.specs.Leases.{disclaim, disclaim_unless, renew, send_to};

use crate::fault::ClientFault;
use arrayvec::ArrayVec;
use message::{ClientBody, ToClient, ToVoter, VoterBody};
use numbers::MAX_VOTERS;
use quorum_set::QSet;

/// What a client is doing.
#[derive(Clone, Copy, Debug, PartialEq, Eq)]
pub enum Phase {
    /// It wants nothing.
    Idle,
    /// It asked a quorum, and waits for votes.
    Asking,
    /// It holds the vote of each member of its quorum: it has the lock.
    Inside,
}

/// Whether a client entered or left in a step.
#[derive(Clone, Copy, Debug, PartialEq, Eq)]
pub enum Seen {
    /// Neither.
    Nothing,
    /// The client got the lock.
    Entered,
    /// The client gave up the lock.
    Left,
}

/// The voters of a quorum, in ascending order.
pub type Members = ArrayVec<u8, MAX_VOTERS>;

/// The messages of a step.
pub type Messages = ArrayVec<ToVoter, MAX_VOTERS>;

/// The messages of a reminder.
pub type Reminders = ArrayVec<ToVoter, 128>;

/// What a client's step sends, and whether the client entered or left.
#[derive(Drop)]
pub struct Reply {
    /// The messages to send, in order.
    pub out: Messages,
    /// Whether the client entered or left.
    pub seen: Seen,
}

/// What a client knows. The arrays have an entry for each voter, and the sets are of voters.
#[derive(Drop)]
pub struct ClientState {
    /// The client's number.
    pub id: u8,
    /// The highest stamp that it may use.
    pub limit: u64,
    /// The highest stamp that it saw or used, 0 at first.
    pub clock: u64,
    /// Whether it is idle, asking or inside.
    pub phase: Phase,
    /// The stamp of the current or last request, 0 at first.
    pub stamp: u64,
    /// The quorum of the current or last request, empty at first.
    pub quorum: Members,
    /// The grant under which the voter's vote is held, 0 if it is not.
    pub held: [u64; MAX_VOTERS],
    /// The last grant that was given back to the voter, over all requests, 0 at first.
    pub last: [u64; MAX_VOTERS],
    /// The voters that sent FAIL for the current request.
    pub failed: QSet,
    /// The voters whose votes were given back for the current request.
    pub relinquished: QSet,
    /// The voters that asked for their votes, which are held.
    pub inquired: QSet,
}

impl ClientState {
    /// Returns what a new client knows.
    pub fn new(id: u8, limit: u64) -> Self
        ensures { result ≡ start id limit }
    {
        ClientState {
            id,
            limit,
            clock: 0,
            phase: Phase::Idle,
            stamp: 0,
            quorum: ArrayVec::new(),
            held: [0; MAX_VOTERS],
            last: [0; MAX_VOTERS],
            failed: QSet::empty(),
            relinquished: QSet::empty(),
            inquired: QSet::empty(),
        }
    }

    fn tell(&self, voter: u8, body: VoterBody) -> ToVoter
        ensures { result ≡ tell self.now voter body }
    {
        ToVoter {
            client: self.id,
            voter,
            body,
        }
    }

    fn send_to(&self, voters: &[u8], body: VoterBody, out: &mut Messages)
        requires few { length voters.now ≤ max_voters }
        requires room { out.old.items ≡ [] }
        ensures { out.new.items ≡ send_to self.now voters.now body }
    {
        for v in voters {
            out.push(self.tell(*v, body));
        }
    }

    fn send_to_members(&self, body: VoterBody, out: &mut Messages)
        requires few { array_vec_len self.now.quorum ≤ max_voters }
        requires room { out.old.items ≡ [] }
        ensures { out.new.items ≡ send_to_members self.now body }
    {
        self.send_to(self.quorum.as_slice(), body, out);
    }

    /// Appends the RELEASE of the last stamp to each of these voters, if there was a request.
    fn disclaim_to(&self, voters: &QSet, out: &mut Messages)
        requires room { out.old.items ≡ [] }
        ensures { out.new.items ≡ disclaim_unless (self.now.stamp == 0) self.now voters.now }
    {
        if self.stamp > 0 {
            let release = VoterBody::Release { stamp: self.stamp };
            self.send_to(voters.members().as_slice(), release, out);
        }
    }

    /// Returns the RELEASE of the last stamp to each of these voters. Fails with `Busy` unless the
    /// client is idle.
    pub fn disclaim(&self, voters: &QSet) -> Result<Messages, ClientFault>
        ensures disclaimed { IfOk result (λ out. disclaim self.now voters.now ≡ Ok out.items) }
        ensures refused { IfErr result (λ fault. disclaim self.now voters.now ≡ Err fault) }
    {
        match self.phase {
            Phase::Idle => {}
            Phase::Asking | Phase::Inside => return Err(ClientFault::Busy),
        }
        let mut out = ArrayVec::new();
        self.disclaim_to(voters, &mut out);
        Ok(out)
    }

    /// Returns REQUEST for each member if the client is inside, else nothing.
    pub fn renew(&self) -> Messages
        requires few { array_vec_len self.now.quorum ≤ max_voters }
        ensures { result.items ≡ renew self.now }
    {
        let mut out = ArrayVec::new();
        match self.phase {
            Phase::Idle | Phase::Asking => {}
            Phase::Inside => {
                self.send_to_members(VoterBody::Request { stamp: self.stamp }, &mut out);
            }
        }
        out
    }

    pub fn is_member(&self, voter: u8) -> bool
        ensures { result ≡ is_member self.now voter }
    {
        self.quorum.as_slice().contains(&voter)
    }

    fn is_current(&self, stamp: u64) -> bool
        ensures { result ≡ is_current self.now stamp }
    {
        self.phase != Phase::Idle && stamp == self.stamp
    }

    /// Returns the grant under which the vote of a voter is held, or 0.
    pub fn held_of(&self, voter: u8) -> u64
        ensures { result ≡ held_of self.now voter }
    {
        match self.held.get(usize::from(voter)) {
            Some(grant) => *grant,
            None => 0,
        }
    }

    /// Returns the last grant of a voter that was given back, or 0.
    pub fn last_of(&self, voter: u8) -> u64
        ensures { result ≡ last_of self.now voter }
    {
        match self.last.get(usize::from(voter)) {
            Some(grant) => *grant,
            None => 0,
        }
    }

    pub fn holds(&self, voter: u8) -> bool
        ensures { result ≡ holds self.now voter }
    {
        self.held_of(voter) > 0
    }

    fn holds_under(&self, voter: u8, grant: u64) -> bool
        ensures { result ≡ holds_under self.now voter grant }
    {
        self.holds(voter) && self.held_of(voter) == grant
    }

    fn is_fresh(&self, voter: u8, grant: u64) -> bool
        ensures { result ≡ is_fresh self.now voter grant }
    {
        self.is_member(voter) && !self.holds(voter) && grant > self.last_of(voter)
    }

    pub fn is_covered(&self) -> bool
        ensures { result ≡ is_covered self.now }
    {
        for v in self.quorum.as_slice() {
            if !self.holds(*v) {
                return false;
            }
        }
        true
    }

    fn is_hindered(&self) -> bool
        ensures { result ≡ is_hindered self.now }
    {
        for v in self.quorum.as_slice() {
            if self.failed.has(*v) || self.relinquished.has(*v) {
                return true;
            }
        }
        false
    }

    /// Forgets all held votes. They are votes of members, so only those are looked at.
    fn drop_votes(&mut self)
        requires places { length self.old.held ≡ max_voters }
        requires of_members { HoldsOfMembers self.old }
        requires members { AreMembers self.old.quorum.items }
        ensures { self.new ≡ record self.old { held = replicate max_voters 0 } }
    {
        for i in 0..self.quorum.len() {
            let voter = self.quorum[i];
            self.held[voter as usize] = 0;
        }
    }

    /// Forgets all marks of voters.
    fn unmark(&mut self)
        ensures { self.new ≡ record self.old { failed = []; relinquished = []; inquired = [] } }
    {
        self.failed = QSet::empty();
        self.relinquished = QSet::empty();
        self.inquired = QSet::empty();
    }

    /// Returns why `ask` would fail, if it would.
    pub fn ask_fault(&self) -> Option<ClientFault>
        ensures fault { result ≡ ask_fault self.now }
        ensures stamp { IfNone result (self.now.clock < self.now.limit) }
    {
        match self.phase {
            Phase::Idle if self.clock >= self.limit => Some(ClientFault::StampsSpent),
            Phase::Idle => None,
            Phase::Asking | Phase::Inside => Some(ClientFault::Busy),
        }
    }

    /// Starts a new request for this quorum, under the next stamp. An idle client holds no vote.
    #[tactic(auto, unfolding(crate::specs::Steps::ask))]
    pub fn ask(&mut self, quorum: &QSet, out: &mut Messages) -> Result<Seen, ClientFault>
        requires few { self.old.limit < 2 ^ 63 }
        requires idle { is_idle self.old.phase ≡ true → self.old.held ≡ replicate max_voters 0 }
        requires room { out.old.items ≡ [] }
        ensures asked { IfOk result (λ seen. ask self.old quorum.now
            ≡ Ok (record { out = out.new.items; seen = seen; state = self.new })) }
        ensures refused { IfErr result (λ fault. (ask self.old quorum.now ≡ Err fault)
            × (self.new ≡ self.old) × (out.new.items ≡ [])) }
        ensures set { IfOk result (λ _. IsSet quorum.now) }
    {
        if let Some(fault) = self.ask_fault() {
            return Err(fault);
        }
        self.unmark();
        self.clock += 1;
        self.stamp = self.clock;
        self.phase = Phase::Asking;
        self.quorum = quorum.members();
        self.send_to_members(VoterBody::Request { stamp: self.stamp }, out);
        Ok(Seen::Nothing)
    }

    /// Gives back a vote, if it is held.
    #[tactic(auto, unfolding(crate::specs::Steps::relinquish))]
    fn relinquish(&mut self, voter: u8, out: &mut Messages)
        requires voter { voter < max_voters }
        requires room { array_vec_len out.old < max_voters }
        ensures state { self.new ≡ (relinquish self.old voter).state }
        ensures out { out.new.items ≡ out.old.items ++ (relinquish self.old voter).out }
        ensures len { array_vec_len out.new ≤ array_vec_len out.old + 1 }
    {
        if self.holds(voter) {
            let place = voter as usize;
            let grant = self.held[place];
            self.held[place] = 0;
            self.last[place] = grant;
            self.inquired.remove(voter);
            self.relinquished.insert(voter);
            out.push(self.tell(voter, VoterBody::Relinquish { grant }));
        }
    }

    /// Gives back a vote, if its voter is marked as inquired.
    fn relinquish_marked(&mut self, voter: u8, out: &mut Messages)
        requires voter { voter < max_voters }
        requires room { array_vec_len out.old < max_voters }
        ensures state { self.new ≡ (relinquish_marked self.old voter).state }
        ensures out { out.new.items ≡ out.old.items ++ (relinquish_marked self.old voter).out }
        ensures len { array_vec_len out.new ≤ array_vec_len out.old + 1 }
    {
        if self.inquired.has(voter) {
            self.relinquish(voter, out);
        }
    }

    /// Gives back the vote of each member that is marked as inquired.
    fn relinquish_inquired(&mut self, out: &mut Messages)
        requires members { AreMembers self.old.quorum.items }
        requires room { out.old.items ≡ [] }
        ensures state { self.new ≡ (relinquish_inquired self.old self.old.quorum.items).state }
        ensures out { out.new.items ≡ (relinquish_inquired self.old self.old.quorum.items).out }
    {
        for i in 0..self.quorum.len() {
            let voter = self.quorum[i];
            self.relinquish_marked(voter, out);
        }
    }

    fn hold(&mut self, voter: u8, grant: u64)
        requires { voter < max_voters }
        ensures { self.new ≡ hold self.old voter grant }
    {
        self.held[voter as usize] = grant;
        self.failed.remove(voter);
        self.relinquished.remove(voter);
        self.inquired.remove(voter);
    }

    #[tactic(auto, unfolding(crate::specs::Steps::take_locked))]
    fn locked(&mut self, voter: u8, stamp: u64, grant: u64, out: &mut Messages) -> Seen
        requires voter { voter < max_voters }
        requires room { out.old.items ≡ [] }
        ensures state { self.new ≡ (take_locked self.old voter stamp grant).state }
        ensures out { out.new.items ≡ (take_locked self.old voter stamp grant).out }
        ensures seen { result ≡ (take_locked self.old voter stamp grant).seen }
    {
        if !self.is_current(stamp) {
            out.push(self.tell(voter, VoterBody::Release { stamp }));
            return Seen::Nothing;
        }
        if self.is_fresh(voter, grant) {
            self.hold(voter, grant);
            if self.is_covered() {
                self.phase = Phase::Inside;
                return Seen::Entered;
            }
        }
        Seen::Nothing
    }

    #[tactic(auto, unfolding(crate::specs::Steps::take_fail))]
    fn failed(&mut self, voter: u8, stamp: u64, out: &mut Messages)
        requires voter { voter < max_voters }
        requires members { AreMembers self.old.quorum.items }
        requires room { out.old.items ≡ [] }
        ensures state { self.new ≡ (take_fail self.old voter stamp).state }
        ensures out { out.new.items ≡ (take_fail self.old voter stamp).out }
    {
        if self.phase == Phase::Asking
            && stamp == self.stamp
            && self.is_member(voter)
            && !self.holds(voter)
        {
            self.failed.insert(voter);
            self.relinquish_inquired(out);
        }
    }

    #[tactic(auto, unfolding(crate::specs::Steps::take_inquire))]
    fn inquired(&mut self, voter: u8, grant: u64, out: &mut Messages)
        requires voter { voter < max_voters }
        requires room { out.old.items ≡ [] }
        ensures state { self.new ≡ (take_inquire self.old voter grant).state }
        ensures out { out.new.items ≡ (take_inquire self.old voter grant).out }
    {
        if self.phase == Phase::Asking && self.holds_under(voter, grant) {
            if self.is_hindered() {
                self.relinquish(voter, out);
            } else {
                self.inquired.insert(voter);
            }
        }
    }

    fn take_body(&mut self, voter: u8, body: ClientBody, out: &mut Messages) -> Seen
        requires voter { voter < max_voters }
        requires members { AreMembers self.old.quorum.items }
        requires room { out.old.items ≡ [] }
        ensures state { self.new ≡ (take_body self.old voter body).state }
        ensures out { out.new.items ≡ (take_body self.old voter body).out }
        ensures seen { result ≡ (take_body self.old voter body).seen }
    {
        match body {
            ClientBody::Locked { stamp, grant } => self.locked(voter, stamp, grant, out),
            ClientBody::Fail { stamp } => {
                self.failed(voter, stamp, out);
                Seen::Nothing
            }
            ClientBody::Inquire { grant } => {
                self.inquired(voter, grant, out);
                Seen::Nothing
            }
        }
    }

    /// Takes a message.
    #[tactic(auto, unfolding(crate::specs::Steps::take))]
    pub fn take(&mut self, message: &ToClient, out: &mut Messages) -> Seen
        requires voter { message.now.voter < max_voters }
        requires members { AreMembers self.old.quorum.items }
        requires room { out.old.items ≡ [] }
        ensures { take self.old message.now ≡ record { out = out.new.items; seen = result; state = self.new } }
    {
        self.clock = self.clock.max(message.seen);
        self.take_body(message.voter, message.body, out)
    }

    /// Returns whether a message is a LOCKED that counts.
    #[tactic(auto, unfolding(crate::specs::Steps::would_hold))]
    pub fn would_hold(&self, message: &ToClient) -> bool
        ensures { result ≡ would_hold self.now message.now }
    {
        match message.body {
            ClientBody::Locked { stamp, grant } => {
                self.is_current(stamp) && self.is_fresh(message.voter, grant)
            }
            ClientBody::Fail { .. } | ClientBody::Inquire { .. } => false,
        }
    }

    /// Ends the request: sends RELEASE to each member.
    fn release(&mut self, out: &mut Messages)
        requires places { length self.old.held ≡ max_voters }
        requires of_members { HoldsOfMembers self.old }
        requires members { AreMembers self.old.quorum.items }
        requires room { out.old.items ≡ [] }
        ensures state { self.new ≡ record (clear_votes self.old) { phase = Phase.Idle } }
        ensures out { out.new.items ≡ send_to_members self.old (VoterBody.Release self.old.stamp) }
    {
        self.send_to_members(VoterBody::Release { stamp: self.stamp }, out);
        self.drop_votes();
        self.unmark();
        self.phase = Phase::Idle;
    }

    /// Returns why `leave` would fail, if it would.
    #[tactic(auto, unfolding(crate::specs::Steps::leave))]
    pub fn leave_fault(&self) -> Option<ClientFault>
        ensures { leave self.now ≡ unless result (end_request self.now Seen.Left) }
    {
        match self.phase {
            Phase::Inside => None,
            Phase::Idle | Phase::Asking => Some(ClientFault::NotInside),
        }
    }

    /// Leaves, if the client is inside.
    #[tactic(auto, unfolding(crate::specs::Steps::leave))]
    pub fn leave(&mut self, out: &mut Messages) -> Result<Seen, ClientFault>
        requires places { length self.old.held ≡ max_voters }
        requires of_members { HoldsOfMembers self.old }
        requires members { AreMembers self.old.quorum.items }
        requires room { out.old.items ≡ [] }
        ensures left { IfOk result (λ seen. leave self.old
            ≡ Ok (record { out = out.new.items; seen = seen; state = self.new })) }
        ensures refused { IfErr result (λ fault. (leave self.old ≡ Err fault)
            × (self.new ≡ self.old) × (out.new.items ≡ [])) }
    {
        if let Some(fault) = self.leave_fault() {
            return Err(fault);
        }
        self.release(out);
        Ok(Seen::Left)
    }

    /// Returns why `give_up` would fail, if it would.
    #[tactic(auto, unfolding(crate::specs::Steps::give_up))]
    pub fn give_up_fault(&self) -> Option<ClientFault>
        ensures { give_up self.now ≡ unless result (end_request self.now Seen.Nothing) }
    {
        match self.phase {
            Phase::Asking => None,
            Phase::Idle | Phase::Inside => Some(ClientFault::NotAsking),
        }
    }

    /// Gives up the request, if the client is asking.
    #[tactic(auto, unfolding(crate::specs::Steps::give_up))]
    pub fn give_up(&mut self, out: &mut Messages) -> Result<Seen, ClientFault>
        requires places { length self.old.held ≡ max_voters }
        requires of_members { HoldsOfMembers self.old }
        requires members { AreMembers self.old.quorum.items }
        requires room { out.old.items ≡ [] }
        ensures given_up { IfOk result (λ seen. give_up self.old
            ≡ Ok (record { out = out.new.items; seen = seen; state = self.new })) }
        ensures refused { IfErr result (λ fault. (give_up self.old ≡ Err fault)
            × (self.new ≡ self.old) × (out.new.items ≡ [])) }
    {
        if let Some(fault) = self.give_up_fault() {
            return Err(fault);
        }
        self.release(out);
        Ok(Seen::Nothing)
    }

    fn remind_member(&self, voter: u8, out: &mut Reminders)
        requires voter { voter < max_voters }
        requires room { array_vec_len out.old + 2 ≤ 128 }
        ensures out { out.new.items ≡ out.old.items ++ remind_member self.now voter }
        ensures len { array_vec_len out.new ≤ array_vec_len out.old + 2 }
    {
        if self.holds(voter) {
            return;
        }
        if self.relinquished.has(voter) {
            let grant = self.last[voter as usize];
            out.push(self.tell(voter, VoterBody::Relinquish { grant }));
        }
        out.push(self.tell(voter, VoterBody::Request { stamp: self.stamp }));
    }

    /// Returns what to send to the members again while asking.
    #[tactic(auto, unfolding(crate::specs::Steps::remind))]
    pub fn remind(&self) -> Reminders
        requires members { AreMembers self.now.quorum.items }
        ensures { result.items ≡ remind self.now }
    {
        let mut out = ArrayVec::new();
        if self.phase == Phase::Asking {
            for v in self.quorum.as_slice() {
                self.remind_member(*v, &mut out);
            }
        }
        out
    }
}
