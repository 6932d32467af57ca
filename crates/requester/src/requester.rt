ghost use Rattle.std.specs.Prelude.{◌≡◌, ◌<◌, ◌≤◌, ℕ, List, [], IfErr, IfOk, IfSome, Err, Ok, Some, length};
ghost use Rattle.numbers.specs.Bounds.{max_clients, max_voters, max_limit};
ghost use Rattle.arrayvec.specs.ArrayVec.{array_vec_len};
ghost use Rattle.requester.specs.declared.state.ClientState.{ClientState};
ghost use Rattle.requester.specs.Saved.{IsKept, least_client, words_of};
ghost use Rattle.requester.specs.Soundness.{IsSound};
ghost use Rattle.quorum_set.specs.Words.{word_of};
ghost use Rattle.requester.specs.Words.{grant_of, is_spent, members};
ghost use Rattle.requester.specs.Leases.{anew, disclaim, renew};
ghost use Rattle.requester.specs.Steps.{ask, ask_fault, end_request, give_up, leave, remind, see, send_requests, start, take, unless, would_hold};

use crate::fault::ClientFault;
use crate::saved::{SavedWords, bits_of};
use crate::state::{ClientState, Messages, Phase, Reminders, Reply, Seen};
use arrayvec::ArrayVec;
use message::ToClient;
use quorum_set::QSet;
use std::marker::Model;

/// A client of the voting lock: it runs one request at a time.
///
/// Contracts see it as a `ClientState`, which is what it knows.
#[derive(Drop)]
pub struct Requester {
    state: ClientState,
}

impl Model for Requester {
    ghost use Rattle.requester.specs.declared.state.ClientState.{ClientState};
    ghost use Rattle.requester.specs.Soundness.{IsSound};
    ghost use Rattle.requester.specs.contracts.state.ClientState as known;

    ghost Value = { ClientState };

    ghost coded = { known.the_row.coded };

    ghost view = { λ a. a.state };

    ghost invariant = { λ a. IsSound a.state };
}

impl Requester {
    /// Returns a new client with this number, 0 to 63. Its stamps go from 1 to the limit, which is
    /// 1 to 2^62.
    pub fn new(id: u8, limit: u64) -> Self
        requires id { id < max_clients }
        requires least { 1 ≤ limit }
        requires most { limit ≤ max_limit }
        ensures { result ≡ start id limit }
    {
        Requester {
            state: ClientState::new(id, limit),
        }
    }

    /// Returns a client that lost its state, with a clock that is at least the stamp of its last
    /// request. It is idle, and its next stamp is above the clock.
    ///
    /// If it used a greater stamp before, two of its requests may have one pass, and two clients may be
    /// inside. The clock comes from a file with one number, written ahead. What a quorum of voters has
    /// seen may be less than the last stamp.
    pub fn anew(id: u8, limit: u64, clock: u64) -> Self
        requires id { id < max_clients }
        requires least { 1 ≤ limit }
        requires most { limit ≤ max_limit }
        requires clock { clock ≤ limit }
        ensures { result ≡ anew id limit clock }
    {
        Requester {
            state: ClientState {
                clock,
                stamp: clock,
                ..ClientState::new(id, limit)
            },
        }
    }

    /// Raises the clock to this stamp, if it is behind. The next request's stamp is above it.
    pub fn raise(&mut self, clock: u64)
        ensures { self.new ≡ see self.old clock }
    {
        self.state.clock = self.state.clock.max(clock);
    }

    /// Writes the client's state as numbers, in place of what was there. Restored from them, it is
    /// the same client.
    pub fn save(&self, words: &mut SavedWords)
        ensures words { words.new.items ≡ words_of self.now }
        ensures len { array_vec_len words.new ≡ 138 }
        // So it can be restored, whatever calls led to it.
        ensures kept { IsKept self.now }
    {
        self.state.save(words);
    }

    /// Returns the client that was saved as these numbers. `None` if they are not those of a sound
    /// client, whatever they are.
    pub fn restore(words: &[u64]) -> Option<Requester>
        // A restored client is sound, whatever the numbers are.
        ensures kept { IfSome result IsKept }
        // It is saved as exactly these numbers.
        ensures text { IfSome result (λ x. words.now ≡ words_of x) }
        // A saved client is restored as it was.
        ensures read { (x : ClientState) → IsKept x → words.now ≡ words_of x → result ≡ Some x }
    {
        let state = ClientState::restore(words)?;
        Some(Requester { state })
    }

    /// Returns a copy of the client: what it saves is restored.
    pub fn copy(&self) -> Requester
        ensures { result ≡ self.now }
    {
        let mut words = ArrayVec::new();
        self.save(&mut words);
        match Requester::restore(words.as_slice()) {
            Some(copy) => copy,
            None => unreachable!(),
        }
    }

    /// Forgets all but the least that has to survive a crash: the clock and the last stamp. The
    /// client is then idle.
    ///
    /// If it was inside, this opens the lock, so its work has to be done or undone. Its votes come
    /// back by the voters' reminders.
    pub fn forget(&mut self)
        ensures { self.new ≡ least_client self.old }
    {
        self.state.forget();
    }

    /// Returns the client's number.
    pub fn id(&self) -> u8
        ensures value { result ≡ self.now.id }
        ensures sound { IsSound self.now }
    {
        self.state.id
    }

    /// Returns whether the client is idle, asking or inside.
    pub fn phase(&self) -> Phase
        ensures value { result ≡ self.now.phase }
        ensures sound { IsSound self.now }
    {
        self.state.phase
    }

    /// Returns the stamp of the current or last request, 0 if there was none.
    pub fn stamp(&self) -> u64
        ensures value { result ≡ self.now.stamp }
        ensures sound { IsSound self.now }
    {
        self.state.stamp
    }

    /// Returns the quorum of the current or last request, in ascending order; empty if there was
    /// none.
    pub fn quorum(&self) -> &[u8]
        ensures value { result.now ≡ self.now.quorum.items }
        ensures sound { IsSound self.now }
    {
        self.state.quorum.as_slice()
    }

    /// Returns the quorum of the current or last request as bits: bit i is 1 if voter i is a member.
    pub fn quorum_bits(&self) -> u64
        ensures { result ≡ word_of (members self.now) }
    {
        bits_of(self.state.quorum.as_slice())
    }

    /// Returns whether no stamp is left for another request: whether the clock is at least the
    /// limit.
    pub fn spent(&self) -> bool
        ensures { result ≡ is_spent self.now }
    {
        self.state.clock >= self.state.limit
    }

    /// Returns the grant under which the vote of this voter is held, or `None` if it is not held.
    /// `None` for a number from 64 on.
    pub fn held(&self, voter: u8) -> Option<u64>
        ensures { result ≡ grant_of self.now voter }
    {
        match self.state.held_of(voter) {
            0 => None,
            grant => Some(grant),
        }
    }

    /// Returns why [`Requester::ask`] would fail now, or `None` if it would not.
    #[tactic(auto, unfolding(crate::specs::Steps::ask))]
    pub fn ask_fault(&self) -> Option<ClientFault>
        ensures fault { result ≡ ask_fault self.now }
        ensures asked { (quorum : List ℕ) → ask self.now quorum ≡ unless result (send_requests self.now quorum) }
    {
        self.state.ask_fault()
    }

    /// Returns why [`Requester::leave`] would fail now, or `None` if it would not.
    pub fn leave_fault(&self) -> Option<ClientFault>
        ensures { leave self.now ≡ unless result (end_request self.now Seen.Left) }
    {
        self.state.leave_fault()
    }

    /// Returns why [`Requester::give_up`] would fail now, or `None` if it would not.
    pub fn give_up_fault(&self) -> Option<ClientFault>
        ensures { give_up self.now ≡ unless result (end_request self.now Seen.Nothing) }
    {
        self.state.give_up_fault()
    }

    /// Starts a request for the votes of a quorum that is not empty. The reply has a REQUEST under
    /// the next stamp for each member, in ascending order.
    ///
    /// Fails with `Busy` unless the client is idle, and then with `StampsSpent` if no stamp is left.
    pub fn ask(&mut self, quorum: &QSet) -> Result<Reply, ClientFault>
        requires { 1 ≤ length quorum.now }
        ensures asked { IfOk result (λ r. ask self.old quorum.now
            ≡ Ok (record { out = r.out.items; seen = r.seen; state = self.new })) }
        ensures refused { IfErr result (λ fault. (ask self.old quorum.now ≡ Err fault) × (self.new ≡ self.old)) }
        ensures id { self.new.id ≡ self.old.id }
        ensures limit { self.new.limit ≡ self.old.limit }
    {
        let mut out = ArrayVec::new();
        let seen = self.ask_into(quorum, &mut out)?;
        Ok(Reply { out, seen })
    }

    /// Does what [`Requester::ask`] does, with the messages in `out` in place of what was there. If
    /// it fails, `out` is empty.
    pub fn ask_into(&mut self, quorum: &QSet, out: &mut Messages) -> Result<Seen, ClientFault>
        requires { 1 ≤ length quorum.now }
        ensures asked { IfOk result (λ seen. ask self.old quorum.now
            ≡ Ok (record { out = out.new.items; seen = seen; state = self.new })) }
        ensures refused { IfErr result (λ fault. (ask self.old quorum.now ≡ Err fault)
            × (self.new ≡ self.old) × (out.new.items ≡ [])) }
        ensures id { self.new.id ≡ self.old.id }
        ensures limit { self.new.limit ≡ self.old.limit }
    {
        out.clear();
        self.state.ask(quorum, out)
    }

    /// Takes a message that names this client and a voter below 64. Returns what to send, and
    /// whether the client entered.
    pub fn take(&mut self, message: &ToClient) -> Reply
        requires client { message.now.client ≡ self.old.id }
        requires voter { message.now.voter < max_voters }
        ensures taken { take self.old message.now
            ≡ record { out = result.out.items; seen = result.seen; state = self.new } }
        ensures id { self.new.id ≡ self.old.id }
        ensures limit { self.new.limit ≡ self.old.limit }
    {
        let mut out = ArrayVec::new();
        let seen = self.take_into(message, &mut out);
        Reply { out, seen }
    }

    /// Does what [`Requester::take`] does, with the messages in `out` in place of what was there.
    pub fn take_into(&mut self, message: &ToClient, out: &mut Messages) -> Seen
        requires client { message.now.client ≡ self.old.id }
        requires voter { message.now.voter < max_voters }
        ensures taken { take self.old message.now ≡ record { out = out.new.items; seen = result; state = self.new } }
        ensures id { self.new.id ≡ self.old.id }
        ensures limit { self.new.limit ≡ self.old.limit }
    {
        out.clear();
        self.state.take(message, out)
    }

    /// Returns what an idle client sends to end all its requests at these voters: RELEASE of its last
    /// stamp to each, in ascending order, and nothing if it made no request. It may be sent at any time
    /// while the client is idle, and again.
    ///
    /// Fails with `Busy` unless the client is idle.
    pub fn disclaim(&self, voters: &QSet) -> Result<Messages, ClientFault>
        ensures disclaimed { IfOk result (λ out. disclaim self.now voters.now ≡ Ok out.items) }
        ensures refused { IfErr result (λ fault. disclaim self.now voters.now ≡ Err fault) }
    {
        self.state.disclaim(voters)
    }

    /// Returns what a client that is inside sends as a sign of life: REQUEST again to each member of
    /// its quorum. A voter whose grant stands replies with LOCKED. One that let it go, and remembers
    /// that, is silent.
    pub fn renew(&self) -> Messages
        ensures { result.items ≡ renew self.now }
    {
        self.state.renew()
    }

    /// Returns whether `take` would hold a vote for this message: whether it is a LOCKED that
    /// counts.
    pub fn would_hold(&self, message: &ToClient) -> bool
        ensures { result ≡ would_hold self.now message.now }
    {
        self.state.would_hold(message)
    }

    /// Leaves. The reply has a RELEASE for each member, in ascending order. Fails with
    /// `NotInside` unless the client is inside.
    pub fn leave(&mut self) -> Result<Reply, ClientFault>
        ensures left { IfOk result (λ r. leave self.old
            ≡ Ok (record { out = r.out.items; seen = r.seen; state = self.new })) }
        ensures refused { IfErr result (λ fault. (leave self.old ≡ Err fault) × (self.new ≡ self.old)) }
        ensures id { self.new.id ≡ self.old.id }
        ensures limit { self.new.limit ≡ self.old.limit }
    {
        let mut out = ArrayVec::new();
        let seen = self.leave_into(&mut out)?;
        Ok(Reply { out, seen })
    }

    /// Does what [`Requester::leave`] does, with the messages in `out` in place of what was there.
    /// If it fails, `out` is empty.
    pub fn leave_into(&mut self, out: &mut Messages) -> Result<Seen, ClientFault>
        ensures left { IfOk result (λ seen. leave self.old
            ≡ Ok (record { out = out.new.items; seen = seen; state = self.new })) }
        ensures refused { IfErr result (λ fault. (leave self.old ≡ Err fault)
            × (self.new ≡ self.old) × (out.new.items ≡ [])) }
        ensures id { self.new.id ≡ self.old.id }
        ensures limit { self.new.limit ≡ self.old.limit }
    {
        out.clear();
        self.state.leave(out)
    }

    /// Gives up the request. The reply has a RELEASE for each member, in ascending order. Fails
    /// with `NotAsking` unless the client is asking.
    pub fn give_up(&mut self) -> Result<Reply, ClientFault>
        ensures given_up { IfOk result (λ r. give_up self.old
            ≡ Ok (record { out = r.out.items; seen = r.seen; state = self.new })) }
        ensures refused { IfErr result (λ fault. (give_up self.old ≡ Err fault) × (self.new ≡ self.old)) }
        ensures id { self.new.id ≡ self.old.id }
        ensures limit { self.new.limit ≡ self.old.limit }
    {
        let mut out = ArrayVec::new();
        let seen = self.give_up_into(&mut out)?;
        Ok(Reply { out, seen })
    }

    /// Does what [`Requester::give_up`] does, with the messages in `out` in place of what was
    /// there. If it fails, `out` is empty.
    pub fn give_up_into(&mut self, out: &mut Messages) -> Result<Seen, ClientFault>
        ensures given_up { IfOk result (λ seen. give_up self.old
            ≡ Ok (record { out = out.new.items; seen = seen; state = self.new })) }
        ensures refused { IfErr result (λ fault. (give_up self.old ≡ Err fault)
            × (self.new ≡ self.old) × (out.new.items ≡ [])) }
        ensures id { self.new.id ≡ self.old.id }
        ensures limit { self.new.limit ≡ self.old.limit }
    {
        out.clear();
        self.state.give_up(out)
    }

    /// Returns what to send again while asking, in case messages were lost. Each member whose vote
    /// is not held, in ascending order, gets RELINQUISH if its vote was given back, and REQUEST.
    pub fn remind(&self) -> Reminders
        ensures { result.items ≡ remind self.now }
    {
        self.state.remind()
    }
}
