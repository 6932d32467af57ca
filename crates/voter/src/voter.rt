ghost use Rattle.std.specs.Prelude.{◌≡◌, ◌<◌, ◌≤◌, [], slice_index, IfErr, IfOk, IfSome, OnErr, OnOk, None, Some};
ghost use Rattle.arrayvec.specs.ArrayVec.{array_vec_len};
ghost use Rattle.numbers.specs.Bounds.{max_voters, max_clients, max_limit};
ghost use Rattle.voter.specs.Leases.{evict, reborn, release_of};
ghost use Rattle.voter.specs.Steps.{current_stamp, effect_of, remind, start, step};
ghost use Rattle.voter.specs.declared.state.VoterState.{VoterState};
ghost use Rattle.voter.specs.Saved.{IsKept, least_voter, words_of};

use crate::fault::VoterFault;
use crate::saved::SavedWords;
use crate::state::{Effect, Grant, Replies, VoterState};
use arrayvec::ArrayVec;
use message::{ToVoter, VoterBody};
use std::marker::Model;

/// A voter: it has one vote, which it grants to one request at a time.
///
/// Contracts see it as a `VoterState`, which is what it knows.
#[derive(Drop)]
pub struct Voter {
    state: VoterState,
}

impl Model for Voter {
    ghost use Rattle.voter.specs.declared.state.VoterState.{VoterState};
    ghost use Rattle.voter.specs.Saved.{IsKept};
    ghost use Rattle.voter.specs.contracts.state.VoterState as known;

    ghost Value = { VoterState };

    ghost coded = { known.the_row.coded };

    ghost view = { λ a. a.state };

    ghost invariant = { λ a. IsKept a.state };
}

impl Voter {
    /// Returns a new voter with this number, 0 to 63. No grant of it has a number above `limit`, 1 to 2^62.
    pub fn new(id: u8, limit: u64) -> Self
        requires id { id < max_voters }
        requires least { 1 ≤ limit }
        requires most { limit ≤ max_limit }
        ensures { result ≡ start id limit }
    {
        Voter {
            state: VoterState::new(id, limit),
        }
    }

    /// Returns a voter that lost its state. Its grants have numbers above `above`, up to `limit`, also 1 to
    /// 2^62.
    ///
    /// If it gave a grant above `above` before, two clients may have one grant number. So make a voter with a
    /// limit below 2^62, a *block* of grants; if it is lost, `above` is the end of its block. A vote that
    /// nobody has may be dropped and begun again by this, at any time.
    pub fn reborn(id: u8, above: u64, limit: u64) -> Self
        requires id { id < max_voters }
        requires above { above ≤ limit }
        requires most { limit ≤ max_limit }
        ensures { result ≡ reborn id above limit }
    {
        Voter {
            state: VoterState {
                granted: above,
                ..VoterState::new(id, limit)
            },
        }
    }

    /// Returns the highest number that a grant of the voter may have.
    pub fn limit(&self) -> u64
        ensures { result ≡ self.now.limit }
    {
        self.state.limit
    }

    /// Returns how many grants the voter gave, with those whose numbers it skipped. The next grant has
    /// the number after this one.
    pub fn granted(&self) -> u64
        ensures value { result ≡ self.now.granted }
        ensures kept { IsKept self.now }
    {
        self.state.granted
    }

    /// Raises the highest number that a grant of the voter may have, up to 2^62.
    pub fn extend(&mut self, limit: u64)
        requires least { self.old.limit ≤ limit }
        requires most { limit ≤ max_limit }
        ensures { self.new ≡ record self.old { limit = limit } }
    {
        self.state.limit = limit;
    }

    /// Skips the numbers up to `above`: each later grant has a greater one. A grant that is held stays.
    ///
    /// It is for a voter that goes on above a number that others know, and keeps its grant. A voter that
    /// is reborn loses its grant.
    pub fn raise(&mut self, above: u64)
        requires least { self.old.granted ≤ above }
        requires most { above ≤ self.old.limit }
        ensures { self.new ≡ record self.old { granted = above } }
    {
        self.state.granted = above;
    }

    /// Returns the voter's number.
    pub fn id(&self) -> u8
        ensures { result ≡ self.now.id }
    {
        self.state.id
    }

    /// Writes the voter's state as numbers, in place of what was there. Restored from them, it is the
    /// same voter.
    pub fn save(&self, words: &mut SavedWords)
        ensures words { words.new.items ≡ words_of self.now }
        ensures len { array_vec_len words.new ≡ 138 }
        // So it can be restored, whatever calls led to it.
        ensures kept { IsKept self.now }
    {
        self.state.save(words);
    }

    /// Returns the voter that was saved as these numbers. `None` if they are not those of a sound
    /// voter, whatever they are.
    pub fn restore(words: &[u64]) -> Option<Voter>
        // A restored voter is sound, whatever the numbers are.
        ensures kept { IfSome result IsKept }
        // It is saved as exactly these numbers.
        ensures text { IfSome result (λ v. words.now ≡ words_of v) }
        // A saved voter is restored as it was.
        ensures read { (v : VoterState) → IsKept v → words.now ≡ words_of v → result ≡ Some v }
    {
        let state = VoterState::restore(words)?;
        Some(Voter { state })
    }

    /// Returns a copy of the voter: what it saves is restored.
    pub fn copy(&self) -> Voter
        ensures { result ≡ self.now }
    {
        let mut words = ArrayVec::new();
        self.save(&mut words);
        match Voter::restore(words.as_slice()) {
            Some(copy) => copy,
            None => unreachable!(),
        }
    }

    /// Forgets all but the least that has to survive a crash: the grant that holds the vote, and the
    /// number of grants given.
    ///
    /// The clients' reminders bring the waiting requests back.
    pub fn forget(&mut self)
        ensures { self.new ≡ least_voter self.old }
    {
        self.state.forget();
    }

    /// Returns the grant that holds the vote, or `None` if the vote is free.
    pub fn held(&self) -> Option<Grant>
        ensures { result ≡ self.now.held }
    {
        self.state.held
    }

    /// Returns the stamp of the client's request that holds the vote or waits, or `None`.
    pub fn known(&self, client: u8) -> Option<u64>
        ensures { result ≡ current_stamp self.now client }
    {
        self.state.current_stamp(client)
    }

    /// Returns the highest stamp of the client's requests that are finished here, 0 if there is none.
    pub fn finished(&self, client: u8) -> u64
        ensures { result ≡ slice_index self.now.finished client }
    {
        self.state.finished_of(client)
    }

    /// Returns the highest stamp that the voter saw.
    pub fn seen(&self) -> u64
        ensures { result ≡ self.now.seen }
    {
        self.state.seen
    }

    /// Lets the current grant go if it has this number, as a RELEASE of its client would. Otherwise
    /// does nothing. Returns the replies, in order.
    ///
    /// This is for a client that died or stands still. It may still believe that it is inside, so what
    /// the lock protects has to keep a guard: see the crate `leases`. Go by the number of a grant that
    /// has lasted too long, and not by a stamp: the vote may be another client's by now.
    ///
    /// Fails with `GrantsSpent` if a request waits and no grant is left. The voter is then unchanged.
    pub fn evict(&mut self, grant: u64) -> Result<Replies, VoterFault>
        ensures evicted { IfOk result (λ replies.
            evict self.old grant ≡ Some (record { replies = replies.items; state = self.new })) }
        ensures refused { IfErr result (λ _. (evict self.old grant ≡ None) × (self.new ≡ self.old)) }
        ensures id { self.new.id ≡ self.old.id }
    {
        match self.state.held {
            Some(held) if held.grant == grant => {
                let message = self.release_of(held);
                self.take(&message)
            }
            _ => Ok(ArrayVec::new()),
        }
    }

    /// Returns the RELEASE of a grant, as its client would send it.
    fn release_of(&self, held: Grant) -> ToVoter
        ensures { result ≡ release_of self.now held }
    {
        ToVoter {
            client: held.client,
            voter: self.id(),
            body: VoterBody::Release { stamp: held.stamp },
        }
    }

    /// Takes one message, and returns the replies, in order.
    ///
    /// Fails with `GrantsSpent` if and only if the message needs a new grant and none is left
    /// within the limit. The voter is then unchanged.
    pub fn take(&mut self, message: &ToVoter) -> Result<Replies, VoterFault>
        requires voter { message.now.voter ≡ self.old.id }
        requires client { message.now.client < max_clients }
        ensures taken { IfOk result (λ replies.
            step self.old message.now ≡ Some (record { replies = replies.items; state = self.new })) }
        ensures refused { IfErr result (λ _. (step self.old message.now ≡ None) × (self.new ≡ self.old)) }
        ensures id { self.new.id ≡ self.old.id }
    {
        let mut replies = ArrayVec::new();
        self.take_into(message, &mut replies)?;
        Ok(replies)
    }

    /// Does what [`Voter::take`] does, with the replies in `replies` in place of what was there. If
    /// it fails, `replies` is empty.
    pub fn take_into(&mut self, message: &ToVoter, replies: &mut Replies) -> Result<(), VoterFault>
        requires voter { message.now.voter ≡ self.old.id }
        requires client { message.now.client < max_clients }
        ensures taken { OnOk result
            (step self.old message.now ≡ Some (record { replies = replies.new.items; state = self.new })) }
        ensures refused { OnErr result
            ((step self.old message.now ≡ None) × (self.new ≡ self.old) × (replies.new.items ≡ [])) }
        ensures id { self.new.id ≡ self.old.id }
    {
        replies.clear();
        if self.state.is_refused(message) {
            return Err(VoterFault::GrantsSpent);
        }
        self.state.act(message, replies);
        Ok(())
    }

    /// Returns what `take` would do with this message.
    pub fn effect(&self, message: &ToVoter) -> Effect
        ensures { result ≡ effect_of self.now message.now }
    {
        let refused = self.state.is_refused(message);
        Effect {
            frees: !refused && self.state.ends_grant(message),
            refused,
        }
    }

    /// Returns what to send to the holder again, in case messages were lost: LOCKED, and INQUIRE if
    /// one is outstanding. Empty if the vote is free.
    pub fn remind(&self) -> Replies
        ensures { result.items ≡ remind self.now }
    {
        self.state.remind()
    }
}
