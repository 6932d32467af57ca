//! The vote of one voter for a request of one lock.
ghost use Rattle.std.specs.Prelude.{◌≡◌, ◌∷◌, IfSome, Some, None, ℕ, Bool, Option, nat_lt};
ghost use Rattle.vote_leases.specs.Leases.{asked, beat_of, begun_vote, counts, ended, given_back, is_taken, kept, taken, until};
ghost use Rattle.vote_leases.specs.Saved.{bool_word, incarnation_words, option_words, taken_words, vote_words};
ghost use Rattle.vote_leases.specs.declared.vote.Taken.{Taken};
ghost use Rattle.vote_leases.specs.declared.vote.Vote.{Vote};

use crate::incarnation::Incarnation;
use crate::lease::{VoterLease, newest};
use crate::saved::{option_of, words_of};

/// How many numbers a vote has.
pub const VOTE_WORDS: usize = 9;

/// A vote that the session took, and did not give back.
#[derive(Clone, Copy, Debug, PartialEq, Eq)]
pub struct Taken {
    /// The incarnation of the LOCKED that the session took last.
    pub incarnation: Incarnation,
    /// When a heartbeat left for which the vote counts, whatever the voter says later.
    pub beat: Option<u64>,
}

/// A LOCKED, as it reaches a session.
#[derive(Clone, Copy, Debug, PartialEq, Eq)]
pub struct Locked {
    /// The incarnation that its header says.
    pub incarnation: Incarnation,
    /// The stamp of the request.
    pub request: u64,
    /// The number of the grant.
    pub number: u64,
    /// Whether it may answer a session that said that it is inside: then it only renews a vote.
    pub renews: bool,
}

/// What a session has of one voter for one lock: whether it has the vote for its request.
#[derive(Clone, Copy, Debug, PartialEq, Eq)]
pub struct Vote {
    /// The stamp of the newest request.
    pub request: u64,
    /// Whether that goes on.
    pub is_open: bool,
    /// No grant counts with this number or a lower one: the session gave such a vote back.
    pub returned: u64,
    /// The vote, if the session has it.
    pub taken: Option<Taken>,
}

impl Vote {
    /// Returns the vote of a lock that the session did not ask for yet. Its requests have stamps above this one.
    pub fn new(used: u64) -> Self
        ensures { result ≡ begun_vote used }
    {
        Vote {
            request: used,
            is_open: false,
            returned: 0,
            taken: None,
        }
    }

    /// Asks with a request of this stamp. Returns whether it is above those of all requests before; if not, nothing
    /// changes.
    pub fn asks(&mut self, request: u64) -> bool
        ensures asked { self.new ≡ asked self.old request }
        ensures is_new { result ≡ nat_lt self.old.request request }
    {
        if request <= self.request {
            return false;
        }
        *self = Vote {
            request,
            is_open: true,
            returned: self.returned,
            taken: None,
        };
        true
    }

    /// Returns when the newest heartbeat left for which the vote counts.
    fn beat(&self, lease: &VoterLease) -> Option<u64>
        ensures { result ≡ beat_of self.now.taken lease.now }
    {
        let taken = self.taken?;
        if taken.incarnation.is_same(&lease.incarnation) {
            newest(taken.beat, lease.beat)
        } else {
            taken.beat
        }
    }

    /// Keeps what counts for the vote by the voter's lease, before the session hears of a later incarnation.
    pub fn keeps(&mut self, lease: &VoterLease)
        ensures { self.new ≡ kept self.old lease.now }
    {
        let beat = self.beat(lease);
        if let Some(taken) = self.taken {
            self.taken = Some(Taken {
                incarnation: taken.incarnation,
                beat,
            });
        }
    }

    /// Returns whether the vote counts at this time, where a heartbeat counts for this span after it left.
    pub fn counts(&self, lease: &VoterLease, span: u64, now: u64) -> bool
        ensures { result ≡ counts self.now lease.now span now }
    {
        match self.beat(lease) {
            None => false,
            Some(beat) => now < beat || now - beat < span,
        }
    }

    /// Takes a LOCKED. Returns whether the session has the vote by it: it is for the request that goes on, has a number
    /// above all that were given back, and, if it only renews a vote, the vote counts still.
    pub fn takes(&mut self, lease: &VoterLease, locked: &Locked, span: u64, now: u64) -> bool
        ensures taken { self.new ≡ taken self.old lease.now locked.now span now }
        ensures is_taken { result ≡ is_taken self.old lease.now locked.now span now }
    {
        let is_taken = self.is_open
            && self.request == locked.request
            && self.returned < locked.number
            && (!locked.renews || self.counts(lease, span, now));
        if is_taken {
            let beat = self.beat(lease);
            self.taken = Some(Taken {
                incarnation: locked.incarnation,
                beat,
            });
        }
        is_taken
    }

    /// Gives the vote back, whose grant has this number. No grant counts with it or a lower one.
    pub fn gives_back(&mut self, number: u64)
        ensures { self.new ≡ given_back self.old number }
    {
        self.returned = self.returned.max(number);
        self.taken = None;
    }

    /// Ends the request of this stamp. One before the newest was over already.
    pub fn ends(&mut self, request: u64)
        ensures { self.new ≡ ended self.old request }
    {
        if request >= self.request {
            self.request = request;
            self.is_open = false;
            self.taken = None;
        }
    }

    /// Returns up to when the vote counts, where a heartbeat counts for this span after it left: at that time it does not
    /// any more. `None` if it does not count at all. The greatest time stands for later ones.
    pub fn until(&self, lease: &VoterLease, span: u64) -> Option<u64>
        ensures { result ≡ until self.now lease.now span }
    {
        let beat = self.beat(lease)?;
        Some(beat.saturating_add(span))
    }

    /// Returns the numbers of the vote.
    pub fn save(&self) -> [u64; VOTE_WORDS]
        ensures { result ≡ vote_words self.now }
    {
        let [is_taken, run, start, lapses, is_known, beat] = taken_words(self.taken);
        let is_open = u64::from(self.is_open);
        [
            self.request,
            is_open,
            self.returned,
            is_taken,
            run,
            start,
            lapses,
            is_known,
            beat,
        ]
    }

    /// Returns the vote that was saved as these numbers. `None` if they are not those of a vote.
    pub fn restore(words: &[u64; VOTE_WORDS]) -> Option<Vote>
        // It is saved as exactly these numbers.
        ensures text { IfSome result (λ v. words.now ≡ vote_words v) }
        // A saved vote is restored as it was.
        ensures read { (v : Vote) → words.now ≡ vote_words v → result ≡ Some v }
    {
        let [
            request,
            is_open,
            returned,
            is_taken,
            run,
            start,
            lapses,
            is_known,
            beat,
        ] = *words;
        Some(Vote {
            request,
            is_open: bool_of(is_open)?,
            returned,
            taken: taken_of(&[is_taken, run, start, lapses, is_known, beat])?,
        })
    }
}

/// Returns the truth that is this number. `None` if it is neither 0 nor 1.
fn bool_of(number: u64) -> Option<bool>
    ensures text { IfSome result (λ b. number ≡ bool_word b) }
    ensures read { (b : Bool) → number ≡ bool_word b → result ≡ Some b }
{
    match number {
        0 => Some(false),
        1 => Some(true),
        _ => None,
    }
}

/// Returns the numbers of a vote that may be taken.
fn taken_words(taken: Option<Taken>) -> [u64; 6]
    ensures { result ≡ taken_words taken }
{
    match taken {
        None => [0; 6],
        Some(Taken { incarnation, beat }) => {
            let Incarnation { run, start, lapses } = incarnation;
            let [is_known, beat] = words_of(beat);
            [1, run, start, lapses, is_known, beat]
        }
    }
}

/// Returns the vote that may be taken, with these numbers. `None` if they are not those of one.
fn taken_of(words: &[u64; 6]) -> Option<Option<Taken>>
    ensures text { IfSome result (λ t. words.now ≡ taken_words t) }
    ensures read { (t : Option Taken) → words.now ≡ taken_words t → result ≡ Some t }
{
    match *words {
        [0, 0, 0, 0, 0, 0] => Some(None),
        [1, run, start, lapses, is_known, beat] => Some(Some(Taken {
            incarnation: Incarnation { run, start, lapses },
            beat: option_of(is_known, beat)?,
        })),
        _ => None,
    }
}
