//! The lease of a session's votes at one voter.
ghost use Rattle.std.specs.Prelude.{◌≡◌, IfSome, Some, None, List};
ghost use Rattle.vote_leases.specs.Leases.{begun_lease, heard, is_same, newest, renewed};
ghost use Rattle.vote_leases.specs.Saved.{lease_words};
ghost use Rattle.vote_leases.specs.declared.lease.VoterLease.{VoterLease};

use crate::incarnation::Incarnation;
use crate::saved::{option_of, words_of};

/// How many numbers a lease has.
pub const LEASE_WORDS: usize = 5;

/// What a session knows of one voter: its incarnation, and its lease of the session's votes.
#[derive(Clone, Copy, Debug, PartialEq, Eq)]
pub struct VoterLease {
    /// The latest incarnation of which the session heard.
    pub incarnation: Incarnation,
    /// When the newest heartbeat left that this incarnation acknowledged, by the session's clock.
    pub beat: Option<u64>,
}

impl VoterLease {
    /// Returns the lease of a voter of which nothing was heard.
    pub fn new() -> Self
        ensures { result ≡ begun_lease }
    {
        VoterLease {
            incarnation: Incarnation {
                run: 0,
                start: 0,
                lapses: 0,
            },
            beat: None,
        }
    }

    /// Hears the incarnation that a message of the voter says. A later one has acknowledged nothing yet. Returns whether
    /// the message is of the latest incarnation; one of an earlier one counts for nothing.
    pub fn hears(&mut self, incarnation: Incarnation) -> bool
        ensures heard { self.new ≡ heard self.old incarnation }
        ensures latest { result ≡ is_same incarnation self.new.incarnation }
    {
        if incarnation.is_later_than(&self.incarnation) {
            *self = VoterLease {
                incarnation,
                beat: None,
            };
        }
        incarnation.is_same(&self.incarnation)
    }

    /// Takes an acknowledgement of a heartbeat that left at this time. One of another incarnation changes nothing.
    pub fn renews(&mut self, incarnation: Incarnation, beat: u64)
        ensures { self.new ≡ renewed self.old incarnation beat }
    {
        if incarnation.is_same(&self.incarnation) {
            self.beat = newest(self.beat, Some(beat));
        }
    }

    /// Returns the numbers of the lease.
    pub fn save(&self) -> [u64; LEASE_WORDS]
        ensures { result ≡ lease_words self.now }
    {
        let [is_known, beat] = words_of(self.beat);
        let Incarnation { run, start, lapses } = self.incarnation;
        [run, start, lapses, is_known, beat]
    }

    /// Returns the lease that was saved as these numbers. `None` if they are not those of a lease.
    pub fn restore(words: &[u64; LEASE_WORDS]) -> Option<VoterLease>
        // It is saved as exactly these numbers.
        ensures text { IfSome result (λ l. words.now ≡ lease_words l) }
        // A saved lease is restored as it was.
        ensures read { (l : VoterLease) → words.now ≡ lease_words l → result ≡ Some l }
    {
        let [run, start, lapses, is_known, beat] = *words;
        let beat = option_of(is_known, beat)?;
        Some(VoterLease {
            incarnation: Incarnation { run, start, lapses },
            beat,
        })
    }
}

/// Returns the newer one of two times.
pub fn newest(first: Option<u64>, second: Option<u64>) -> Option<u64>
    ensures { result ≡ newest first second }
{
    match (first, second) {
        (Some(first), Some(second)) => Some(first.max(second)),
        (first, None) => first,
        (None, second) => second,
    }
}
