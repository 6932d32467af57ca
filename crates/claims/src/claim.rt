//! A claim of a number.
ghost use Rattle.std.specs.Prelude.{◌≡◌, IfSome, Some};
ghost use Rattle.claims.specs.Claims.{accepted_by, begun, claims_next, given_up, is_accepted_by, next_epoch, saw, words_of};
ghost use Rattle.claims.specs.declared.claim.Claim.{Claim};

/// How many numbers a saved claim has.
pub const SAVED_WORDS: usize = 5;

/// What a session keeps of its claims of one number. A set of voters is a word: voter v is in it if bit v is 1.
#[derive(Clone, Copy, Debug, PartialEq, Eq)]
pub struct Claim {
    /// The greatest epoch of the number of which the session heard, or that it claimed.
    pub newest: u64,
    /// The epoch that it claims now.
    pub epoch: Option<u64>,
    /// The voters that accepted this claim.
    pub accepted: u64,
    /// The greatest base that these told: the session's stamps are above it.
    pub base: u64,
}

impl Claim {
    /// Returns what is kept of a number of which nothing was heard.
    pub fn new() -> Self
        ensures { result ≡ begun }
    {
        Claim {
            newest: 0,
            epoch: None,
            accepted: 0,
            base: 0,
        }
    }

    /// Hears of an epoch of the number: from a voter, late, in any order, or again.
    pub fn sees(&mut self, epoch: u64)
        ensures { self.new ≡ saw self.old epoch }
    {
        self.newest = self.newest.max(epoch);
    }

    /// Claims the number under the next epoch. Returns that. `None` if there is none, as the epochs are spent: then nothing changes.
    pub fn claims(&mut self) -> Option<u64>
        ensures claims { self.new ≡ claims_next self.old }
        ensures epoch { result ≡ next_epoch self.old }
    {
        let epoch = self.newest.checked_add(1)?;
        *self = Claim {
            newest: epoch,
            epoch: Some(epoch),
            accepted: 0,
            base: 0,
        };
        Some(epoch)
    }

    /// Notes that a voter accepted the claim of an epoch, and the base of the session's stamps there. Returns whether that is
    /// the claim that goes on. A late reply to an earlier one changes nothing, nor does a voter above 63.
    pub fn accepts(&mut self, voter: u8, epoch: u64, base: u64) -> bool
        ensures accepts { self.new ≡ accepted_by self.old voter epoch base }
        ensures counts { result ≡ is_accepted_by self.old voter epoch }
    {
        if voter >= 64 || self.epoch != Some(epoch) {
            return false;
        }
        self.accepted |= 1 << voter;
        self.base = self.base.max(base);
        true
    }

    /// Takes the claim back. Its epoch is never claimed again.
    pub fn gives_up(&mut self)
        ensures { self.new ≡ given_up self.old }
    {
        self.epoch = None;
        self.accepted = 0;
        self.base = 0;
    }

    /// Returns the numbers of the claim.
    pub fn save(&self) -> [u64; SAVED_WORDS]
        ensures { result ≡ words_of self.now }
    {
        let [is_there, epoch] = match self.epoch {
            None => [0, 0],
            Some(epoch) => [1, epoch],
        };
        [self.newest, is_there, epoch, self.accepted, self.base]
    }

    /// Returns the claim that was saved as these numbers. `None` if they are not those of any.
    pub fn restore(words: &[u64; SAVED_WORDS]) -> Option<Claim>
        // It is saved as exactly these numbers.
        ensures text { IfSome result (λ c. words.now ≡ words_of c) }
        // What was saved is restored as it was.
        ensures read { (c : Claim) → words.now ≡ words_of c → result ≡ Some c }
    {
        let [newest, is_there, epoch, accepted, base] = *words;
        let epoch = match (is_there, epoch) {
            (0, 0) => None,
            (1, epoch) => Some(epoch),
            _ => return None,
        };
        Some(Claim {
            newest,
            epoch,
            accepted,
            base,
        })
    }
}
