//! What a session keeps of one voter.
ghost use Rattle.std.specs.Prelude.{◌≡◌, IfSome, Some};
ghost use Rattle.own_stamps.specs.Stamps.{forgotten, is_own, renewed, told, untold, words_of};
ghost use Rattle.own_stamps.specs.declared.stamps.OwnStamps.{OwnStamps};

/// How many numbers saved stamps have.
pub const SAVED_WORDS: usize = 4;

/// What a voter told a session of its stamps, in the newest run of the voter that the session knows. A *run* ends when the voter's state is
/// lost.
#[derive(Clone, Copy, Debug, PartialEq, Eq)]
pub struct OwnStamps {
    /// The newest run of the voter that anybody told the session.
    pub run: u64,
    /// Whether the voter told the session in that run that it has its number.
    pub is_told: bool,
    /// The greatest base that it told: all stamps of the session are above it there.
    pub base: u64,
    /// The greatest stamp that it told as reserved.
    pub reserved: u64,
}

impl OwnStamps {
    /// Returns what is kept of a voter that told nothing, in its first run.
    pub fn new() -> Self
        ensures { result ≡ untold 0 }
    {
        OwnStamps::in_run(0)
    }

    /// Returns what is kept of a voter that told nothing in this run.
    fn in_run(run: u64) -> Self
        ensures { result ≡ untold run }
    {
        OwnStamps {
            run,
            is_told: false,
            base: 0,
            reserved: 0,
        }
    }

    /// Takes a run of the voter, of which any voter says that it began. Once it is known, nothing counts that the voter told in an earlier
    /// one.
    pub fn renew(&mut self, run: u64)
        ensures { self.new ≡ renewed self.old run }
    {
        if self.run < run {
            *self = OwnStamps::in_run(run);
        }
    }

    /// Forgets what the voter told, and not its run.
    pub fn forget(&mut self)
        ensures { self.new ≡ forgotten self.old }
    {
        *self = OwnStamps::in_run(self.run);
    }

    /// Takes what the voter tells in this run: late, in any order, or again. If a later run is known, nothing changes.
    pub fn hears(&mut self, run: u64, base: u64, reserved: u64)
        ensures { self.new ≡ told self.old run base reserved }
    {
        if run < self.run {
            return;
        }
        self.renew(run);
        self.is_told = true;
        self.base = self.base.max(base);
        self.reserved = self.reserved.max(reserved);
    }

    /// Returns whether the session may ask the voter under a stamp.
    pub fn has(&self, stamp: u64) -> bool
        ensures { result ≡ is_own self.now stamp }
    {
        self.is_told && self.base < stamp && stamp <= self.reserved
    }

    /// Returns the numbers of the stamps.
    pub fn save(&self) -> [u64; SAVED_WORDS]
        ensures { result ≡ words_of self.now }
    {
        [self.run, u64::from(self.is_told), self.base, self.reserved]
    }

    /// Returns the stamps that were saved as these numbers. `None` if they are not those of any.
    pub fn restore(words: &[u64; SAVED_WORDS]) -> Option<OwnStamps>
        // They are saved as exactly these numbers.
        ensures text { IfSome result (λ s. words.now ≡ words_of s) }
        // What was saved is restored as it was.
        ensures read { (s : OwnStamps) → words.now ≡ words_of s → result ≡ Some s }
    {
        let [run, is_told, base, reserved] = *words;
        let is_told = match is_told {
            0 => false,
            1 => true,
            _ => return None,
        };
        Some(OwnStamps {
            run,
            is_told,
            base,
            reserved,
        })
    }
}
