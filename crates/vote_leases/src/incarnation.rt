//! Which life of a voter its words are of.
ghost use Rattle.std.specs.Prelude.{◌≡◌};
ghost use Rattle.vote_leases.specs.Leases.{is_later, is_same};

/// Which life of a voter its words are of, as the header of a message says it (an incarnation number, as in Das, Gupta and
/// Motivala, "SWIM: Scalable Weakly-consistent Infection-style Process Group Membership Protocol", DSN 2002). It grows
/// whenever the voter may have let a grant of the session go, as that was silent, or as the voter lost its state.
#[derive(Clone, Copy, Debug, PartialEq, Eq)]
pub struct Incarnation {
    /// How often the voter lost its state.
    pub run: u64,
    /// How often its process started in this run.
    pub start: u64,
    /// How often it let a grant of the session go, since the session was silent.
    pub lapses: u64,
}

impl Incarnation {
    /// Whether this is the same one.
    pub fn is_same(&self, other: &Incarnation) -> bool
        ensures { result ≡ is_same self.now other.now }
    {
        self.run == other.run && self.start == other.start && self.lapses == other.lapses
    }

    /// Whether this one is later: of a later run, or of a later start in this run, or of more lapses since that.
    pub fn is_later_than(&self, other: &Incarnation) -> bool
        ensures { result ≡ is_later other.now self.now }
    {
        other.run < self.run
            || other.run == self.run
                && (other.start < self.start
                    || other.start == self.start && other.lapses < self.lapses)
    }
}
