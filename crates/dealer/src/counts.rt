//! Lists of counts.
ghost use Rattle.std.specs.Prelude.{◌≡◌};

use std::marker::Model;

/// A list of counts of quorums or of voters, by number. Contracts see it as the list.
#[derive(Debug, Drop)]
pub struct Counts {
    counts: Vec<u64>,
}

impl Model for Counts {
    ghost use Rattle.std.specs.Prelude.{List, ℕ};

    ghost Value = { List ℕ };

    ghost view = { λ c. c.counts.items };
}

impl From<Vec<u64>> for Counts {
    ghost from_gives = { λ counts result. result ≡ counts.items };

    /// Returns these counts as `Counts`. Takes no memory.
    fn from(counts: Vec<u64>) -> Counts {
        Counts { counts }
    }
}

impl Counts {
    /// Returns the counts, in order.
    pub fn as_slice(&self) -> &[u64]
        ensures { result.now ≡ self.now }
    {
        &self.counts
    }

    /// Returns the counts as a `Vec`. Takes no memory.
    pub fn into_vec(self) -> Vec<u64>
        ensures { result.items ≡ self }
    {
        self.counts
    }
}
