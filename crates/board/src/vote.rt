//! The states of a voter's vote, and the word that stands for each.
ghost use Rattle.std.specs.Prelude.{◌≡◌, ◌≤◌};
ghost use Rattle.numbers.specs.Bounds.{max_stamp};
ghost use Rattle.board.specs.Words.{IsSmall, name_of, word_of};

/// The state of a voter's vote. A grant has a client, below 64, and a number, from 1 to 2^40.
#[derive(Clone, Copy)]
pub enum Vote {
    /// No grant is current.
    Free,
    /// The grant of this client and number is current, and the client may take the vote.
    Offered(u8, u64),
    /// The client of this grant holds the vote.
    Held(u8, u64),
    /// The client of this grant gave the vote back, and the voter has not settled it yet.
    Returned(u8, u64),
}

/// Returns the name of a grant: one number that stands for its client and its number.
fn name_of(client: u8, grant: u64) -> u64
    requires { grant ≤ max_stamp }
    ensures { result ≡ name_of client grant }
{
    64 * grant + u64::from(client)
}

impl Vote {
    /// Returns the word that stands for this state.
    pub(crate) fn word(self) -> u64
        requires { IsSmall self }
        ensures { result ≡ word_of self }
    {
        match self {
            Vote::Free => 0,
            Vote::Offered(client, grant) => 4 * name_of(client, grant) + 1,
            Vote::Held(client, grant) => 4 * name_of(client, grant) + 2,
            Vote::Returned(client, grant) => 4 * name_of(client, grant) + 3,
        }
    }
}
