//! The header of a message: who sends it.
ghost use Rattle.std.specs.Prelude.{IsTrue, ◌↔◌};
ghost use Rattle.envelope.specs.Headers.{HasLine, NumbersFit};
ghost use Rattle.envelope.specs.Heads.{head_of};
ghost use Rattle.envelope.specs.Names.{IsName};

use crate::names::is_name;

/// What a sender is, and its numbers.
#[derive(Clone, Copy, Debug, PartialEq, Eq)]
pub enum Sender {
    /// A session of a client. The header's name is that of the session.
    Client {
        /// The client's number, from 0.
        number: u8,
        /// Which session of its number it is, 0 while it has none.
        epoch: u64,
        /// No stamp of the session is greater.
        reserved: u64,
        /// Counts its heartbeats.
        seq: u64,
    },
    /// A voter. The header's name is its identity.
    Voter {
        /// The voter's number, from 0.
        number: u8,
        /// How often it was made again, after its state was lost.
        run: u64,
        /// How often its process started.
        start: u64,
        /// How often it let a grant of the session go.
        lapses: u64,
    },
    /// An operator. The header's name is that of a question.
    Operator,
}

/// The header of a message, whose names are parts of some text.
#[derive(Clone, Copy, Debug)]
pub struct Header<'a> {
    /// The name of the cluster.
    pub cluster: &'a [u8],
    /// The mark of its coterie.
    pub coterie: &'a [u8],
    /// What the sender is.
    pub sender: Sender,
    /// The name of a session or a question, or a voter's identity.
    pub name: &'a [u8],
    /// The level of the cluster, 0 if the header says none.
    pub level: u64,
}

impl Sender {
    /// Returns whether the number of a client or a voter is at most 63.
    fn has_words(self) -> bool
        ensures { IsTrue result ↔ NumbersFit self }
    {
        match self {
            Sender::Client { number, .. } | Sender::Voter { number, .. } => number <= 63,
            Sender::Operator => true,
        }
    }
}

impl Header<'_> {
    fn has_names(self) -> bool
        ensures { IsTrue result ↔ (IsName self.entry.cluster.now × IsName self.entry.coterie.now × IsName self.entry.name.now) }
    {
        is_name(self.cluster) && is_name(self.coterie) && is_name(self.name)
    }

    /// Returns whether the header has a line: its names are names, and the number of a client or a
    /// voter is at most 63.
    pub fn has_line(self) -> bool
        ensures { IsTrue result ↔ HasLine (head_of self.entry) }
    {
        self.has_names() && self.sender.has_words()
    }
}
