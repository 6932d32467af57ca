//! The messages of the voting lock: three kinds from a client to a voter, and three from a voter to
//! a client.
ghost use Rattle.std.specs.Prelude.{◌≡◌, ◌↔◌, IsTrue};

/// What a client says to a voter.
#[derive(Clone, Copy, Debug, PartialEq, Eq)]
pub enum VoterBody {
    /// REQUEST: the client asks for the vote, for its request with this stamp.
    Request {
        /// The stamp of the request, from 1.
        stamp: u64,
    },
    /// RELINQUISH: the client gives this grant back, and goes on waiting.
    Relinquish {
        /// The number of the grant, from 1.
        grant: u64,
    },
    /// RELEASE: the client is done with its requests up to this stamp.
    Release {
        /// The stamp of the request, from 1.
        stamp: u64,
    },
}

impl VoterBody {
    ghost use Rattle.message.specs.Lines.{IsCount, voter_number};

    fn has_line(&self) -> bool
        ensures { IsTrue result ↔ IsCount (voter_number self.now) }
    {
        match *self {
            VoterBody::Request { stamp } | VoterBody::Release { stamp } => stamp > 0,
            VoterBody::Relinquish { grant } => grant > 0,
        }
    }
}

impl Default for VoterBody {
    /// Returns a blank for the unused places of an array. It has no line of text.
    fn default() -> Self
        ensures { result ≡ VoterBody.Request 0 }
    {
        Self::Request { stamp: 0 }
    }
}

/// A message from a client to a voter.
#[derive(Clone, Copy, Debug, Default, PartialEq, Eq)]
pub struct ToVoter {
    /// The client that sends it, from 0.
    pub client: u8,
    /// The voter that receives it, from 0.
    pub voter: u8,
    /// What it says.
    pub body: VoterBody,
}

/// What a voter says to a client.
#[derive(Clone, Copy, Debug, PartialEq, Eq)]
pub enum ClientBody {
    /// LOCKED: the vote is granted to the client's request.
    Locked {
        /// The stamp of the request, from 1.
        stamp: u64,
        /// The number of the grant: the voter counts its grants from 1.
        grant: u64,
    },
    /// FAIL: the request waits, and another one precedes it.
    Fail {
        /// The stamp of the request, from 1.
        stamp: u64,
    },
    /// INQUIRE: a request that precedes the granted one waits, so the voter asks whether the grant
    /// may come back.
    Inquire {
        /// The number of the grant, from 1.
        grant: u64,
    },
}

impl ClientBody {
    ghost use Rattle.message.specs.Lines.{AreCounts};

    fn has_line(&self) -> bool
        ensures { IsTrue result ↔ AreCounts self.now }
    {
        match *self {
            ClientBody::Locked { stamp, grant } => stamp > 0 && grant > 0,
            ClientBody::Fail { stamp } => stamp > 0,
            ClientBody::Inquire { grant } => grant > 0,
        }
    }
}

impl Default for ClientBody {
    /// Returns a blank for the unused places of an array. It has no line of text.
    fn default() -> Self
        ensures { result ≡ ClientBody.Fail 0 }
    {
        Self::Fail { stamp: 0 }
    }
}

/// A message from a voter to a client.
#[derive(Clone, Copy, Debug, Default, PartialEq, Eq)]
pub struct ToClient {
    /// The voter that sends it, from 0.
    pub voter: u8,
    /// The client that receives it, from 0.
    pub client: u8,
    /// The highest stamp that the voter saw, 0 if it saw none.
    pub seen: u64,
    /// What it says.
    pub body: ClientBody,
}

/// A message, in either direction.
#[derive(Clone, Copy, Debug, PartialEq, Eq)]
pub enum Message {
    /// From a client to a voter.
    ToVoter(ToVoter),
    /// From a voter to a client.
    ToClient(ToClient),
}

impl Message {
    ghost use Rattle.message.specs.Lines.{HasLine};

    /// Returns whether the message has a line of text: its client and its voter are at most 63, and
    /// its stamp and its grant are not 0.
    pub fn has_line(self) -> bool
        ensures { IsTrue result ↔ HasLine self }
    {
        match self {
            Message::ToVoter(m) => m.client <= 63 && m.voter <= 63 && m.body.has_line(),
            Message::ToClient(m) => m.client <= 63 && m.voter <= 63 && m.body.has_line(),
        }
    }
}
