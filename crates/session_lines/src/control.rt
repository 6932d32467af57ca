//! Lines of control: what sessions of clients and voters say to each other about sessions.
ghost use Rattle.std.specs.Prelude.{IsTrue, ◌↔◌};
ghost use Rattle.session_lines.specs.Control.{ClientWordFits, OpenedFits, SaysFits, VoterWordFits};

/// What a session of a client says.
#[derive(Clone, Copy, Debug, PartialEq, Eq)]
pub enum ClientWord {
    /// `hello`: which numbers are free?
    Hello,
    /// `plan`: which plan do you have?
    Plan,
    /// `open PLAN`: the heartbeat.
    Open {
        /// The oldest plan of which the session has a request.
        plan: u64,
    },
    /// `close`: the session is over.
    Close,
    /// `claim N EPOCH`: the session wants this number, and no stamps.
    Claim {
        /// The number, at most 63.
        number: u8,
        /// The epoch, from 1.
        epoch: u64,
    },
    /// `claim N EPOCH STAMPS`: the session wants this number, and its first stamps.
    ClaimStamps {
        /// The number, at most 63.
        number: u8,
        /// The epoch, from 1.
        epoch: u64,
        /// How many stamps.
        stamps: u64,
    },
    /// `drop N EPOCH`: the session takes its claim back.
    Drop {
        /// The number, at most 63.
        number: u8,
        /// The epoch, from 1.
        epoch: u64,
    },
    /// `greet`: are you there?
    Greet,
}

/// What a voter says, except its reply to a heartbeat, which is [`Opened`].
#[derive(Clone, Copy, Debug, PartialEq, Eq)]
pub enum VoterWord {
    /// `number N EPOCH STATE`: how a number is.
    Number {
        /// The number, at most 63.
        number: u8,
        /// Its newest epoch.
        epoch: u64,
        /// 0 if it is taken, 1 if it is free, 2 if its session is silent.
        state: u64,
    },
    /// `claimed N EPOCH BASE RESERVED`: the number is the session's.
    Claimed {
        /// The number, at most 63.
        number: u8,
        /// The epoch.
        epoch: u64,
        /// All stamps of the session are above it.
        base: u64,
        /// The highest stamp that is reserved.
        reserved: u64,
    },
    /// `refused N EPOCH`: the number is not the session's.
    Refused {
        /// The number, at most 63.
        number: u8,
        /// The epoch.
        epoch: u64,
    },
    /// `closed N EPOCH`: the session is over, as it said.
    Closed {
        /// The number, at most 63.
        number: u8,
        /// The epoch.
        epoch: u64,
    },
    /// `taken N EPOCH`: the number is another session's.
    Taken {
        /// The number, at most 63.
        number: u8,
        /// The epoch.
        epoch: u64,
    },
    /// `unknown N EPOCH`: the session has to claim its number here.
    Unknown {
        /// The number, at most 63.
        number: u8,
        /// The epoch.
        epoch: u64,
    },
    /// `run VOTER RUN`: a voter lost its state, and was made again; it counts its runs from 0.
    Run {
        /// The voter, at most 63.
        voter: u8,
        /// The newest run of it that is known.
        run: u64,
    },
    /// `quiet MS`: the voter takes no new request for so many milliseconds.
    Quiet {
        /// How many.
        milliseconds: u64,
    },
    /// `leaving`: the voter ends.
    Leaving,
    /// `greeted`: the reply to `greet`.
    Greeted,
}

/// The reply to a heartbeat: `opened N EPOCH BASE RESERVED SEQ REQUESTS`.
#[derive(Clone, Copy, Debug, PartialEq, Eq)]
pub struct Opened {
    /// The client's number, at most 63.
    pub number: u8,
    /// The epoch of its session.
    pub epoch: u64,
    /// All stamps of the session are above it.
    pub base: u64,
    /// The highest stamp that is reserved.
    pub reserved: u64,
    /// Which heartbeat this replies to.
    pub seq: u64,
    /// How many requests of the session the voter has.
    pub requests: u64,
}

/// What a voter says in a line of control that has numbers only.
#[derive(Clone, Copy, Debug, PartialEq, Eq)]
pub enum VoterSays {
    /// A word, and at most four numbers.
    Word(VoterWord),
    /// The reply to a heartbeat.
    Opened(Opened),
}

impl ClientWord {
    /// Returns whether it has a line: its number is at most 63, and its epoch is not 0.
    pub fn has_line(self) -> bool
        ensures { IsTrue result ↔ ClientWordFits self }
    {
        match self {
            ClientWord::Claim { number, epoch }
            | ClientWord::ClaimStamps { number, epoch, .. }
            | ClientWord::Drop { number, epoch } => number <= 63 && epoch > 0,
            ClientWord::Hello
            | ClientWord::Plan
            | ClientWord::Open { .. }
            | ClientWord::Close
            | ClientWord::Greet => true,
        }
    }
}

impl VoterWord {
    fn has_line(self) -> bool
        ensures { IsTrue result ↔ VoterWordFits self }
    {
        match self {
            VoterWord::Number { number, state, .. } => number <= 63 && state <= 2,
            VoterWord::Claimed { number, .. }
            | VoterWord::Refused { number, .. }
            | VoterWord::Closed { number, .. }
            | VoterWord::Taken { number, .. }
            | VoterWord::Unknown { number, .. } => number <= 63,
            VoterWord::Run { voter, .. } => voter <= 63,
            VoterWord::Quiet { .. } | VoterWord::Leaving | VoterWord::Greeted => true,
        }
    }
}

impl Opened {
    fn has_line(self) -> bool
        ensures { IsTrue result ↔ OpenedFits self }
    {
        self.number <= 63
    }
}

impl VoterSays {
    /// Returns whether it has a line: its number is at most 63, and a state at most 2.
    pub fn has_line(self) -> bool
        ensures { IsTrue result ↔ SaysFits self }
    {
        match self {
            VoterSays::Word(word) => word.has_line(),
            VoterSays::Opened(opened) => opened.has_line(),
        }
    }
}
