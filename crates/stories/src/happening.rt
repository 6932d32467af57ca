//! What a turn of a story did.
use requester::Seen;
use voter::Grant;
use world::WorldFault;

/// Why a guard refuses a pass: the pass shows an older grant of a voter than passes that were admitted.
#[derive(Clone, Copy, Debug, PartialEq, Eq)]
pub struct Late {
    /// The first voter whose grant is older.
    pub voter: u8,
    /// The number of the voter's grant in the pass.
    pub shown: u64,
    /// The highest number that the guard saw of this voter.
    pub seen: u64,
}

/// What a turn did.
#[derive(Clone, Copy)]
pub enum Happening {
    /// The turn was refused, and changed nothing.
    Refused(WorldFault),
    /// The step was taken.
    Done {
        /// The number of the first message that it sent, if it sent any.
        first: usize,
        /// How many messages it sent.
        sent: usize,
        /// Whether its client entered or left.
        seen: Seen,
    },
    /// A client or a voter crashed, and forgot this number of messages that it had taken.
    Crashed(usize),
    /// A voter let a grant go.
    Evicted {
        /// The grant.
        grant: Grant,
        /// The number of the first message that the voter sent, if it sent any.
        first: usize,
        /// How many messages it sent.
        sent: usize,
    },
    /// This voter has given no grant that it could let go.
    NoGrant(u8),
    /// A voter came back without its state. It gave this number of grants before.
    Reborn(u64),
    /// A client started anew.
    Anew {
        /// Its clock: its last stamp.
        clock: u64,
        /// Whether it left by this.
        seen: Seen,
    },
    /// The guard admitted a pass, and gave it this turn.
    Admitted(u64),
    /// The guard refused a pass: it shows an older grant than the guard saw in passes that it admitted.
    Late(Late),
    /// The guard refused a pass, as it has no turn left.
    NoTurn,
    /// This client has no pass to show: it was never inside.
    NoPass(u8),
}
