//! Why a call of a member fails, and why there is no record of a run.
ghost use Rattle.std.specs.Prelude.{◌≡◌};
ghost use Rattle.run_outcome.specs.Refusals.{run_refusal};

use board::BoardFault;
use dealer::DealFault;
use requester::ClientFault;
use thiserror::Error;

/// The reason why a call of a member failed, or a cluster has no record.
#[derive(Clone, Copy, Debug, PartialEq, Eq, Error)]
pub enum ClusterFault {
    /// The member's client refuses the call.
    #[error(transparent)]
    Client(ClientFault),
    /// The member gets no ticket.
    #[error(transparent)]
    Deal(DealFault),
    /// The register is at its limit, or there is no memory for one more pass number. At the end of
    /// a cluster: a vote is out, or memory ran out.
    #[error(transparent)]
    Board(BoardFault),
    /// The member is not inside.
    #[error("K1 NotInside")]
    NotInside,
    /// This client's turns are spent.
    #[error("K2 TurnsSpent {0}")]
    TurnsSpent(u8),
    /// There is no second plan, or it is in use already.
    #[error("K4 NoSecondPlan")]
    NoSecondPlan,
    /// Memory ran out for messages: several reminders in a row each lost one for it.
    #[error("O1 OutOfMemory")]
    OutOfMemory,
}

/// The reason why there is no record of a run.
#[derive(Clone, Copy, Debug, PartialEq, Eq, Error)]
pub enum RunFault {
    /// A client's work ended early, or a vote was out at the end. Never because memory ran out.
    #[error(transparent)]
    Cluster(ClusterFault),
    /// Memory ran out.
    #[error("O1 OutOfMemory")]
    OutOfMemory,
}

impl From<ClusterFault> for RunFault {
    ghost from_gives = { λ fault e. e ≡ run_refusal fault };

    fn from(fault: ClusterFault) -> RunFault {
        match fault {
            ClusterFault::Deal(DealFault::OutOfMemory)
            | ClusterFault::Board(BoardFault::OutOfMemory)
            | ClusterFault::OutOfMemory => RunFault::OutOfMemory,
            _ => RunFault::Cluster(fault),
        }
    }
}
