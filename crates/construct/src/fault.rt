//! The faults of a construction.
ghost use Rattle.std.specs.Prelude.{◌≡◌};
ghost use Rattle.construct.specs.declared.fault.ConstructFault.TheVariants.{Coterie, OutOfMemory};

use quorum_set::CoterieFault;
use std::alloc::{AllocError, AllocFailed};
use thiserror::Error;

/// The first fault of the numbers that a construction receives, in the order of the variants.
#[derive(Clone, Copy, Debug, PartialEq, Eq, Error)]
pub enum ConstructFault {
    /// The sizes are too small. Or the base of a cyclic coterie is bad: it is empty, has a member
    /// twice, or has a member that is no voter's number.
    #[error("G1 BadSize")]
    BadSize,
    /// The sizes are too large.
    #[error("G2 TooLarge")]
    TooLarge,
    /// The shifted sets are no coterie: two of them are disjoint, or one lies within another. Only
    /// `cyclic` returns this.
    #[error(transparent)]
    Coterie(CoterieFault),
    /// Memory ran out while the quorums were made, or while the base was searched for a repeat.
    /// `grid`, `majority`, `tree` and `wheel` never return it for sizes that they refuse. `cyclic` never returns it for a base that is empty or has a member that is no voter's number.
    #[error("O1 OutOfMemory")]
    OutOfMemory,
}

impl From<CoterieFault> for ConstructFault {
    ghost from_gives = { λ fault e. e ≡ Coterie fault };

    fn from(fault: CoterieFault) -> ConstructFault {
        ConstructFault::Coterie(fault)
    }
}

impl From<AllocError> for ConstructFault {
    ghost from_gives = { λ _ e. e ≡ OutOfMemory };

    fn from(_error: AllocError) -> ConstructFault {
        ConstructFault::OutOfMemory
    }
}

impl<T: Drop> From<AllocFailed<T>> for ConstructFault {
    ghost from_gives = { λ _ e. e ≡ OutOfMemory };

    fn from(_error: AllocFailed<T>) -> ConstructFault {
        ConstructFault::OutOfMemory
    }
}
