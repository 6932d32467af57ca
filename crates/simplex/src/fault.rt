//! The faults of the simplex method.
ghost use Rattle.std.specs.Prelude.{◌≡◌};
ghost use Rattle.simplex.specs.declared.fault.SimplexFault.TheVariants.{OutOfMemory};

use std::alloc::{AllocError, AllocFailed};
use thiserror::Error;

/// Why the simplex method found no candidate.
#[derive(Clone, Copy, Debug, PartialEq, Eq, Error)]
pub enum SimplexFault {
    /// A number that the method computes does not fit its type.
    #[error("S1 Overflow")]
    Overflow {
        /// How many pivots were made before.
        pivots: u32,
    },
    /// More pivots are needed than were allowed.
    #[error("S2 PivotLimit")]
    PivotLimit,
    /// A column improves the solution without bound: no row limits it. This can't happen for a
    /// coterie, since the sum that is maximised is at most the sum of the capacities. That is not
    /// proved.
    #[error("S3 NoRow")]
    NoRow,
    /// Memory ran out.
    #[error("O1 OutOfMemory")]
    OutOfMemory,
}

impl From<AllocError> for SimplexFault {
    ghost from_gives = { λ _ e. e ≡ OutOfMemory };

    fn from(_error: AllocError) -> SimplexFault {
        SimplexFault::OutOfMemory
    }
}

impl<T: Drop> From<AllocFailed<T>> for SimplexFault {
    ghost from_gives = { λ _ e. e ≡ OutOfMemory };

    fn from(_error: AllocFailed<T>) -> SimplexFault {
        SimplexFault::OutOfMemory
    }
}
