//! The faults of a text that describes no coterie.
ghost use Rattle.std.specs.Prelude.{◌≡◌};
ghost use Rattle.coterie_file.specs.declared.fault.FileFault.TheVariants.{Coterie, OutOfMemory};

use quorum_set::CoterieFault;
use std::alloc::{AllocError, AllocFailed};
use thiserror::Error;

/// The first fault of a text, in the order of the variants. Each fault is looked for in the whole
/// text before the next one, so its number is the smallest that has the fault. Voters and quorums
/// are numbered from 0 in the order of the text.
#[derive(Clone, Copy, Debug, PartialEq, Eq, Error)]
pub enum FileFault {
    /// The text is not a TOML document.
    #[error("F1 NotToml")]
    NotToml,
    /// A key is missing, or unknown, or its value is of the wrong kind.
    #[error("F2 Keys")]
    Keys,
    /// The text listed for this voter is not a name.
    #[error("F3 BadName {0}")]
    BadName(usize),
    /// An earlier voter has the same name as this one.
    #[error("F4 RepeatedName {0}")]
    RepeatedName(usize),
    /// This quorum lists a name that no voter has.
    #[error("F5 UnknownName {0}")]
    UnknownName(usize),
    /// This quorum lists a name twice.
    #[error("F6 RepeatedMember {0}")]
    RepeatedMember(usize),
    /// The list of capacities has this many numbers, and there is another number of voters.
    #[error("F7 CapacityCount {0}")]
    CapacityCount(usize),
    /// The capacity listed for this voter is not in 1 to 1000.
    #[error("F8 BadCapacity {0}")]
    BadCapacity(usize),
    /// The quorums are no coterie.
    #[error(transparent)]
    Coterie(CoterieFault),
    /// Memory ran out. `read_coterie` may fail with it for any text that is not blank. `Named::of` and
    /// `Named::with_capacities` never do.
    #[error("O1 OutOfMemory")]
    OutOfMemory,
}

impl From<CoterieFault> for FileFault {
    ghost from_gives = { λ fault e. e ≡ Coterie fault };

    fn from(fault: CoterieFault) -> FileFault {
        FileFault::Coterie(fault)
    }
}

impl From<AllocError> for FileFault {
    ghost from_gives = { λ _ e. e ≡ OutOfMemory };

    fn from(_error: AllocError) -> FileFault {
        FileFault::OutOfMemory
    }
}

impl<T: Drop> From<AllocFailed<T>> for FileFault {
    ghost from_gives = { λ _ e. e ≡ OutOfMemory };

    fn from(_error: AllocFailed<T>) -> FileFault {
        FileFault::OutOfMemory
    }
}
