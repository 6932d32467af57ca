//! The faults of a shape.
use construct::ConstructFault;
use coterie_file::FileFault;
use quorum_set::CoterieFault;
use std::alloc::{AllocError, AllocFailed};
use thiserror::Error;

/// Why there is no text of a shape.
#[derive(Clone, Copy, Debug, PartialEq, Eq, Error)]
pub enum ShapeFault {
    /// There is no coterie of this shape and these sizes.
    #[error(transparent)]
    Construct(ConstructFault),
    /// The capacities have a fault.
    #[error(transparent)]
    File(FileFault),
    /// Memory ran out.
    #[error("O1 OutOfMemory")]
    OutOfMemory,
}

impl From<ConstructFault> for ShapeFault {
    fn from(fault: ConstructFault) -> ShapeFault {
        match fault {
            ConstructFault::OutOfMemory => ShapeFault::OutOfMemory,
            _ => ShapeFault::Construct(fault),
        }
    }
}

impl From<CoterieFault> for ShapeFault {
    fn from(fault: CoterieFault) -> ShapeFault {
        ShapeFault::Construct(ConstructFault::Coterie(fault))
    }
}

impl From<FileFault> for ShapeFault {
    fn from(fault: FileFault) -> ShapeFault {
        match fault {
            FileFault::OutOfMemory => ShapeFault::OutOfMemory,
            _ => ShapeFault::File(fault),
        }
    }
}

impl From<AllocError> for ShapeFault {
    fn from(_error: AllocError) -> ShapeFault {
        ShapeFault::OutOfMemory
    }
}

impl<T: Drop> From<AllocFailed<T>> for ShapeFault {
    fn from(_error: AllocFailed<T>) -> ShapeFault {
        ShapeFault::OutOfMemory
    }
}
