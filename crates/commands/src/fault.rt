//! The faults of commands.
ghost use Rattle.std.specs.Prelude.{◌≡◌};
ghost use Rattle.commands.specs.Faults.{construct_refusal, device_refusal, input_refusal, replay_refusal, run_refusal};
ghost use Rattle.commands.specs.declared.fault.Fault.TheVariants.{OutOfMemory};

use construct::ConstructFault;
use plan_inputs::InputFault;
use replay::ReplayFault;
use run_outcome::{ClusterFault, RunFault};
use std::alloc::{AllocError, AllocFailed};
use thiserror::Error;
use whole_io::DeviceFault;

/// Why a command failed. Its text is one line.
#[derive(Clone, Copy, Debug, PartialEq, Eq, Error)]
pub enum Fault {
    /// The input has fewer parts than the command reads. Has the number of the first missing part,
    /// from 1.
    #[error("I1 MissingPart {0}")]
    MissingPart(usize),
    /// A word of the command line has to be the name of a voter of the input, and is none. Has the
    /// place of the first such word, from 0. Only commands of `qlock-show` have such words.
    #[error("I6 UnknownVoter {0}")]
    UnknownVoter(usize),
    /// This quorum of the first coterie of an input has no common voter with this one of the second.
    /// Of several pairs it is the smallest: by the first number, then by the second. Only commands of
    /// `qlock-show` read two coteries.
    #[error("J1 NotBridged {0} {1}")]
    NotBridged(usize, usize),
    /// The input is too long, or a read or a write failed.
    #[error(transparent)]
    Device(DeviceFault),
    /// There is no coterie of this shape and these sizes.
    #[error(transparent)]
    Construct(ConstructFault),
    /// The coterie or the plan has a fault, or no plan was found.
    #[error(transparent)]
    Input(InputFault),
    /// The script or the record has a fault.
    #[error(transparent)]
    Replay(ReplayFault),
    /// A run ended without a record.
    #[error(transparent)]
    Cluster(ClusterFault),
    /// Memory ran out.
    #[error("O1 OutOfMemory")]
    OutOfMemory,
}

impl From<AllocError> for Fault {
    ghost from_gives = { λ _ e. e ≡ OutOfMemory };

    fn from(_error: AllocError) -> Fault {
        Fault::OutOfMemory
    }
}

impl<T: Drop> From<AllocFailed<T>> for Fault {
    ghost from_gives = { λ _ e. e ≡ OutOfMemory };

    fn from(_error: AllocFailed<T>) -> Fault {
        Fault::OutOfMemory
    }
}

impl From<DeviceFault> for Fault {
    ghost from_gives = { λ fault e. e ≡ device_refusal fault };

    fn from(fault: DeviceFault) -> Fault {
        match fault {
            DeviceFault::OutOfMemory => Fault::OutOfMemory,
            _ => Fault::Device(fault),
        }
    }
}

impl From<ConstructFault> for Fault {
    ghost from_gives = { λ fault e. e ≡ construct_refusal fault };

    fn from(fault: ConstructFault) -> Fault {
        match fault {
            ConstructFault::OutOfMemory => Fault::OutOfMemory,
            _ => Fault::Construct(fault),
        }
    }
}

impl From<InputFault> for Fault {
    ghost from_gives = { λ fault e. e ≡ input_refusal fault };

    fn from(fault: InputFault) -> Fault {
        match fault {
            InputFault::OutOfMemory => Fault::OutOfMemory,
            _ => Fault::Input(fault),
        }
    }
}

impl From<ReplayFault> for Fault {
    ghost from_gives = { λ fault e. e ≡ replay_refusal fault };

    fn from(fault: ReplayFault) -> Fault {
        match fault {
            ReplayFault::OutOfMemory => Fault::OutOfMemory,
            _ => Fault::Replay(fault),
        }
    }
}

impl From<RunFault> for Fault {
    ghost from_gives = { λ fault e. e ≡ run_refusal fault };

    fn from(fault: RunFault) -> Fault {
        match fault {
            RunFault::OutOfMemory => Fault::OutOfMemory,
            RunFault::Cluster(fault) => Fault::Cluster(fault),
        }
    }
}
