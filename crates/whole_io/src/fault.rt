//! The faults of reading an input and of writing an output.
ghost use Rattle.std.specs.Prelude.{◌≡◌};
ghost use Rattle.whole_io.specs.declared.fault.DeviceFault.TheVariants.{OutOfMemory};

use std::alloc::AllocError;
use thiserror::Error;

/// Why an input was not read, or an output not written. Its text is one line.
#[derive(Clone, Copy, Debug, PartialEq, Eq, Error)]
pub enum DeviceFault {
    /// The input has more than 16,777,216 bytes.
    #[error("I2 TooLong")]
    TooLong,
    /// A read failed.
    #[error("I3 ReadFault")]
    ReadFault,
    /// A write failed, or took no byte.
    #[error("I4 WriteFault")]
    WriteFault,
    /// Memory ran out.
    #[error("O1 OutOfMemory")]
    OutOfMemory,
}

impl From<AllocError> for DeviceFault {
    ghost from_gives = { λ _ e. e ≡ OutOfMemory };

    fn from(_error: AllocError) -> DeviceFault {
        DeviceFault::OutOfMemory
    }
}
