//! Exit statuses of the programs.
ghost use Rattle.std.specs.Prelude.{◌≡◌};
ghost use Rattle.commands.specs.Statuses.{status_of, usage_status};

use crate::fault::Fault;
use command_line::Usage;
use whole_io::DeviceFault;

/// Returns the exit status of a fault: 3 if a read or a write failed, 4 if memory ran out, else 1.
pub fn status_of(fault: &Fault) -> u8
    ensures { result ≡ status_of fault.now }
{
    match fault {
        Fault::Device(DeviceFault::ReadFault | DeviceFault::WriteFault) => 3,
        Fault::OutOfMemory => 4,
        _ => 1,
    }
}

/// Returns the exit status of words that name no command: 4 if memory ran out, else 2.
pub fn usage_status(usage: &Usage) -> u8
    ensures { result ≡ usage_status usage.now }
{
    match usage {
        Usage::OutOfMemory => 4,
        Usage::Refused(_) | Usage::Arguments => 2,
    }
}
