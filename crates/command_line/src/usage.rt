//! Why words name no command.
ghost use Rattle.std.specs.Prelude.{◌≡◌};
ghost use Rattle.command_line.specs.Words.{BecomesUsage};
ghost use Rattle.command_line.specs.declared.usage.Usage.TheVariants.{OutOfMemory};

use clap::error::ErrorKind;
use std::alloc::AllocError;

/// Why the words name no command.
#[derive(Drop)]
pub enum Usage {
    /// The words are not a command line of the program, or ask for help. Has the text for the user.
    Refused(clap::Error),
    /// The command does not take these arguments.
    Arguments,
    /// Memory ran out.
    OutOfMemory,
}

impl From<AllocError> for Usage {
    ghost from_gives = { λ _ usage. usage ≡ OutOfMemory };

    fn from(_error: AllocError) -> Usage {
        Usage::OutOfMemory
    }
}

impl From<clap::Error> for Usage {
    ghost from_gives = { BecomesUsage };

    fn from(error: clap::Error) -> Usage {
        match error.kind() {
            ErrorKind::OutOfMemory => Usage::OutOfMemory,
            _ => Usage::Refused(error),
        }
    }
}
