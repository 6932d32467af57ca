//! Why the system did not open or read a file, and whether somebody reads the output.
ghost use Rattle.std.specs.Prelude.{◌≡◌};
ghost use Rattle.host.specs.Reasons.{reason_of};

use std::io::ErrorKind;

/// Why the system did not open or read a file, as far as it is told.
#[derive(Clone, Copy, Debug, PartialEq, Eq)]
pub enum Reason {
    /// There is no such file.
    Missing,
    /// It is a folder.
    Folder,
    /// Reading it is not allowed.
    Forbidden,
    /// Anything else.
    Other,
}

impl Reason {
    /// Returns the reason for an error of this kind.
    pub fn of(kind: ErrorKind) -> Reason
        ensures { result ≡ reason_of kind }
    {
        match kind {
            ErrorKind::NotFound => Reason::Missing,
            ErrorKind::IsADirectory => Reason::Folder,
            ErrorKind::PermissionDenied => Reason::Forbidden,
            _ => Reason::Other,
        }
    }

    /// Returns the words for a reason that is told.
    pub(crate) fn words(self) -> Option<&'static str> {
        match self {
            Reason::Missing => Some("there is no such file"),
            Reason::Folder => Some("it is a folder"),
            Reason::Forbidden => Some("reading it is not allowed"),
            Reason::Other => None,
        }
    }
}
