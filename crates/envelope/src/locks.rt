//! Names of locks, and what voters say of one lock.
ghost use Rattle.std.specs.Prelude.{◌≡◌, IsTrue, ◌↔◌};
ghost use Rattle.std.specs.List.{list_all};
ghost use Rattle.envelope.specs.LockLines.{IsLockName, begins_with_dot, is_lock_byte};

use crate::names::{MOST_NAME, is_name_byte};

/// What a voter says of one lock, to a session that has a request for it.
#[derive(Clone, Copy, Debug, PartialEq, Eq)]
pub enum LockSays {
    /// `gone LOCK STAMP`: it let the request go.
    Gone {
        /// The stamp of the request.
        stamp: u64,
    },
    /// `full LOCK STAMP`: it has no room for the lock.
    Full {
        /// The stamp of the request.
        stamp: u64,
    },
    /// `held LOCK STAMP MS`: somebody else has had the vote for so many milliseconds.
    Held {
        /// The stamp of the request.
        stamp: u64,
        /// For how long.
        milliseconds: u64,
    },
}

fn is_lock_byte(byte: u8) -> bool
    ensures { result ≡ is_lock_byte byte }
{
    is_name_byte(byte) || byte == b'.' || byte == b':'
}

fn are_lock_bytes(bytes: &[u8]) -> bool
    ensures { result ≡ list_all is_lock_byte bytes.now }
{
    bytes.iter().all(|byte| is_lock_byte(*byte))
}

fn begins_with_dot(bytes: &[u8]) -> bool
    ensures { result ≡ begins_with_dot bytes.now }
{
    match bytes.first() {
        Some(byte) => *byte == b'.',
        None => false,
    }
}

/// Returns whether bytes may name a lock: 1 to 64 of A-Z a-z 0-9 _ - . : with no dot first.
pub fn is_lock_name(bytes: &[u8]) -> bool
    ensures { IsTrue result ↔ IsLockName bytes.now }
{
    !bytes.is_empty()
        && bytes.len() <= MOST_NAME
        && !begins_with_dot(bytes)
        && are_lock_bytes(bytes)
}
