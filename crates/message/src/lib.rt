//! The messages of the voting lock, each with one line of text.
//!
//! A client asks a voter for its vote (REQUEST). It gives a vote back to a request that precedes
//! its own (RELINQUISH), and is done with its request (RELEASE). A voter grants its vote (LOCKED),
//! says that another request precedes (FAIL), and asks whether the vote may come back (INQUIRE).
//! This follows Maekawa, "A sqrt(N) algorithm for mutual exclusion in decentralized systems", ACM
//! TOCS 3(2), 1985.
//!
//! | Message | Line |
//! |---|---|
//! | REQUEST | `request CLIENT VOTER STAMP` |
//! | RELINQUISH | `relinquish CLIENT VOTER GRANT` |
//! | RELEASE | `release CLIENT VOTER STAMP` |
//! | LOCKED | `locked VOTER CLIENT STAMP GRANT SEEN` |
//! | FAIL | `fail VOTER CLIENT STAMP SEEN` |
//! | INQUIRE | `inquire VOTER CLIENT GRANT SEEN` |
//!
//! A client or a voter is at most 63. A stamp or a grant is 1 to 2^64 - 1, and SEEN is below 2^64.
//! Each is written in decimal without a leading zero. Reading takes no memory.
//!
//! This crate depends on `texts`. Voters and requesters depend on it.
//!
//! ```
//! let message = read_message(b"request 1 2 3")?;
//! let line = write_message(alloc, &message)?; // needs `message.has_line()`, as each message that was read
//! ```
#![tactic(auto)]

mod fault;
mod laws;
mod message;
mod reading;
mod request;
mod writing;

pub use fault::MessageFault;
pub use laws::lines_end;
pub use message::{ClientBody, Message, ToClient, ToVoter, VoterBody};
pub use reading::read_message;
pub use request::Request;
pub use writing::{push_message, write_message};
