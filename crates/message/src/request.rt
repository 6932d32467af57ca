//! A request for the lock.

ghost use Rattle.std.specs.Prelude.{◌≡◌};
ghost use Rattle.message.specs.Requests.{precedes};

/// A client's request for the lock, with a stamp of the client's logical clock.
///
/// The request with the smaller stamp precedes; of equal stamps, that of the smaller client
/// (Maekawa, ACM TOCS 3(2), 1985, after Lamport's order).
#[derive(Clone, Copy, Debug, Default, PartialEq, Eq)]
pub struct Request {
    /// The stamp: the time of the client's clock, from 1.
    pub stamp: u64,
    /// The client's number, from 0.
    pub client: u8,
}

impl Request {
    /// Returns whether this request precedes the other one.
    pub fn precedes(self, other: Request) -> bool
        ensures { result ≡ precedes self other }
    {
        self.stamp < other.stamp || self.stamp == other.stamp && self.client < other.client
    }
}
