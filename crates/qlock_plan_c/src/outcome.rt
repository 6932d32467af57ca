//! How a call ends, and the numbers that C sees.
ghost use Rattle.std.specs.Prelude.{◌≡◌, pos};
ghost use Rattle.qlock_plan_c.specs.Numbers.{number_of};

/// How a call ends.
#[derive(Clone, Copy, Debug, PartialEq, Eq)]
pub enum Outcome {
    /// The result was written.
    Done,
    /// A number is out of range.
    BadArgument,
    /// `out` is too short.
    NoRoom,
    /// A text was refused, or no plan was found. The line of the fault was written.
    Refused,
    /// Memory ran out.
    NoMemory,
}

impl Outcome {
    /// Returns the number of this outcome.
    pub fn number(self) -> i32
        ensures { result ≡ pos (number_of self) }
    {
        match self {
            Outcome::Done => 0,
            Outcome::BadArgument => 1,
            Outcome::NoRoom => 4,
            Outcome::Refused => 11,
            Outcome::NoMemory => 12,
        }
    }
}
