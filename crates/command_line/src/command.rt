//! The commands of the program.

/// The shape of a coterie to make, with its sizes. The crate `construct` defines the shapes.
#[derive(Debug, Drop)]
pub enum Shape {
    /// Rows and columns.
    Grid(u32, u32),
    /// The number of voters.
    Majority(u32),
    /// The height.
    Tree(u32),
    /// The number of rims.
    Wheel(u32),
    /// The number of voters, and the base.
    Cyclic(u32, Vec<u32>),
}

/// A command, with the numbers from the command line.
#[derive(Debug, Drop)]
pub enum Command {
    /// Write the coterie of this shape.
    Make(Shape),
    /// Find a plan of a coterie, and write it with its certificate.
    Plan,
    /// Check a plan against its coterie, and write its load and the length of its cycle.
    Check,
    /// Deal this many tickets, 0 to 100,000, and count how often each voter is used.
    Deal(u32),
    /// Run a script of clients and voters by a plan, and write what its steps did.
    World,
    /// Run clients in threads, and write the record of what they did.
    Run {
        /// The number of clients: 1 to 64.
        clients: u8,
        /// How often each client passes: 0 to 1000.
        passes: u64,
        /// How many turns each client has for all its passes: 0 to 10^12.
        turns: u64,
    },
    /// Check the record of a run by its plan, and count how often each voter was used.
    Replay,
}
