//! Turns of a story.
use world::Step;

/// What happens in a line of a story.
#[derive(Clone, Copy, Debug, PartialEq, Eq)]
pub enum Turn {
    /// A step of the world.
    Step(Step),
    /// This client crashes, and restarts from what it saved last.
    CrashClient(u8),
    /// This voter crashes, and restarts from what it saved last.
    CrashVoter(u8),
    /// This voter lets its current grant go.
    Evict(u8),
    /// This voter lost its state, and comes back with no more than the number of grants that it gave.
    RebornVoter(u8),
    /// This client lost its state, and starts anew with its last stamp as its clock.
    AnewClient(u8),
    /// This client shows the guard the pass that it had when it was inside last.
    Show(u8),
}
