//! Duties: the steps that a round still owes before it is fair.
//!
//! In a fair round everybody is reminded, what a reminder sends arrives, and so do the replies to that.
//! Whoever was inside at its beginning leaves.
use std::alloc::AllocError;
use world::Step;

/// A step that has to be made.
#[derive(Clone, Copy)]
pub struct Duty {
    /// The step.
    pub step: Step,
    /// How often messages that it leads to have to arrive, one on the arrival of the other: 2 for a
    /// reminder, 1 for what it sends, 0 for a reply to that.
    pub depth: u8,
}

/// Adds a step, and how often messages that it leads to have to arrive.
pub fn add(duties: &mut Vec<Duty>, step: Step, depth: u8) -> Result<(), AllocError> {
    duties.push(Duty { step, depth })?;
    Ok(())
}

/// Takes the duty at this place out, if there is one.
pub fn take(duties: &mut Vec<Duty>, place: usize) -> Option<Duty> {
    if place < duties.len() {
        Some(duties.remove(place))
    } else {
        None
    }
}
