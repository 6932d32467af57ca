//! Whether a round was fair, by the definition and not by a list of duties.
//!
//! It goes by the steps that were made, and by the numbers of the messages that each of them sent.
use world::Step;

/// A step that was made.
#[derive(Clone, Copy)]
pub struct Made {
    /// The step.
    pub step: Step,
    /// The number of the first message that it sent.
    pub first: u64,
    /// The number of the first message that was sent after it.
    pub end: u64,
}

/// Returns whether a message arrives in these steps.
fn arrives(steps: &[Made], number: u64) -> bool {
    steps.iter().any(|made| made.step == Step::Deliver(number))
}

/// Returns whether each of these messages arrives in these steps.
fn arrive(steps: &[Made], first: u64, end: u64) -> bool {
    for number in first..end {
        if !arrives(steps, number) {
            return false;
        }
    }
    true
}

/// Returns whether a message arrives in these steps, and each message that is sent on its arrival
/// arrives after it.
fn is_answered(steps: &[Made], number: u64) -> bool {
    for i in 0..steps.len() {
        let made = steps[i];
        if made.step == Step::Deliver(number) && arrive(&steps[i + 1..], made.first, made.end) {
            return true;
        }
    }
    false
}

/// Returns whether each of these messages is answered in these steps.
fn are_answered(steps: &[Made], first: u64, end: u64) -> bool {
    for number in first..end {
        if !is_answered(steps, number) {
            return false;
        }
    }
    true
}

/// Returns whether a reminder is among these steps, each message that it sends arrives after it, and so
/// do the replies to that.
fn is_reminded(steps: &[Made], reminder: Step) -> bool {
    for i in 0..steps.len() {
        let made = steps[i];
        if made.step == reminder && are_answered(&steps[i + 1..], made.first, made.end) {
            return true;
        }
    }
    false
}

/// Returns whether these steps are a fair round of a world with this many clients and voters, in which
/// this client is inside at the beginning.
pub fn is_fair(steps: &[Made], clients: u8, voters: u8, inside: Option<u8>) -> bool {
    for client in 0..clients {
        if !is_reminded(steps, Step::RemindClient(client)) {
            return false;
        }
    }
    for voter in 0..voters {
        if !is_reminded(steps, Step::RemindVoter(voter)) {
            return false;
        }
    }
    match inside {
        Some(client) => steps.iter().any(|made| made.step == Step::Leave(client)),
        None => true,
    }
}
