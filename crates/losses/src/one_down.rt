//! The worst load when one voter is down.
ghost use Rattle.std.specs.Prelude.{◌≡◌, ℕ, ◌+◌, ◌<◌, [], ◌∷◌, IfSome};
ghost use Rattle.certificate.specs.Certificates.{AreWeights, Weighted};
ghost use Rattle.losses.specs.Worst.{IsWorst, IsWorstBelow, Leaves};

use crate::figures::load_left;
use certificate::{Weights, greater_of};
use failures::{bears, with_voter};
use quorum_set::QSet;

/// What is left of weights when one voter is down, at worst. A loss that leaves no quorum does not count.
#[derive(Clone, Copy, Drop)]
pub enum OneDown {
    /// The loss of each voter leaves no quorum.
    NoQuorum,
    /// The loss of some voter leaves a quorum, but no ticket.
    NoTicket,
    /// The greatest load of the tickets that are left, as a numerator and a denominator in lowest terms.
    Load((u64, u64)),
}

/// Returns the set of one voter.
fn alone(voter: u8) -> QSet
    requires { voter < 64 }
    ensures { result ≡ voter ∷ [] }
{
    with_voter(&QSet::empty(), voter)
}

/// Returns what the loss of a voter leaves.
fn left_without(weights: &Weights, voter: u8) -> OneDown
    requires { voter < 64 }
    ensures { Leaves weights.now voter result }
{
    let down = alone(voter);
    if !bears(weights.coterie(), &down) {
        return OneDown::NoQuorum;
    }
    match load_left(weights, &down) {
        Some(load) => OneDown::Load(load),
        None => OneDown::NoTicket,
    }
}

/// Returns the worse of what losses leave: of those of all voters below a number, and of that voter.
fn worse_of(first: OneDown, second: OneDown) -> OneDown
    ensures { (w : Weighted) (n : ℕ) → AreWeights w → IsWorstBelow n w first → Leaves w n second
        → IsWorstBelow (n + 1) w result }
{
    match second {
        OneDown::NoQuorum => first,
        OneDown::NoTicket => OneDown::NoTicket,
        OneDown::Load(own) => match first {
            OneDown::NoQuorum => OneDown::Load(own),
            OneDown::NoTicket => OneDown::NoTicket,
            OneDown::Load(other) => OneDown::Load(greater_of(other, own)),
        },
    }
}

/// Returns what is left when one voter is down, at worst: the greatest load of the tickets that are left,
/// over all voters whose loss leaves a quorum. Says so if the loss of one of these leaves no ticket, or if
/// there is none.
pub fn worst_one_down(weights: &Weights) -> OneDown
    ensures worst { IsWorst weights.now result }
    ensures weights { AreWeights weights.now }
{
    let mut worst = OneDown::NoQuorum;
    for voter in 0..weights.coterie().voters() {
        worst = worse_of(worst, left_without(weights, voter as u8));
    }
    worst
}
