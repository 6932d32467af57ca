//! Which losses weights bear.
ghost use Rattle.std.specs.Prelude.{◌≡◌, ◌↔◌, true};
ghost use Rattle.certificate.specs.Certificates.{AreWeights};
ghost use Rattle.losses.specs.Losses.{BearsLosses, KeepTickets, KeepsTicket};

use crate::figures::tickets_left;
use certificate::Weights;
use failures::{bears, with_voter};
use quorum_set::QSet;

/// Returns whether some ticket is left without these voters, if a quorum is.
fn keeps_ticket(weights: &Weights, down: &QSet) -> bool
    ensures keeps { (result ≡ true) ↔ KeepsTicket weights.now down.now }
    ensures weights { AreWeights weights.now }
{
    !bears(weights.coterie(), down) || tickets_left(weights, down) > 0
}

/// Returns whether this is so without these voters, and at most so many voters more, from a number on.
fn keep_tickets(weights: &Weights, down: &QSet, first: usize, more: usize) -> bool
    ensures keep { (result ≡ true) ↔ KeepTickets weights.now down.now first more }
    ensures weights { AreWeights weights.now }
{
    if !keeps_ticket(weights, down) {
        return false;
    }
    if more == 0 {
        return true;
    }
    for voter in first..weights.coterie().voters() {
        let with = with_voter(down, voter as u8);
        if !keep_tickets(weights, &with, voter + 1, more - 1) {
            return false;
        }
    }
    true
}

/// Returns whether the weights bear the loss of any `most` voters: each set of at most so many voters that
/// leaves a quorum of the coterie leaves one of positive weight.
///
/// Looks at each of these sets. Of 64 voters there are 2,081 sets of at most two, and 43,745 of at most three.
pub fn bears_losses(weights: &Weights, most: usize) -> bool
    ensures { (result ≡ true) ↔ BearsLosses most weights.now }
{
    keep_tickets(weights, &QSet::empty(), 0, most)
}
