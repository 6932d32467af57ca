//! Accounts of tickets.
ghost use Rattle.std.specs.Prelude.{◌≡◌, ◌<◌, ◌^◌, length, slice_index, sum, IfOk};
ghost use Rattle.numbers.specs.Counts.{greatest_below};
ghost use Rattle.certificate.specs.Loads.{weight_on};
ghost use Rattle.dealer.specs.Accounts.{values_below};

use crate::counts::Counts;
use certificate::weight_on;
use quorum_set::Coterie;
use std::alloc::{AllocError, Global};

/// How often a list of tickets uses each quorum and each voter.
#[derive(Debug, Drop)]
pub struct Account {
    /// How many tickets there are.
    pub drawn: u64,
    /// For each quorum, by number, how many of the tickets stand for it.
    pub quorums: Counts,
    /// For each voter, by number, how many of the tickets stand for a quorum with this voter.
    pub voters: Counts,
    /// The greatest count of a voter, or 0 if there is no ticket.
    pub busiest: u64,
    /// The greatest count of a voter, divided by the voter's capacity: a numerator and a denominator
    /// in lowest terms. It is 0/1 if there is no ticket.
    pub ratio: (u64, u64),
}

/// Returns how often each voter is used if each quorum is used as often as `counts` says.
pub(crate) fn counts_of_voters(
    alloc: Global,
    coterie: &Coterie,
    counts: &[u64],
) -> Result<Vec<u64>, AllocError>
    requires lengths { length counts.now ≡ length coterie.now.quorums }
    requires fits { sum counts.now < 2 ^ 64 }
    ensures { IfOk result (λ v. v.items
        ≡ values_below coterie.now.voters (λ i. weight_on i coterie.now.quorums counts.now)) }
{
    let mut voters = Vec::with_capacity(alloc, coterie.voters())?;
    for voter in 0..coterie.voters() {
        voters.push(weight_on(coterie, counts, voter as u8))?;
    }
    Ok(voters)
}

/// Returns the greatest of the numbers, or 0 if there is none.
pub(crate) fn greatest_of(numbers: &[u64]) -> u64
    ensures { result ≡ greatest_below (length numbers.now) (λ j. slice_index numbers.now j) }
{
    let mut greatest = 0;
    for number in numbers {
        greatest = greatest.max(*number);
    }
    greatest
}
