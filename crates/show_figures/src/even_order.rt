//! The quorums of tickets that are dealt in the even order, and their account.
ghost use Rattle.std.specs.Prelude.{◌≡◌, ◌<◌, length, All, IfOk};
ghost use Rattle.even.specs.EvenCycles.{window};
ghost use Rattle.show_figures.specs.Accounts.{account_of_list};

use crate::account::account_of;
use dealer::Account;
use even::EvenCycle;
use std::alloc::{AllocError, Global};

/// Returns the quorums of the tickets below `count`.
fn quorums_of(alloc: Global, cycle: &EvenCycle, count: u64) -> Result<Vec<usize>, AllocError>
    ensures quorums { IfOk result (λ v. v.items ≡ window cycle.now 0 count) }
    ensures in_range { IfOk result (λ v. All (λ j. j < length cycle.now.weights.system.quorums) v.items) }
{
    let mut quorums = Vec::new(alloc);
    for ticket in 0..count {
        quorums.push(cycle.quorum_at(ticket))?;
    }
    Ok(quorums)
}

/// Returns the account of the tickets below `count`.
pub(crate) fn account_below(
    alloc: Global,
    cycle: &EvenCycle,
    count: u64,
) -> Result<Account, AllocError>
    ensures value { IfOk result (λ account. account ≡ account_of_list cycle.now.weights (window cycle.now 0 count)) }
    ensures one_each { IfOk result (λ account. length account.voters ≡ cycle.now.weights.system.voters) }
{
    let quorums = quorums_of(alloc, cycle, count)?;
    account_of(alloc, cycle.weights(), &quorums)
}
