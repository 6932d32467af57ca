//! The account of a list of quorums.
ghost use Rattle.std.specs.Prelude.{◌≡◌, ◌<◌, length, slice_index, slice_index_or, [], if◌then◌else◌, All, IfOk};
ghost use Rattle.numbers.specs.Counts.{greatest_below};
ghost use Rattle.numbers.specs.Sets.{has};
ghost use Rattle.quorum_set.specs.Counts.{count_of};
ghost use Rattle.show_figures.specs.Accounts.{account_of_list, counts_of_list};

use certificate::{Weights, greatest_ratio};
use dealer::{Account, Counts};
use quorum_set::Coterie;
use std::alloc::{AllocError, Global};

/// Returns how often a quorum uses a voter: once or never.
fn use_of(coterie: &Coterie, quorum: usize, voter: u8) -> u64
    requires { quorum < length coterie.now.quorums }
    ensures { result ≡ (if has (slice_index_or coterie.now.quorums quorum []) voter then 1 else 0) }
{
    if coterie.quorum(quorum).has(voter) {
        1
    } else {
        0
    }
}

/// Returns how often a list of quorums uses a voter.
fn count_of_voter(coterie: &Coterie, list: &[usize], voter: u8) -> u64
    requires { All (λ j. j < length coterie.now.quorums) list.now }
    ensures { result ≡ count_of coterie.now voter list.now }
{
    let mut count = 0;
    for quorum in list {
        count += use_of(coterie, *quorum, voter);
    }
    count
}

/// Returns how often a list of quorums uses each voter.
fn counts_of_voters(
    alloc: Global,
    coterie: &Coterie,
    list: &[usize],
) -> Result<Vec<u64>, AllocError>
    requires { All (λ j. j < length coterie.now.quorums) list.now }
    ensures counts { IfOk result (λ v. v.items ≡ counts_of_list coterie.now list.now) }
    ensures one_each { IfOk result (λ v. length v.items ≡ coterie.now.voters) }
{
    let mut counts = Vec::with_capacity(alloc, coterie.voters())?;
    for voter in 0..coterie.voters() {
        counts.push(count_of_voter(coterie, list, voter as u8))?;
    }
    Ok(counts)
}

/// Returns the greatest of the numbers, or 0 if there is none.
fn greatest_of(numbers: &[u64]) -> u64
    ensures { result ≡ greatest_below (length numbers.now) (λ j. slice_index numbers.now j) }
{
    let mut greatest = 0;
    for number in numbers {
        greatest = greatest.max(*number);
    }
    greatest
}

/// Returns the account of a list of quorums. The counts of the quorums are left out, as no
/// page shows them.
pub(crate) fn account_of(
    alloc: Global,
    weights: &Weights,
    list: &[usize],
) -> Result<Account, AllocError>
    requires { All (λ j. j < length weights.now.system.quorums) list.now }
    ensures value { IfOk result (λ account. account ≡ account_of_list weights.now list.now) }
    ensures one_each { IfOk result (λ account. length account.voters ≡ weights.now.system.voters) }
{
    let voters = counts_of_voters(alloc, weights.coterie(), list)?;
    let busiest = greatest_of(&voters);
    let ratio = greatest_ratio(&voters, weights.capacities());
    Ok(Account {
        drawn: list.len() as u64,
        quorums: Counts::from(Vec::new(alloc)),
        voters: Counts::from(voters),
        busiest,
        ratio,
    })
}
