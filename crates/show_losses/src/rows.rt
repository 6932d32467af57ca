//! What is left of weights for each loss of voters.
ghost use Rattle.std.specs.Prelude.{◌≡◌, IfSome};
ghost use Rattle.show_losses.specs.Rows.{IsRow, thousandths};

use certificate::Weights;
use losses::{Failure, load_left, regret_at, tickets_left};
use std::alloc::{AllocError, Global};

/// What is left when the voters of a failure are down.
#[derive(Clone, Copy, Drop)]
pub(crate) struct Row {
    /// The place of the failure among all of them.
    pub(crate) place: usize,
    /// How many tickets of a cycle are left.
    pub(crate) tickets: u64,
    /// Their load, as a numerator and a denominator.
    pub(crate) load: (u64, u64),
    /// The best load without the voters that are down, of what was found.
    pub(crate) best: (u64, u64),
    /// Whether it is known to be the best.
    pub(crate) is_best: bool,
    /// The first load divided by the second, in thousandths.
    pub(crate) times: u64,
}

/// Returns a quotient in thousandths, rounded down, at most 10^12. A divisor of 0 counts as 1.
pub(crate) fn thousandths(part: u64, whole: u64) -> u64
    ensures { result ≡ thousandths (part, whole) }
{
    let found = u128::from(part) * 1000 / u128::from(whole.max(1));
    found.min(1_000_000_000_000) as u64
}

/// Returns what the failure at a place leaves, unless it leaves no ticket.
fn row_of(weights: &Weights, failure: &Failure, place: usize) -> Option<Row>
    ensures row { IfSome result (IsRow weights.now failure.now) }
    ensures place { IfSome result (λ row. row.place ≡ place) }
{
    let load = load_left(weights, &failure.down)?;
    let regret = regret_at(weights, failure)?;
    Some(Row {
        place,
        tickets: tickets_left(weights, &failure.down),
        load,
        best: failure.best,
        is_best: failure.is_best,
        times: thousandths(regret.0, regret.1),
    })
}

/// Returns what each failure leaves, the greatest regret first. A failure that leaves no ticket is not
/// there.
pub(crate) fn rows_of(
    alloc: Global,
    weights: &Weights,
    failures: &[Failure],
) -> Result<Vec<Row>, AllocError> {
    let mut rows = Vec::with_capacity(alloc, failures.len())?;
    for (place, failure) in failures.iter().enumerate() {
        if let Some(row) = row_of(weights, failure, place) {
            rows.push(row)?;
        }
    }
    rows.sort_by_key(|row| u64::MAX - row.times)?;
    Ok(rows)
}
