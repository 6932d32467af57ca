//! Candidates, and the method that finds them.
ghost use Rattle.std.specs.Prelude.{◌≡◌, ℕ, ◌+◌, ◌<◌, ◌≤◌, ◌^◌, length, vec_len, IfOk, IfErr};
ghost use Rattle.quorum_set.specs.Capacities.{AreCapacities};
ghost use Rattle.simplex.specs.Pivots.{NamesAtMost};

use crate::choice::{first_entering, greatest_entering};
use crate::fault::SimplexFault;
use crate::method::Method;
use fraction::FracFault;
use quorum_set::Coterie;
use std::alloc::Global;

/// Weights that may be a certificate of the load of a coterie and its voters' capacities.
#[derive(Drop)]
pub struct Candidate {
    /// A weight for each quorum.
    pub quorum_weights: Vec<u64>,
    /// A weight for each voter.
    pub voter_weights: Vec<u64>,
    /// How many pivots were made.
    pub pivots: u32,
}

/// What happened at one step.
#[derive(Clone, Copy)]
enum Step {
    /// No column improves the solution.
    Best,
    /// No row limits the column.
    NoRow,
    /// A pivot left the solution as it was.
    Stalled,
    /// A pivot improved the solution.
    Improved,
}

/// Returns `Overflow` with the number of pivots that were made.
fn overflow(method: &Method) -> SimplexFault
    ensures value { result ≡ SimplexFault.Overflow method.now.made }
    ensures named { (most : ℕ) → method.now.made ≤ most → NamesAtMost most result }
{
    SimplexFault::Overflow {
        pivots: method.made(),
    }
}

/// Makes one pivot if one is needed: by Dantzig's rule, or by Bland's rule after 2n pivots in a row
/// that stalled, for n voters.
fn make_step(method: &mut Method, stalled: usize) -> Result<Step, FracFault>
    requires { method.old.made + 1 < 2 ^ 32 }
    ensures coterie { method.new.coterie ≡ method.old.coterie }
    ensures made { method.new.made ≤ method.old.made + 1 }
{
    let entering = if stalled < 2 * method.tableau().voters() {
        greatest_entering(method)?
    } else {
        first_entering(method)?
    };
    let Some(column) = entering else {
        return Ok(Step::Best);
    };
    method.enter(column)?;
    let Some(exit) = method.leaving()? else {
        return Ok(Step::NoRow);
    };
    method.pivot(exit.row, column)?;
    Ok(if exit.right == 0 {
        Step::Stalled
    } else {
        Step::Improved
    })
}

/// Pivots until no column improves the solution.
fn improve(method: &mut Method, pivots: u32) -> Result<(), SimplexFault>
    requires { method.old.made ≡ 0 }
    ensures coterie { method.new.coterie ≡ method.old.coterie }
    ensures limit { method.new.made ≤ pivots }
    ensures refused { IfErr result (NamesAtMost pivots) }
{
    let mut stalled = 0usize;
    for step in 0..pivots {
        match make_step(method, stalled) {
            Ok(Step::Best) => return Ok(()),
            Ok(Step::NoRow) => return Err(SimplexFault::NoRow),
            Ok(Step::Stalled) => stalled = stalled.saturating_add(1),
            Ok(Step::Improved) => stalled = 0,
            Err(_) => return Err(overflow(method)),
        }
    }
    match first_entering(method) {
        Ok(None) => Ok(()),
        Ok(Some(_)) => Err(SimplexFault::PivotLimit),
        Err(_) => Err(overflow(method)),
    }
}

/// Returns an entry of the tableau as a weight, in the unit that all entries share, or `None` if it
/// is negative or does not fit into 64 bits.
fn weight_of(number: i128) -> Option<u64> {
    u64::try_from(number).ok()
}

/// Returns the quorums' weights: the right side of the row that is solved for a quorum, or 0 if
/// there is none.
fn quorum_weights(alloc: Global, method: &Method, quorums: usize) -> Result<Vec<u64>, SimplexFault>
    ensures length { IfOk result (λ v. vec_len v ≡ quorums) }
    ensures refused { IfErr result (NamesAtMost method.now.made) }
{
    let mut weights = vec![in alloc; 0u64; quorums]?;
    for row in 0..method.tableau().voters() {
        let column = method.basis(row);
        if column < weights.len() {
            let Some(weight) = weight_of(method.tableau().right_side(row)) else {
                return Err(overflow(method));
            };
            weights[column] = weight;
        }
    }
    Ok(weights)
}

/// Returns the voters' weights: the slacks' prices, negated.
fn voter_weights(alloc: Global, method: &Method) -> Result<Vec<u64>, SimplexFault>
    ensures length { IfOk result (λ v. vec_len v ≡ method.now.coterie.now.voters) }
    ensures refused { IfErr result (NamesAtMost method.now.made) }
{
    let mut weights = Vec::with_capacity(alloc, method.tableau().voters())?;
    for voter in 0..method.tableau().voters() {
        let Some(weight) = weight_of(method.tableau().slack_price(voter).saturating_neg()) else {
            return Err(overflow(method));
        };
        weights.push(weight)?;
    }
    Ok(weights)
}

/// Returns a candidate that Dantzig's rule finds with at most `pivots` pivots: one number for each
/// quorum and one for each voter. There has to be a capacity for each voter, 1 to 1000. After 2n
/// pivots in a row that left the solution as it was, for n voters, Bland's rule chooses until a pivot
/// improves the solution.
///
/// Fails with `Overflow` if a number does not fit, with `PivotLimit` if more pivots are needed,
/// with `NoRow` if no row limits a column, and with `OutOfMemory`. The number of pivots in
/// `Overflow` is at most `pivots` too.
pub fn solve(
    alloc: Global,
    coterie: &Coterie,
    capacities: &[u64],
    pivots: u32,
) -> Result<Candidate, SimplexFault>
    requires capacities { AreCapacities capacities.now coterie.now.voters }
    ensures quorums { IfOk result (λ c. vec_len c.quorum_weights ≡ length coterie.now.quorums) }
    ensures voters { IfOk result (λ c. vec_len c.voter_weights ≡ coterie.now.voters) }
    ensures limit { IfOk result (λ c. c.pivots ≤ pivots) }
    ensures refused { IfErr result (NamesAtMost pivots) }
{
    let mut method = Method::of(alloc, coterie, capacities)?;
    improve(&mut method, pivots)?;
    let quorum_weights = quorum_weights(alloc, &method, coterie.count())?;
    let voter_weights = voter_weights(alloc, &method)?;
    let made = method.made();
    Ok(Candidate {
        quorum_weights,
        voter_weights,
        pivots: made,
    })
}
