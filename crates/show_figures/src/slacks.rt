//! The slack of weights.
ghost use Rattle.std.specs.Prelude.{IfOk};
ghost use Rattle.show_figures.specs.Slacks.{IsEvenSlack};

use certificate::Weights;
use even::{EvenCycle, Slack};
use std::alloc::{AllocError, Global};

/// Returns the slack of the even order of weights. Fails only if it runs out of memory.
pub fn slack_of(alloc: Global, weights: &Weights) -> Result<Slack, AllocError>
    ensures { IfOk result (IsEvenSlack weights.now) }
{
    let copied = weights.copy(alloc)?;
    let cycle = EvenCycle::of(alloc, copied)?;
    Ok(cycle.slack())
}
