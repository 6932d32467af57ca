//! The voters to ask for each ticket, and nothing else: for scripts.
ghost use Rattle.std.specs.Prelude.{◌≤◌};
ghost use Rattle.numbers.specs.Bounds.{max_dealt};

use crate::names::push_quorum_members;
use commands::Weighed;
use show_figures::dealt_tickets;
use std::alloc::{AllocError, Global};

/// Returns a line for each ticket below `count`, dealt in the even order, or by rounds if the weights are a
/// plan and this order is not asked for: the names of the voters to ask, with spaces between them, and
/// nothing else. Fails only if it runs out of memory.
pub fn names_page(
    alloc: Global,
    weighed: Weighed,
    count: u64,
    is_even: bool,
) -> Result<String, AllocError>
    requires count { count ≤ max_dealt }
{
    let Weighed { named, weights } = weighed;
    let dealt = dealt_tickets(alloc, weights, count, is_even)?;
    let mut text = String::new(alloc);
    for receipt in &dealt.receipts {
        push_quorum_members(&mut text, &named, receipt.quorum)?;
        text.push('\n')?;
    }
    Ok(text)
}
