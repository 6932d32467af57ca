//! Tickets that are dealt, in one of the two orders, and their account.
ghost use Rattle.std.specs.Prelude.{◌≡◌, ◌≤◌, false, true, length, map, IfOk};
ghost use Rattle.std.specs.List.{range_with_len};
ghost use Rattle.numbers.specs.Bounds.{max_dealt};
ghost use Rattle.certificate.specs.Certificates.{IsCertificate};
ghost use Rattle.show_figures.specs.Deals.{IsEvenDeal, IsRoundsDeal, even_receipt};

use crate::even_order::account_below;
use certificate::{Plan, Weights};
use commands::dealt;
use dealer::{Account, Receipt};
use even::{EvenCycle, Slack};
use std::alloc::{AllocError, Global};

/// How the even order goes round a cycle, and how even it is.
#[derive(Clone, Copy, Debug)]
pub struct Evenness {
    /// How much further each ticket goes in the ring of the cycle's tickets.
    pub stride: u64,
    /// How far tickets in a row are from the load.
    pub slack: Slack,
}

/// Dealt tickets.
#[derive(Drop)]
pub struct Dealt {
    /// How often they use each voter. In the even order the counts of the quorums are left out.
    pub account: Account,
    /// The tickets, in order.
    pub receipts: Vec<Receipt>,
    /// What there is to say of the even order, if it is the one.
    pub evenness: Option<Evenness>,
}

/// Returns the receipts of the tickets below `count`, dealt in the even order.
fn receipts_of(alloc: Global, cycle: &EvenCycle, count: u64) -> Result<Vec<Receipt>, AllocError>
    ensures { IfOk result (λ v. v.items ≡ map (even_receipt cycle.now) (range_with_len 0 count)) }
{
    let mut receipts = Vec::new(alloc);
    for ticket in 0..count {
        let quorum = cycle.quorum_at(ticket);
        receipts.push(Receipt { ticket, quorum })?;
    }
    Ok(receipts)
}

/// Deals the tickets below `count` in the even order of weights. Fails only if it runs out of memory.
pub fn evenly_dealt(alloc: Global, weights: Weights, count: u64) -> Result<Dealt, AllocError>
    ensures dealt { IfOk result (IsEvenDeal weights count) }
    ensures one_each { IfOk result (λ d. length d.account.voters ≡ weights.system.voters) }
{
    let cycle = EvenCycle::of(alloc, weights)?;
    let account = account_below(alloc, &cycle, count)?;
    let receipts = receipts_of(alloc, &cycle, count)?;
    let stride = cycle.stride();
    let slack = cycle.slack();
    Ok(Dealt {
        account,
        receipts,
        evenness: Some(Evenness { stride, slack }),
    })
}

/// Deals the tickets below `count` by rounds.
fn dealt_by_rounds(alloc: Global, plan: Plan, count: u64) -> Result<Dealt, AllocError>
    requires count { count ≤ max_dealt }
    ensures dealt { IfOk result (IsRoundsDeal plan count) }
    ensures one_each { IfOk result (λ d. length d.account.voters ≡ plan.system.voters) }
{
    let (account, receipts) = dealt(alloc, plan, count)?;
    Ok(Dealt {
        account,
        receipts,
        evenness: None,
    })
}

/// Deals the tickets below `count`, 100,000 at most: in the even order, or by rounds if the weights are a
/// plan and this order is not asked for. Fails only if it runs out of memory.
pub fn dealt_tickets(
    alloc: Global,
    weights: Weights,
    count: u64,
    is_even: bool,
) -> Result<Dealt, AllocError>
    requires count { count ≤ max_dealt }
    ensures even { IfOk result (λ d. is_even ≡ true → IsEvenDeal weights count d) }
    ensures rounds { IfOk result (λ d. is_even ≡ false → IsCertificate weights → IsRoundsDeal weights count d) }
    ensures near { IfOk result (λ d. ¬ IsCertificate weights → IsEvenDeal weights count d) }
    ensures one_each { IfOk result (λ d. length d.account.voters ≡ weights.system.voters) }
{
    if is_even {
        return evenly_dealt(alloc, weights, count);
    }
    match weights.into_plan() {
        Ok(plan) => dealt_by_rounds(alloc, plan, count),
        Err(weights) => evenly_dealt(alloc, weights, count),
    }
}
