//! Dealt tickets as JSON.
ghost use Rattle.std.specs.Prelude.{◌≤◌};
ghost use Rattle.numbers.specs.Bounds.{max_dealt};

use crate::parts::{Fraction, Ticket, fraction_of, line_of, ticket_of};
use certificate::lowest_terms;
use coterie_file::Named;
use dealer::{Account, Receipt};
use even::Slack;
use plan_inputs::Weighed;
use serde::Serialize;
use show_figures::{Dealt, Evenness, dealt_tickets};
use std::alloc::{AllocError, Global};

/// How often the tickets use a voter.
#[derive(Drop, Serialize)]
struct Count<'a> {
    name: &'a str,
    count: u64,
}

/// How even the even order is.
#[derive(Drop, Serialize)]
struct EvenPart {
    /// How much further each ticket goes in the ring of the cycle's tickets.
    stride: u64,
    /// Any n tickets in a row use each voter at most n times the load plus this, times its capacity.
    slack: Fraction,
}

/// Dealt tickets.
#[derive(Drop, Serialize)]
struct DealPage<'a> {
    /// The load of the weights that they are dealt by.
    load: Fraction,
    /// No weights have a load below this.
    bound: Fraction,
    tickets: Vec<Ticket<'a>>,
    counts: Vec<Count<'a>>,
    /// How often the tickets use the voter that is busiest for its capacity, divided by this capacity.
    busiest: Fraction,
    /// What there is to say of the even order, or null if the tickets are dealt by rounds.
    even: Option<EvenPart>,
}

/// Returns the tickets of these receipts.
pub(crate) fn tickets_of<'a>(
    alloc: Global,
    named: &'a Named,
    receipts: &[Receipt],
) -> Result<Vec<Ticket<'a>>, AllocError> {
    let mut tickets = Vec::with_capacity(alloc, receipts.len())?;
    for receipt in receipts {
        tickets.push(ticket_of(alloc, named, receipt.ticket, receipt.quorum)?)?;
    }
    Ok(tickets)
}

/// Returns how often an account uses each voter.
fn counts_of<'a>(
    alloc: Global,
    named: &'a Named,
    account: &Account,
) -> Result<Vec<Count<'a>>, AllocError> {
    let mut counts = Vec::new(alloc);
    for (voter, count) in account.voters.as_slice().iter().enumerate() {
        if voter < named.coterie().voters() {
            counts.push(Count {
                name: named.name(voter),
                count: *count,
            })?;
        }
    }
    Ok(counts)
}

/// Returns how even the even order is. The slack is in lowest terms.
fn even_part(evenness: Evenness) -> EvenPart {
    let Slack { excess, unit } = evenness.slack;
    EvenPart {
        stride: evenness.stride,
        slack: fraction_of(lowest_terms(excess, unit)),
    }
}

/// Returns the tickets below `count`, dealt in the even order, or by rounds if the weights are a plan and
/// this order is not asked for, as one line of JSON: the load and its bound, for each ticket its quorum and
/// the voters to ask, then how often they use each voter, and in the even order its stride and its slack.
/// Fails only if it runs out of memory.
pub fn deal_json(
    alloc: Global,
    weighed: Weighed,
    count: u64,
    is_even: bool,
) -> Result<String, AllocError>
    requires count { count ≤ max_dealt }
{
    let Weighed { named, weights } = weighed;
    let (load, bound) = (weights.load(), weights.bound());
    let Dealt {
        account,
        receipts,
        evenness,
    } = dealt_tickets(alloc, weights, count, is_even)?;
    let page = DealPage {
        load: fraction_of(load),
        bound: fraction_of(bound),
        tickets: tickets_of(alloc, &named, &receipts)?,
        counts: counts_of(alloc, &named, &account)?,
        busiest: fraction_of(account.ratio),
        even: evenness.map(even_part),
    };
    line_of(alloc, &page)
}
