//! A plan, or other weights, as JSON.
ghost use Rattle.std.specs.Prelude.{◌≡◌, codes, slice_index_or};

use crate::dealt::tickets_of;
use crate::parts::{Fraction, Quorum, Ticket, Voter, fraction_of, line_of, quorum_names};
use certificate::Weights;
use coterie_file::Named;
use serde::Serialize;
use show_figures::{VoterFigure, evenly_dealt, name_of, quorum_figures, voter_figures};
use std::alloc::{AllocError, Global};

/// The sums by which the voters' weights show that no weights have a load below the bound.
#[derive(Drop, Serialize)]
struct Certificate {
    /// What the members of a quorum weigh at least.
    lightest_quorum: u64,
    /// The sum of the voters' weights, each times the voter's capacity.
    weight_total: u64,
}

/// A plan, or other weights.
#[derive(Drop, Serialize)]
struct WeightsPage<'a> {
    load: Fraction,
    /// No weights have a load below this.
    bound: Fraction,
    /// How many requests a cycle has.
    cycle: u64,
    /// How often a cycle uses the voter that is busiest for its capacity, divided by this capacity.
    busiest: Fraction,
    quorums: Vec<Quorum<'a>>,
    voters: Vec<Voter<'a>>,
    certificate: Certificate,
}

/// Weights that were found, and tickets that are dealt by them.
#[derive(Drop, Serialize)]
struct FoundPage<'a> {
    #[serde(flatten)]
    weights: WeightsPage<'a>,
    /// The first tickets that are dealt by these weights, or null if none were asked for.
    tickets: Option<Vec<Ticket<'a>>>,
}

/// Returns the quorums that a cycle uses, the most used first.
fn quorums_of<'a>(
    alloc: Global,
    named: &'a Named,
    weights: &Weights,
) -> Result<Vec<Quorum<'a>>, AllocError> {
    let mut quorums = Vec::new(alloc);
    for figure in &quorum_figures(alloc, weights)? {
        quorums.push(Quorum {
            number: figure.quorum,
            weight: figure.weight,
            voters: quorum_names(alloc, named, figure.quorum)?,
        })?;
    }
    Ok(quorums)
}

/// Returns a voter: its name, its capacity, how often a cycle uses it, and its weight.
fn voter_of<'a>(named: &'a Named, figure: VoterFigure) -> Voter<'a>
    ensures name { result.name.now ≡ slice_index_or named.now.names figure.voter (codes "?") }
    ensures capacity { result.capacity ≡ figure.capacity }
    ensures count { result.count ≡ figure.count }
    ensures weight { result.weight ≡ figure.weight }
{
    Voter {
        name: name_of(named, figure.voter),
        capacity: figure.capacity,
        count: figure.count,
        weight: figure.weight,
    }
}

/// Returns the voters, in the order of their numbers.
fn voters_of<'a>(
    alloc: Global,
    named: &'a Named,
    weights: &Weights,
) -> Result<Vec<Voter<'a>>, AllocError> {
    let mut voters = Vec::new(alloc);
    for figure in &voter_figures(alloc, weights)? {
        voters.push(voter_of(named, *figure))?;
    }
    Ok(voters)
}

/// Returns a plan, or other weights: their load and its bound, their cycle, the quorums that a cycle uses,
/// the voters, and the sums by which the load is bounded.
fn page_of<'a>(
    alloc: Global,
    named: &'a Named,
    weights: &Weights,
) -> Result<WeightsPage<'a>, AllocError> {
    Ok(WeightsPage {
        load: fraction_of(weights.load()),
        bound: fraction_of(weights.bound()),
        cycle: weights.cycle_len(),
        busiest: fraction_of(weights.ratio()),
        quorums: quorums_of(alloc, named, weights)?,
        voters: voters_of(alloc, named, weights)?,
        certificate: Certificate {
            lightest_quorum: weights.lightest_quorum(),
            weight_total: weights.capacity_total(),
        },
    })
}

/// Returns a plan, or other weights, as one line of JSON: their load and its bound, their cycle, the
/// quorums that a cycle uses, the voters, and the sums by which the load is bounded. They are of the named
/// coterie. Fails only if it runs out of memory.
pub fn weights_json(alloc: Global, named: &Named, weights: &Weights) -> Result<String, AllocError> {
    let page = page_of(alloc, named, weights)?;
    line_of(alloc, &page)
}

/// Returns the first `count` tickets of the even order of weights, if any are asked for.
fn dealt_by<'a>(
    alloc: Global,
    named: &'a Named,
    weights: &Weights,
    count: Option<u64>,
) -> Result<Option<Vec<Ticket<'a>>>, AllocError> {
    match count {
        Some(count) => {
            let dealt = evenly_dealt(alloc, weights.copy(alloc)?, count)?;
            Ok(Some(tickets_of(alloc, named, &dealt.receipts)?))
        }
        None => Ok(None),
    }
}

/// Returns the same of weights that were found, and so many tickets that are dealt by them, if any are
/// asked for. Fails only if it runs out of memory.
pub fn found_json(
    alloc: Global,
    named: &Named,
    weights: &Weights,
    tickets: Option<u64>,
) -> Result<String, AllocError> {
    let page = FoundPage {
        weights: page_of(alloc, named, weights)?,
        tickets: dealt_by(alloc, named, weights, tickets)?,
    };
    line_of(alloc, &page)
}
