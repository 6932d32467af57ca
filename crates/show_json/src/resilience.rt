//! What a coterie bears, as JSON.

use crate::parts::{line_of, names_of};
use certificate::Weights;
use coterie_file::Named;
use failures::bears;
use quorum_set::{Coterie, QSet};
use serde::Serialize;
use show_failures::{groups_of, resilience_of, used_coterie};
use std::alloc::{AllocError, Global};

/// A group of voters.
#[derive(Drop, Serialize)]
struct Group<'a> {
    voters: Vec<&'a str>,
    /// Whether some quorum is left when all of them fail.
    may_fail: bool,
}

/// What the quorums bear that a cycle uses.
#[derive(Drop, Serialize)]
struct Borne<'a> {
    /// How many quorums there are.
    quorums: usize,
    /// How many voters may fail, whichever they are.
    failures_borne: usize,
    /// Whether this is exact. Otherwise it is at most this number.
    is_exact: bool,
    /// Voters without which no quorum is left.
    blocking: Vec<&'a str>,
    groups: Vec<Group<'a>>,
}

/// What a coterie bears, and what the quorums bear that a plan, or other weights, use if there are any.
#[derive(Drop, Serialize)]
struct ResiliencePage<'a> {
    quorums: usize,
    failures_borne: usize,
    is_exact: bool,
    blocking: Vec<&'a str>,
    groups: Vec<Group<'a>>,
    #[serde(skip_serializing_if = "Option::is_none")]
    plan: Option<Borne<'a>>,
}

/// Returns for each of these groups whether some quorum is left when all of it fails.
fn groups_in<'a>(
    alloc: Global,
    named: &'a Named,
    coterie: &Coterie,
    groups: &[QSet],
) -> Result<Vec<Group<'a>>, AllocError> {
    let mut all = Vec::with_capacity(alloc, groups.len())?;
    for group in groups {
        all.push(Group {
            voters: names_of(alloc, named, group)?,
            may_fail: bears(coterie, group),
        })?;
    }
    Ok(all)
}

/// Returns what the quorums of a coterie bear, over the named voters.
fn borne_by<'a>(
    alloc: Global,
    named: &'a Named,
    coterie: &Coterie,
) -> Result<Borne<'a>, AllocError> {
    let found = resilience_of(coterie);
    let groups = groups_of(alloc, named)?;
    Ok(Borne {
        quorums: coterie.count(),
        failures_borne: found.borne,
        is_exact: found.is_smallest,
        blocking: names_of(alloc, named, &found.blocking)?,
        groups: groups_in(alloc, named, coterie, &groups)?,
    })
}

/// Returns what the quorums bear that a plan, or other weights, use if there are any.
fn borne_by_used<'a>(
    alloc: Global,
    named: &'a Named,
    weights: Option<&Weights>,
) -> Result<Option<Borne<'a>>, AllocError> {
    match weights {
        Some(weights) => {
            let used = used_coterie(alloc, weights)?;
            Ok(Some(borne_by(alloc, named, &used)?))
        }
        None => Ok(None),
    }
}

/// Returns as one line of JSON how many voters of a coterie may fail, voters without which no quorum
/// is left, and for each group of voters whether all of it may fail. With a plan or other weights of the
/// coterie `plan` has the same of their own quorums, those of positive weight. Fails only if it runs out of
/// memory.
pub fn resilience_json(
    alloc: Global,
    named: &Named,
    weights: Option<&Weights>,
) -> Result<String, AllocError> {
    let Borne {
        quorums,
        failures_borne,
        is_exact,
        blocking,
        groups,
    } = borne_by(alloc, named, named.coterie())?;
    let page = ResiliencePage {
        quorums,
        failures_borne,
        is_exact,
        blocking,
        groups,
        plan: borne_by_used(alloc, named, weights)?,
    };
    line_of(alloc, &page)
}
