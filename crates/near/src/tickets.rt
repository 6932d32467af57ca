//! Whole numbers of tickets in proportion to shares, by largest remainders.
ghost use Rattle.std.specs.Prelude.{◌≡◌, ◌<◌, ◌≤◌, length, vec_len, IfOk, IfSome};
ghost use Rattle.numbers.specs.Bounds.{max_cycle};

use crate::shares::total_of;
use numbers::{MAX_CAPACITY, MAX_CYCLE};
use quorum_set::{Coterie, QSet};
use std::alloc::{AllocError, Global};
use std::num::saturating_f64_to_u64;

/// Up to this length of a cycle each length is tried.
const ALL_TRIED: u64 = 2000;

/// How many of the shortest cycles are tried if the longest is longer than that.
const SHORTEST_TRIED: u64 = 1000;

/// How many of the longest cycles are tried then.
const LONGEST_TRIED: u64 = 400;

/// A quorum that is used.
#[derive(Clone, Copy, Drop)]
struct Used {
    number: usize,
    members: QSet,
    share: f64,
    /// How many tickets of a cycle stand for it.
    tickets: u64,
    /// The part of a ticket that it got too little.
    rest: f64,
}

/// Returns the quorums with a share above 0.
fn used_of(alloc: Global, coterie: &Coterie, shares: &[f64]) -> Result<Vec<Used>, AllocError>
    requires { length shares.now ≡ length coterie.now.quorums }
{
    let mut used = Vec::new(alloc);
    for (number, share) in shares.iter().enumerate() {
        if *share > 0.0 {
            used.push(Used {
                number,
                members: coterie.quorum(number).copy(),
                share: *share,
                tickets: 0,
                rest: 0.0,
            })?;
        }
    }
    Ok(used)
}

/// Gives each quorum the whole part of its share of the tickets. Returns how many are left.
fn give_whole_parts(used: &mut [Used], total: f64, tickets: u64) -> u64
    requires { tickets ≤ max_cycle }
{
    let scale = f64::from(tickets as u32) / total;
    let mut left = tickets;
    for one in used.iter_mut() {
        let wanted = one.share * scale;
        let whole = saturating_f64_to_u64(wanted).min(left);
        one.tickets = whole;
        one.rest = wanted - f64::from(whole.min(MAX_CYCLE) as u32);
        left = left.saturating_sub(whole);
    }
    left
}

/// Returns the quorum that got too little by the greatest part of a ticket.
fn neediest(used: &[Used]) -> Option<usize>
    ensures { IfSome result (λ place. place < length used.now) }
{
    let mut best = None;
    let mut most = 0.0;
    for (place, one) in used.iter().enumerate() {
        if best.is_none() || one.rest > most {
            best = Some(place);
            most = one.rest;
        }
    }
    best
}

/// Gives the tickets to the quorums by largest remainders: first the whole part of its share to
/// each, and then the tickets that are left to those with the greatest rests.
fn give(used: &mut [Used], total: f64, tickets: u64)
    requires { tickets ≤ max_cycle }
{
    let left = give_whole_parts(used, total, tickets);
    for _ in 0..left {
        let Some(place) = neediest(used) else {
            return;
        };
        used[place].tickets = used[place].tickets.saturating_add(1);
        used[place].rest -= 1.0;
    }
}

/// Returns how many tickets stand for a quorum with the voter.
fn count_of(used: &[Used], voter: u8) -> u64 {
    let mut count = 0u64;
    for one in used {
        if one.members.has(voter) {
            count = count.saturating_add(one.tickets);
        }
    }
    count
}

/// Returns a small whole number as one in floating point.
fn float_of(number: u64) -> f64 {
    f64::from(number.min(MAX_CYCLE) as u32)
}

/// Returns the load of a cycle of this length.
fn load_of(used: &[Used], capacities: &[u64], tickets: u64) -> f64 {
    let mut load = 0.0;
    for (voter, capacity) in capacities.iter().enumerate() {
        let count = count_of(used, voter.min(63) as u8);
        let own = float_of(count) / (float_of((*capacity).min(MAX_CAPACITY)) * float_of(tickets));
        if own > load {
            load = own;
        }
    }
    load
}

/// Returns whether cycles of this length are tried.
fn is_tried(tickets: u64, most: u64) -> bool {
    most <= ALL_TRIED || tickets <= SHORTEST_TRIED || tickets > most.saturating_sub(LONGEST_TRIED)
}

/// Returns the length of the shortest cycle with the smallest load among those that are tried.
fn best_length(used: &mut [Used], total: f64, capacities: &[u64], most: u64) -> u64
    requires { most ≤ max_cycle }
    ensures { result ≤ most }
{
    let mut best = most;
    let mut least = f64::INFINITY;
    for before in 0..most {
        let tickets = before + 1;
        if is_tried(tickets, most) {
            give(used, total, tickets);
            let load = load_of(used, capacities, tickets);
            if load < least {
                least = load;
                best = tickets;
            }
        }
    }
    best
}

/// Returns how many tickets stand for each of so many quorums.
fn laid_out(alloc: Global, used: &[Used], quorums: usize) -> Result<Vec<u64>, AllocError>
    ensures { IfOk result (λ v. vec_len v ≡ quorums) }
{
    let mut tickets = vec![in alloc; 0u64; quorums]?;
    for one in used {
        if one.number < tickets.len() {
            tickets[one.number] = one.tickets;
        }
    }
    Ok(tickets)
}

/// Returns how many of so many tickets stand for each quorum, in proportion to the shares, by largest
/// remainders. There has to be a share for each quorum, and at most 1,000,000 tickets.
pub fn tickets_in(
    alloc: Global,
    coterie: &Coterie,
    shares: &[f64],
    tickets: u64,
) -> Result<Vec<u64>, AllocError>
    requires shares { length shares.now ≡ length coterie.now.quorums }
    requires tickets { tickets ≤ max_cycle }
    ensures { IfOk result (λ v. vec_len v ≡ length coterie.now.quorums) }
{
    let mut used = used_of(alloc, coterie, shares)?;
    give(&mut used, total_of(shares), tickets);
    laid_out(alloc, &used, coterie.count())
}

/// Returns how many tickets of a cycle stand for each quorum, in proportion to the shares. The cycle has
/// at most `most` tickets. Of the lengths that are tried it has the one with the smallest load.
pub(crate) fn tickets_of(
    alloc: Global,
    coterie: &Coterie,
    capacities: &[u64],
    shares: &[f64],
    most: u64,
) -> Result<Vec<u64>, AllocError>
    requires shares { length shares.now ≡ length coterie.now.quorums }
    requires most { most ≤ max_cycle }
    ensures { IfOk result (λ v. vec_len v ≡ length coterie.now.quorums) }
{
    let total = total_of(shares);
    let mut used = used_of(alloc, coterie, shares)?;
    let best = best_length(&mut used, total, capacities, most);
    give(&mut used, total, best);
    laid_out(alloc, &used, coterie.count())
}
