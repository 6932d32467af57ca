//! The search for weights whose load stays small when voters are down.
ghost use Rattle.std.specs.Prelude.{◌≡◌, ◌⊎◌, ℕ, ◌<◌, ◌≤◌, List, length, vec_len, All, IfOk, IfSome, OnOk};
ghost use Rattle.numbers.specs.Bounds.{max_cycle};
ghost use Rattle.quorum_set.specs.Capacities.{AreCapacities};
ghost use Rattle.quorum_set.specs.Coteries.{QuorumSystem};
ghost use Rattle.certificate.specs.Bounds.{IsBounded};
ghost use Rattle.certificate.specs.Certificates.{AreWeights};
ghost use Rattle.robust.specs.Robust.{AreWithin, IsPlanned, limit_above};

use crate::columns::{Column, mixed_shares};
use crate::game::play;
use crate::rows::{Cells, Rows, float_of, sum_of, units_of};
use certificate::{Weights, lowest_terms};
use failures::{coterie_without, with_voter};
use losses::{Failure, regret_bound, regret_of};
use near::{near, tickets_in, weights};
use numbers::MAX_CYCLE;
use quorum_set::{Coterie, QSet};
use std::alloc::{AllocError, Global};
use std::num::saturating_f64_to_u64;

/// How often the game is played, each time for another regret.
const GAMES: usize = 7;

/// The most steps of a game.
const MOST_STEPS: u64 = 3000;

/// The most work of a game: steps, times failures, times members of quorums. The rows of a failure cost as
/// much as so many members more.
const MOST_WORK: u64 = 1_500_000_000;

/// How many members of quorums cost as much as the rows of a failure.
const ROWS_COST: u64 = 1400;

/// How many parts are tried at most of the weights near the best that are mixed into what a game finds. The
/// more is mixed in, the smaller is the load, and the greater the regret.
const MOST_PARTS: u64 = 25;

/// The most work of what is tried after a game, for one length of a cycle: parts, times failures, times
/// voters, times quorums.
const MOST_TRIED: u64 = 50_000_000;

/// The part that is mixed in more each time.
const PART: f64 = 0.02;

/// The most voters of a coterie that is planned for without each two of them.
const MOST_PLANNED: usize = 24;

/// The most tickets of a cycle of the weights that stand for a plan where a coterie has more voters.
const QUICK_CYCLE: u64 = 300;

/// How many lengths of a cycle are tried, each a fortieth of the longest one shorter than the one before.
const LENGTHS: u64 = 8;

/// How many voters may be down at once.
#[derive(Clone, Copy, Drop, PartialEq, Eq)]
pub enum Down {
    /// One.
    One,
    /// One, or two.
    OneOrTwo,
}

/// What was found.
#[derive(Drop)]
pub struct Found {
    /// The weights.
    pub weights: Weights,
    /// How many voters may be down at once.
    pub down: Down,
    /// The voters that may be down, if a quorum is left then. As the best load without them stands the load
    /// of a plan of what is left, or, if none is found or looked for, of weights near the best.
    pub failures: Vec<Failure>,
    /// The limit of the load.
    pub limit: (u64, u64),
    /// The multipliers of the limit.
    pub multipliers: Vec<u64>,
}

/// What the games have shown so far.
#[derive(Drop)]
struct Shown {
    failures: Vec<Failure>,
    multipliers: Vec<u64>,
    /// No regret is below this.
    low: f64,
    /// Some regret is as small as this.
    high: f64,
}

/// The board of the game.
#[derive(Drop)]
struct Board {
    rows: Vec<Rows>,
    columns: Vec<Column>,
    units: Cells,
    /// How much each quorum is used by weights near the best.
    base: Vec<f64>,
    voters: usize,
    steps: u32,
}

/// Returns the load that is so many thousandths above that of the weights.
fn limit_of(weights: &Weights, thousandths: u64) -> (u64, u64)
    requires { thousandths ≤ 1000 }
    ensures { result ≡ limit_above thousandths weights.now }
{
    let load = weights.load();
    lowest_terms(load.0 * (1000 + thousandths), load.1 * 1000)
}

/// Returns a fraction in floating point.
fn quotient_of(fraction: (u64, u64)) -> f64 {
    float_of(fraction.0) / float_of(fraction.1)
}

/// Returns whether a coterie of so many voters is planned for without the voters of each failure.
fn is_planned_for(voters: usize, down: Down) -> bool {
    match down {
        Down::One => true,
        Down::OneOrTwo => voters <= MOST_PLANNED,
    }
}

/// Finds weights of what a failure leaves: those of a plan, if the coterie is planned for and one is found, and
/// else weights near the best.
fn weights_left(
    alloc: Global,
    left: &Coterie,
    capacities: &[u64],
    is_planned: bool,
) -> Result<Weights, AllocError>
    requires { AreCapacities capacities.now left.now.voters }
    ensures coterie { IfOk result (λ w. w.system ≡ left.now) }
    ensures capacities { IfOk result (λ w. w.capacities ≡ capacities.now) }
    ensures weights { IfOk result AreWeights }
    ensures bounded { IfOk result IsBounded }
{
    if is_planned {
        weights(alloc, left, capacities, MAX_CYCLE)
    } else {
        near(alloc, left, capacities, QUICK_CYCLE)
    }
}

/// Returns the failure of these voters, with the load of the weights that are found without them. Returns
/// `None` if no quorum is left.
fn failure_of(
    alloc: Global,
    coterie: &Coterie,
    capacities: &[u64],
    is_planned: bool,
    down: QSet,
) -> Result<Option<Failure>, AllocError>
    requires { AreCapacities capacities.now coterie.now.voters }
    ensures { IfOk result (λ found. IfSome found (IsPlanned coterie.now capacities.now)) }
{
    let Some(left) = coterie_without(alloc, coterie, &down)? else {
        return Ok(None);
    };
    let found = weights_left(alloc, &left, capacities, is_planned)?;
    Ok(Some(Failure {
        down,
        best: found.load(),
        is_best: found.load() == found.bound(),
        multipliers: Vec::new(alloc),
    }))
}

/// Appends the failure of these voters, unless it leaves no quorum.
fn push_failure(
    alloc: Global,
    failures: &mut Vec<Failure>,
    coterie: &Coterie,
    capacities: &[u64],
    is_planned: bool,
    down: QSet,
) -> Result<(), AllocError>
    requires { AreCapacities capacities.now coterie.now.voters }
    ensures { OnOk result (All (IsPlanned coterie.now capacities.now) failures.old.items
        → All (IsPlanned coterie.now capacities.now) failures.new.items) }
{
    if let Some(failure) = failure_of(alloc, coterie, capacities, is_planned, down)? {
        failures.push(failure)?;
    }
    Ok(())
}

/// Appends the failures of a voter and one more, for each more of a greater number.
fn push_pairs(
    alloc: Global,
    failures: &mut Vec<Failure>,
    coterie: &Coterie,
    capacities: &[u64],
    is_planned: bool,
    voter: u8,
) -> Result<(), AllocError>
    requires capacities { AreCapacities capacities.now coterie.now.voters }
    requires voter { voter < 64 }
    ensures { OnOk result (All (IsPlanned coterie.now capacities.now) failures.old.items
        → All (IsPlanned coterie.now capacities.now) failures.new.items) }
{
    let one = with_voter(&QSet::empty(), voter);
    for other in usize::from(voter) + 1..coterie.voters() {
        let down = with_voter(&one, other as u8);
        push_failure(alloc, failures, coterie, capacities, is_planned, down)?;
    }
    Ok(())
}

/// Returns the failures that leave a quorum: of each voter, and of each two if these may be down.
fn failures_of(
    alloc: Global,
    coterie: &Coterie,
    capacities: &[u64],
    down: Down,
) -> Result<Vec<Failure>, AllocError>
    requires { AreCapacities capacities.now coterie.now.voters }
    ensures { IfOk result (λ v. All (IsPlanned coterie.now capacities.now) v.items) }
{
    let is_planned = is_planned_for(coterie.voters(), down);
    let mut failures = Vec::new(alloc);
    for number in 0..coterie.voters() {
        let voter = number as u8;
        let alone = with_voter(&QSet::empty(), voter);
        push_failure(alloc, &mut failures, coterie, capacities, is_planned, alone)?;
        if down == Down::OneOrTwo {
            push_pairs(alloc, &mut failures, coterie, capacities, is_planned, voter)?;
        }
    }
    Ok(failures)
}

/// Returns the rows of the failures, and behind them those of the limit.
fn rows_of(alloc: Global, failures: &[Failure], limit: f64) -> Result<Vec<Rows>, AllocError> {
    let mut rows = Vec::new(alloc);
    for failure in failures {
        rows.push(Rows::of(failure.down.copy(), quotient_of(failure.best), false))?;
    }
    rows.push(Rows::of(QSet::empty(), limit, true))?;
    Ok(rows)
}

/// Returns the columns of the quorums.
fn columns_of(alloc: Global, coterie: &Coterie) -> Result<Vec<Column>, AllocError> {
    let mut columns = Vec::new(alloc);
    for j in 0..coterie.count() {
        columns.push(Column::of(coterie.quorum(j).copy()))?;
    }
    Ok(columns)
}

/// Returns the share that the weights give to each quorum.
fn shares_of(alloc: Global, weights: &Weights) -> Result<Vec<f64>, AllocError> {
    let cycle = float_of(weights.cycle_len());
    let mut shares = Vec::new(alloc);
    for weight in weights.quorum_weights() {
        shares.push(float_of(*weight) / cycle)?;
    }
    Ok(shares)
}

/// Returns how many members the quorums have together.
fn members_of(coterie: &Coterie) -> u64 {
    let mut members: u64 = 0;
    for j in 0..coterie.count() {
        members = members.saturating_add(coterie.quorum(j).len() as u64);
    }
    members
}

/// Returns how many steps a game has, with the rows of so many failures and so many members of quorums.
fn steps_of(failures: usize, members: u64) -> u32 {
    let work = (failures as u64).saturating_mul(members.saturating_add(ROWS_COST));
    (MOST_WORK / work.max(1)).min(MOST_STEPS) as u32
}

/// Returns the board of the failures, for weights whose load is at most so many thousandths above these.
fn board_of(
    alloc: Global,
    failures: &[Failure],
    weights: &Weights,
    thousandths: u64,
) -> Result<Board, AllocError>
    requires { thousandths ≤ 1000 }
{
    let coterie = weights.coterie();
    let limit = quotient_of(weights.load()) * float_of(1000 + thousandths) / 1000.0;
    let rows = rows_of(alloc, failures, limit)?;
    let columns = columns_of(alloc, coterie)?;
    let steps = steps_of(rows.len(), members_of(coterie));
    Ok(Board {
        rows,
        columns,
        units: units_of(weights.capacities()),
        base: shares_of(alloc, weights)?,
        voters: coterie.voters(),
        steps,
    })
}

/// Returns these numbers, times a factor, rounded down.
fn scaled(
    alloc: Global,
    numbers: &Cells,
    voters: usize,
    factor: f64,
) -> Result<Vec<u64>, AllocError> {
    let mut whole = Vec::new(alloc);
    for (voter, number) in numbers.iter().enumerate() {
        if voter < voters {
            whole.push(saturating_f64_to_u64(*number * factor))?;
        }
    }
    Ok(whole)
}

/// Returns by how much multipliers are scaled, so that those of a failure or of the limit sum to at most
/// 1,000,000.
fn scale_of(board: &Board) -> f64 {
    let mut greatest = 0.0;
    for one in board.rows.as_slice() {
        let own = sum_of(&one.multipliers(&board.units));
        if own > greatest {
            greatest = own;
        }
    }
    999_999.0 / greatest
}

/// Returns a failure with these multipliers in place of its own.
fn with_multipliers(failure: &Failure, multipliers: Vec<u64>) -> Failure
    ensures { (s : QuorumSystem) (capacities : List ℕ) → IsPlanned s capacities failure.now
        → IsPlanned s capacities result }
{
    Failure {
        down: failure.down.copy(),
        best: failure.best,
        is_best: failure.is_best,
        multipliers,
    }
}

/// Returns the multipliers that the rows at a place have, times a factor, or none if there are no such rows.
fn multipliers_at(
    alloc: Global,
    board: &Board,
    place: usize,
    scale: f64,
) -> Result<Vec<u64>, AllocError> {
    match board.rows.get(place) {
        Some(rows) => scaled(alloc, &rows.multipliers(&board.units), board.voters, scale),
        None => Ok(Vec::new(alloc)),
    }
}

/// Returns the failures with the multipliers that a game found, and those of the limit.
fn shown_by(
    alloc: Global,
    board: &Board,
    failures: &[Failure],
) -> Result<(Vec<Failure>, Vec<u64>), AllocError>
    ensures { (s : QuorumSystem) (capacities : List ℕ) → All (IsPlanned s capacities) failures.now
        → IfOk result (λ shown. All (IsPlanned s capacities) shown.0.items) }
{
    let scale = scale_of(board);
    let mut with = Vec::new(alloc);
    for (place, failure) in failures.iter().enumerate() {
        let multipliers = multipliers_at(alloc, board, place, scale)?;
        with.push(with_multipliers(failure, multipliers))?;
    }
    let limits = multipliers_at(alloc, board, failures.len(), scale)?;
    Ok((with, limits))
}

/// Returns the weights with these shares in so many whole tickets, if these are at most `most` and their load is
/// at most the limit.
fn candidate(
    alloc: Global,
    weights: &Weights,
    shares: &[f64],
    tickets: u64,
    most: u64,
    limit: (u64, u64),
) -> Result<Option<Weights>, AllocError>
    requires shares { length shares.now ≡ length weights.now.system.quorums }
    requires tickets { tickets ≤ max_cycle }
    ensures { IfOk result (λ found. IfSome found (AreWithin weights.now.system weights.now.capacities most limit)) }
{
    let tickets = tickets_in(alloc, weights.coterie(), shares, tickets)?;
    let voters = weights.voter_weights().to_vec(alloc)?;
    let Ok(found) = Weights::of(
        alloc,
        weights.coterie(),
        weights.capacities(),
        tickets,
        voters,
    ) else {
        return Ok(None);
    };
    let load = found.load();
    let is_within = u128::from(load.0) * u128::from(limit.1)
        <= u128::from(limit.0) * u128::from(load.1);
    if is_within && found.cycle_len() <= most {
        return Ok(Some(found));
    }
    Ok(None)
}

/// Returns the weights of the smaller regret.
fn better_of(first: Weights, second: Weights, failures: &[Failure]) -> Weights
    ensures { (result ≡ first) ⊎ (result ≡ second) }
{
    let Some(own) = regret_of(&second, failures) else {
        return first;
    };
    match regret_of(&first, failures) {
        Some(other) => {
            if u128::from(own.0) * u128::from(other.1) < u128::from(other.0) * u128::from(own.1) {
                second
            } else {
                first
            }
        }
        None => second,
    }
}

/// Returns these weights, or those with the shares in so many whole tickets, if their load is at most the limit
/// and their regret smaller.
fn improved(
    alloc: Global,
    weights: Weights,
    failures: &[Failure],
    shares: &[f64],
    tickets: u64,
    most: u64,
    limit: (u64, u64),
) -> Result<Weights, AllocError>
    requires shares { length shares.now ≡ length weights.system.quorums }
    requires tickets { tickets ≤ max_cycle }
    requires within { AreWithin weights.system weights.capacities most limit weights }
    ensures { IfOk result (AreWithin weights.system weights.capacities most limit) }
{
    match candidate(alloc, &weights, shares, tickets, most, limit)? {
        Some(found) => Ok(better_of(weights, found, failures)),
        None => Ok(weights),
    }
}

/// Returns these weights, or better ones with the shares, in cycles of some lengths.
fn rounded(
    alloc: Global,
    weights: Weights,
    failures: &[Failure],
    shares: &[f64],
    most: u64,
    limit: (u64, u64),
) -> Result<Weights, AllocError>
    requires most { most ≤ max_cycle }
    requires within { AreWithin weights.system weights.capacities most limit weights }
    ensures { IfOk result (AreWithin weights.system weights.capacities most limit) }
{
    let mut best = weights;
    for shorter in 0..LENGTHS {
        let tickets = most - most * shorter / 40;
        if shares.len() == best.coterie().count() {
            best = improved(alloc, best, failures, shares, tickets, most, limit)?;
        }
    }
    Ok(best)
}

/// Returns how many parts are tried for these failures.
fn parts_of(failures: &[Failure], coterie: &Coterie) -> u32 {
    let work = (failures.len() as u64)
        .saturating_mul(coterie.voters() as u64)
        .saturating_mul(coterie.count() as u64);
    (MOST_TRIED / work.max(1)).clamp(1, MOST_PARTS) as u32
}

/// Returns these weights, or better ones that the board has found.
fn mixed(
    alloc: Global,
    board: &Board,
    weights: Weights,
    failures: &[Failure],
    most: u64,
    limit: (u64, u64),
) -> Result<Weights, AllocError>
    requires most { most ≤ max_cycle }
    requires within { AreWithin weights.system weights.capacities most limit weights }
    ensures { IfOk result (AreWithin weights.system weights.capacities most limit) }
{
    let mut best = weights;
    for more in 0..parts_of(failures, best.coterie()) {
        let part = f64::from(more) * PART;
        let shares = mixed_shares(alloc, board.columns.as_slice(), &board.base, part)?;
        best = rounded(alloc, best, failures, &shares, most, limit)?;
    }
    Ok(best)
}

/// Returns the regret that the next game is played for: a quarter of the way from the smallest that may be
/// possible to one that is. None is below 1.
fn next_regret(low: f64, high: f64) -> f64 {
    let least = if low < 1.0 { 1.0 } else { low };
    let way = if high < 2.0 * least {
        high - least
    } else {
        least
    };
    least + way / 4.0
}

/// Notes the regret of the weights, and the bound that the board shows, if it is better.
fn note(
    alloc: Global,
    shown: &mut Shown,
    board: &Board,
    weights: &Weights,
    limit: (u64, u64),
) -> Result<(), AllocError>
    ensures { (s : QuorumSystem) (capacities : List ℕ) → All (IsPlanned s capacities) shown.old.failures.items
        → OnOk result (All (IsPlanned s capacities) shown.new.failures.items) }
{
    if let Some(regret) = regret_of(weights, &shown.failures) {
        shown.high = quotient_of(regret);
    }
    let (failures, multipliers) = shown_by(alloc, board, &shown.failures)?;
    let Some(bound) = regret_bound(weights, limit, &multipliers, &failures) else {
        return Ok(());
    };
    let low = float_of(bound.min(1_000_000_000) as u64) / 1_000_000.0;
    if low > shown.low {
        shown.low = low;
        shown.failures = failures;
        shown.multipliers = multipliers;
    }
    Ok(())
}

/// Finds weights whose load stays small when one voter is down, or when one or two are: those with the smallest
/// *regret* of what is tried. That is the load of the tickets that are left, divided by the best load without
/// the voters that are down, for the loss of which this is greatest. There has to be a capacity for each voter,
/// 1 to 1000. `most` has to be 1 to 1,000,000, and `above` at most 1000.
///
/// A cycle has at most `most` tickets. The load is at most `above` thousandths above that of the weights that
/// `near` finds. The coterie is planned for without the voters of each loss. Of 64 voters 2080 losses are of
/// one or two. So if two of more than 24 may be down, no plans are looked for, but weights near the best with
/// cycles of at most 300 tickets. Fails only if it runs out of memory.
pub fn weights_for_losses(
    alloc: Global,
    coterie: &Coterie,
    capacities: &[u64],
    most: u64,
    above: u64,
    down: Down,
) -> Result<Found, AllocError>
    requires capacities { AreCapacities capacities.now coterie.now.voters }
    requires most { (0 < most) × (most ≤ max_cycle) }
    requires above { above ≤ 1000 }
    ensures within { IfOk result (λ found. AreWithin coterie.now capacities.now most found.limit found.weights) }
    // The best loads are those of weights, and the smallest ones where this is said.
    ensures planned { IfOk result (λ found. All (IsPlanned coterie.now capacities.now) found.failures.items) }
{
    let mut weights = near(alloc, coterie, capacities, most)?;
    let limit = limit_of(&weights, above);
    let failures = failures_of(alloc, coterie, capacities, down)?;
    let mut board = board_of(alloc, &failures, &weights, above)?;
    let mut shown = Shown {
        failures,
        multipliers: Vec::new(alloc),
        low: 0.0,
        high: f64::INFINITY,
    };
    for _ in 0..GAMES {
        let wanted = next_regret(shown.low, shown.high);
        play(
            &mut board.rows,
            &mut board.columns,
            &board.units,
            board.voters,
            wanted,
            board.steps,
        );
        weights = mixed(alloc, &board, weights, &shown.failures, most, limit)?;
        note(alloc, &mut shown, &board, &weights, limit)?;
    }
    Ok(Found {
        weights,
        down,
        failures: shown.failures,
        limit,
        multipliers: shown.multipliers,
    })
}
