//! Reading the texts of plans and of weights.
ghost use Rattle.std.specs.Prelude.{◌≡◌, ◌≤◌, ◌==◌, ◌⊎◌, false, IfOk, option_map};
ghost use Rattle.std.specs.List.{slice_split};
ghost use Rattle.quorum_set.specs.Capacities.{AreCapacities};
ghost use Rattle.certificate.specs.Certificates.{Weighted, AreWeights, IsCertificate, IsOptimal};
ghost use Rattle.plan_texts.specs.PlanTexts.{plan_text, weights_text, number_of, numbers_of, after_prefix, are_given, are_in_range, have_a_line, begins_as_weights, bound_at, capacities_at, cycle_place, load_digits, read_title, read_pair, read_ratio, read_cycle, read_capacities, read_numbers, line_at, contents_at, head_fault, plan_at, weights_at, behind_cycle, Answers, Gives, UnlessOutOfMemory, RefusesAs};
ghost use Rattle.plan_texts.specs.ReadLines.{contents_read};

use certificate::{Plan, PlanFault, Weights, check};
use numbers::MAX_CAPACITY;
use quorum_set::{Coterie, are_unit};
use std::alloc::{AllocError, Global};
use texts::cut_at;

/// The most digits of a number, except in most ratios.
const DIGITS: u32 = 7;

/// The most digits of a number in a bound, and in most loads.
const RATIO_DIGITS: u32 = 10;

/// The values in the lines of a text, before they are checked.
#[derive(Drop)]
struct Lines {
    load: (u64, u64),
    /// `None` in a plan's text.
    bound: Option<(u64, u64)>,
    cycle: u64,
    /// `None` in a text of version 1.
    capacities: Option<Vec<u64>>,
    quorum_weights: Vec<u64>,
    voter_weights: Vec<u64>,
}

/// Returns the number that the bytes are, or `None` if they are not a number of at most this many
/// digits. Numbers of 19 digits are below 2^64.
fn number(bytes: &[u8], digits: u32) -> Option<u64>
    requires few { digits ≤ 19 }
    ensures { result ≡ number_of digits bytes.now }
{
    match texts::number(bytes) {
        Some(value) if value < 10u64.pow(digits) => Some(value),
        _ => None,
    }
}

/// Returns the numbers between the spaces, or `None` if a word is no number.
fn numbers(alloc: Global, text: &[u8]) -> Result<Option<Vec<u64>>, AllocError>
    ensures { IfOk result (λ found.
        option_map (λ v. v.items) found ≡ numbers_of (slice_split (λ b. b == 32) text.now)) }
{
    let mut found = Vec::new(alloc);
    let mut rest = text;
    'words: while let Some((word, after)) = cut_at(rest, b' ') {
        let Some(n) = number(word, DIGITS) else {
            return Ok(None);
        };
        found.push(n)?;
        rest = after;
    }
    let Some(n) = number(rest, DIGITS) else {
        return Ok(None);
    };
    found.push(n)?;
    Ok(Some(found))
}

fn after_prefix<'a>(word: &[u8], line: &'a [u8]) -> Option<&'a [u8]>
    ensures { option_map (λ rest. rest.now) result ≡ after_prefix word.now line.now }
{
    line.strip_prefix(word)
}

fn pair(before: &[u8], after: &[u8], digits: u32) -> Option<(u64, u64)>
    requires few { digits ≤ 19 }
    ensures { result ≡ read_pair digits (before.now, after.now) }
{
    match (number(before, digits), number(after, digits)) {
        (Some(p), Some(q)) => Some((p, q)),
        _ => None,
    }
}

fn ratio(word: &[u8], line: &[u8], digits: u32) -> Option<(u64, u64)>
    requires few { digits ≤ 19 }
    ensures { result ≡ read_ratio word.now digits line.now }
{
    match after_prefix(word, line) {
        Some(rest) => match cut_at(rest, b'/') {
            Some((before, after)) => pair(before, after, digits),
            None => None,
        },
        None => None,
    }
}

fn cycle(line: &[u8]) -> Option<u64>
    ensures { result ≡ read_cycle line.now }
{
    match after_prefix(b"cycle ", line) {
        Some(rest) => number(rest, DIGITS),
        None => None,
    }
}

fn weights(alloc: Global, word: &[u8], line: &[u8]) -> Result<Option<Vec<u64>>, AllocError>
    ensures { IfOk result (λ found. option_map (λ v. v.items) found ≡ read_numbers word.now line.now) }
{
    match after_prefix(word, line) {
        Some(rest) => numbers(alloc, rest),
        None => Ok(None),
    }
}

/// Returns whether each number is a capacity.
fn are_in_range(numbers: &[u64]) -> bool
    ensures { result ≡ are_in_range numbers.now }
{
    numbers.iter().all(|c| 1 <= *c && *c <= MAX_CAPACITY)
}

/// Returns whether each number is a capacity, and some is not 1.
fn have_a_line(numbers: &[u64]) -> bool
    ensures { result ≡ have_a_line numbers.now }
{
    are_in_range(numbers) && !are_unit(numbers)
}

fn capacities(alloc: Global, line: &[u8]) -> Result<Option<Vec<u64>>, AllocError>
    ensures { IfOk result (λ found. option_map (λ v. v.items) found ≡ read_capacities line.now) }
{
    match weights(alloc, b"capacity ", line)? {
        Some(numbers) if have_a_line(&numbers) => Ok(Some(numbers)),
        _ => Ok(None),
    }
}

/// Returns whether a text begins as one of weights.
fn begins_as_weights(text: &[u8]) -> bool
    ensures { result ≡ begins_as_weights text.now }
{
    after_prefix(b"quorum-weights ", text).is_some()
}

/// Returns the version that the title of a text of weights, or of a plan, gives, and the rest of the
/// text.
fn title_line(bounded: bool, text: &[u8]) -> Result<(usize, &[u8]), PlanFault>
    ensures { Answers (λ x. (x.0, x.1.now)) result (line_at 1 (read_title bounded) text.now) }
{
    let titles = if bounded {
        [b"quorum-weights 1".as_slice(), b"quorum-weights 2"]
    } else {
        [b"quorum-plan 1".as_slice(), b"quorum-plan 2"]
    };
    match cut_at(text, b'\n') {
        Some((line, rest)) if line == titles[0] => Ok((1, rest)),
        Some((line, rest)) if line == titles[1] => Ok((2, rest)),
        _ => Err(PlanFault::BadText { line: 1 }),
    }
}

/// Returns the most digits of a number in the load's line of a text of this version.
fn load_digits(bounded: bool, version: usize) -> u32
    ensures digits { result ≡ load_digits bounded version }
    ensures few { result ≤ 19 }
{
    if !bounded && version == 1 {
        DIGITS
    } else {
        RATIO_DIGITS
    }
}

fn ratio_line<'a>(
    number: usize,
    word: &[u8],
    text: &'a [u8],
    digits: u32,
) -> Result<((u64, u64), &'a [u8]), PlanFault>
    requires few { digits ≤ 19 }
    ensures { Answers (λ x. (x.0, x.1.now)) result (line_at number (read_ratio word.now digits) text.now) }
{
    let Some((line, rest)) = cut_at(text, b'\n') else {
        return Err(PlanFault::BadText { line: number });
    };
    match ratio(word, line, digits) {
        Some(ratio) => Ok((ratio, rest)),
        None => Err(PlanFault::BadText { line: number }),
    }
}

/// Returns the bound of a text behind its second line, `None` if it is a plan's, and the rest of the
/// text.
fn bound_line(bounded: bool, text: &[u8]) -> Result<(Option<(u64, u64)>, &[u8]), PlanFault>
    ensures { Answers (λ x. (x.0, x.1.now)) result (bound_at bounded text.now) }
{
    if !bounded {
        return Ok((None, text));
    }
    match ratio_line(3, b"bound ", text, RATIO_DIGITS) {
        Ok((bound, rest)) => Ok((Some(bound), rest)),
        Err(fault) => Err(fault),
    }
}

/// Returns the number of the line of the cycle's length.
fn cycle_place(bounded: bool) -> usize
    ensures place { result ≡ cycle_place bounded }
    ensures small { result ≤ 4 }
{
    if bounded { 4 } else { 3 }
}

fn cycle_line(number: usize, text: &[u8]) -> Result<(u64, &[u8]), PlanFault>
    ensures { Answers (λ x. (x.0, x.1.now)) result (line_at number read_cycle text.now) }
{
    let Some((line, rest)) = cut_at(text, b'\n') else {
        return Err(PlanFault::BadText { line: number });
    };
    match cycle(line) {
        Some(cycle) => Ok((cycle, rest)),
        None => Err(PlanFault::BadText { line: number }),
    }
}

fn weights_line<'a>(
    alloc: Global,
    number: usize,
    word: &[u8],
    text: &'a [u8],
) -> Result<(Vec<u64>, &'a [u8]), PlanFault>
    ensures { Gives (λ x. (x.0.items, x.1.now)) result (line_at number (read_numbers word.now) text.now) }
{
    let Some((line, rest)) = cut_at(text, b'\n') else {
        return Err(PlanFault::BadText { line: number });
    };
    match weights(alloc, word, line)? {
        Some(weights) => Ok((weights, rest)),
        None => Err(PlanFault::BadText { line: number }),
    }
}

fn capacity_line(alloc: Global, number: usize, text: &[u8]) -> Result<(Vec<u64>, &[u8]), PlanFault>
    ensures { Gives (λ x. (x.0.items, x.1.now)) result (line_at number read_capacities text.now) }
{
    let Some((line, rest)) = cut_at(text, b'\n') else {
        return Err(PlanFault::BadText { line: number });
    };
    match capacities(alloc, line)? {
        Some(capacities) => Ok((capacities, rest)),
        None => Err(PlanFault::BadText { line: number }),
    }
}

/// Returns the capacities of a text of this version, behind the line of this number, and the rest of
/// the text.
fn capacity_lines(
    alloc: Global,
    place: usize,
    version: usize,
    text: &[u8],
) -> Result<(Option<Vec<u64>>, &[u8]), PlanFault>
    requires { place ≤ 4 }
    ensures { Gives (λ x. (option_map (λ v. v.items) x.0, x.1.now)) result (capacities_at place version text.now) }
{
    if version == 1 {
        return Ok((None, text));
    }
    let (capacities, rest) = capacity_line(alloc, place + 1, text)?;
    Ok((Some(capacities), rest))
}

/// Returns the values of the lines of a text of weights, or of a plan, or the first bad line.
#[tactic(auto, unfolding(crate::specs::PlanTexts::behind_cycle, crate::specs::PlanTexts::contents_at))]
fn read_lines(alloc: Global, bounded: bool, text: &[u8]) -> Result<Lines, PlanFault>
    ensures exact { Gives contents_read result (contents_at bounded text.now) }
    ensures first { RefusesAs (behind_cycle bounded text.now) result }
{
    let (version, rest) = title_line(bounded, text)?;
    let (load, rest) = ratio_line(2, b"load ", rest, load_digits(bounded, version))?;
    let (bound, rest) = bound_line(bounded, rest)?;
    let place = cycle_place(bounded);
    let (cycle, rest) = cycle_line(place, rest)?;
    let (capacities, rest) = capacity_lines(alloc, place, version, rest)?;
    let (quorum_weights, rest) = weights_line(alloc, place + version, b"quorum ", rest)?;
    let (voter_weights, rest) = weights_line(alloc, place + version + 1, b"voter ", rest)?;
    if !rest.is_empty() {
        return Err(PlanFault::BadText {
            line: place + version + 2,
        });
    }
    Ok(Lines {
        load,
        bound,
        cycle,
        capacities,
        quorum_weights,
        voter_weights,
    })
}

/// Returns whether a text with these capacities, or with none, gives the voters' capacities.
fn are_given(capacities: &[u64], written: &Option<Vec<u64>>) -> bool
    ensures { result ≡ are_given capacities.now (option_map (λ v. v.items) written.now) }
{
    match written {
        Some(written) => written.as_slice() == capacities,
        None => are_unit(capacities),
    }
}

/// Returns the first fault of a load, a bound and a cycle's length that a text gives for weights.
fn head_fault(
    weights: &Weights,
    load: (u64, u64),
    bound: Option<(u64, u64)>,
    cycle: u64,
) -> Option<PlanFault>
    ensures { result ≡ head_fault weights.now load bound cycle }
{
    if weights.load() != load {
        return Some(PlanFault::WrongLoad);
    }
    if let Some(bound) = bound {
        if weights.bound() != bound {
            return Some(PlanFault::WrongBound);
        }
    }
    if weights.cycle_len() != cycle {
        return Some(PlanFault::WrongCycle);
    }
    None
}

/// Returns the plan of a coterie that a text describes, or the first fault.
#[tactic(auto, unfolding(crate::specs::PlanTexts::plan_at))]
fn plan_of_text(
    alloc: Global,
    coterie: &Coterie,
    capacities: &[u64],
    text: &[u8],
) -> Result<Plan, PlanFault>
    requires capacities { AreCapacities capacities.now coterie.now.voters }
    ensures exact { UnlessOutOfMemory result (plan_at coterie.now capacities.now text.now) }
    ensures first { RefusesAs (behind_cycle false text.now) result }
    ensures certificate { IfOk result IsCertificate }
{
    let lines = read_lines(alloc, false, text)?;
    if !are_given(capacities, &lines.capacities) {
        return Err(PlanFault::WrongCapacity);
    }
    let plan = check(
        alloc,
        coterie,
        capacities,
        lines.quorum_weights,
        lines.voter_weights,
    )?;
    match head_fault(plan.weights(), lines.load, lines.bound, lines.cycle) {
        Some(fault) => Err(fault),
        None => Ok(plan),
    }
}

/// Returns the weights of a coterie that a text describes, theirs or a plan's, or the first fault.
#[tactic(auto, unfolding(crate::specs::PlanTexts::weights_at))]
fn weights_of_text(
    alloc: Global,
    coterie: &Coterie,
    capacities: &[u64],
    text: &[u8],
) -> Result<Weights, PlanFault>
    requires capacities { AreCapacities capacities.now coterie.now.voters }
    ensures exact { UnlessOutOfMemory result (weights_at coterie.now capacities.now text.now) }
    ensures first { RefusesAs (behind_cycle (begins_as_weights text.now) text.now) result }
    ensures weights { IfOk result AreWeights }
{
    if !begins_as_weights(text) {
        return match plan_of_text(alloc, coterie, capacities, text) {
            Ok(plan) => Ok(plan.into_weights()),
            Err(fault) => Err(fault),
        };
    }
    let lines = read_lines(alloc, true, text)?;
    if !are_given(capacities, &lines.capacities) {
        return Err(PlanFault::WrongCapacity);
    }
    let weights = Weights::of(
        alloc,
        coterie,
        capacities,
        lines.quorum_weights,
        lines.voter_weights,
    )?;
    match head_fault(&weights, lines.load, lines.bound, lines.cycle) {
        Some(fault) => Err(fault),
        None => Ok(weights),
    }
}

/// Reads the plan of a coterie and its voters' capacities from its text. There has to be a capacity
/// for each voter, 1 to 1000.
///
/// If all capacities are 1, the text has five lines, each with a newline at its end. A number has 1
/// to 7 decimal digits and no leading zero:
///
/// ```text
/// quorum-plan 1
/// load P/Q
/// cycle D
/// quorum A0 A1 ..
/// voter B0 B1 ..
/// ```
///
/// Otherwise it has six lines. P and Q have 1 to 10 digits, and the capacities are 1 to 1000:
///
/// ```text
/// quorum-plan 2
/// load P/Q
/// cycle D
/// capacity C0 C1 ..
/// quorum A0 A1 ..
/// voter B0 B1 ..
/// ```
///
/// Fails with the first of these faults:
///
/// - `BadText` with the first line that is missing or not in this format, or if there is text after
///   the last line. Capacities that are all 1 are not in the format;
/// - `WrongCapacity` if the text's capacities are not these;
/// - the fault of `check` for the weights;
/// - `WrongLoad` if the load is not the weights' load in lowest terms;
/// - `WrongCycle` if the cycle's length is not the sum of the quorums' weights.
///
/// Memory may run out at any point after the first three lines.
pub fn read_plan(
    alloc: Global,
    coterie: &Coterie,
    capacities: &[u64],
    text: &[u8],
) -> Result<Plan, PlanFault>
    requires capacities { AreCapacities capacities.now coterie.now.voters }
    // A text that is read is the text of the plan.
    ensures written { IfOk result (λ p.
        (p.system ≡ coterie.now) × (p.capacities ≡ capacities.now) × (text.now ≡ plan_text p)) }
    // The text of a plan of this coterie and these capacities is read.
    ensures read { (w : Weighted) → w.system ≡ coterie.now → w.capacities ≡ capacities.now → IsCertificate w
        → text.now ≡ plan_text w → UnlessOutOfMemory result (Ok w) }
    // The result is the plan or the first fault, by the definition.
    ensures exact { UnlessOutOfMemory result (plan_at coterie.now capacities.now text.now) }
    // The first three lines are read before any memory is allocated.
    ensures first { RefusesAs (behind_cycle false text.now) result }
    ensures certificate { IfOk result IsCertificate }
    ensures optimal { IfOk result IsOptimal }
{
    plan_of_text(alloc, coterie, capacities, text)
}

/// Reads weights of a coterie and its voters' capacities from their text, or from the text of a plan,
/// which [`read_plan`] shows. There has to be a capacity for each voter, 1 to 1000.
///
/// If all capacities are 1, the text has six lines, each with a newline at its end. A number has 1 to
/// 7 decimal digits and no leading zero, and those of load and bound have 1 to 10:
///
/// ```text
/// quorum-weights 1
/// load P/Q
/// bound P/Q
/// cycle D
/// quorum A0 A1 ..
/// voter B0 B1 ..
/// ```
///
/// Otherwise it has seven lines, and the capacities are 1 to 1000:
///
/// ```text
/// quorum-weights 2
/// load P/Q
/// bound P/Q
/// cycle D
/// capacity C0 C1 ..
/// quorum A0 A1 ..
/// voter B0 B1 ..
/// ```
///
/// A text that does not begin with `quorum-weights` has to be a plan's. Fails with the first of these
/// faults:
///
/// - `BadText` with the first line that is missing or not in this format, or if there is text after
///   the last line. Capacities that are all 1 are not in the format;
/// - `WrongCapacity` if the text's capacities are not these;
/// - the fault of `Weights::of` for the weights;
/// - `WrongLoad` if the load is not the weights' load in lowest terms;
/// - `WrongBound` if the bound is not the weights' bound in lowest terms;
/// - `WrongCycle` if the cycle's length is not the sum of the quorums' weights.
///
/// Memory may run out at any point after the line of the cycle's length.
pub fn read_weights(
    alloc: Global,
    coterie: &Coterie,
    capacities: &[u64],
    text: &[u8],
) -> Result<Weights, PlanFault>
    requires capacities { AreCapacities capacities.now coterie.now.voters }
    // A text that is read is that of the weights, or of the plan that they are.
    ensures written { IfOk result (λ w.
        (w.system ≡ coterie.now) × (w.capacities ≡ capacities.now)
        × ((text.now ≡ weights_text w) ⊎ (IsCertificate w × (text.now ≡ plan_text w)))) }
    // The text of weights of this coterie and these capacities is read.
    ensures read { (w : Weighted) → w.system ≡ coterie.now → w.capacities ≡ capacities.now → AreWeights w
        → text.now ≡ weights_text w → UnlessOutOfMemory result (Ok w) }
    // The text of a plan of them is read.
    ensures plan { (w : Weighted) → w.system ≡ coterie.now → w.capacities ≡ capacities.now → IsCertificate w
        → text.now ≡ plan_text w → UnlessOutOfMemory result (Ok w) }
    // The result is the weights or the first fault, by the definition.
    ensures exact { UnlessOutOfMemory result (weights_at coterie.now capacities.now text.now) }
    // The lines up to that of the cycle's length are read before any memory is allocated.
    ensures first { RefusesAs (behind_cycle (begins_as_weights text.now) text.now) result }
    ensures weights { IfOk result AreWeights }
{
    weights_of_text(alloc, coterie, capacities, text)
}
