//! Weights that are near the best: pages about them, tickets dealt by them, and their text.
ghost use Rattle.std.specs.Prelude.{◌≡◌, ◌≤◌, ◌<◌, IfErr, IfOk, IfSome, string_bytes, unwrap_or};
ghost use Rattle.numbers.specs.Bounds.{max_cycle, max_dealt};
ghost use Rattle.plan_inputs.specs.Inputs.{IsWeightsText};
ghost use Rattle.commands.specs.Commands.{Refuses, coterie_part};
ghost use Rattle.commands.specs.Devices.{IsOwn};
ghost use Rattle.show_cli.specs.Failures.{HasCoterie};
ghost use Rattle.show_cli.specs.Found.{IsFoundPage, most_of};

use certificate::Weights;
use commands::{Fault, Weighed, coterie_of};
use coterie_file::Named;
use near::weights_within;
use plan_inputs::weights_text_of;
use plan_texts::write_weights;
use robust::{Down, Found as Robust, weights_for_losses};
use show_command_line::{NearForm, NearPage};
use show_json::found_json;
use show_losses::losses_words;
use show_words::{tickets_page, weights_words};
use std::alloc::{AllocError, Global};

/// How long a cycle is at most if no length was asked for.
const CYCLE: u64 = 1000;

/// By how many millionths of the bound the load of weights is above it at most that are called near.
const NEAR: u64 = 10_000;

/// By how many percent the load of weights that bear a loss may be above the smallest one if no other number
/// was asked for.
const ABOVE: u64 = 2;

/// Weights of a named coterie that were found.
#[derive(Drop)]
struct Found {
    weighed: Weighed,
    /// Whether they are near the best.
    is_near: bool,
}

/// Finds weights of a coterie, with a cycle of at most `most` tickets.
fn found_of(alloc: Global, named: Named, most: u64) -> Result<Found, AllocError>
    requires most { (0 < most) × (most ≤ max_cycle) }
{
    let found = weights_within(alloc, named.coterie(), named.capacities(), most, NEAR)?;
    Ok(match found {
        Ok(weights) => Found {
            weighed: Weighed { named, weights },
            is_near: true,
        },
        Err(weights) => Found {
            weighed: Weighed { named, weights },
            is_near: false,
        },
    })
}

/// Appends that a longer cycle may be nearer to the best, unless the weights are near it.
fn push_distance(text: &mut String, is_near: bool) -> Result<(), AllocError> {
    if is_near {
        return Ok(());
    }
    text.push_str(
        "\nThe load is more than 1 % above the bound. A longer cycle may come nearer: --cycle N.\n",
    )
}

/// Returns the page about weights that were found.
fn found_words(alloc: Global, found: &Found) -> Result<String, AllocError> {
    let Weighed { named, weights, .. } = &found.weighed;
    let mut text = weights_words(alloc, named, weights)?;
    push_distance(&mut text, found.is_near)?;
    Ok(text)
}

/// Returns what is shown of weights that were found: JSON, tickets, or a page in words.
fn shown(alloc: Global, page: &NearPage, found: Found) -> Result<String, AllocError>
    requires { IfSome page.now.tickets (λ n. n ≤ max_dealt) }
{
    match (page.form, page.tickets) {
        (NearForm::Json, tickets) => {
            found_json(alloc, &found.weighed.named, &found.weighed.weights, tickets)
        }
        (_, Some(count)) => tickets_page(alloc, found.weighed, count, true),
        (_, None) => found_words(alloc, &found),
    }
}

/// Returns the page of weights near the best for the coterie in an input.
fn near_page(alloc: Global, page: &NearPage, most: u64, input: &[u8]) -> Result<String, Fault>
    requires tickets { IfSome page.now.tickets (λ n. n ≤ max_dealt) }
    requires most { (0 < most) × (most ≤ max_cycle) }
    ensures parts { IfOk result (λ _. HasCoterie input.now) }
    ensures refused { IfErr result (λ fault. Refuses fault (coterie_part input.now)) }
    ensures own { IfErr result IsOwn }
{
    let named = match coterie_of(alloc, input) {
        Ok(named) => named,
        Err(fault) => return Err(fault),
    };
    let Ok(found) = found_of(alloc, named, most) else {
        return Err(Fault::OutOfMemory);
    };
    match shown(alloc, page, found) {
        Ok(page) => Ok(page),
        Err(_) => Err(Fault::OutOfMemory),
    }
}

/// Returns what is shown of weights that bear the loss of voters: JSON, their text, tickets, or a page in
/// words.
fn robust_shown(
    alloc: Global,
    page: &NearPage,
    named: Named,
    found: Robust,
) -> Result<String, AllocError>
    requires tickets { IfSome page.now.tickets (λ n. n ≤ max_dealt) }
    requires coterie { found.weights.system ≡ named.system }
{
    match (page.form, page.tickets) {
        (NearForm::Json, tickets) => found_json(alloc, &named, &found.weights, tickets),
        (NearForm::Text, _) => write_weights(alloc, &found.weights),
        (NearForm::Words, Some(count)) => {
            let Robust { weights, .. } = found;
            tickets_page(alloc, Weighed { named, weights }, count, true)
        }
        (NearForm::Words, None) => losses_words(alloc, &named, &found),
    }
}

/// Returns how many voters may be down.
fn down_of(down: u64) -> Down {
    if down == 1 { Down::One } else { Down::OneOrTwo }
}

/// Returns what is shown of weights that bear the loss of voters for the coterie in an input.
fn robust_page(
    alloc: Global,
    page: &NearPage,
    down: u64,
    most: u64,
    input: &[u8],
) -> Result<String, Fault>
    requires tickets { IfSome page.now.tickets (λ n. n ≤ max_dealt) }
    requires above { IfSome page.now.above (λ n. n ≤ 100) }
    requires most { (0 < most) × (most ≤ max_cycle) }
    ensures parts { IfOk result (λ _. HasCoterie input.now) }
    ensures refused { IfErr result (λ fault. Refuses fault (coterie_part input.now)) }
    ensures own { IfErr result IsOwn }
{
    let named = match coterie_of(alloc, input) {
        Ok(named) => named,
        Err(fault) => return Err(fault),
    };
    let thousandths = 10 * page.above.unwrap_or(ABOVE);
    let Ok(found) = weights_for_losses(
        alloc,
        named.coterie(),
        named.capacities(),
        most,
        thousandths,
        down_of(down),
    ) else {
        return Err(Fault::OutOfMemory);
    };
    match robust_shown(alloc, page, named, found) {
        Ok(page) => Ok(page),
        Err(_) => Err(Fault::OutOfMemory),
    }
}

/// Returns the text of weights near the best for the coterie in an input: that of a plan if they are one.
#[tactic(auto, using(crate::proofs::ShowLemmas::unfound_refused))]
fn near_text(alloc: Global, most: u64, input: &[u8]) -> Result<String, Fault>
    requires most { (0 < most) × (most ≤ max_cycle) }
    ensures text { IfOk result (λ text. IsWeightsText input.now most (string_bytes text)) }
    ensures refused { IfErr result (λ fault. Refuses fault (coterie_part input.now)) }
    ensures own { IfErr result IsOwn }
{
    match weights_text_of(alloc, input, most) {
        Ok(text) => Ok(text),
        Err(fault) => Err(Fault::from(fault)),
    }
}

/// Returns how many tickets a cycle has at most.
fn most_of(page: &NearPage) -> u64
    requires { IfSome page.now.cycle (λ n. (1 ≤ n) × (n ≤ max_cycle)) }
    ensures value { result ≡ most_of page.now }
    ensures range { (0 < result) × (result ≤ max_cycle) }
{
    page.cycle.unwrap_or(CYCLE)
}

/// Returns what `near` writes for the coterie in an input.
pub(crate) fn near_weights_page(
    alloc: Global,
    page: &NearPage,
    input: &[u8],
) -> Result<String, Fault>
    requires tickets { IfSome page.now.tickets (λ n. n ≤ max_dealt) }
    requires cycle { IfSome page.now.cycle (λ n. (1 ≤ n) × (n ≤ max_cycle)) }
    requires above { IfSome page.now.above (λ n. n ≤ 100) }
    ensures found { IfOk result (λ text. IsFoundPage page.now input.now (string_bytes text)) }
    ensures refused { IfErr result (λ fault. Refuses fault (coterie_part input.now)) }
    ensures own { IfErr result IsOwn }
{
    let most = most_of(page);
    if let Some(down) = page.down {
        return robust_page(alloc, page, down, most, input);
    }
    match page.form {
        NearForm::Text => near_text(alloc, most, input),
        NearForm::Words | NearForm::Json => near_page(alloc, page, most, input),
    }
}
