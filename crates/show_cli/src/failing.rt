//! Pages of coteries: what is left when voters fail, what may fail, and bridges.
ghost use Rattle.std.specs.Prelude.{◌≡◌, IfErr, IfOk, IfSome, map, string_bytes};
ghost use Rattle.commands.specs.Commands.{Gives};
ghost use Rattle.commands.specs.Devices.{IsOwn};
ghost use Rattle.commands.specs.declared.fault.Fault.TheVariants.{OutOfMemory};
ghost use Rattle.show_cli.specs.Failures.{IsWithoutOf, RefusesWithout, pair_in};
ghost use Rattle.show_cli.specs.Pages.{IsShownBy};

use certificate::Weights;
use commands::{Fault, coterie_of, split_part, weighed_of};
use coterie_file::Named;
use show_command_line::{Form, ShowCommand};
use show_failures::{bridge_page, first_unknown, resilience_page, without_page};
use show_json::resilience_json;
use std::alloc::Global;

/// Returns the page of what is left of the coterie in an input when the voters with these names
/// fail.
#[tactic(auto, using(crate::proofs::ShowLemmas::no_coterie_left))]
pub(crate) fn left_page(alloc: Global, words: &[String], input: &[u8]) -> Result<String, Fault>
    ensures page { IfOk result (λ page. IsWithoutOf (map string_bytes words.now) input.now (string_bytes page)) }
    ensures refused { IfErr result (RefusesWithout (map string_bytes words.now) input.now) }
    ensures own { IfErr result IsOwn }
{
    let named = match coterie_of(alloc, input) {
        Ok(named) => named,
        Err(fault) => return Err(fault),
    };
    if let Some(place) = first_unknown(&named, words) {
        return Err(Fault::UnknownVoter(place));
    }
    match without_page(alloc, &named, words) {
        Ok(page) => Ok(page),
        Err(_) => Err(Fault::OutOfMemory),
    }
}

/// Returns what a coterie bears, and, if weights are given, what their own quorums bear.
fn borne(
    alloc: Global,
    form: Form,
    named: &Named,
    weights: Option<&Weights>,
) -> Result<String, Fault>
    requires weights { IfSome weights (λ w. w.now.system ≡ named.now.system) }
    ensures memory { IfErr result (λ fault. fault ≡ OutOfMemory) }
{
    let page = match form {
        Form::Words => resilience_page(alloc, named, weights),
        Form::Json => resilience_json(alloc, named, weights),
    };
    match page {
        Ok(page) => Ok(page),
        Err(_) => Err(Fault::OutOfMemory),
    }
}

/// Returns the page of what the coterie in an input bears, and its weights, if there are any.
pub(crate) fn borne_page(alloc: Global, form: Form, input: &[u8]) -> Result<String, Fault>
    ensures shown { IsShownBy string_bytes (ShowCommand.Resilience form) input.now result }
    ensures own { IfErr result IsOwn }
{
    match split_part(input, 2) {
        Ok(_) => match weighed_of(alloc, input) {
            Ok(weighed) => borne(alloc, form, &weighed.named, Some(&weighed.weights)),
            Err(fault) => Err(fault),
        },
        Err(_) => match coterie_of(alloc, input) {
            Ok(named) => borne(alloc, form, &named, None),
            Err(fault) => Err(fault),
        },
    }
}

/// Returns what an input of two parts describes: two coteries.
#[tactic(auto, unfolding(crate::specs::Failures::pair_in))]
fn pair_of(alloc: Global, input: &[u8]) -> Result<(Named, Named), Fault>
    ensures exact { Gives (λ p. p) result (pair_in input.now) }
    ensures own { IfErr result IsOwn }
{
    let (first, second) = match split_part(input, 2) {
        Ok(parts) => parts,
        Err(fault) => return Err(fault),
    };
    let first = match coterie_of(alloc, first) {
        Ok(named) => named,
        Err(fault) => return Err(fault),
    };
    match coterie_of(alloc, second) {
        Ok(second) => Ok((first, second)),
        Err(fault) => Err(fault),
    }
}

/// Returns the page of a bridge between the two coteries in an input.
pub(crate) fn pair_page(alloc: Global, input: &[u8]) -> Result<String, Fault>
    ensures shown { IsShownBy string_bytes ShowCommand.Bridge input.now result }
    ensures own { IfErr result IsOwn }
{
    let (first, second) = match pair_of(alloc, input) {
        Ok(pair) => pair,
        Err(fault) => return Err(fault),
    };
    match bridge_page(alloc, &first, &second) {
        Ok(page) => Ok(page),
        Err(_) => Err(Fault::OutOfMemory),
    }
}
