//! What each command writes for its input.
ghost use Rattle.std.specs.Prelude.{◌≡◌, ◌≤◌, IfErr, IfOk, string_bytes};
ghost use Rattle.numbers.specs.Bounds.{max_dealt};
ghost use Rattle.show_faults.specs.Pages.{IsFaultsList, IsFaultsPage};
ghost use Rattle.show_faults.specs.Texts.{text_of};
ghost use Rattle.commands.specs.Commands.{IsInRange, Refuses, weighed_in};
ghost use Rattle.commands.specs.Devices.{IsOwn};
ghost use Rattle.show_command_line.specs.Commands.{IsShown};
ghost use Rattle.show_refusals.specs.Pages.{IsFaultPage};
ghost use Rattle.show_cli.specs.Failures.{HasWeights};
ghost use Rattle.show_cli.specs.Pages.{IsShownBy};
ghost use Rattle.show_waiting.specs.Waiting.{IsInRange as IsAnswered, waiting_text};

use crate::compared::compared_page;
use crate::failing::{borne_page, left_page, pair_page};
use crate::nearness::near_weights_page;
use crate::scenes::{Scene, scene_of};
use crate::shapes::shape_page;
use commands::{Command, Fault, Weighed, weighed_of};
use show_command_line::{Dealing, Form, Picture, ShowCommand, TicketForm};
use show_faults::{Explanation, explanation_text, faults_list, faults_page};
use show_json::{deal_json, weights_json};
use show_plans::load_picture;
use show_refusals::fault_page;
use show_report::report_page;
use show_waiting::{Waiting, waiting_page};
use show_words::{check_words, names_page, tickets_page, weights_words, world_words};
use show_worlds::world_picture;
use std::alloc::{AllocError, Global};

/// Returns dealt tickets.
fn tickets_of(alloc: Global, dealing: &Dealing, weighed: Weighed) -> Result<String, AllocError>
    requires { dealing.now.count ≤ max_dealt }
{
    let count = u64::from(dealing.count);
    match dealing.form {
        TicketForm::Words => tickets_page(alloc, weighed, count, dealing.is_even),
        TicketForm::Names => names_page(alloc, weighed, count, dealing.is_even),
        TicketForm::Json => deal_json(alloc, weighed, count, dealing.is_even),
    }
}

/// Returns the name of the first file, if there is one, which is that of the coterie.
fn first_of(files: &[String]) -> Option<&str> {
    match files.first() {
        Some(file) => Some(file.as_str()),
        None => None,
    }
}

/// Returns the words of weights, or what else a command shows of them: JSON, a check, a report, or dealt
/// tickets. A report names the first of these files.
fn words_of(
    alloc: Global,
    command: &ShowCommand,
    weighed: Weighed,
    files: &[String],
) -> Result<String, AllocError>
    requires { IsShown command.now }
{
    match command {
        ShowCommand::Check => check_words(alloc, &weighed.weights),
        ShowCommand::Report => {
            report_page(alloc, &weighed.named, &weighed.weights, first_of(files))
        }
        ShowCommand::Deal(dealing) => tickets_of(alloc, dealing, weighed),
        ShowCommand::Plan(Form::Json) => weights_json(alloc, &weighed.named, &weighed.weights),
        _ => weights_words(alloc, &weighed.named, &weighed.weights),
    }
}

/// Returns the page of words of weights for an input, which comes from these files, if there are any.
fn weights_page(
    alloc: Global,
    command: &ShowCommand,
    input: &[u8],
    files: &[String],
) -> Result<String, Fault>
    requires { IsShown command.now }
    ensures parts { IfOk result (λ _. HasWeights input.now) }
    ensures refused { IfErr result (λ fault. Refuses fault (weighed_in input.now)) }
    ensures own { IfErr result IsOwn }
{
    let weighed = match weighed_of(alloc, input) {
        Ok(weighed) => weighed,
        Err(fault) => return Err(fault),
    };
    match words_of(alloc, command, weighed, files) {
        Ok(page) => Ok(page),
        Err(_) => Err(Fault::OutOfMemory),
    }
}

/// Returns the picture of the load for an input.
fn load_page(alloc: Global, input: &[u8]) -> Result<String, Fault>
    ensures shown { IsShownBy string_bytes (ShowCommand.Picture Picture.Load) input.now result }
    ensures own { IfErr result IsOwn }
{
    let weighed = match weighed_of(alloc, input) {
        Ok(weighed) => weighed,
        Err(fault) => return Err(fault),
    };
    match load_picture(alloc, &weighed.named, &weighed.weights) {
        Ok(drawing) => Ok(drawing.into_text()),
        Err(_) => Err(Fault::OutOfMemory),
    }
}

/// Returns the page of a story in words.
fn world_page(alloc: Global, input: &[u8]) -> Result<String, Fault>
    ensures shown { IsShownBy string_bytes ShowCommand.World input.now result }
    ensures own { IfErr result IsOwn }
{
    let Scene {
        named,
        plans,
        script,
    } = match scene_of(alloc, input) {
        Ok(scene) => scene,
        Err(fault) => return Err(fault),
    };
    match world_words(alloc, &named, plans, &script) {
        Ok(page) => Ok(page),
        Err(_) => Err(Fault::OutOfMemory),
    }
}

/// Returns the picture of a story.
fn story_picture(alloc: Global, input: &[u8]) -> Result<String, Fault>
    ensures shown { IsShownBy string_bytes (ShowCommand.Picture Picture.World) input.now result }
    ensures own { IfErr result IsOwn }
{
    let Scene {
        named,
        plans,
        script,
    } = match scene_of(alloc, input) {
        Ok(scene) => scene,
        Err(fault) => return Err(fault),
    };
    match world_picture(alloc, &named, plans, &script) {
        Ok(drawing) => Ok(drawing.into_text()),
        Err(_) => Err(Fault::OutOfMemory),
    }
}

/// Returns the page of how long a client waits at most.
fn wait_page(alloc: Global, waiting: &Waiting) -> Result<String, Fault>
    requires { IsAnswered waiting.now }
    ensures page { IfOk result (λ page. string_bytes page ≡ waiting_text waiting.now) }
    ensures memory { IfErr result (λ fault. fault ≡ Fault.OutOfMemory) }
{
    match waiting_page(alloc, waiting) {
        Ok(page) => Ok(page),
        Err(_) => Err(Fault::OutOfMemory),
    }
}

/// Returns the page of an explanation.
fn explain_page(alloc: Global, explanation: &Explanation) -> Result<String, Fault>
    ensures page { IfOk result (λ page. string_bytes page ≡ text_of explanation.now) }
    ensures memory { IfErr result (λ fault. fault ≡ Fault.OutOfMemory) }
{
    match explanation_text(alloc, explanation) {
        Ok(page) => Ok(page),
        Err(_) => Err(Fault::OutOfMemory),
    }
}

/// Returns the page of all faults.
fn explain_all_page(alloc: Global) -> Result<String, Fault>
    ensures page { IfOk result (λ page. IsFaultsPage (string_bytes page)) }
    ensures memory { IfErr result (λ fault. fault ≡ Fault.OutOfMemory) }
{
    match faults_page(alloc) {
        Ok(page) => Ok(page),
        Err(_) => Err(Fault::OutOfMemory),
    }
}

/// Returns the lines of all faults.
fn list_page(alloc: Global) -> Result<String, Fault>
    ensures page { IfOk result (λ page. IsFaultsList (string_bytes page)) }
    ensures memory { IfErr result (λ fault. fault ≡ Fault.OutOfMemory) }
{
    match faults_list(alloc) {
        Ok(page) => Ok(page),
        Err(_) => Err(Fault::OutOfMemory),
    }
}

/// Returns the page about the fault for which a command of `qlock` refuses an input, which comes from
/// these files, if there are any.
fn refusal_page(
    alloc: Global,
    command: &Command,
    input: &[u8],
    files: &[String],
) -> Result<String, Fault>
    requires { IsInRange command.now }
    ensures page { IfOk result (λ page. IsFaultPage command.now input.now (string_bytes page)) }
    ensures memory { IfErr result (λ fault. fault ≡ Fault.OutOfMemory) }
{
    match fault_page(alloc, command, input, files) {
        Ok(page) => Ok(page),
        Err(_) => Err(Fault::OutOfMemory),
    }
}

/// Returns what the command writes for an input, which comes from these files, if there are any.
pub(crate) fn page_of(
    alloc: Global,
    command: &ShowCommand,
    input: &[u8],
    files: &[String],
) -> Result<String, Fault>
    requires { IsShown command.now }
    ensures shown { IsShownBy string_bytes command.now input.now result }
    ensures own { IfErr result IsOwn }
{
    match command {
        ShowCommand::Plan(_) | ShowCommand::Check | ShowCommand::Report | ShowCommand::Deal(_) =>
            weights_page(alloc, command, input, files),
        ShowCommand::Near(page) => near_weights_page(alloc, page, input),
        ShowCommand::Coterie(shape, capacities) => shape_page(alloc, shape, capacities),
        ShowCommand::Compare(files, form) => compared_page(alloc, files.as_slice(), *form, input),
        ShowCommand::Picture(Picture::Load) => load_page(alloc, input),
        ShowCommand::Without(words) => left_page(alloc, words, input),
        ShowCommand::Resilience(form) => borne_page(alloc, *form, input),
        ShowCommand::Bridge => pair_page(alloc, input),
        ShowCommand::World => world_page(alloc, input),
        ShowCommand::Picture(Picture::World) => story_picture(alloc, input),
        ShowCommand::Waiting(waiting) => wait_page(alloc, waiting),
        ShowCommand::Explain(explanation) => explain_page(alloc, explanation),
        ShowCommand::ExplainAll => explain_all_page(alloc),
        ShowCommand::ListFaults => list_page(alloc),
        ShowCommand::Fault(command) => refusal_page(alloc, command, input, files),
    }
}
