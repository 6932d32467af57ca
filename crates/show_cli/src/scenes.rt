//! What an input of a story describes: coteries, plans and a script.
ghost use Rattle.std.specs.Prelude.{◌≡◌, IfErr, IfNone, IfOk, IfSome, Some, option_map};
ghost use Rattle.plan_inputs.specs.Inputs.{parts_of};
ghost use Rattle.commands.specs.Commands.{Gives};
ghost use Rattle.commands.specs.Devices.{IsOwn};
ghost use Rattle.show_cli.specs.Stories.{ArePlansOf, IsFirstOther, IsStory, RefusesPair, RefusesPlans, RefusesStory, more_in, parts_in};

use commands::{Fault, Planned, split_part, staged_of};
use coterie_file::Named;
use dealer::Plans;
use quorum_set::BridgeFault;
use std::alloc::Global;
use stories::{StoryScript, read_story};

/// What an input of a story describes.
#[derive(Drop)]
pub(crate) struct Scene {
    /// The first coterie, with the names of the voters.
    pub named: Named,
    /// The plans.
    pub plans: Plans,
    /// The script.
    pub script: StoryScript,
}

/// Returns what follows the first two parts: a text, behind a second coterie and its plan if the text
/// has a line `%%`.
#[tactic(auto, unfolding(crate::specs::Stories::more_in))]
fn more_of(alloc: Global, text: &[u8]) -> Result<(Option<Planned>, &[u8]), Fault>
    ensures exact { Gives (λ x. (option_map parts_of x.0, x.1.now)) result (more_in text.now) }
    ensures own { IfErr result IsOwn }
{
    if split_part(text, 4).is_err() {
        return Ok((None, text));
    }
    match staged_of(alloc, text) {
        Ok((second, rest)) => Ok((Some(second), rest)),
        Err(Fault::MissingPart(_)) => Err(Fault::MissingPart(5)),
        Err(fault) => Err(fault),
    }
}

/// Returns the place of the first voter whose name is not the same in both coteries, if there is one.
fn first_other(first: &Named, second: &Named) -> Option<usize>
    ensures other { IfSome result (IsFirstOther first.now.names second.now.names) }
    ensures same { IfNone result (first.now.names ≡ second.now.names) }
    ensures voters { IfNone result (first.now.system.voters ≡ second.now.system.voters) }
{
    let voters = first.coterie().voters();
    let others = second.coterie().voters();
    for place in 0..voters {
        if place == others {
            return Some(place);
        }
        if first.name(place) != second.name(place) {
            return Some(place);
        }
    }
    if voters < others {
        return Some(voters);
    }
    None
}

/// Returns the plans of two coteries that list the same voters, if there is a bridge.
fn bridged(alloc: Global, first: Planned, second: Planned) -> Result<(Named, Plans), Fault>
    ensures plans { IfOk result (λ x. ArePlansOf (parts_of first) (Some (parts_of second)) x.1) }
    ensures refused { IfErr result (RefusesPair (parts_of first) (parts_of second)) }
    ensures own { IfErr result IsOwn }
{
    if let Some(place) = first_other(&first.named, &second.named) {
        return Err(Fault::UnknownVoter(place));
    }
    match Plans::bridged(alloc, first.plan, second.plan) {
        Ok(plans) => Ok((first.named, plans)),
        Err((_, _, BridgeFault::NotBridged(j, k))) => Err(Fault::NotBridged(j, k)),
        Err((_, _, BridgeFault::OutOfMemory)) => Err(Fault::OutOfMemory),
    }
}

/// Returns the plans of one coterie, or of two.
fn plans_of(alloc: Global, first: Planned, second: Option<Planned>) -> Result<(Named, Plans), Fault>
    ensures plans { IfOk result (λ x. ArePlansOf (parts_of first) (option_map parts_of second) x.1) }
    ensures refused { IfErr result (RefusesPlans (parts_of first) (option_map parts_of second)) }
    ensures own { IfErr result IsOwn }
{
    match second {
        Some(second) => bridged(alloc, first, second),
        None => Ok((first.named, Plans::single(first.plan))),
    }
}

/// Returns what the parts of an input of a story describe.
#[tactic(auto, unfolding(crate::specs::Stories::parts_in))]
fn story_parts(alloc: Global, input: &[u8]) -> Result<(Planned, Option<Planned>, &[u8]), Fault>
    ensures exact { Gives (λ x. (parts_of x.0, (option_map parts_of x.1, x.2.now))) result (parts_in input.now) }
    ensures own { IfErr result IsOwn }
{
    let (first, text) = match staged_of(alloc, input) {
        Ok(staged) => staged,
        Err(fault) => return Err(fault),
    };
    match more_of(alloc, text) {
        Ok((second, rest)) => Ok((first, second, rest)),
        Err(fault) => Err(fault),
    }
}

/// Returns what an input of a story describes.
pub(crate) fn scene_of(alloc: Global, input: &[u8]) -> Result<Scene, Fault>
    ensures story { IfOk result (λ _. IsStory input.now) }
    ensures refused { IfErr result (RefusesStory input.now) }
    ensures own { IfErr result IsOwn }
{
    let (first, second, text) = match story_parts(alloc, input) {
        Ok(parts) => parts,
        Err(fault) => return Err(fault),
    };
    let (named, plans) = match plans_of(alloc, first, second) {
        Ok(plans) => plans,
        Err(fault) => return Err(fault),
    };
    match read_story(alloc, text) {
        Ok(script) => Ok(Scene {
            named,
            plans,
            script,
        }),
        Err(fault) => Err(Fault::from(fault)),
    }
}
