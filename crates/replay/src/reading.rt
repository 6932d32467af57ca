//! Reading a script.
ghost use Rattle.std.specs.Prelude.{◌≡◌, ◌∷◌, [], IfErr, IfOk, IfSome, MatchResult};
ghost use Rattle.texts.specs.Forms.{HaveLines, IsLineOf, text_of};
ghost use Rattle.world_state.specs.declared.step.Step.{Step};
ghost use Rattle.replay.specs.Scripts as scripts;
ghost use Rattle.replay.specs.Scripts.{BeginsWith, IsBadRest, IsBadText, IsScript, IsWorldLine, script_text, step_form, steps_have_form, world_form, worlds_have_form};
ghost use Rattle.replay.specs.declared.fault.ReplayFault.TheVariants.{BadLine, OutOfMemory};

use crate::fault::ReplayFault;
use crate::script::Script;
use numbers::{MAX_CLIENTS, MAX_STAMP};
use std::alloc::Global;
use texts::{Line, first_lines, next_line};
use world::Step;

/// The most clients of a world.
const MOST_CLIENTS: u64 = MAX_CLIENTS as u64;

/// The line of a step.
pub struct StepLine;

impl Line for StepLine {
    type Value = Step;

    ghost form = { step_form };

    fn value_of(word: &[u8], numbers: &[u64]) -> Option<Step> {
        match numbers {
            [number] => step_of(word, *number),
            _ => None,
        }
    }

    ghost is_form = { steps_have_form };
}

/// Returns the step of a word and its number.
fn step_of(word: &[u8], number: u64) -> Option<Step>
    ensures text { IfSome result (λ s. IsLineOf step_form s word.now (number ∷ [])) }
    ensures read { (s : Step) → IsLineOf step_form s word.now (number ∷ []) → result ≡ Some s }
{
    if word == b"deliver".as_slice() {
        return Some(Step::Deliver(number));
    }
    let Ok(who) = u8::try_from(number) else {
        return None;
    };
    match word {
        b"ask" => Some(Step::Ask(who)),
        b"leave" => Some(Step::Leave(who)),
        b"give-up" => Some(Step::GiveUp(who)),
        b"remind-client" => Some(Step::RemindClient(who)),
        b"remind-voter" => Some(Step::RemindVoter(who)),
        _ => None,
    }
}

/// The line of a world, with its sizes: how many clients, and the highest stamp.
struct WorldLine;

impl Line for WorldLine {
    type Value = (u8, u64);

    ghost form = { world_form };

    fn value_of(word: &[u8], numbers: &[u64]) -> Option<(u8, u64)> {
        match numbers {
            [clients, limit]
                if word == b"world".as_slice()
                    && (1..=MOST_CLIENTS).contains(clients)
                    && (1..=MAX_STAMP).contains(limit) => { Some((*clients as u8, *limit)) }
            _ => None,
        }
    }

    ghost is_form = { worlds_have_form };
}

/// Reads the steps whose lines are the text. The text's first line has number 2.
fn read_steps<L: Line>(alloc: Global, text: &[u8]) -> Result<Vec<L::Value>, ReplayFault>
    ensures lines { IfOk result (λ steps. HaveLines L.form steps.items) }
    ensures written { IfOk result (λ steps. text.now ≡ text_of L.form steps.items) }
    ensures bad { IfErr result (IsBadRest L.form text.now) }
{
    let (steps, rest) = first_lines::<L>(alloc, text)?;
    if !rest.is_empty() {
        return Err(ReplayFault::BadLine(steps.len() + 2));
    }
    Ok(steps)
}

/// Reads a script from its text, with steps of this kind of line, as [`StepLine`].
///
/// Fails with `BadLine` for the first line that is missing or malformed, or has no newline. Memory
/// may run out at any point after the first line.
pub fn read_script<L: Line>(alloc: Global, text: &[u8]) -> Result<Script<L>, ReplayFault>
    // What is read has this text.
    ensures written { IfOk result (λ s. IsScript L.form s × (text.now ≡ script_text L.form s)) }
    // What has this text is read, unless memory runs out.
    ensures read { (s : scripts.Script L.Value) → IsScript L.form s → text.now ≡ script_text L.form s
        → MatchResult result (λ script. script ≡ s) (λ fault. fault ≡ OutOfMemory) }
    // Which line the fault names.
    ensures bad { IfErr result (IsBadText L.form text.now) }
    // The first line is read before any memory is allocated.
    ensures first { ¬ (BeginsWith IsWorldLine text.now) → IfErr result (λ fault. fault ≡ BadLine 1) }
{
    let Some((sizes, rest)) = next_line::<WorldLine>(text) else {
        return Err(ReplayFault::BadLine(1));
    };
    let (clients, limit) = sizes;
    match read_steps::<L>(alloc, rest) {
        Ok(steps) => Ok(Script::<L>::of(clients, limit, steps)),
        Err(fault) => Err(fault),
    }
}
