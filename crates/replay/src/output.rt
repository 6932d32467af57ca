//! The output of a script.
ghost use Rattle.std.specs.Prelude.{◌≡◌, ◌++◌, IfErr, IfOk, MatchResult, Ok, OnOk, drop, string_bytes};
ghost use Rattle.std.specs.List.{flat_map};
ghost use Rattle.message.specs.Lines.{HasLine};
ghost use Rattle.world.specs.Runs.{after};
ghost use Rattle.world_state.specs.Steps.{step_of};
ghost use Rattle.world_state.specs.declared.step.Step.{Step};
ghost use Rattle.replay.specs.Outputs.{IsOutput, client_fault_text, event_line, fault_text, refusal_of, script_output, sent_line, sent_lines, step_output};
ghost use Rattle.replay.specs.Scripts as scripts;
ghost use Rattle.replay.specs.Scripts.{BeginsWith, IsBadText, IsScript, IsWorldLine, script_text, step_form};
ghost use Rattle.replay.specs.declared.fault.ReplayFault.TheVariants.{BadLine, OutOfMemory};

use crate::fault::ReplayFault;
use crate::reading::{StepLine, read_script};
use crate::script::Script;
use certificate::Plan;
use dealer::Plans;
use message::{Message, push_message};
use requester::ClientFault;
use std::alloc::{AllocError, Global};
use texts::push_field;
use voter::VoterFault;
use world::{Event, Step, World, WorldFault};

/// Writes `m NUMBER MESSAGE`.
fn push_sent(text: &mut String, number: usize, message: &Message) -> Result<(), AllocError>
    requires { HasLine message.now }
    ensures { OnOk result (string_bytes text.new ≡ string_bytes text.old ++ sent_line number message.now) }
{
    text.push('m')?;
    push_field(text, number as u64)?;
    text.push(' ')?;
    push_message(text, message)?;
    text.push('\n')
}

/// Writes `enter CLIENT` or `leave CLIENT`.
fn push_event(text: &mut String, event: &Event) -> Result<(), AllocError>
    ensures { OnOk result (string_bytes text.new ≡ string_bytes text.old ++ event_line event.now) }
{
    text.push_str(if event.entered { "enter" } else { "leave" })?;
    push_field(text, u64::from(event.client))?;
    text.push('\n')
}

/// Returns the text of a client's fault.
fn client_fault_text(fault: ClientFault) -> &'static str
    ensures { result.now ≡ client_fault_text fault }
{
    match fault {
        ClientFault::Busy => "C1 Busy",
        ClientFault::NotInside => "C2 NotInside",
        ClientFault::NotAsking => "C3 NotAsking",
        ClientFault::StampsSpent => "C4 StampsSpent",
    }
}

/// Writes `! ` and the text of a fault.
fn push_fault_text(text: &mut String, fault: &str) -> Result<(), AllocError>
    ensures { OnOk result (string_bytes text.new ≡ string_bytes text.old ++ refusal_of fault.now) }
{
    write!(text, "! {fault}\n")
}

/// Writes `! ` and the fault.
pub(crate) fn push_refusal(text: &mut String, fault: WorldFault) -> Result<(), AllocError>
    ensures { OnOk result (string_bytes text.new ≡ string_bytes text.old ++ refusal_of (fault_text fault)) }
{
    match fault {
        WorldFault::NoSuchMessage(number) => write!(text, "! U1 NoSuchMessage {number}\n"),
        WorldFault::NoSuchClient(client) => write!(text, "! U2 NoSuchClient {client}\n"),
        WorldFault::NoSuchVoter(voter) => write!(text, "! U3 NoSuchVoter {voter}\n"),
        WorldFault::NoSecondPlan => push_fault_text(text, "U4 NoSecondPlan"),
        WorldFault::Client(fault) => push_fault_text(text, client_fault_text(fault)),
        WorldFault::Voter(VoterFault::GrantsSpent) => push_fault_text(text, "V1 GrantsSpent"),
        WorldFault::OutOfMemory => push_fault_text(text, "O1 OutOfMemory"),
    }
}

/// Writes the messages of a world from this number on.
fn push_messages(text: &mut String, world: &World, first: usize) -> Result<(), AllocError>
    ensures { OnOk result
        (string_bytes text.new ≡ string_bytes text.old ++ sent_lines first (drop first world.now.state.sent)) }
{
    for number in first..world.sent() {
        push_sent(text, number, &world.message(number))?;
    }
    Ok(())
}

/// Writes these events.
fn push_events(text: &mut String, events: &[Event]) -> Result<(), AllocError>
    ensures { OnOk result (string_bytes text.new ≡ string_bytes text.old ++ flat_map event_line events.now) }
{
    for event in events {
        push_event(text, event)?;
    }
    Ok(())
}

/// Returns the events after the first `first` ones.
fn events_from(events: &[Event], first: usize) -> &[Event]
    ensures { result.now ≡ drop first events.now }
{
    match events.get(first..) {
        Some(rest) => rest,
        None => &[],
    }
}

/// Takes a step, and writes what it did.
fn push_step(text: &mut String, world: &mut World, step: Step) -> Result<(), ReplayFault>
    ensures text { OnOk result
        (string_bytes text.new ≡ string_bytes text.old ++ step_output world.old.state (step_of world.old step)) }
    ensures world { OnOk result (world.new.state ≡ after world.old.state (step_of world.old step)) }
    ensures plans { world.new.plans ≡ world.old.plans }
    ensures memory { IfErr result (λ fault. fault ≡ OutOfMemory) }
{
    let messages = world.sent();
    let events = world.visible().len();
    match world.step(step) {
        Ok(_) => {
            push_messages(text, world, messages)?;
            push_events(text, events_from(world.visible(), events))?;
            Ok(())
        }
        Err(WorldFault::OutOfMemory) => Err(ReplayFault::OutOfMemory),
        Err(fault) => {
            push_refusal(text, fault)?;
            Ok(())
        }
    }
}

/// Runs a script and returns its output.
fn output_of(
    alloc: Global,
    plan: Plan,
    script: &Script<StepLine>,
    room: usize,
) -> Result<String, ReplayFault>
    ensures output { IfOk result (λ text. string_bytes text ≡ script_output plan script.now) }
    ensures memory { IfErr result (λ fault. fault ≡ OutOfMemory) }
{
    let mut text = String::with_capacity(alloc, room)?;
    let plans = Plans::single(plan);
    let mut world = World::new(alloc, plans, script.clients(), script.limit())?;
    for step in script.steps() {
        match push_step(&mut text, &mut world, *step) {
            Ok(()) => {}
            Err(fault) => return Err(fault),
        }
    }
    Ok(text)
}

/// Runs the script of a text in a new world of this plan, and returns what the steps did, in lines:
///
/// - `! ` and the fault for a step that is refused, which changes nothing;
/// - `m NUMBER MESSAGE` for each message that a step sent, with its number from 0 on;
/// - `enter CLIENT` or `leave CLIENT` for a client that entered or left.
///
/// If the text is not that of a script, fails with its first bad line, before any step is taken.
/// Memory may run out at any point.
pub fn run_script(alloc: Global, plan: Plan, text: &[u8]) -> Result<String, ReplayFault>
    // The result is the output of the script whose text this is.
    ensures output { IfOk result (λ output. IsOutput plan text.now (string_bytes output)) }
    // The text of a script is run, unless memory runs out.
    ensures run { (s : scripts.Script Step) → IsScript step_form s → text.now ≡ script_text step_form s
        → MatchResult result (λ output. string_bytes output ≡ script_output plan s) (λ fault. fault ≡ OutOfMemory) }
    // Which line the fault names.
    ensures bad { IfErr result (IsBadText step_form text.now) }
    // The first line is read before any memory is allocated.
    ensures first { ¬ (BeginsWith IsWorldLine text.now) → IfErr result (λ fault. fault ≡ BadLine 1) }
{
    let script = match read_script::<StepLine>(alloc, text) {
        Ok(script) => script,
        Err(fault) => return Err(fault),
    };
    // a script of passes has an output of about twice its length
    output_of(alloc, plan, &script, text.len().saturating_mul(2))
}
