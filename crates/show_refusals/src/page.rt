//! Where an input has its fault, and with which names.
ghost use Rattle.std.specs.Prelude.{◌≡◌, IfErr, IfOk, OnOk, length, nat_lt, string_bytes};
ghost use Rattle.commands.specs.Commands.{IsInRange, IsServed};
ghost use Rattle.commands.specs.Parts.{parts_of};
ghost use Rattle.show_refusals.specs.Codes.{code_of};
ghost use Rattle.show_refusals.specs.Pages.{IsFaultPage, IsTaken, MayTurnDown, NamesCode, is_outside};

use crate::bad_lines::{push_bad_line, push_file_count, push_missing};
use crate::codes::push_code;
use crate::plan_faults::push_plan_fault;
use crate::refused::{Page, Pushed, push_part};
use crate::shape_faults::push_shape_fault;
use crate::text_faults::push_file_fault;
use commands::{Command, Fault, InputFault, Watched, execute, planned_of};
use planner::{Cause, PlannerFault};
use replay::ReplayFault;
use std::alloc::{AllocError, Global};

/// Serves a command of `qlock` other than `run` for an input, and throws the output away.
fn serve_input(alloc: Global, command: &Command, input: &[u8]) -> Result<(), Fault>
    requires { IsServed command.now }
    ensures taken { OnOk result (IsTaken command.now input.now) }
    ensures fault { IfErr result (MayTurnDown command.now input.now) }
{
    let mut written = Vec::new(alloc);
    let mut reader = Watched::of(input);
    let mut writer = Watched::of(&mut written);
    let () = match execute(alloc, command, &mut reader, &mut writer) {
        Ok(()) => (),
        Err(fault) => return Err(fault),
    };
    Ok(())
}

/// Reads the input of `run`.
#[tactic(auto, using(crate::proofs::FaultLemmas::run_fault_comes))]
fn read_run_input(
    alloc: Global,
    clients: u8,
    passes: u64,
    turns: u64,
    input: &[u8],
) -> Result<(), Fault>
    ensures taken { OnOk result (IsTaken (Command.Run clients passes turns) input.now) }
    ensures fault { IfErr result (MayTurnDown (Command.Run clients passes turns) input.now) }
{
    let _planned = match planned_of(alloc, input) {
        Ok(planned) => planned,
        Err(fault) => return Err(fault),
    };
    Ok(())
}

/// Returns why a command of `qlock` refuses an input, if it refuses it. For `run` the input is only
/// read.
fn outcome_of(alloc: Global, command: &Command, input: &[u8]) -> Result<(), Fault>
    requires { IsInRange command.now }
    ensures taken { OnOk result (IsTaken command.now input.now) }
    ensures fault { IfErr result (MayTurnDown command.now input.now) }
{
    match command {
        Command::Run {
            clients,
            passes,
            turns,
        } => read_run_input(alloc, *clients, *passes, *turns, input),
        _ => serve_input(alloc, command, input),
    }
}

/// Returns whether a fault is none of the input: it is of a device, of a run, or of memory.
fn is_outside(fault: &Fault) -> bool
    ensures { result ≡ is_outside fault.now }
{
    matches!(
        fault,
        Fault::Device(_) | Fault::Cluster(_) | Fault::OutOfMemory
    )
}

/// Appends why no plan was found, and what there is in place of one.
fn push_planner_fault(text: &mut String, fault: PlannerFault) -> Pushed {
    let PlannerFault::NoPlan(cause) = fault else {
        return Ok(());
    };
    text.push_str(match cause {
        Cause::Overflow => "  a number of the simplex method did not fit into 128 bits\n",
        Cause::PivotLimit => "  the simplex method needs more than 10,000 pivots\n",
        Cause::TooLarge => "  the weights that were found add up to more than 1,000,000\n",
        _ => "",
    })?;
    text.push_str("  qlock-show near finds weights that are near the best\n")
}

/// Appends what is wrong with a script or a record.
fn push_replay_fault(page: &mut Page, fault: ReplayFault) -> Pushed {
    if let ReplayFault::BadLine(line) = fault {
        return push_bad_line(page, 3, line);
    }
    push_part(page, 3)?;
    let text = &mut page.text;
    match fault {
        ReplayFault::TicketTwice(t) => write!(text, "  two lines `draw` have ticket {t}\n"),
        ReplayFault::TicketMissing(t) => write!(text, "  no line `draw` has ticket {t}\n"),
        ReplayFault::WrongQuorum(t) => {
            write!(
                text,
                "  ticket {t} stands for another quorum of the plan's cycle\n"
            )
        }
        ReplayFault::PassTwice(p) => write!(text, "  two lines `pass` have number {p}\n"),
        ReplayFault::PassMissing(p) => write!(text, "  no line `pass` has number {p}\n"),
        ReplayFault::WrongRegister(q) => {
            write!(
                text,
                "  the register has to be {q}, the number of lines `pass`\n"
            )
        }
        ReplayFault::BadLine(_) | ReplayFault::OutOfMemory => Ok(()),
    }
}

/// Appends where the fault is, and with which names.
fn push_place(page: &mut Page, fault: Fault) -> Pushed {
    if let (Fault::Construct(fault), Command::Make(shape)) = (fault, page.command) {
        return push_shape_fault(page, shape, fault);
    }
    if page.input.is_empty() {
        return page.text.push_str("  the input is empty\n");
    }
    push_file_count(page)?;
    match fault {
        Fault::MissingPart(number) => push_missing(page, number),
        Fault::Input(InputFault::File(fault)) => push_file_fault(page, fault),
        Fault::Input(InputFault::Plan(fault)) => push_plan_fault(page, fault),
        Fault::Input(InputFault::Planner(fault)) => push_planner_fault(&mut page.text, fault),
        Fault::Replay(fault) => push_replay_fault(page, fault),
        _ => Ok(()),
    }
}

/// Appends which command explains a fault.
fn push_more(text: &mut String, fault: Fault) -> Pushed
    ensures { OnOk result (NamesCode (code_of fault) (string_bytes text.new)) }
{
    text.push_str("  more: qlock-show explain ")?;
    push_code(text, fault)?;
    text.push_str("\n")?;
    Ok(())
}

/// Returns the page about a fault: its line, where it is, and which command explains it.
fn fault_words(mut page: Page, fault: Fault) -> Result<String, AllocError>
    ensures { IfOk result (λ text. NamesCode (code_of fault) (string_bytes text)) }
{
    write!(page.text, "{fault}\n")?;
    push_place(&mut page, fault)?;
    let mut text = page.text;
    push_more(&mut text, fault)?;
    Ok(text)
}

/// Returns the page about the fault with which a command of `qlock` refuses an input. If files were
/// named whose texts are the input, in their order and with a line `%%` between them, the page names
/// places in these files. Fails only if memory runs out: the input is in memory and not too long, and
/// no client runs.
pub fn fault_page(
    alloc: Global,
    command: &Command,
    input: &[u8],
    files: &[String],
) -> Result<String, AllocError>
    requires { IsInRange command.now }
    ensures { IfOk result (λ page. IsFaultPage command.now input.now (string_bytes page)) }
{
    let fault = match outcome_of(alloc, command, input) {
        Ok(()) => return String::from_str(alloc, "qlock does not refuse this input\n"),
        Err(fault) => fault,
    };
    if is_outside(&fault) {
        return Err(AllocError);
    }
    let page = Page {
        command,
        input,
        files,
        alloc,
        text: String::new(alloc),
    };
    fault_words(page, fault)
}
