//! The code of each fault with which `qlock` refuses an input.
ghost use Rattle.std.specs.Prelude.{◌≡◌, ◌++◌, OnOk, string_bytes};
ghost use Rattle.show_refusals.specs.Codes.{code_of, construct_code, replay_code};

use crate::refused::Pushed;
use commands::{Fault, InputFault};
use construct::ConstructFault;
use coterie_file::FileFault;
use plan_inputs::line_of;
use replay::ReplayFault;

/// Appends the code of a fault of a coterie or a plan, or of the search for a plan: the first word of
/// its line.
fn push_input_code(text: &mut String, fault: InputFault) -> Pushed
    ensures { OnOk result (string_bytes text.new ≡ string_bytes text.old ++ code_of (Fault.Input fault)) }
{
    let line = line_of(&fault);
    text.push_str(show_faults::code_of(line.as_str()))
}

/// Returns the code of a fault of a script or a record.
fn replay_code(fault: ReplayFault) -> &'static str
    ensures { result.now ≡ replay_code fault }
{
    match fault {
        ReplayFault::TicketTwice(_) => "A1",
        ReplayFault::TicketMissing(_) => "A2",
        ReplayFault::WrongQuorum(_) => "A3",
        ReplayFault::PassTwice(_) => "A4",
        ReplayFault::PassMissing(_) => "A5",
        ReplayFault::WrongRegister(_) => "A6",
        ReplayFault::BadLine(_) => "A7",
        ReplayFault::OutOfMemory => "O1",
    }
}

/// Appends the code of a fault. No input has a fault of a device or of a run, and these have the
/// code of out of memory here.
pub(crate) fn push_code(text: &mut String, fault: Fault) -> Pushed
    ensures { OnOk result (string_bytes text.new ≡ string_bytes text.old ++ code_of fault) }
{
    match fault {
        Fault::MissingPart(_) => text.push_str("I1"),
        Fault::UnknownVoter(_) => text.push_str("I6"),
        Fault::NotBridged(..) => text.push_str("J1"),
        Fault::Construct(ConstructFault::BadSize) => text.push_str("G1"),
        Fault::Construct(ConstructFault::TooLarge) => text.push_str("G2"),
        Fault::Construct(ConstructFault::Coterie(fault)) => {
            push_input_code(text, InputFault::File(FileFault::Coterie(fault)))
        }
        Fault::Input(fault) => push_input_code(text, fault),
        Fault::Replay(fault) => text.push_str(replay_code(fault)),
        _ => text.push_str("O1"),
    }
}
