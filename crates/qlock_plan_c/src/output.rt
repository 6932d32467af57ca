//! Writing to `out`.
ghost use Rattle.qlock_plan_c.specs.Outputs.{PutsFault, PutsRefusal, PutsText, output};

use crate::outcome::Outcome;
use plan_inputs::{InputFault, line_of};

/// Writes a text to the front of `out`, and how many bytes it has. Writes nothing if `out` is too
/// short.
pub fn put(text: &str, out: &mut [u8], written: &mut usize) -> Outcome
    ensures { PutsText text.now (output out.old out.new written.old written.new) result }
{
    let bytes = text.as_bytes();
    if bytes.len() > out.len() {
        return Outcome::NoRoom;
    }
    out[..bytes.len()].copy_from_slice(bytes);
    *written = bytes.len();
    Outcome::Done
}

/// Writes a text that says why the call was refused, as [`put`] does.
fn put_refusal(text: &str, out: &mut [u8], written: &mut usize) -> Outcome
    ensures { PutsRefusal text.now (output out.old out.new written.old written.new) result }
{
    match put(text, out, written) {
        Outcome::Done => Outcome::Refused,
        outcome => outcome,
    }
}

/// Writes the line of a fault, as [`put`] does. Writes nothing if the fault is out of memory.
pub fn put_fault(fault: &InputFault, out: &mut [u8], written: &mut usize) -> Outcome
    ensures { PutsFault fault.now (output out.old out.new written.old written.new) result }
{
    match fault {
        InputFault::OutOfMemory => Outcome::NoMemory,
        InputFault::File(_) | InputFault::Plan(_) | InputFault::Planner(_) => {
            put_refusal(line_of(fault).as_str(), out, written)
        }
    }
}
