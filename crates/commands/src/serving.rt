//! Serving a command: reads the whole input, makes the whole output, and then writes it.
ghost use Rattle.std.specs.Prelude.{◌≡◌, true, false, IfErr, IfOk, IfSome, OnErr, OnOk};
ghost use Rattle.std.specs.Io.KnownBytes.{Appends};
ghost use Rattle.whole_io.specs.Devices.{AppendsBeginning};
ghost use Rattle.whole_io.specs.declared.fault.DeviceFault.TheVariants.{WriteFault};
ghost use Rattle.commands.specs.Devices.{FailsAs, LeavesUnread};
ghost use Rattle.commands.specs.declared.fault.Fault.TheVariants.{Device};
ghost use Rattle.commands.specs.Commands.{Answers, ComesOf, EndsAfter, IsServed, IsShortFor, LeavesWritten, reads_input};

use crate::answer::answer;
use crate::fault::Fault;
use command_line::Command;
use std::alloc::Global;
use std::io::{Read, Write};
use whole_io::{Watched, read_input, write_output};

/// Returns whether a command reads its input. All but `make` do.
pub fn reads_input(command: &Command) -> bool
    ensures { result ≡ reads_input command.now }
{
    match command {
        Command::Make(_) => false,
        Command::Plan
        | Command::Check
        | Command::Deal(_)
        | Command::World
        | Command::Run { .. }
        | Command::Replay => true,
    }
}

/// Returns the input of a command: all of it, or nothing if the command doesn't read it.
///
/// Fails with a failed read, an input of more than 16,777,216 bytes, or out of memory.
#[tactic(auto, using(crate::proofs::ExecuteLemmas::reading_comes))]
pub fn input_for<R: Read>(
    alloc: Global,
    command: &Command,
    reader: &mut Watched<R>,
) -> Result<Vec<u8>, Fault>
    requires { reader.old.failed ≡ false }
    ensures all { IfOk result (λ v.
        reads_input command.now ≡ true → IfSome (R.remaining reader.old.inner) (λ bytes. v.items ≡ bytes)) }
    ensures end { OnOk result (EndsAfter command.now (R.remaining reader.new.inner)) }
    ensures short { IfOk result (λ v. IsShortFor command.now v.items) }
    ensures refused { IfErr result (λ fault.
        IfSome (R.remaining reader.old.inner) (λ input. ComesOf command.now input fault)) }
    ensures too_long { IfErr result (LeavesUnread (R.remaining reader.old.inner) (R.remaining reader.new.inner)) }
    ensures failed { FailsAs reader.new.failed false result }
    ensures unread { reads_input command.now ≡ false → reader.new ≡ reader.old }
{
    match command {
        Command::Make(_) => Ok(Vec::new(alloc)),
        Command::Plan
        | Command::Check
        | Command::Deal(_)
        | Command::World
        | Command::Run { .. }
        | Command::Replay => match read_input(alloc, reader) {
            Ok(input) => Ok(input),
            Err(fault) => Err(Fault::from(fault)),
        },
    }
}

/// Writes a whole output. Fails only if a write fails, and then a beginning was written.
pub fn write_answer<W: Write>(writer: &mut Watched<W>, answer: &[u8]) -> Result<(), Fault>
    requires { writer.old.failed ≡ false }
    ensures ok { OnOk result (Appends (W.contents writer.old.inner) (W.contents writer.new.inner) answer.now) }
    ensures begun { OnErr result
        (AppendsBeginning (W.contents writer.old.inner) (W.contents writer.new.inner) answer.now) }
    ensures refused { IfErr result (λ fault. fault ≡ Device WriteFault) }
    ensures failed { FailsAs false writer.new.failed result }
{
    match write_output(writer, answer) {
        Ok(()) => Ok(()),
        Err(fault) => Err(Fault::from(fault)),
    }
}

/// Serves a command other than `run`: reads the input to its end, and writes the command's output
/// for it and nothing else.
///
/// Fails with the first of these faults:
///
/// - a failed read, or an input of more than 16,777,216 bytes, whichever comes first;
/// - a missing part;
/// - the faults of the parts, from the first part to the last;
/// - a failed write.
///
/// No byte after the 16,777,217th is read. It may run out of memory at any point before the first
/// write. A fault other than a failed write
/// writes nothing. After a failed write a beginning of the output was written.
pub fn execute<R: Read, W: Write>(
    alloc: Global,
    command: &Command,
    reader: &mut Watched<R>,
    writer: &mut Watched<W>,
) -> Result<(), Fault>
    requires served { IsServed command.now }
    requires unread { reader.old.failed ≡ false }
    requires unwritten { writer.old.failed ≡ false }

    // What is written is an output of the command for what is read. Each command except `plan` has
    // only one.
    ensures written { OnOk result (IfSome (R.remaining reader.old.inner) (λ input.
        Answers command.now input (W.contents writer.old.inner) (W.contents writer.new.inner))) }

    // A command that reads its input reads all of it.
    ensures end { OnOk result (EndsAfter command.now (R.remaining reader.new.inner)) }

    // A fault comes only for an input with this fault, or from a device or memory.
    ensures refused { IfErr result (λ fault.
        IfSome (R.remaining reader.old.inner) (λ input. ComesOf command.now input fault)) }

    // A fault other than a failed write writes nothing. After a failed write a beginning of the
    // output was written.
    ensures left { IfErr result (λ fault.
        LeavesWritten command.now (R.remaining reader.old.inner) fault
        (W.contents writer.old.inner) (W.contents writer.new.inner)) }

    // An input that is too long is read no further than one byte after the longest input.
    ensures too_long { IfErr result (LeavesUnread (R.remaining reader.old.inner) (R.remaining reader.new.inner)) }

    // What a command does not read is left in the reader.
    ensures unread { reads_input command.now ≡ false → reader.new ≡ reader.old }

    // A read fault or a write fault is returned if and only if that device failed.
    ensures devices { FailsAs reader.new.failed writer.new.failed result }
{
    let input = match input_for(alloc, command, reader) {
        Ok(input) => input,
        Err(fault) => return Err(fault),
    };
    let output = match answer(alloc, command, input.as_slice()) {
        Ok(output) => output,
        Err(fault) => return Err(fault),
    };
    write_answer(writer, output.as_bytes())
}
