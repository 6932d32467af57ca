//! Serving a command: reads the whole input, makes the whole page, and then writes it.
ghost use Rattle.std.specs.Prelude.{◌≡◌, ◌≤◌, [], true, false, length, IfErr, IfOk, IfSome, OnErr, OnOk};
ghost use Rattle.std.specs.Io.KnownBytes.{Appends};
ghost use Rattle.whole_io.specs.Devices.{AppendsBeginning};
ghost use Rattle.whole_io.specs.declared.fault.DeviceFault.TheVariants.{WriteFault};
ghost use Rattle.commands.specs.Commands.{reads_input};
ghost use Rattle.commands.specs.Devices.{FailsAs, IsOfReading, LeavesUnread};
ghost use Rattle.commands.specs.declared.fault.Fault.TheVariants.{Device};
ghost use Rattle.show_command_line.specs.Commands.{IsShown};
ghost use Rattle.show_cli.specs.Pages.{ComesOfShowing, EndsAfterPage, LeavesShown, OfRead, Shows, reads_page_input};

use crate::pages::page_of;
use commands::{Fault, Watched, reads_input};
use show_command_line::ShowCommand;
use std::alloc::Global;
use std::io::{Read, Write};
use whole_io::{read_input, write_output};

/// Returns whether a command reads its input. `coterie`, `waiting` and `explain` don't, and
/// neither does `fault make`.
pub fn reads_page_input(command: &ShowCommand) -> bool
    ensures { result ≡ reads_page_input command.now }
{
    match command {
        ShowCommand::Coterie(..)
        | ShowCommand::Waiting(_)
        | ShowCommand::Explain(_)
        | ShowCommand::ExplainAll
        | ShowCommand::ListFaults => false,
        ShowCommand::Fault(command) => reads_input(command),
        ShowCommand::Plan(_)
        | ShowCommand::Check
        | ShowCommand::Report
        | ShowCommand::Deal(_)
        | ShowCommand::Near(_)
        | ShowCommand::Compare(..)
        | ShowCommand::Without(_)
        | ShowCommand::Resilience(_)
        | ShowCommand::Bridge
        | ShowCommand::World
        | ShowCommand::Picture(_) => true,
    }
}

/// Returns the input of a command: all of it, or nothing if the command doesn't read it.
fn input_for<R: Read>(
    alloc: Global,
    command: &ShowCommand,
    reader: &mut Watched<R>,
) -> Result<Vec<u8>, Fault>
    requires { reader.old.failed ≡ false }
    ensures all { IfOk result (λ v. reads_page_input command.now ≡ true
        → IfSome (R.remaining reader.old.inner) (λ bytes. v.items ≡ bytes)) }
    ensures nothing { IfOk result (λ v. reads_page_input command.now ≡ false → v.items ≡ []) }
    ensures end { OnOk result (EndsAfterPage command.now (R.remaining reader.new.inner)) }
    ensures short { IfOk result (λ v. length v.items ≤ 16777216) }
    ensures refused { IfErr result (IsOfReading (R.remaining reader.old.inner)) }
    ensures reads { OnErr result (reads_page_input command.now ≡ true) }
    ensures too_long { IfErr result (LeavesUnread (R.remaining reader.old.inner) (R.remaining reader.new.inner)) }
    ensures failed { FailsAs reader.new.failed false result }
    ensures unread { reads_page_input command.now ≡ false → reader.new ≡ reader.old }
{
    if !reads_page_input(command) {
        return Ok(Vec::new(alloc));
    }
    match read_input(alloc, reader) {
        Ok(input) => Ok(input),
        Err(fault) => Err(Fault::from(fault)),
    }
}

/// Writes a whole page.
fn write_page<W: Write>(writer: &mut Watched<W>, page: &[u8]) -> Result<(), Fault>
    requires { writer.old.failed ≡ false }
    ensures ok { OnOk result (Appends (W.contents writer.old.inner) (W.contents writer.new.inner) page.now) }
    ensures begun { OnErr result
        (AppendsBeginning (W.contents writer.old.inner) (W.contents writer.new.inner) page.now) }
    ensures refused { IfErr result (λ fault. fault ≡ Device WriteFault) }
    ensures failed { FailsAs false writer.new.failed result }
{
    match write_output(writer, page) {
        Ok(()) => Ok(()),
        Err(fault) => Err(Fault::from(fault)),
    }
}

/// Serves a command: reads the input to its end, and writes the command's page and nothing else. The
/// input comes from these files, in their order, or from standard input if there are none; a page of a
/// fault names them.
///
/// Faults come in the same order as those of `commands::execute`. No byte after the 16,777,217th is
/// read. A fault other than a failed write writes nothing. After a failed write a beginning of the
/// page was written.
#[tactic(auto, using(crate::proofs::ShowLemmas::page_shown, crate::proofs::ShowLemmas::page_begun, crate::proofs::ShowLemmas::write_fault_comes))]
pub fn show<R: Read, W: Write>(
    alloc: Global,
    command: &ShowCommand,
    files: &[String],
    reader: &mut Watched<R>,
    writer: &mut Watched<W>,
) -> Result<(), Fault>
    requires shown { IsShown command.now }
    requires unread { reader.old.failed ≡ false }
    requires unwritten { writer.old.failed ≡ false }

    // What is written is a page of the command for what is read.
    ensures written { OnOk result (OfRead command.now (R.remaining reader.old.inner)
        (Shows command.now (W.contents writer.old.inner) (W.contents writer.new.inner))) }

    // A command that reads its input reads all of it.
    ensures end { OnOk result (EndsAfterPage command.now (R.remaining reader.new.inner)) }

    // A fault comes only for an input with this fault, or from a device or memory.
    ensures refused { IfErr result (λ fault.
        OfRead command.now (R.remaining reader.old.inner) (ComesOfShowing command.now fault)) }

    // A fault other than a failed write writes nothing. After a failed write a beginning of the page
    // was written.
    ensures left { IfErr result (λ fault.
        LeavesShown command.now (R.remaining reader.old.inner) fault
        (W.contents writer.old.inner) (W.contents writer.new.inner)) }

    // An input that is too long is read no further than one byte after the longest input.
    ensures too_long { IfErr result (LeavesUnread (R.remaining reader.old.inner) (R.remaining reader.new.inner)) }

    // What a command does not read is left in the reader.
    ensures unread { reads_page_input command.now ≡ false → reader.new ≡ reader.old }

    // A read fault or a write fault is returned if and only if that device failed.
    ensures devices { FailsAs reader.new.failed writer.new.failed result }
{
    let input = match input_for(alloc, command, reader) {
        Ok(input) => input,
        Err(fault) => return Err(fault),
    };
    let page = match page_of(alloc, command, input.as_slice(), files) {
        Ok(page) => page,
        Err(fault) => return Err(fault),
    };
    write_page(writer, page.as_bytes())
}
