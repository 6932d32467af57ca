//! The command `run`: clients in threads that share the lock of a plan, and the record of what they
//! did.
ghost use Rattle.std.specs.Prelude.{◌≡◌, false, IfErr, IfSome, OnOk, string_bytes};
ghost use Rattle.commands.specs.Devices.{FailsAs, IsOwn, LeavesUnread};
ghost use Rattle.commands.specs.Commands.{Answers, ComesOf, HasTurns, IsAnswered, IsRunnable, LeavesWritten, LetsAll};
ghost use Rattle.std.specs.Io.KnownBytes.{IsAtEnd};

use crate::run::record_of_run;
use cluster::Gate;
use command_line::Command;
use commands::{Fault, input_for, planned_of, write_answer};
use replay::write_record;
use std::alloc::Global;
use std::io::{Read, Write};
use std::sync::Wait;
use std::thread::Threads;
use std::time::Clock;
use whole_io::Watched;

/// Returns what `run` writes for an input: the text of the record of a run.
#[tactic(auto, using(crate::proofs::AnswerLemmas::run_is_answer))]
fn run_answer<T: Threads + Wait + Clock + Sync, G: Gate>(
    rt: &T,
    alloc: Global,
    command: &Command,
    input: &[u8],
    gate: &G,
) -> Result<String, Fault>
    requires { IsRunnable command.now }
    ensures exact { IsAnswered string_bytes command.now input.now result }
    ensures own { IfErr result IsOwn }
    ensures let_pass { OnOk result (LetsAll (G.lets gate.now) command.now) }
    ensures in_turns { OnOk result (HasTurns command.now) }
{
    let Command::Run {
        clients,
        passes,
        turns,
    } = command
    else {
        unreachable!()
    };
    let planned = match planned_of(alloc, input) {
        Ok(planned) => planned,
        Err(fault) => return Err(fault),
    };
    let run = match record_of_run(rt, alloc, planned.plan, *clients, *passes, *turns, gate) {
        Ok(run) => run,
        Err(fault) => return Err(Fault::from(fault)),
    };
    match write_record(alloc, &run) {
        Ok(text) => Ok(text),
        Err(_) => Err(Fault::OutOfMemory),
    }
}

/// Serves `run`: reads the input to its end, runs the lock of its plan, and writes the text of the
/// record and nothing else. The threads of the clients share the gate.
///
/// Faults come in the same order as those of `execute`. If a run ends early, the fault is that of
/// the smallest client whose work ended early.
pub fn execute_run<T: Threads + Wait + Clock + Sync, R: Read, W: Write, G: Gate>(
    rt: &T,
    alloc: Global,
    command: &Command,
    reader: &mut Watched<R>,
    writer: &mut Watched<W>,
    gate: &G,
) -> Result<(), Fault>
    requires run { IsRunnable command.now }
    requires unread { reader.old.failed ≡ false }
    requires unwritten { writer.old.failed ≡ false }

    // What is written is the text of the record of a run by the plan that is read.
    ensures written { OnOk result (IfSome (R.remaining reader.old.inner) (λ input.
        Answers command.now input (W.contents writer.old.inner) (W.contents writer.new.inner))) }

    // All input was read.
    ensures end { OnOk result (IsAtEnd (R.remaining reader.new.inner)) }

    // An input that is too long is read no further than one byte after the longest input.
    ensures too_long { IfErr result (LeavesUnread (R.remaining reader.old.inner) (R.remaining reader.new.inner)) }

    // The gate lets each client pass, and there are at least two turns for each pass.
    ensures let_pass { OnOk result (LetsAll (G.lets gate.now) command.now) }
    ensures in_turns { OnOk result (HasTurns command.now) }

    // A fault comes only for an input with this fault, or from a device or memory.
    ensures refused { IfErr result (λ fault.
        IfSome (R.remaining reader.old.inner) (λ input. ComesOf command.now input fault)) }

    // A fault other than a failed write writes nothing. After a failed write a beginning of the
    // output was written.
    ensures left { IfErr result (λ fault.
        LeavesWritten command.now (R.remaining reader.old.inner) fault
        (W.contents writer.old.inner) (W.contents writer.new.inner)) }

    // A read fault or a write fault is returned if and only if that device failed.
    ensures devices { FailsAs reader.new.failed writer.new.failed result }
{
    let input = match input_for(alloc, command, reader) {
        Ok(input) => input,
        Err(fault) => return Err(fault),
    };
    let output = match run_answer(rt, alloc, command, input.as_slice(), gate) {
        Ok(output) => output,
        Err(fault) => return Err(fault),
    };
    write_answer(writer, output.as_bytes())
}
