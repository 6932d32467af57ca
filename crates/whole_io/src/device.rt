//! Reading the whole input, and writing the whole output.
ghost use Rattle.std.specs.Prelude.{◌≡◌, ◌≤◌, length, false, IfErr, IfOk, IfSome, OnErr, OnOk};
ghost use Rattle.std.specs.Io.KnownBytes.{Appends, IsAtEnd};
ghost use Rattle.whole_io.specs.Devices.{AppendsBeginning, FailsAs, IsOfReading, LeavesUnread};
ghost use Rattle.whole_io.specs.declared.fault.DeviceFault.TheVariants.{WriteFault};

use crate::fault::DeviceFault;
use crate::watched::Watched;
use std::alloc::Global;
use std::io::{Read, Write};

/// The greatest number of bytes that an input may have.
pub const LONGEST: usize = 16_777_216;

/// Reads to the end. Returns all bytes that are left in the reader, at most [`LONGEST`].
///
/// Fails with `ReadFault` if a read fails, and with `TooLong` if there is one byte more than the
/// longest input, whichever comes first. No byte after that one is read. It may run out of memory
/// at any point. The reader must not have failed before.
pub fn read_input<R: Read>(alloc: Global, reader: &mut Watched<R>) -> Result<Vec<u8>, DeviceFault>
    requires { reader.old.failed ≡ false }
    ensures all { IfOk result (λ v. IfSome (R.remaining reader.old.inner) (λ bytes. v.items ≡ bytes)) }
    ensures end { OnOk result (IsAtEnd (R.remaining reader.new.inner)) }
    ensures short { IfOk result (λ v. length v.items ≤ LONGEST) }
    ensures refused { IfErr result (IsOfReading (R.remaining reader.old.inner)) }
    ensures unread { IfErr result (LeavesUnread (R.remaining reader.old.inner) (R.remaining reader.new.inner)) }
    ensures failed { FailsAs reader.new.failed false result }
{
    let mut input = Vec::new(alloc);
    let mut chunk = [0u8; 4096];
    'reading: while input.len() <= LONGEST {
        let room = (LONGEST + 1 - input.len()).min(4096);
        let Ok(count) = reader.read(&mut chunk[..room]) else {
            return Err(DeviceFault::ReadFault);
        };
        if count == 0 {
            return Ok(input);
        }
        input.extend_from_slice(&chunk[..count])?;
    }
    Err(DeviceFault::TooLong)
}

/// Writes all the bytes, in one write or several. Writes nothing if there are no bytes. Does not
/// flush.
///
/// Fails with `WriteFault` if a write fails or takes no byte. What earlier writes took, a beginning
/// of the output, stays written. The writer must not have failed before. Allocates nothing.
pub fn write_output<W: Write>(writer: &mut Watched<W>, output: &[u8]) -> Result<(), DeviceFault>
    requires { writer.old.failed ≡ false }
    ensures ok { OnOk result (Appends (W.contents writer.old.inner) (W.contents writer.new.inner) output.now) }
    ensures begun { OnErr result
        (AppendsBeginning (W.contents writer.old.inner) (W.contents writer.new.inner) output.now) }
    ensures refused { IfErr result (λ fault. fault ≡ WriteFault) }
    ensures failed { FailsAs false writer.new.failed result }
{
    let mut at = 0;
    'writing: while at < output.len() {
        let Ok(count) = writer.write(&output[at..]) else {
            return Err(DeviceFault::WriteFault);
        };
        if count == 0 {
            return Err(DeviceFault::WriteFault);
        }
        at += count;
    }
    Ok(())
}
