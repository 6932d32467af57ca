//! Writers whose reader is gone.
use host::Listened;
use std::io;
use std::io::{ErrorKind, Write};

/// A writer that takes nothing, and fails with an error of this kind.
#[derive(Drop)]
struct Shut {
    kind: ErrorKind,
}

impl Write for Shut {
    fn write(&mut self, _buf: &[u8]) -> io::Result<usize> {
        Err(io::Error::from(self.kind))
    }

    fn flush(&mut self) -> io::Result<()> {
        Err(io::Error::from(self.kind))
    }
}

/// Returns whether a write and a flush fail, and each notes that nobody reads.
fn note(kind: ErrorKind) -> [bool; 2] {
    let mut output = Listened::of(Shut { kind });
    let mut flushed = Listened::of(Shut { kind });
    [
        output.write(b"page").is_err() & output.is_unread(),
        flushed.flush().is_err() & flushed.is_unread(),
    ]
}

#[test]
fn a_reader_that_is_gone_is_noted(rt: HostRuntime) {
    assert!(rt; note(ErrorKind::BrokenPipe) == [true, true]);
    assert!(rt; note(ErrorKind::StorageFull) == [false, false]);
}
