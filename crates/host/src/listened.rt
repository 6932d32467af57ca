//! A writer that remembers whether somebody still reads what it writes.
ghost use Rattle.std.specs.Prelude.{◌≡◌, false, true, IfErr, OnOk};
ghost use Rattle.std.specs.Io.{WritesAtMost};
ghost use Rattle.std.specs.Io.KnownBytes.{Keeps, WriteAppends};
ghost use Rattle.std.specs.IoError.{error_kind};
ghost use Rattle.host.specs.Listening.{Listening, unread_after};

use std::io;
use std::io::{ErrorKind, Write};
use std::marker::Model;

/// A writer that passes on writes and flushes, and notes whether one failed since nobody reads: the
/// system calls that a broken pipe. What was noted stays.
#[derive(Drop)]
pub struct Listened<W> {
    /// The writer.
    inner: W,
    /// Whether nobody reads any more.
    unread: bool,
}

impl<W> Model for Listened<W> {
    ghost Value = { Listening W };

    ghost view = { λ w. record { inner = w.inner; unread = w.unread } };
}

impl<W> Listened<W> {
    /// Returns a writer that was not found unread so far.
    pub fn of(inner: W) -> Listened<W>
        ensures inner { result.inner ≡ inner }
        ensures unread { result.unread ≡ false }
    {
        Listened {
            inner,
            unread: false,
        }
    }

    /// Returns whether a write or a flush failed since nobody reads.
    pub fn is_unread(&self) -> bool
        ensures { result ≡ self.now.unread }
    {
        self.unread
    }

    /// Notes an error, if it says that nobody reads.
    fn note(&mut self, error: &io::Error)
        ensures inner { self.new.inner ≡ self.old.inner }
        ensures noted { self.new.unread ≡ unread_after self.old.unread (error_kind error.now) }
    {
        match error.kind() {
            ErrorKind::BrokenPipe => self.unread = true,
            _ => {}
        }
    }
}

impl<W: Write> Write for Listened<W> {
    ghost contents = { λ w. W.contents w.inner };

    fn write(&mut self, buf: &[u8]) -> io::Result<usize>
        ensures bound { WritesAtMost result buf.now }
        ensures bytes { WriteAppends (W.contents self.old.inner) (W.contents self.new.inner) result buf.now }
        ensures kept { OnOk result (self.new.unread ≡ self.old.unread) }
        ensures noted { IfErr result (λ e. self.new.unread ≡ unread_after self.old.unread (error_kind e)) }
    {
        let result = self.inner.write(buf);
        if let Err(error) = &result {
            self.note(error);
        }
        result
    }

    fn flush(&mut self) -> io::Result<()>
        ensures bytes { Keeps (W.contents self.old.inner) (W.contents self.new.inner) }
        ensures kept { OnOk result (self.new.unread ≡ self.old.unread) }
        ensures noted { IfErr result (λ e. self.new.unread ≡ unread_after self.old.unread (error_kind e)) }
    {
        let result = self.inner.flush();
        if let Err(error) = &result {
            self.note(error);
        }
        result
    }
}
