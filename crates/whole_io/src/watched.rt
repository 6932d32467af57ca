//! A reader or a writer that remembers whether it has failed.
ghost use Rattle.std.specs.Prelude.{◌≡◌, ◌<◌, true, false, OnErr, OnOk, IfOk, length, ◌⊎◌};
ghost use Rattle.std.specs.Io.{ReadsAtMost, WritesAtMost};
ghost use Rattle.std.specs.Io.KnownBytes.{ReadConsumes, WriteAppends, Keeps};
ghost use Rattle.whole_io.specs.Watching.{Watching};

use std::io;
use std::io::{Read, Write};
use std::marker::Model;

/// A reader or a writer that passes on reads, writes and flushes, and notes whether one has failed.
/// A call has failed if it returned an error, or if it was a write of some bytes that took none. A
/// failure that was noted stays.
#[derive(Drop)]
pub struct Watched<T> {
    /// The reader or the writer.
    inner: T,
    /// Whether a call has failed.
    failed: bool,
}

impl<T> Model for Watched<T> {
    ghost Value = { Watching T };

    ghost view = { λ w. record { inner = w.inner; failed = w.failed } };
}

impl<T> Watched<T> {
    /// Returns a watched reader or writer, with no failure noted so far.
    pub fn of(inner: T) -> Watched<T>
        ensures inner { result.inner ≡ inner }
        ensures failed { result.failed ≡ false }
    {
        Watched {
            inner,
            failed: false,
        }
    }

    /// Returns whether a read, a write or a flush has failed since the watch began.
    pub fn failed(&self) -> bool
        ensures { result ≡ self.now.failed }
    {
        self.failed
    }

    /// Notes the failure of a call, if it has failed.
    fn note(&mut self, failed: bool)
        ensures inner { self.new.inner ≡ self.old.inner }
        ensures noted { failed ≡ true → self.new.failed ≡ true }
        ensures kept { failed ≡ false → self.new.failed ≡ self.old.failed }
    {
        if failed {
            self.failed = true;
        }
    }
}

impl<R: Read> Read for Watched<R> {
    ghost remaining = { λ w. R.remaining w.inner };

    fn read(&mut self, buf: &mut [u8]) -> io::Result<usize>
        ensures bound { ReadsAtMost result buf.new }
        ensures bytes { ReadConsumes (R.remaining self.old.inner) (R.remaining self.new.inner) result buf.new }
        ensures kept { OnOk result (self.new.failed ≡ self.old.failed) }
        ensures noted { OnErr result (self.new.failed ≡ true) }
    {
        let result = self.inner.read(buf);
        self.note(result.is_err());
        result
    }
}

impl<W: Write> Write for Watched<W> {
    ghost contents = { λ w. W.contents w.inner };

    fn write(&mut self, buf: &[u8]) -> io::Result<usize>
        ensures bound { WritesAtMost result buf.now }
        ensures bytes { WriteAppends (W.contents self.old.inner) (W.contents self.new.inner) result buf.now }
        ensures kept { IfOk result (λ n. (length buf.now ≡ 0) ⊎ (0 < n) → self.new.failed ≡ self.old.failed) }
        ensures stuck { IfOk result (λ n. n ≡ 0 → 0 < length buf.now → self.new.failed ≡ true) }
        ensures noted { OnErr result (self.new.failed ≡ true) }
    {
        let result = self.inner.write(buf);
        self.note(match &result {
            Ok(count) => *count == 0 && !buf.is_empty(),
            Err(_) => true,
        });
        result
    }

    fn flush(&mut self) -> io::Result<()>
        ensures bytes { Keeps (W.contents self.old.inner) (W.contents self.new.inner) }
        ensures kept { OnOk result (self.new.failed ≡ self.old.failed) }
        ensures noted { OnErr result (self.new.failed ≡ true) }
    {
        let result = self.inner.flush();
        self.note(result.is_err());
        result
    }
}
