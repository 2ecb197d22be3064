//! A stream that interrupts its reader after each read.
ghost use Rattle.std.specs.Prelude.{◌≡◌, ◌<◌, ◌↔◌, IfErr, IfOk, false, true};
ghost use Rattle.std.specs.Io.{ReadsAtMost};
ghost use Rattle.std.specs.Io.KnownBytes.{ReadConsumes};
ghost use Rattle.std.specs.IoError.{error_kind};

use std::io;
use std::io::{Error, ErrorKind, Read, Write};

/// A stream on which the read after one that returned bytes fails with `Interrupted`.
///
/// A reader that loops until the stream is empty therefore stops after each piece, however much a
/// peer sends.
#[derive(Drop)]
pub struct ReadOnce<S> {
    stream: S,
    has_read: bool,
}

impl<S: Drop> ReadOnce<S> {
    /// Creates a stream that may be read.
    pub fn new(stream: S) -> Self
        ensures stream { result.stream ≡ stream }
        ensures open { result.has_read ≡ false }
    {
        ReadOnce {
            stream,
            has_read: false,
        }
    }

    /// The stream.
    pub fn get_ref(&self) -> &S {
        &self.stream
    }

    /// The stream.
    pub fn get_mut(&mut self) -> &mut S {
        &mut self.stream
    }
}

impl<S: Read> Read for ReadOnce<S> {
    ghost remaining = { λ s. S.remaining s.stream };

    fn read(&mut self, buf: &mut [u8]) -> io::Result<usize>
        ensures bound { ReadsAtMost result buf.new }
        ensures bytes { ReadConsumes (S.remaining self.old.stream) (S.remaining self.new.stream)
            result buf.new }
        // After bytes, the next call reads nothing from the stream and opens the gate.
        ensures shuts { IfOk result (λ count. self.new.has_read ≡ true ↔ 0 < count) }
        ensures interrupted { self.old.has_read ≡ true
            → IfErr result (λ error. error_kind error ≡ ErrorKind.Interrupted) }
        ensures fails { self.old.has_read ≡ true → IfOk result (λ _. ⊥) }
        ensures unread { self.old.has_read ≡ true
            → self.new ≡ record self.old { has_read = false } }
    {
        if self.has_read {
            self.has_read = false;
            return Err(Error::from(ErrorKind::Interrupted));
        }
        let count = self.stream.read(buf)?;
        self.has_read = count > 0;
        Ok(count)
    }
}

impl<S: Write> Write for ReadOnce<S> {
    ghost contents = { λ s. S.contents s.stream };

    fn write(&mut self, buf: &[u8]) -> io::Result<usize> {
        self.stream.write(buf)
    }

    fn flush(&mut self) -> io::Result<()> {
        self.stream.flush()
    }
}
