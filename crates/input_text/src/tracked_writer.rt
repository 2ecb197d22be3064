//! A writer as an [`Output`].
ghost use Rattle.std.specs.Prelude.{◌≡◌, ◌<◌, ◌≤◌, false, length, IfOk};
ghost use Rattle.std.specs.Io.KnownBytes.{Keeps, WriteAppends};

use crate::output::{Broken, Output, Sink};
use std::io;
use std::io::{ErrorKind, Write};

/// A writer that records whether a write or a flush of it failed. An interrupted call is repeated.
#[derive(Drop)]
pub struct TrackedWriter<W> {
    writer: W,
    failed: bool,
}

impl<W> TrackedWriter<W> {
    ghost use Rattle.input_text.specs.TrackedWriter.{tracked_writer, write_failed};

    /// Creates an output over this writer, with no failed write.
    pub fn new(writer: W) -> TrackedWriter<W>
        ensures writer { tracked_writer result ≡ writer }
        ensures failed { write_failed result ≡ false }
    {
        TrackedWriter {
            writer,
            failed: false,
        }
    }

    /// Whether a write or a flush has failed.
    pub fn has_failed(&self) -> bool
        ensures { result ≡ write_failed self.now }
    {
        self.failed
    }

    /// Returns the writer.
    pub fn into_inner(self) -> W
        ensures { result ≡ tracked_writer self }
    {
        self.writer
    }
}

/// Whether the call was interrupted and is to be repeated.
fn is_interrupted(error: &io::Error) -> bool {
    error.kind() == ErrorKind::Interrupted
}

/// Writes the bytes that the writer accepts at once, at least 1. Accepting no byte is a failure.
fn write_some<W: Write>(writer: &mut W, bytes: &[u8]) -> Result<usize, Broken>
    requires room { 0 < length bytes.now }
    ensures bound { IfOk result (λ n. (0 < n) × (n ≤ length bytes.now)) }
    ensures bytes { WriteAppends (W.contents writer.old) (W.contents writer.new) result bytes.now }
{
    for _ in 0..u64::MAX {
        match writer.write(bytes) {
            Ok(0) => return Err(Broken),
            Ok(count) => return Ok(count),
            Err(error) => {
                if !is_interrupted(&error) {
                    return Err(Broken);
                }
            }
        }
    }
    Err(Broken)
}

/// Flushes a writer.
fn flush_all<W: Write>(writer: &mut W) -> Result<(), Broken>
    ensures { Keeps (W.contents writer.old) (W.contents writer.new) }
{
    for _ in 0..u64::MAX {
        match writer.flush() {
            Ok(()) => return Ok(()),
            Err(error) => {
                if !is_interrupted(&error) {
                    return Err(Broken);
                }
            }
        }
    }
    Err(Broken)
}

impl<W: Write> Sink for TrackedWriter<W> {
    ghost held = { λ t. W.contents t.writer };

    ghost failed = { λ t. t.failed };

    fn put(&mut self, bytes: &[u8]) -> Result<usize, Broken> {
        let answer = write_some(&mut self.writer, bytes);
        if answer.is_err() {
            self.failed = true;
        }
        answer
    }
}

impl<W: Write> Output for TrackedWriter<W> {
    fn flush(&mut self) -> Result<(), Broken> {
        let answer = flush_all(&mut self.writer);
        if answer.is_err() {
            self.failed = true;
        }
        answer
    }
}
