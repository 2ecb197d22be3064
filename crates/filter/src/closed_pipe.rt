//! Standard output as a pipe whose reader ends first, as `| head -1` does: that is no fault.
ghost use Rattle.std.specs.Prelude.{◌≡◌};
ghost use Rattle.filter.specs.ClosedPipe.{exit_status};

use std::cell::Cell;
use std::io;
use std::io::{ErrorKind, Write};

/// The status of a run whose output has failed.
const OUTPUT_FAILED: u8 = 4;

/// Returns the exit status of a run with this status: 0 if its output failed since a reader has
/// closed the pipe.
pub(crate) fn exit_status(status: u8, is_closed: bool) -> u8
    ensures { result ≡ exit_status status is_closed }
{
    if status == OUTPUT_FAILED && is_closed {
        0
    } else {
        status
    }
}

/// A writer that notes whether it found a pipe that its reader has closed.
#[derive(Drop)]
pub(crate) struct PipeWriter<'a, W> {
    pub(crate) writer: W,
    /// Set when the pipe is found closed.
    pub(crate) is_closed: &'a Cell<bool>,
}

impl<W: Write> Write for PipeWriter<'_, W> {
    ghost contents = { λ pipe. W.contents pipe.writer };

    fn write(&mut self, buf: &[u8]) -> io::Result<usize> {
        let written = self.writer.write(buf);
        if is_broken_pipe(&written) {
            self.is_closed.set(true);
        }
        written
    }

    fn flush(&mut self) -> io::Result<()> {
        let flushed = self.writer.flush();
        if is_broken_pipe(&flushed) {
            self.is_closed.set(true);
        }
        flushed
    }
}

/// A writer of fault lines, which are left out once the pipe of the output is closed.
#[derive(Drop)]
pub(crate) struct FaultWriter<'a, E> {
    pub(crate) faults: E,
    /// Whether the writer is silent.
    pub(crate) is_closed: &'a Cell<bool>,
}

impl<E: Write> Write for FaultWriter<'_, E> {
    fn write(&mut self, buf: &[u8]) -> io::Result<usize> {
        if self.is_closed.get() {
            return Ok(buf.len());
        }
        self.faults.write(buf)
    }

    fn flush(&mut self) -> io::Result<()> {
        self.faults.flush()
    }
}

/// Whether a call failed since the reader has closed the pipe.
fn is_broken_pipe<T>(answer: &io::Result<T>) -> bool {
    match answer {
        Ok(_) => false,
        Err(error) => error.kind() == ErrorKind::BrokenPipe,
    }
}
