//! A buffer for an output.
ghost use Rattle.std.specs.Prelude.{◌≡◌, ◌<◌, ◌≤◌, ◌+◌, ◌++◌, [], IfOk, OnErr, OnOk, length, true};
ghost use Rattle.std.specs.Io.KnownBytes.{Keeps, WriteAppends};
ghost use Rattle.input_text.specs.Write.{failed_after};

use arrayvec::ArrayVec;
use input_text::{Broken, Output, Sink};
use text::push_bytes;

/// The capacity of the buffer in bytes.
const ROOM: usize = 8192;

/// A buffer for a borrowed output: it collects bytes and writes many at a time. Bytes still
/// buffered when it is dropped are lost.
#[derive(Drop)]
pub struct Buffered<'a, O> {
    output: &'a mut O,
    waiting: ArrayVec<u8, ROOM>,
    /// How many of the buffered bytes are already written.
    written: usize,
    ghost within: { written ≤ length waiting.items },
}

impl<'a, O: Output> Buffered<'a, O> {
    ghost use Rattle.console.specs.Buffered.{buffered_failed, buffered_held, buffered_loan};

    /// Creates an empty buffer for this output.
    pub fn new(output: &'a mut O) -> Buffered<'a, O>
        ensures held { buffered_held O.held result ≡ O.held output.old }
        ensures failed { buffered_failed O.failed result ≡ O.failed output.old }
        ensures same_reference { buffered_loan result ≡ output.entry.ghost_name }
        ensures value { result.output.now ≡ output.old }
    {
        Buffered {
            output,
            waiting: ArrayVec::new(),
            written: 0,
        }
    }

    /// Writes all buffered bytes.
    fn write_out(&mut self) -> Result<(), Broken>
        ensures bytes { Keeps (buffered_held O.held self.old) (buffered_held O.held self.new) }
        ensures empty { OnOk result ((self.new.waiting.items ≡ []) × (self.new.written ≡ 0)) }
        ensures failed { buffered_failed O.failed self.new
            ≡ failed_after result (buffered_failed O.failed self.old) }
        ensures same { buffered_loan self.new ≡ buffered_loan self.old }
    {
        while self.written < self.waiting.len() {
            let count = self.output.put(&self.waiting.as_slice()[self.written..])?;
            self.written += count;
        }
        self.written = 0;
        self.waiting.clear();
        Ok(())
    }

    /// Writes all buffered bytes and flushes the output.
    pub(crate) fn flush(&mut self) -> Result<(), Broken>
        ensures bytes { OnOk result
            (Keeps (buffered_held O.held self.old) (O.held self.new.output.now)) }
        ensures failed { buffered_failed O.failed self.new
            ≡ failed_after result (buffered_failed O.failed self.old) }
        ensures same { buffered_loan self.new ≡ buffered_loan self.old }
    {
        self.write_out()?;
        self.output.flush()
    }
}

impl<O: Output> Sink for Buffered<'_, O> {
    ghost use Rattle.console.specs.Buffered.{buffered_failed, buffered_held, buffered_loan};

    ghost held = { buffered_held O.held };

    ghost failed = { buffered_failed O.failed };

    ghost loan = { buffered_loan };

    fn put(&mut self, bytes: &[u8]) -> Result<usize, Broken> {
        if ROOM - self.waiting.len() < bytes.len() {
            self.write_out()?;
        }
        let count = bytes.len().min(ROOM - self.waiting.len());
        push_bytes(&mut self.waiting, &bytes[..count]);
        Ok(count)
    }
}
