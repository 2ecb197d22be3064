//! A reader as an [`Input`].
ghost use Rattle.std.specs.Prelude.{◌≡◌, ◌<◌, ◌≤◌, ◌+◌, ◌^◌, false, length, IfOk};
ghost use Rattle.std.specs.Io.KnownBytes.{ReadConsumes};
ghost use Rattle.input_text.specs.Read.{count_in, has_failed};

use crate::input::{Input, ReadFault};
use std::io::{ErrorKind, Read};

/// A reader that records whether a read of it failed.
#[derive(Drop)]
pub struct TrackedReader<R> {
    reader: R,
    given: u64,
    failed: bool,
}

impl<R> TrackedReader<R> {
    ghost use Rattle.input_text.specs.TrackedReader.{read_failed, tracked_reader_of};

    /// Creates an input over this reader, with no failed read.
    pub fn new(reader: R) -> TrackedReader<R>
        ensures reader { tracked_reader_of result ≡ reader }
        ensures failed { read_failed result ≡ false }
    {
        TrackedReader {
            reader,
            given: 0,
            failed: false,
        }
    }
}

/// Reads the bytes available, in one read. An interrupted read is repeated.
fn read_some<R: Read>(reader: &mut R, buf: &mut [u8]) -> Result<usize, ReadFault>
    requires room { 0 < length buf.old }
    ensures bound { IfOk result (λ n. n ≤ length buf.new) }
    ensures bytes { ReadConsumes (R.remaining reader.old) (R.remaining reader.new) result buf.new }
{
    for _ in 0..u64::MAX {
        match reader.read(buf) {
            Ok(count) => return Ok(count),
            Err(error) => match error.kind() {
                ErrorKind::Interrupted => {}
                ErrorKind::OutOfMemory => return Err(ReadFault::NoMemory),
                _ => return Err(ReadFault::Failed),
            },
        }
    }
    Err(ReadFault::Failed)
}

/// Whether a read failed for a reason other than memory.
fn is_failure(answer: &Result<usize, ReadFault>) -> bool
    ensures { result ≡ has_failed answer.now }
{
    match answer {
        Err(ReadFault::Failed) => true,
        _ => false,
    }
}

impl<R: Read> TrackedReader<R> {
    /// Reads once and counts the bytes. Fails if the count could reach 2^64.
    fn read_counted(&mut self, buf: &mut [u8]) -> Result<usize, ReadFault>
        requires room { 0 < length buf.old }
        ensures bound { IfOk result (λ n. n ≤ length buf.new) }
        ensures bytes { ReadConsumes (R.remaining self.old.reader) (R.remaining self.new.reader)
            result buf.new }
        ensures counted { self.new.given ≡ self.old.given + count_in result }
        ensures within { IfOk result (λ _. self.new.given < 2 ^ 64) }
    {
        if u64::MAX - self.given < buf.len() as u64 {
            return Err(ReadFault::Failed);
        }
        let count = read_some(&mut self.reader, buf)?;
        self.given += count as u64;
        Ok(count)
    }
}

impl<R: Read> Input for TrackedReader<R> {
    ghost left = { λ n. R.remaining n.reader };

    ghost failed = { λ n. n.failed };

    ghost given = { λ n. n.given };

    fn get(&mut self, buf: &mut [u8]) -> Result<usize, ReadFault> {
        let answer = self.read_counted(buf);
        self.failed = is_failure(&answer);
        answer
    }
}
