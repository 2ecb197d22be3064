//! Readers and writers as devices.
ghost use Rattle.std.specs.Prelude.{◌≡◌, false};
ghost use Rattle.layout_core.specs.Port.{count_of, some_count_of};

use crate::device::Source;
use crate::ghost_count::GhostCount;
use input_text::{Broken, Sink};
use std::io;
use std::io::{Read, Write};

/// A reader as a source, or a writer as a sink. Each call makes exactly one call of the reader or
/// the writer. A write that accepts no byte is an error.
#[derive(Drop)]
pub struct Port<T> {
    inner: T,
    failed: bool,
    ended: bool,
    reads: GhostCount,
}

impl<T> Port<T> {
    ghost use Rattle.layout_core.specs.Port.{port_ended, port_failed, port_inner, port_reads};

    /// Creates a device over `inner` that has neither failed nor ended.
    pub fn new(inner: T) -> Port<T>
        ensures inner { port_inner result ≡ inner }
        ensures failed { port_failed result ≡ false }
        ensures ended { port_ended result ≡ false }
        ensures reads { port_reads result ≡ 0 }
    {
        Port {
            inner,
            failed: false,
            ended: false,
            reads: GhostCount::new(),
        }
    }
}

/// Converts the result of the reader's call. No error is retried.
fn given(answer: io::Result<usize>) -> Result<usize, Broken>
    ensures { count_of result ≡ count_of answer }
{
    answer.map_err(|_| Broken)
}

/// Converts the result of the writer's call. A write of no byte is an error, and none is retried.
fn taken(answer: io::Result<usize>) -> Result<usize, Broken>
    ensures { count_of result ≡ some_count_of answer }
{
    match answer {
        Ok(n) if n > 0 => Ok(n),
        _ => Err(Broken),
    }
}

impl<T: Read> Source for Port<T> {
    ghost left = { λ p. T.remaining p.inner };

    ghost failed = { λ p. p.failed };

    ghost ended = { λ p. p.ended };

    ghost reads = { λ p. p.reads.count };

    fn get(&mut self, buf: &mut [u8]) -> Result<usize, Broken> {
        self.reads.step();
        let count = given(self.inner.read(buf));
        match count {
            Ok(n) => self.ended = n == 0,
            Err(_) => self.failed = true,
        }
        count
    }
}

impl<T: Write> Sink for Port<T> {
    ghost held = { λ p. T.contents p.inner };

    ghost failed = { λ p. p.failed };

    fn put(&mut self, bytes: &[u8]) -> Result<usize, Broken> {
        let count = taken(self.inner.write(bytes));
        if count.is_err() {
            self.failed = true;
        }
        count
    }
}
