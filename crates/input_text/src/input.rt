//! Byte inputs, and why reading failed.
ghost use Rattle.std.specs.Prelude.{◌≡◌, ◌<◌, ◌≤◌, ◌+◌, ◌^◌, ℕ, Bool, false, Option, List, length, IfOk};
ghost use Rattle.std.specs.Io.KnownBytes.{ReadConsumes};
ghost use Rattle.input_text.specs.Fault.{either};
ghost use Rattle.input_text.specs.Read.{count_in, has_failed};

/// Why reading failed.
#[derive(Clone, Copy, Debug, PartialEq, Eq)]
pub enum ReadFault {
    /// A file could not be opened, or a read failed.
    Failed,
    /// Out of memory.
    NoMemory,
}

impl ReadFault {
    /// Maps each of the two faults to a fault of the caller.
    pub fn choose<F: Drop>(self, failed: F, no_memory: F) -> F
        ensures { result ≡ either failed no_memory self }
    {
        match self {
            ReadFault::Failed => failed,
            ReadFault::NoMemory => no_memory,
        }
    }
}

/// A source of bytes. Proofs see whether a read of it failed.
pub trait Input {
    /// The bytes not yet read, if they are known.
    ghost left: { Self → Option (List ℕ) };

    /// Whether a read failed for a reason other than memory.
    ghost failed: { Self → Bool };

    /// The number of bytes read so far.
    ghost given: { Self → ℕ };

    /// Reads bytes into the front of `buf`, which is not empty, and returns the number of bytes
    /// read: 0 only at the end. An input delivers fewer than 2^64 bytes in all. An error consumes
    /// no byte; after `Failed` nothing more may be read.
    fn get(&mut self, buf: &mut [u8]) -> Result<usize, ReadFault>
        requires room { 0 < length buf.old }
        requires works { failed self.old ≡ false }
        ensures bound { IfOk result (λ n. n ≤ length buf.new) }
        ensures bytes { ReadConsumes (left self.old) (left self.new) result buf.new }
        ensures counted { given self.new ≡ given self.old + count_in result }
        ensures within { IfOk result (λ _. given self.new < 2 ^ 64) }
        ensures failed { failed self.new ≡ has_failed result };
}
