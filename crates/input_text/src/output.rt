//! Byte outputs.
ghost use Rattle.std.specs.Prelude.{◌≡◌, ◌<◌, ◌≤◌, ℕ, Bool, true, Option, List, length, IfOk, OnOk, OnErr};
ghost use Rattle.std.specs.Io.KnownBytes.{Keeps, WriteAppends};
ghost use Rattle.input_text.specs.Write.{failed_after};

/// A device failed.
#[derive(Clone, Copy, Debug, PartialEq, Eq)]
pub struct Broken;

/// A destination of bytes. Proofs see whether a write to it failed.
pub trait Sink {
    /// The bytes written so far, if they are known.
    ghost held: { Self → Option (List ℕ) };

    /// Whether a write failed.
    ghost failed: { Self → Bool };

    /// The name of the loan through which it writes, or 0 if it borrows no other sink.
    ghost loan: { Self → ℕ } = { λ _. 0 };

    /// Writes bytes from the front of `bytes`, which is not empty, and returns the number of bytes
    /// written: at least 1. An error writes none.
    fn put(&mut self, bytes: &[u8]) -> Result<usize, Broken>
        requires room { 0 < length bytes.now }
        ensures bound { IfOk result (λ n. (0 < n) × (n ≤ length bytes.now)) }
        ensures bytes { WriteAppends (held self.old) (held self.new) result bytes.now }
        ensures failed_ok { OnOk result (failed self.new ≡ failed self.old) }
        ensures failed_err { OnErr result (failed self.new ≡ true) }
        ensures same { loan self.new ≡ loan self.old };
}

/// A sink that may buffer bytes until it is flushed.
pub trait Output: Sink {
    /// Writes all buffered bytes. An error counts as a failed write.
    fn flush(&mut self) -> Result<(), Broken>
        ensures bytes { Keeps (Self.held self.old) (Self.held self.new) }
        ensures failed { Self.failed self.new ≡ failed_after result (Self.failed self.old) }
        ensures same { Self.loan self.new ≡ Self.loan self.old };
}
