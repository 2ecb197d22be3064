//! The input of a served connection. Its output is a [`Sink`](input_text::Sink).
ghost use Rattle.std.specs.Prelude.{◌≡◌, ℕ, ◌+◌, ◌<◌, ◌≤◌, ◌==◌, Bool, true, false, Option, List, length, IfOk, OnOk, OnErr};
ghost use Rattle.std.specs.Io.KnownBytes.{ReadConsumes};

use input_text::Broken;

/// A source of bytes.
pub trait Source {
    /// The bytes not yet read, if they are known.
    ghost left: { Self → Option (List ℕ) };

    /// Whether a read failed.
    ghost failed: { Self → Bool };

    /// Whether a read found the end.
    ghost ended: { Self → Bool };

    /// The number of reads.
    ghost reads: { Self → ℕ };

    /// Reads bytes into the front of `buf`, which is not empty, and returns the number of bytes
    /// read: 0 only at the end, after which nothing more may be read. An error consumes no byte.
    fn get(&mut self, buf: &mut [u8]) -> Result<usize, Broken>
        requires room { 0 < length buf.old }
        requires goes_on { ended self.old ≡ false }
        ensures bound { IfOk result (λ n. n ≤ length buf.new) }
        ensures bytes { ReadConsumes (left self.old) (left self.new) result buf.new }
        ensures counted { reads self.new ≡ reads self.old + 1 }
        ensures end { IfOk result (λ n. ended self.new ≡ (n == 0)) }
        ensures still { OnErr result (ended self.new ≡ false) }
        ensures failed_ok { OnOk result (failed self.new ≡ failed self.old) }
        ensures failed_err { OnErr result (failed self.new ≡ true) };
}
