//! The output of queued lines.
ghost use Rattle.std.specs.Prelude.{◌≡◌, ◌<◌, ◌≤◌, ◌∷◌, [], Bool, IfOk, List, OnOk, Option, length, ℕ};
ghost use Rattle.std.specs.Io.KnownBytes.{Appends, WriteAppends};
ghost use Rattle.input_text.specs.Write.{failed_after};
ghost use Rattle.bus_log.specs.LogQueues.{WritesQueued, WritesUntilBlocked};

use crate::log_queue::LogQueue;
use crate::printer::Printer;
use console::WriteError;
use std::time::Duration;

/// The most bytes written at once. A pipe or a terminal that accepts any bytes accepts this many.
const MOST_AT_ONCE: usize = 4_096;

/// More writes than a full queue needs.
const MOST_WRITES: usize = 64;

/// An output of lines that is written only while it accepts bytes.
pub trait LogOutput {
    /// The bytes written so far, if they are known.
    ghost written: { Self → Option (List ℕ) };

    /// The number of bytes that each write has taken so far, if these are known.
    ghost counts: { Self → Option (List ℕ) };

    /// Whether a write failed.
    ghost failed: { Self → Bool };

    /// Writes bytes from the front, if the output accepts any within `longest`, and returns the
    /// number written: 0 if it would block.
    ///
    /// # Errors
    ///
    /// `WriteError` if the output fails.
    fn write_ready(&mut self, bytes: &[u8], longest: Duration) -> Result<usize, WriteError>
        requires some { 0 < length bytes.now }
        ensures bound { IfOk result (λ count. count ≤ length bytes.now) }
        ensures bytes { WriteAppends (written self.old) (written self.new) result bytes.now }
        ensures counts { IfOk result
            (λ count. Appends (counts self.old) (counts self.new) (count ∷ [])) }
        ensures failed { failed self.new ≡ failed_after result (failed self.old) };
}

impl Printer<'_> {
    ghost use Rattle.bus_log.specs.Printers.{printer_state};

    /// Writes the queued lines until the output would block for `longest`.
    ///
    /// # Errors
    ///
    /// `WriteError` if the output fails.
    pub fn write_queued<T: LogOutput>(
        &mut self,
        output: &mut T,
        longest: Duration,
    ) -> Result<(), WriteError>
        ensures written { WritesQueued self.old.log self.new.log (T.written output.old)
            (T.written output.new) }
        ensures progress { OnOk result (WritesUntilBlocked self.new.log (T.counts output.old)
            (T.counts output.new)) }
        ensures failed { T.failed output.new ≡ failed_after result (T.failed output.old) }
        ensures kept { printer_state self.new ≡ printer_state self.old }
        ensures roster { self.new.roster ≡ self.old.roster }
        ensures verbosity { self.new.verbosity ≡ self.old.verbosity }
    {
        write_queued(&mut self.log, output, longest)
    }
}

/// Writes queued lines until the output would block for `longest`.
///
/// # Errors
///
/// `WriteError` if the output fails. The bytes that it did not accept stay queued.
pub fn write_queued<T: LogOutput>(
    log: &mut LogQueue,
    output: &mut T,
    longest: Duration,
) -> Result<(), WriteError>
    ensures written { WritesQueued log.old log.new (T.written output.old) (T.written output.new) }
    ensures progress { OnOk result
        (WritesUntilBlocked log.new (T.counts output.old) (T.counts output.new)) }
    ensures failed { T.failed output.new ≡ failed_after result (T.failed output.old) }
{
    for _write in 0..MOST_WRITES {
        log.report_left_out();
        if !log.has_queued() {
            return Ok(());
        }
        let count = output.write_ready(log.front(MOST_AT_ONCE), longest)?;
        if count == 0 {
            return Ok(());
        }
        log.consume(count);
    }
    Ok(())
}
