//! Flushing a buffer at the end of a run.
ghost use Rattle.std.specs.Prelude.{◌≡◌, Err, IfErr, OnOk, is_ok, true};
ghost use Rattle.std.specs.Io.KnownBytes.{Keeps};
ghost use Rattle.console.specs.Buffered.{buffered_failed, buffered_held, buffered_loan};
ghost use Rattle.console.specs.Fault.{ended_by, is_unwritten};

use crate::buffered::Buffered;
use crate::fault::RunFault;
use input_text::Output;

/// Flushes a buffer after a run that printed to it succeeded. The fault of a run that failed is
/// returned unchanged.
///
/// # Errors
///
/// The fault of the run, in which case the buffer is left as it was; `Output` if the bytes could
/// not be written.
pub fn flush_after<O: Output>(
    done: Result<(), RunFault>,
    buffered: &mut Buffered<'_, O>,
) -> Result<(), RunFault>
    requires { buffered_failed O.failed buffered.old ≡ ended_by is_unwritten done }
    ensures done { OnOk result (is_ok done ≡ true) }
    ensures bytes { OnOk result
        (Keeps (buffered_held O.held buffered.old) (O.held buffered.new.output.now)) }
    ensures untouched { IfErr done (λ e. (result ≡ Err e) × (buffered.new ≡ buffered.old)) }
    ensures fault { OnOk done (IfErr result (λ e. e ≡ RunFault.Output)) }
    ensures failed { buffered_failed O.failed buffered.new ≡ ended_by is_unwritten result }
    ensures same { buffered_loan buffered.new ≡ buffered_loan buffered.old }
{
    done?;
    buffered.flush().map_err(|_| RunFault::Output)
}
