//! Answering arguments that ask for help or the version.
ghost use Rattle.std.specs.Prelude.{◌≡◌, ◌⊎◌, ℕ, List, Err, IfErr, OnOk, true, false};
ghost use Rattle.std.specs.Io.KnownBytes.{Appends};
ghost use Rattle.command_line.specs.Requests.{is_request};
ghost use Rattle.console.specs.declared.fault.RunFault.TheVariants.{NoMemory};
ghost use Rattle.lbserver.specs.declared.fault.ServerFault.TheVariants.{Order, Output, Run};
ghost use Rattle.lbserver.specs.Execution.{ended_by_output, status_of};

use crate::fault::ServerFault;
use crate::standard_output::StandardOutput;
use command_line::OrderFault;
use std::alloc::Global;
use std::io::Write;

/// Writes the help or the version, if the arguments ask for one.
///
/// # Errors
///
/// The fault of other arguments; `Output` if the text cannot be written; `NoMemory` if out of
/// memory.
pub(crate) fn answer<O: Write>(
    alloc: Global,
    fault: OrderFault,
    output: &mut StandardOutput<O>,
) -> Result<(), ServerFault>
    requires works { output.old.failed ≡ false }
    ensures written { OnOk result ((text : List ℕ)
        × Appends (O.contents output.old.writer) (O.contents output.new.writer) text) }
    ensures output { output.new.failed ≡ ended_by_output result }
    ensures failed { is_request fault ≡ true
        → IfErr result (λ e. (e ≡ Output) ⊎ (e ≡ Run NoMemory)) }
    ensures starved { IfErr result (λ e. status_of e ≡ 6 → output.new ≡ output.old) }
    ensures kept { is_request fault ≡ false
        → (result ≡ Err (Order fault)) × (output.new ≡ output.old) }
{
    match fault.requested_text(alloc) {
        Ok(Some(text)) => match output.write_text(text.as_str()) {
            Ok(()) => Ok(()),
            Err(_) => Err(ServerFault::Output),
        },
        Ok(None) => Err(ServerFault::from(fault)),
        Err(error) => Err(ServerFault::from(error)),
    }
}
