//! Reporting why a run failed.
ghost use Rattle.std.specs.Prelude.{◌≡◌};
ghost use Rattle.console.specs.Fault.{status_of};

use crate::fault::RunFault;
use std::io::Write;

/// The name of `station`, with which its fault lines begin.
pub const STATION: &'static str = "station";

/// Reports a fault of `station` as one line `station: ..`, and returns its status, 1 to 6. A failure
/// of this report cannot be reported.
pub fn report<E: Write>(fault: &RunFault, faults: &mut E) -> u8
    ensures { result ≡ status_of fault.now }
{
    report_as(STATION, fault, faults)
}

/// Reports a fault of the program with this name, with which the line begins.
pub fn report_as<E: Write>(program: &str, fault: &RunFault, faults: &mut E) -> u8
    ensures { result ≡ status_of fault.now }
{
    let _ = writeln!(faults, "{program}: {fault}");
    fault.status()
}
