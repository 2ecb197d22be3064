//! Reading the railway of a plan.
ghost use Rattle.std.specs.Prelude.{◌≢◌, IfErr, IfOk};
ghost use Rattle.railway_plan.specs.declared.fault.Reason.TheVariants.{NoMemory};
ghost use Rattle.railway_plan.specs.Railways.{IsFaultIn, IsRailwayIn};

use crate::fault::{PlanTextFault, text_fault};
use crate::reading::read;
use railway::Railway;
use roster::Roster;
use std::alloc::Global;

/// Reads a track plan, as [`read`] does, and returns its railway for the decoders of a roster.
///
/// # Errors
///
/// The first fault of the text, or else the first of its plan. `NoMemory` if out of memory.
pub fn read_railway(alloc: Global, text: &[u8], roster: &Roster) -> Result<Railway, PlanTextFault>
    ensures ok { IfOk result (IsRailwayIn roster.now text.now) }
    ensures fault { IfErr result
        (λ fault. fault.why ≢ NoMemory → IsFaultIn roster.now text.now fault) }
{
    let plan = read(alloc, text, roster)?;
    match Railway::new(plan, &roster.nodes()) {
        Ok(railway) => Ok(railway),
        Err(fault) => Err(text_fault(roster, fault)),
    }
}
