//! Reading a track plan from its file.
ghost use Rattle.std.specs.Prelude.{◌≡◌, ◌≢◌, ◌==◌, ◌<◌, IfErr, IfOk, List, is_some, false, true};
ghost use Rattle.roster.specs.Decoders.{entries_of};
ghost use Rattle.roster.specs.Entry.{Entry};
ghost use Rattle.lbserver.specs.Execution.{IsRailwayOf, IsEnd, status_of};
ghost use Rattle.lbserver.specs.PlanFaults.{HasPlanFault};
ghost use Rattle.railway_plan.specs.declared.fault.Reason.TheVariants.{NoMemory};
ghost use Rattle.railway_plan.specs.Railways.{IsFaultIn, IsRailwayIn};

use crate::fault::ServerFault;
use crate::files::read_file;
use command_line::FileName;
use console::RunFault;
use railway::Railway;
use railway_plan::{PlanTextFault, locate};
use roster::Roster;
use std::alloc::Global;

/// The longest plan, in bytes.
const LONGEST_PLAN: usize = 65_536;

/// Returns the railway of the plan in this file for the decoders of a roster, if both are given.
///
/// # Errors
///
/// `Plan` with the first fault of the plan; `Run` if the file cannot be opened or read, has more
/// than 65,536 bytes, or if out of memory.
pub(crate) fn read_railway(
    rt: &HostRuntime,
    file: Option<FileName>,
    roster: Option<&Roster>,
) -> Result<Option<Railway>, ServerFault>
    ensures railway { IfOk result (IsRailwayOf file (entries_of roster.entry)) }
    ensures end { IsEnd (is_some file) false false result }
{
    let (Some(file), Some(roster)) = (file, roster) else {
        return Ok(None);
    };
    let name = FileName::new(rt.alloc(), file.as_str())?;
    let text = read_file(rt, file, LONGEST_PLAN)?;
    Ok(Some(railway_of(rt.alloc(), name, text.as_slice(), roster)?))
}

/// Returns the railway of a text, which is that of the file of this name.
fn railway_of(
    alloc: Global,
    file: FileName,
    text: &[u8],
    roster: &Roster,
) -> Result<Railway, ServerFault>
    ensures railway { IfOk result (IsRailwayIn roster.now text.now) }
    ensures fault { IfErr result (HasPlanFault file roster.now text.now) }
    ensures end { IsEnd true false false result }
{
    match railway_plan::read_railway(alloc, text, roster) {
        Ok(railway) => Ok(railway),
        Err(fault) => Err(fault_of(alloc, file, text, fault)),
    }
}

/// Returns the fault of a text, which is that of the file of this name.
fn fault_of(alloc: Global, file: FileName, text: &[u8], fault: PlanTextFault) -> ServerFault
    ensures fault { (entries : List Entry)
        → (fault.why ≢ NoMemory → IsFaultIn entries text.now fault)
        → HasPlanFault file entries text.now result }
    ensures status { 1 < status_of result }
    ensures not_network { (status_of result == 4) ≡ false }
{
    if let railway_plan::Reason::NoMemory = fault.why {
        return ServerFault::Run(RunFault::NoMemory);
    }
    match locate(alloc, text, fault) {
        Ok(fault) => ServerFault::Plan { file, fault },
        Err(_) => ServerFault::Run(RunFault::NoMemory),
    }
}
