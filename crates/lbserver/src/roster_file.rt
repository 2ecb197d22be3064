//! Reading a roster from its file.
ghost use Rattle.std.specs.Prelude.{◌≡◌, ◌≢◌, ◌==◌, ◌<◌, Ok, Err, IfErr, IfOk, is_some, false, true};
ghost use Rattle.console.specs.Files.{IsRosterOf};
ghost use Rattle.roster.specs.Format.{roster_in};
ghost use Rattle.roster.specs.declared.fault.RosterFaultKind.TheVariants.{NoMemory};
ghost use Rattle.lbserver.specs.Execution.{IsEnd, status_of};
ghost use Rattle.lbserver.specs.RosterFaults.{HasFault};

use crate::fault::ServerFault;
use crate::files::read_file;
use command_line::FileName;
use console::{LONGEST_ROSTER, RunFault};
use roster::{Roster, RosterFault, fault_details};
use std::alloc::Global;

/// Returns the roster of this file, if a file is given.
///
/// # Errors
///
/// `Roster` with the first fault of its text; those of [`read_file`], also if the file has more than
/// 65,536 bytes.
pub(crate) fn read_roster(
    rt: &HostRuntime,
    file: Option<FileName>,
) -> Result<Option<Roster>, ServerFault>
    ensures roster { IfOk result (λ roster. IsRosterOf file roster) }
    ensures end { IsEnd (is_some file) false false result }
{
    let Some(file) = file else {
        return Ok(None);
    };
    let name = FileName::new(rt.alloc(), file.as_str())?;
    let text = read_file(rt, file, LONGEST_ROSTER)?;
    Ok(Some(roster_of(rt.alloc(), name, text.as_slice())?))
}

/// Returns the roster of a text, which is that of the file of this name.
pub(crate) fn roster_of(alloc: Global, file: FileName, text: &[u8]) -> Result<Roster, ServerFault>
    ensures roster { IfOk result (λ roster. roster_in text.now ≡ Ok roster) }
    ensures fault { IfErr result (HasFault file text.now) }
    ensures end { IsEnd true false false result }
{
    match roster::read(alloc, text) {
        Ok(roster) => Ok(roster),
        Err(fault) => Err(fault_of(alloc, file, text, fault)),
    }
}

/// Returns the fault of a text, which is that of the file of this name.
fn fault_of(alloc: Global, file: FileName, text: &[u8], fault: RosterFault) -> ServerFault
    requires { fault.why ≢ NoMemory → roster_in text.now ≡ Err fault }
    ensures fault { HasFault file text.now result }
    ensures status { 1 < status_of result }
    ensures not_network { (status_of result == 4) ≡ false }
{
    if let roster::RosterFaultKind::NoMemory = fault.why {
        return ServerFault::Run(RunFault::NoMemory);
    }
    match fault_details(alloc, text, fault.node) {
        Ok(details) => ServerFault::Roster {
            file,
            fault,
            details,
        },
        Err(_) => ServerFault::Run(RunFault::NoMemory),
    }
}
