//! Reading a roster from its file.
ghost use Rattle.std.specs.Prelude.{◌≡◌, None, false, IfErr, IfOk};
ghost use Rattle.console.specs.Fault.{ended_by, is_unread_file};
ghost use Rattle.console.specs.Files.{FailsRoster, HasNoRoster, IsRosterOf, ReadsRoster};

use crate::fault::RunFault;
use crate::input::{not_read, open, whole_from};
use input_text::{FileName, Input};
use roster::Roster;
use std::alloc::Global;
use std::rt::Files;

/// The longest roster, in bytes.
pub const LONGEST_ROSTER: usize = 65_536;

/// Returns the roster of this file, if a file is given. A file of more than 65,536 bytes is
/// rejected once one byte beyond them is read.
///
/// # Errors
///
/// `Unreadable` if the file cannot be opened or a read fails; `TooLong`; `Roster` with the first
/// fault of its text; `NoMemory` if out of memory.
pub fn read_roster<R: Files + AllocGlobal>(
    rt: &R,
    file: Option<FileName>,
) -> Result<Option<Roster>, RunFault>
    ensures roster { IfOk result (λ roster. IsRosterOf file roster) }
    ensures fault { IfErr result (HasNoRoster file) }
{
    let Some(file) = file else {
        return Ok(None);
    };
    let mut input = match open(rt, &file) {
        Ok(input) => input,
        Err(fault) => return Err(not_read(fault, file)),
    };
    Ok(Some(roster_from(rt.alloc(), file, &mut input)?))
}

/// Returns the roster of an input, which is the file of this name. The faults are those of
/// [`read_roster`]: `Unreadable` is returned exactly if a read failed.
pub fn roster_from<I: Input>(
    alloc: Global,
    file: FileName,
    input: &mut I,
) -> Result<Roster, RunFault>
    requires { I.failed input.old ≡ false }
    ensures read { IfOk result (ReadsRoster (I.left input.old) (I.left input.new)) }
    ensures fault { IfErr result (FailsRoster file (I.left input.old) (I.left input.new)) }
    ensures failed { I.failed input.new ≡ ended_by is_unread_file result }
{
    let text = whole_from(alloc, file, input, LONGEST_ROSTER)?;
    Ok(roster::read(alloc, text.as_slice())?)
}
