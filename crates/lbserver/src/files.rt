//! Reading the files that the options name.
ghost use Rattle.std.specs.Prelude.{◌≡◌, ◌<◌, ◌≤◌, ◌+◌, ◌^◌, IfOk, false, length, true};
ghost use Rattle.lbserver.specs.Execution.{IsEnd};

use crate::fault::ServerFault;
use command_line::{FileName, open_file};
use console::whole_from;

/// Returns the bytes of a file of at most `most` bytes, below 2^32 - 1.
///
/// # Errors
///
/// `Unopened` with the reason if the file cannot be opened; `Run` if it cannot be read, is longer,
/// or if out of memory.
pub(crate) fn read_file(
    rt: &HostRuntime,
    file: FileName,
    most: usize,
) -> Result<Vec<u8>, ServerFault>
    requires { most + 1 < 2 ^ 32 }
    ensures most { IfOk result (λ bytes. length bytes.items ≤ most) }
    ensures end { IsEnd true false false result }
{
    let mut input = match open_file(rt, &file) {
        Ok(input) => input,
        Err(why) => return Err(ServerFault::of_opening(file, why)),
    };
    Ok(whole_from(rt.alloc(), file, &mut input, most)?)
}
