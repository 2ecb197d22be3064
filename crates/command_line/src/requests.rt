//! Arguments that ask for help or the version.
ghost use Rattle.std.specs.Prelude.{◌≡◌, IfOk, None, Ok, false, is_some};
ghost use Rattle.command_line.specs.Requests.{is_request};

use crate::fault::OrderFault;
use clap::error::ErrorKind;
use std::alloc::{AllocError, Global};

impl OrderFault {
    /// Returns the help or the version, if the arguments ask for one. It belongs on standard
    /// output, and is no fault.
    pub fn requested_text(&self, alloc: Global) -> Result<Option<String>, AllocError>
        ensures requested { IfOk result (λ text. is_some text ≡ is_request self.now) }
        ensures none { is_request self.now ≡ false → result ≡ Ok None }
    {
        let OrderFault::Usage(error) = self else {
            return Ok(None);
        };
        match error.kind() {
            ErrorKind::DisplayHelp | ErrorKind::DisplayVersion => Ok(Some(error.to_string(alloc)?)),
            _ => Ok(None),
        }
    }
}
