//! The fault of a call of the system.

use std::io;
use std::io::ErrorKind;

/// A call of the system failed, or memory was refused. Only this crate makes one.
#[derive(Drop)]
pub struct SystemFault {
    error: io::Error,
}

impl SystemFault {
    /// Creates the fault of this error.
    pub(crate) fn of(error: io::Error) -> SystemFault {
        SystemFault { error }
    }

    /// Returns why the call failed.
    pub fn kind(&self) -> ErrorKind {
        self.error.kind()
    }
}
