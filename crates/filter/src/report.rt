//! Why a filter does not run on its input, and the report of it.
ghost use Rattle.std.specs.Prelude.{◌≡◌, ◌≢◌};
ghost use Rattle.filter.specs.StartFault.{status_of};

use command_line::{FileName, open_error_words};
use std::io::{ErrorKind, Write};

/// Why a filter does not open its file, or does not write a requested text.
#[derive(Drop)]
pub(crate) enum StartFault {
    /// Status 2: the file cannot be opened.
    Unopened { file: FileName, why: ErrorKind },
    /// Status 4: standard output could not be written.
    Output,
    /// Status 6: out of memory.
    NoMemory,
}

impl StartFault {
    /// Returns the fault of a file that cannot be opened for this reason.
    pub(crate) fn of_opening(file: FileName, why: ErrorKind) -> StartFault
        ensures memory { why ≡ ErrorKind.OutOfMemory → result ≡ StartFault.NoMemory }
        ensures file { why ≢ ErrorKind.OutOfMemory → result ≡ StartFault.Unopened file why }
    {
        match why {
            ErrorKind::OutOfMemory => StartFault::NoMemory,
            _ => StartFault::Unopened { file, why },
        }
    }

    /// Returns the exit status, 2 to 6.
    fn status(&self) -> u8
        ensures { result ≡ status_of self.now }
    {
        match self {
            StartFault::Unopened { .. } => 2,
            StartFault::Output => 4,
            StartFault::NoMemory => 6,
        }
    }

    /// Reports the fault of the program with this name, and returns the exit status. A failure of
    /// this report cannot be reported.
    pub(crate) fn report<E: Write>(&self, program: &str, faults: &mut E) -> u8
        ensures { result ≡ status_of self.now }
    {
        let _ = match self {
            StartFault::Unopened { file, why } => {
                let reason = open_error_words(*why);
                writeln!(faults, "{program}: cannot read {file}: {reason}")
            }
            StartFault::Output => writeln!(faults, "{program}: output"),
            StartFault::NoMemory => writeln!(faults, "{program}: no memory"),
        };
        self.status()
    }
}
