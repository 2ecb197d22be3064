//! Why the arguments are not an order.
ghost use Rattle.std.specs.Prelude.{◌≡◌};
ghost use Rattle.command_line.specs.declared.fault.OrderFault.TheVariants.{NoMemory};
ghost use Rattle.command_line.specs.Fault.{IsOfClap, status_of};

use clap::Error;
use clap::error::ErrorKind;
use std::alloc::AllocError;
use std::io::Write;
use thiserror::Error;

/// Why the arguments are not an order.
#[derive(Debug, Drop, Error)]
pub enum OrderFault {
    /// The arguments are unknown, or ask for help. The text is to be shown to the user.
    #[error("{0}")]
    Usage(clap::Error),
    /// Out of memory.
    #[error("no memory")]
    NoMemory,
}

impl OrderFault {
    /// Writes the text of `Usage` as it is, or the line `PROGRAM: no memory`, and returns the exit
    /// status, 1 or 6. A failure of this report cannot be reported.
    pub fn report<E: Write>(&self, program: &str, faults: &mut E) -> u8
        ensures { result ≡ status_of self.now }
    {
        match self {
            OrderFault::Usage(_) => {
                let _ = write!(faults, "{self}");
                1
            }
            OrderFault::NoMemory => {
                let _ = writeln!(faults, "{program}: {self}");
                6
            }
        }
    }
}

impl From<AllocError> for OrderFault {
    ghost from_gives = { λ _ fault. fault ≡ NoMemory };

    fn from(_error: AllocError) -> OrderFault {
        OrderFault::NoMemory
    }
}

impl From<Error> for OrderFault {
    ghost from_gives = { IsOfClap };

    fn from(error: Error) -> OrderFault {
        match error.kind() {
            ErrorKind::OutOfMemory => OrderFault::NoMemory,
            _ => OrderFault::Usage(error),
        }
    }
}
