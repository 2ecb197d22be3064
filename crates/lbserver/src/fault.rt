//! The faults of a run that ends with a status other than 0, and their text.
ghost use Rattle.std.specs.Prelude.{◌≡◌, ◌==◌, ◌<◌, ◌≤◌, false, true};
ghost use Rattle.console.specs.declared.fault.RunFault.TheVariants.{NoMemory};
ghost use Rattle.lbserver.specs.declared.fault.ServerFault.TheVariants.{Order, Output, Run};
ghost use Rattle.lbserver.specs.Execution.{is_of_file, status_of};

use crate::device_logs::DeviceLogs;
use crate::roster_line::{NAME, write_roster_fault};
use command_line::{FileName, OrderFault, open_error_words};
use console::{RunFault, WriteError, report_as};
use railway_plan::LocatedFault;
use roster::{FaultDetails, RosterFault};
use sockets::SystemFault;
use std::alloc::AllocError;
use std::io::{ErrorKind, Write};
use std::net::SocketAddr;

/// Why a run ends with a status other than 0.
#[derive(Drop)]
pub(crate) enum ServerFault {
    /// Status 1 or 6: the arguments are not an order.
    Order(OrderFault),
    /// Status 4: nothing can listen on this address and port.
    Listen {
        address: SocketAddr,
        why: ErrorKind,
    },
    /// Status 2: this file cannot be opened.
    Unopened {
        file: FileName,
        why: ErrorKind,
    },
    /// Status 3: the text of this file has this fault, the first.
    Roster {
        file: FileName,
        fault: RosterFault,
        details: FaultDetails,
    },
    /// Status 3: the track plan in this file has this fault, the first.
    Plan {
        file: FileName,
        fault: LocatedFault,
    },
    /// Status 3: the roster has no decoder of this name, for which a share of packets is given.
    NoDecoder(String),
    /// Status 4: a text could not be written to standard output.
    Output,
    /// A fault that other programs have too.
    Run(RunFault),
}

impl ServerFault {
    /// Returns the fault of an address and port that could not be bound, and records it.
    pub(crate) fn of_bind(
        address: SocketAddr,
        fault: SystemFault,
        logs: &mut DeviceLogs,
    ) -> ServerFault
        ensures file { is_of_file result ≡ false }
        ensures status { 1 < status_of result }
        ensures recorded { logs.new.faults.failed ≡ true }
        ensures calls { (logs.new.sockets ≡ logs.old.sockets) × (logs.new.clock ≡ logs.old.clock) }
    {
        let why = fault.kind();
        logs.record_fault(fault);
        match why {
            ErrorKind::OutOfMemory => ServerFault::Run(RunFault::NoMemory),
            why => ServerFault::Listen { address, why },
        }
    }

    /// Returns the fault of the network or the clock for a call of the system that failed, and records it.
    pub(crate) fn of_system(fault: SystemFault, logs: &mut DeviceLogs) -> ServerFault
        ensures status { status_of result ≡ 4 }
        ensures recorded { logs.new.faults.failed ≡ true }
        ensures calls { (logs.new.sockets ≡ logs.old.sockets) × (logs.new.clock ≡ logs.old.clock) }
    {
        logs.record_fault(fault);
        ServerFault::Run(RunFault::Network)
    }

    /// Returns the fault of a file that could not be opened for this reason.
    pub(crate) fn of_opening(file: FileName, why: ErrorKind) -> ServerFault
        ensures status { 1 < status_of result }
        ensures not_network { (status_of result == 4) ≡ false }
    {
        match why {
            ErrorKind::OutOfMemory => ServerFault::Run(RunFault::NoMemory),
            _ => ServerFault::Unopened { file, why },
        }
    }

    /// Writes the fault as one line, or the text of `clap` for the command line, and returns its
    /// status, 1 to 6. A failure of this report cannot be reported.
    pub(crate) fn report<E: Write>(&self, faults: &mut E) -> u8
        ensures some { 0 < result }
        ensures most { result ≤ 6 }
        ensures status { result ≡ status_of self.now }
    {
        match self {
            ServerFault::Order(fault) => fault.report(NAME, faults),
            ServerFault::Output => report_as(NAME, &RunFault::Output, faults),
            ServerFault::Run(fault) => report_as(NAME, fault, faults),
            ServerFault::Listen { address, why } => {
                let reason = reason_of(*why);
                let _ = writeln!(faults, "{NAME}: cannot listen on {address}: {reason}");
                4
            }
            ServerFault::Unopened { file, why } => {
                let reason = open_error_words(*why);
                let _ = writeln!(faults, "{NAME}: cannot read {file}: {reason}");
                2
            }
            ServerFault::Roster {
                file,
                fault,
                details,
            } => {
                let _ = write_roster_fault(file.as_str(), fault, details, faults);
                3
            }
            ServerFault::Plan { file, fault } => {
                let _ = writeln!(faults, "{NAME}: {file}, {fault}");
                3
            }
            ServerFault::NoDecoder(name) => {
                let _ = writeln!(faults, "{NAME}: --lose {name}: no such decoder");
                3
            }
        }
    }
}

/// Returns why an address and port cannot be bound, in words.
fn reason_of(why: ErrorKind) -> &'static str {
    match why {
        ErrorKind::AddrInUse => "the port is in use",
        ErrorKind::AddrNotAvailable => "the machine has no such address",
        ErrorKind::PermissionDenied => "permission denied",
        _ => "network error",
    }
}

impl From<RunFault> for ServerFault {
    ghost from_gives = { λ run fault. fault ≡ Run run };

    fn from(fault: RunFault) -> ServerFault {
        ServerFault::Run(fault)
    }
}

impl From<OrderFault> for ServerFault {
    ghost from_gives = { λ order fault. fault ≡ Order order };

    fn from(fault: OrderFault) -> ServerFault {
        ServerFault::Order(fault)
    }
}

impl From<AllocError> for ServerFault {
    ghost from_gives = { λ _ fault. fault ≡ Run NoMemory };

    fn from(_error: AllocError) -> ServerFault {
        ServerFault::Run(RunFault::NoMemory)
    }
}

impl From<WriteError> for ServerFault {
    ghost from_gives = { λ _ fault. fault ≡ Output };

    fn from(_error: WriteError) -> ServerFault {
        ServerFault::Output
    }
}
