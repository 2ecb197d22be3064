//! The faults of a run that ends with a status other than 0.
ghost use Rattle.std.specs.Prelude.{◌≡◌};
ghost use Rattle.console.specs.declared.fault.RunFault.TheVariants.{NoMemory, Output};
ghost use Rattle.console.specs.Fault.{of_hex, of_read, of_roster, of_script, status_of};

use crate::output::WriteError;
use input_text::{FileName, ReadFault};
use roster::RosterFault;
use show_text::{HexFault, HexWhy, ScriptFault};
use std::alloc::AllocError;
use std::fmt;

/// Why a run ends with a status other than 0. Its text follows the program's name and a colon on
/// standard error.
#[derive(Drop)]
pub enum RunFault {
    /// Status 1: a station has 1 to 8 lines.
    Lines,
    /// Status 2: a file could not be opened or read.
    Unreadable(FileName),
    /// Status 2: standard input could not be read.
    UnreadableInput,
    /// Status 2: a roster has more than 65,536 bytes.
    TooLong(FileName),
    /// Status 3: the roster has the fault of this number, at this node, counted from 1, or at 0.
    Roster { number: u8, node: u8 },
    /// Status 4: the port could not be bound, or a connection could not be accepted.
    Network,
    /// Status 4: standard output could not be written.
    Output,
    /// Status 4: serving a connection stopped for the reason of this number.
    Serve(u8),
    /// Status 5: the script has the fault of this number, at this line, counted from 1, or at 0.
    Script { number: u8, line: u64 },
    /// Status 5: the hex text has the fault of this number, at this byte, counted from 0.
    Hex { number: u8, at: u64 },
    /// Status 6: out of memory.
    NoMemory,
}

impl RunFault {
    /// Returns the exit status, 1 to 6.
    pub fn status(&self) -> u8
        ensures { result ≡ status_of self.now }
    {
        match self {
            RunFault::Lines => 1,
            RunFault::Unreadable(_) | RunFault::UnreadableInput | RunFault::TooLong(_) => 2,
            RunFault::Roster { .. } => 3,
            RunFault::Network | RunFault::Output | RunFault::Serve(_) => 4,
            RunFault::Script { .. } | RunFault::Hex { .. } => 5,
            RunFault::NoMemory => 6,
        }
    }
}

/// Writes the number of a fault of a text, and where it is.
fn write_place<W: fmt::Write>(
    f: &mut fmt::Formatter<W>,
    text: &str,
    number: u8,
    part: &str,
    at: u64,
) -> fmt::Result {
    write!(f, "{text} fault {number} at {part} {at}")
}

impl fmt::Display for RunFault {
    fn fmt<W: fmt::Write>(&self, f: &mut fmt::Formatter<W>) -> fmt::Result {
        match self {
            RunFault::Lines => f.write_str("a station has 1 to 8 lines"),
            RunFault::Unreadable(file) => write!(f, "cannot read {file}"),
            RunFault::UnreadableInput => f.write_str("cannot read -"),
            RunFault::TooLong(file) => write!(f, "{file} is too long"),
            RunFault::Roster { number, node } => {
                write_place(f, "roster", *number, "node", u64::from(*node))
            }
            RunFault::Network => f.write_str("network"),
            RunFault::Output => f.write_str("output"),
            RunFault::Serve(number) => write!(f, "serve fault {number}"),
            RunFault::Script { number, line } => write_place(f, "script", *number, "line", *line),
            RunFault::Hex { number, at } => write_place(f, "hex", *number, "byte", *at),
            RunFault::NoMemory => f.write_str("no memory"),
        }
    }
}

impl From<AllocError> for RunFault {
    ghost from_gives = { λ _ run. run ≡ NoMemory };

    fn from(_error: AllocError) -> RunFault {
        RunFault::NoMemory
    }
}

impl From<WriteError> for RunFault {
    ghost from_gives = { λ _ run. run ≡ Output };

    fn from(_error: WriteError) -> RunFault {
        RunFault::Output
    }
}

/// The fault of a failed read of standard input.
impl From<ReadFault> for RunFault {
    ghost from_gives = { λ read run. run ≡ of_read read };

    fn from(fault: ReadFault) -> RunFault {
        fault.choose(RunFault::UnreadableInput, RunFault::NoMemory)
    }
}

impl From<RosterFault> for RunFault {
    ghost from_gives = { λ roster run. run ≡ of_roster roster };

    fn from(fault: RosterFault) -> RunFault {
        match fault.why {
            roster::RosterFaultKind::NoMemory => RunFault::NoMemory,
            why => RunFault::Roster {
                number: why as u8,
                node: fault.node,
            },
        }
    }
}

impl From<ScriptFault> for RunFault {
    ghost from_gives = { λ script run. run ≡ of_script script };

    fn from(fault: ScriptFault) -> RunFault {
        let number = match fault.why {
            show_text::ScriptFaultKind::BadWord => 1,
            show_text::ScriptFaultKind::BadHex => 2,
            show_text::ScriptFaultKind::BadNumber => 3,
            show_text::ScriptFaultKind::BadLine => 4,
            show_text::ScriptFaultKind::BadNode => 5,
            show_text::ScriptFaultKind::TooLong => 6,
            show_text::ScriptFaultKind::NoMemory => return RunFault::NoMemory,
        };
        RunFault::Script {
            number,
            line: fault.line,
        }
    }
}

impl From<HexFault> for RunFault {
    ghost from_gives = { λ hex run. run ≡ of_hex hex };

    fn from(fault: HexFault) -> RunFault {
        let number = match fault.why {
            HexWhy::BadHex => 1,
            HexWhy::TooLong => 2,
            HexWhy::NoMemory => return RunFault::NoMemory,
        };
        RunFault::Hex {
            number,
            at: fault.at,
        }
    }
}
