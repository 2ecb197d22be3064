//! The commands of a script, and the faults of a text that is not a script.
ghost use Rattle.std.specs.Prelude.{◌≡◌};
ghost use Rattle.show_text.specs.declared.command.ScriptFaultKind.TheVariants.{NoMemory};

use std::alloc::AllocFailed;

/// A command of a script.
#[derive(Clone, Copy, PartialEq, Eq)]
pub enum Command {
    /// A byte is received on a line.
    Byte { line: u8, byte: u8 },
    /// `count` turns, 1 to 1,000,000. Node i misses them if bit i of `missed` is set.
    Turns { count: u32, missed: u64 },
    /// The state of each node is to be printed.
    Show,
}

/// What is wrong with a script.
#[derive(Clone, Copy, Debug, PartialEq, Eq)]
pub enum ScriptFaultKind {
    /// An unknown first word, or a missing or superfluous word.
    BadWord,
    /// Not two hexadecimal digits.
    BadHex,
    /// Not one to seven decimal digits, or a number of turns outside 1 to 1,000,000.
    BadNumber,
    /// No such line.
    BadLine,
    /// No such node.
    BadNode,
    /// More than 1,048,576 bytes.
    TooLong,
    /// Out of memory.
    NoMemory,
}

/// The first fault of a script, and its line, counted from 1. `TooLong` and `NoMemory` have line 0.
#[derive(Clone, Copy, Debug, PartialEq, Eq)]
pub struct ScriptFault {
    pub why: ScriptFaultKind,
    pub line: u64,
}

impl<T: Drop> From<AllocFailed<T>> for ScriptFaultKind {
    ghost from_gives = { λ _ why. why ≡ NoMemory };

    fn from(_error: AllocFailed<T>) -> ScriptFaultKind {
        ScriptFaultKind::NoMemory
    }
}
