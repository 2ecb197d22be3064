//! The line on standard error for the fault of a roster.
ghost use Rattle.std.specs.Prelude.{OnOk};
ghost use Rattle.std.specs.Io.KnownBytes.{Appends};
ghost use Rattle.lbserver.specs.RosterLines.{place_text, roster_line};

use roster::{FaultDetails, RosterFault};
use std::io;
use std::io::Write;

/// The name of the program in its fault lines.
pub(crate) const NAME: &'static str = "lbserver";

/// Writes the first fault of a roster as one line: the name of its file, the line of the text or
/// the node, and what is wrong.
pub(crate) fn write_roster_fault<E: Write>(
    file: &str,
    fault: &RosterFault,
    details: &FaultDetails,
    faults: &mut E,
) -> io::Result<()>
    ensures { OnOk result
        (Appends (E.contents faults.old) (E.contents faults.new)
        (roster_line file.now fault.now details.now)) }
{
    write!(faults, "{NAME}: {file}")?;
    write_place(details, fault.node, faults)?;
    let words = details.words(fault.why);
    writeln!(faults, ": {words}")
}

/// Writes where a fault is: in a line, at a node, or nothing for the whole.
fn write_place<E: Write>(details: &FaultDetails, node: u8, faults: &mut E) -> io::Result<()>
    ensures { OnOk result
        (Appends (E.contents faults.old) (E.contents faults.new)
        (place_text details.now.line node details.now.name)) }
{
    match (details.line(), node, details.name()) {
        (Some(line), _, _) => write!(faults, ", line {line}"),
        (None, 0, _) => Ok(()),
        (None, _, Some(name)) => write!(faults, ", node {node} ({name})"),
        (None, _, None) => write!(faults, ", node {node}"),
    }
}
