//! Printing lines.
ghost use Rattle.std.specs.Prelude.{◌≡◌, OnErr, OnOk, ◌<◌, ◌++◌, ◌∷◌, [], length};
ghost use Rattle.std.specs.Io.KnownBytes.{Appends};
ghost use Rattle.input_text.specs.Write.{AppendsFront, failed_after};

use input_text::{Sink, put_all};
use show_text::Line;
use std::io::Write;

/// The output could not be written.
///
/// It is small, and a `RunFault` is not: the result of each event of a script is passed on through
/// calls that return one.
#[derive(Clone, Copy, Debug, PartialEq, Eq)]
pub struct WriteError;

/// Prints a line and a line feed, by two writes.
///
/// # Errors
///
/// `WriteError` if a write fails. Then a prefix of the line is written, without its line feed.
pub fn print<O: Sink>(output: &mut O, line: &Line) -> Result<(), WriteError>
    ensures printed { OnOk result
        (Appends (O.held output.old) (O.held output.new) (line.now.bytes ++ 10 ∷ [])) }
    ensures front { OnErr result
        (AppendsFront (O.held output.old) (O.held output.new) (line.now.bytes ++ 10 ∷ [])) }
    ensures failed { O.failed output.new ≡ failed_after result (O.failed output.old) }
    ensures same { O.loan output.new ≡ O.loan output.old }
{
    input_text::laws::fronts();
    print_all(output, line.as_str().as_bytes())?;
    print_all(output, b"\n")
}

/// Prints a line and a line feed to a writer whose failure is not recorded.
///
/// # Errors
///
/// `WriteError` if the writer fails. The number of bytes written is then not known.
pub fn print_to<W: Write>(writer: &mut W, line: &Line) -> Result<(), WriteError>
    ensures { OnOk result
        (Appends (W.contents writer.old) (W.contents writer.new) (line.now.bytes ++ 10 ∷ [])) }
{
    writeln!(writer, "{line}").map_err(|_| WriteError)
}

/// Appends a line feed to a line of less than 640 bytes, and prints it by one write.
///
/// # Errors
///
/// `WriteError` if the write fails. Then a prefix of the line is written, without its line feed.
pub fn print_ended<O: Sink>(output: &mut O, line: &mut Line) -> Result<(), WriteError>
    requires { length line.old.bytes < 640 }
    ensures printed { OnOk result
        (Appends (O.held output.old) (O.held output.new) (line.old.bytes ++ 10 ∷ [])) }
    ensures front { OnErr result
        (AppendsFront (O.held output.old) (O.held output.new) (line.old.bytes ++ 10 ∷ [])) }
    ensures failed { O.failed output.new ≡ failed_after result (O.failed output.old) }
    ensures same { O.loan output.new ≡ O.loan output.old }
{
    line.push_str("\n");
    print_all(output, line.as_str().as_bytes())
}

/// Writes all bytes, or a proper prefix of them if a write fails.
fn print_all<O: Sink>(output: &mut O, bytes: &[u8]) -> Result<(), WriteError>
    ensures printed { OnOk result (Appends (O.held output.old) (O.held output.new) bytes.now) }
    ensures front { OnErr result (AppendsFront (O.held output.old) (O.held output.new) bytes.now) }
    ensures failed { O.failed output.new ≡ failed_after result (O.failed output.old) }
    ensures same { O.loan output.new ≡ O.loan output.old }
{
    put_all(output, bytes).map_err(|_| WriteError)
}
