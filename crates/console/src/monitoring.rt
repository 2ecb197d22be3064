//! `station monitor`: printing the messages in captured bytes.
ghost use Rattle.std.specs.Prelude.{ℕ, ◌≡◌, ◌≢◌, List, IfErr, None, OnOk, false};
ghost use Rattle.std.specs.Io.KnownBytes.{Appends};
ghost use Rattle.ln_frame.specs.Stream.{messages_of};
ghost use Rattle.input_text.specs.Write.{failed_after};
ghost use Rattle.console.specs.Fault.{ended_by, is_unread_file, is_unwritten};
ghost use Rattle.console.specs.Monitored.{FailsHex, FailsMonitor, MonitorsInput};
ghost use Rattle.console.specs.Printed.{PrintsMessages, messages_text};

use crate::buffered::Buffered;
use crate::fault::RunFault;
use crate::flushing::flush_after;
use crate::input::{not_read, open};
use crate::output::{WriteError, print};
use input_text::{FileName, Input, Output, Sink, read_limited};
use ln_frame::{Framer, any_cut};
use show_text::{LONGEST_TEXT, message_line, read_hex};
use std::alloc::Global;
use std::rt::Files;

/// Reads the hex text of a file and then prints each message in its bytes. A file of more than
/// 1,048,576 bytes is rejected once one byte beyond them is read.
///
/// # Errors
///
/// `Unreadable` if the file cannot be opened or a read fails; `Hex` with the first fault of its
/// text; `Output` if a write fails; `NoMemory` if out of memory.
pub fn monitor<R: Files + AllocGlobal, O: Output>(
    rt: &R,
    file: FileName,
    output: &mut O,
) -> Result<(), RunFault>
    requires { O.failed output.old ≡ false }
    // The contents of a file are not known, only that there is a text.
    ensures printed { OnOk result
        ((text : List ℕ) × PrintsMessages text (O.held output.old) (O.held output.new)) }
    ensures fault { IfErr result (FailsMonitor file None None) }
    // A write or a flush failed exactly if the fault is `Output`.
    ensures unwritten { O.failed output.new ≡ ended_by is_unwritten result }
    // Unless memory ran out or the output failed, a fault prints nothing.
    ensures untouched { IfErr result
        (λ e. e ≢ RunFault.NoMemory → e ≢ RunFault.Output → output.new ≡ output.old) }
{
    match open(rt, &file) {
        Ok(mut input) => monitor_from(rt.alloc(), file, &mut input, output),
        Err(fault) => Err(not_read(fault, file)),
    }
}

/// The same for an input, which is the file of this name: `Unreadable` is returned exactly if a
/// read failed.
pub fn monitor_from<I: Input, O: Output>(
    alloc: Global,
    file: FileName,
    input: &mut I,
    output: &mut O,
) -> Result<(), RunFault>
    requires reads { I.failed input.old ≡ false }
    requires writes { O.failed output.old ≡ false }
    ensures printed { OnOk result
        (MonitorsInput (I.left input.old) (I.left input.new) (O.held output.old)
        (O.held output.new)) }
    ensures fault { IfErr result (FailsMonitor file (I.left input.old) (I.left input.new)) }
    ensures failed { I.failed input.new ≡ ended_by is_unread_file result }
    ensures unwritten { O.failed output.new ≡ ended_by is_unwritten result }
    ensures untouched { IfErr result
        (λ e. e ≢ RunFault.NoMemory → e ≢ RunFault.Output → output.new ≡ output.old) }
{
    let text = match read_limited(alloc, input, LONGEST_TEXT + 1) {
        Ok(text) => text,
        Err(fault) => return Err(not_read(fault, file)),
    };
    print_hex(alloc, text.as_slice(), output)
}

/// Prints each message in the bytes of a hex text, through a buffer. A text with a fault prints
/// nothing.
fn print_hex<O: Output>(alloc: Global, text: &[u8], output: &mut O) -> Result<(), RunFault>
    requires { O.failed output.old ≡ false }
    ensures printed { OnOk result
        (PrintsMessages text.now (O.held output.old) (O.held output.new)) }
    ensures fault { IfErr result (FailsHex text.now) }
    ensures unwritten { O.failed output.new ≡ ended_by is_unwritten result }
    ensures untouched { IfErr result
        (λ e. e ≢ RunFault.NoMemory → e ≢ RunFault.Output → output.new ≡ output.old) }
{
    let bytes = read_hex(alloc, text)?;
    let mut buffered = Buffered::new(output);
    let done = print_messages(bytes.as_slice(), &mut buffered).map_err(RunFault::from);
    flush_after(done, &mut buffered)
}

/// Prints each message that ends in these bytes.
fn print_messages<O: Sink>(bytes: &[u8], output: &mut O) -> Result<(), WriteError>
    ensures printed { OnOk result
        (Appends (O.held output.old) (O.held output.new) (messages_text (messages_of bytes.now))) }
    ensures failed { O.failed output.new ≡ failed_after result (O.failed output.old) }
    ensures same { O.loan output.new ≡ O.loan output.old }
{
    any_cut();
    let mut framer = Framer::new();
    for byte in bytes {
        if let Some(message) = framer.push(*byte) {
            print(output, &message_line(&message))?;
        }
    }
    Ok(())
}
