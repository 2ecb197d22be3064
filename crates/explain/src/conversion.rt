//! Converting a whole log or capture.
ghost use Rattle.std.specs.Prelude.{◌≡◌, ◌≢◌, false, IfErr, IfOk, OnOk};
ghost use Rattle.filter.specs.Fault.{is_unread, is_unwritten};
ghost use Rattle.explain.specs.Conversion.{Converts, converted};
ghost use Rattle.explain.specs.Explained.{explained};

use crate::capture::capture_text;
use crate::explainer::Explainer;
use crate::hex::hex_text;
use crate::streams::write_text;
use filter::{FilterFault, FilterResult};
use input_text::{Input, Output, read_limited};
use std::alloc::{AllocError, Global};

/// What a whole input is, and what is written of it.
#[derive(Clone, Copy)]
pub enum Conversion {
    /// The hex text of the messages of a log.
    LogToHex,
    /// The explained text of captured bytes.
    CaptureExplained,
    /// The hex text of the messages in captured bytes.
    CaptureToHex,
}

/// The most bytes of an input.
const LONGEST_LOG: usize = 16_777_216;

/// Reads an input to its end, at most 16,777,216 bytes, and then writes what it is converted to.
///
/// # Errors
///
/// `Unreadable` if a read failed, `TooLong` for a longer input, `Output` if a write or a flush
/// failed, `NoMemory` if out of memory.
pub fn convert<I: Input, O: Output>(
    alloc: Global,
    conversion: Conversion,
    input: &mut I,
    output: &mut O,
) -> FilterResult
    requires reads { I.failed input.old ≡ false }
    requires writes { O.failed output.old ≡ false }
    ensures converted { OnOk result
        (Converts conversion (I.left input.old) (I.left input.new) (O.held output.old)
        (O.held output.new)) }
    // The fault is that of the input exactly if a read failed, and that of the output exactly if a
    // write or a flush did.
    ensures unread { I.failed input.new ≡ is_unread result }
    ensures unwritten { O.failed output.new ≡ is_unwritten result }
    // Unless the output failed, a fault writes nothing.
    ensures kept { IfErr result (λ e. e ≢ FilterFault.Output → output.new ≡ output.old) }
{
    let log = read_limited(alloc, input, LONGEST_LOG + 1)?;
    if log.len() > LONGEST_LOG {
        return Err(FilterFault::TooLong);
    }
    let text = converted(alloc, conversion, log.as_slice())?;
    write_text(text.as_slice(), output)
}

/// Returns what an input is converted to.
fn converted(alloc: Global, conversion: Conversion, bytes: &[u8]) -> Result<Vec<u8>, AllocError>
    ensures { IfOk result (λ text. text.items ≡ converted conversion bytes.now) }
{
    match conversion {
        Conversion::LogToHex => hex_text(alloc, bytes),
        Conversion::CaptureExplained => {
            let text = capture_text(alloc, bytes)?;
            explained(alloc, text.as_slice())
        }
        Conversion::CaptureToHex => {
            let text = capture_text(alloc, bytes)?;
            hex_text(alloc, text.as_slice())
        }
    }
}

/// Returns a text with its explanations.
fn explained(alloc: Global, text: &[u8]) -> Result<Vec<u8>, AllocError>
    ensures { IfOk result (λ output. output.items ≡ explained text.now) }
{
    let mut explainer = Explainer::new();
    let mut output = Vec::new(alloc);
    explainer.push(text, &mut output)?;
    explainer.finish(&mut output)?;
    Ok(output)
}
