//! Running the program on its streams.
ghost use Rattle.std.specs.Prelude.{◌≡◌, ◌⊎◌, ◌<◌, ◌^◌, IfErr, IfOk, None, OnErr, OnOk, Some, false, true};
ghost use Rattle.std.specs.Io.KnownBytes.{Appends, IsAtEnd};
ghost use Rattle.filter.specs.Fault.{is_unwritten};
ghost use Rattle.input_text.specs.Write.{failed_after};
ghost use Rattle.explain.specs.Ends.{has_unread, has_unread_yet, read_failed};
ghost use Rattle.explain.specs.Streams.{AppendsFront, Begins, Continues, Explains, ExplainsFront, ExplainsWhole, FailsToExplain};

use crate::end::End;
use crate::explainer::Explainer;
use filter::{FilterFault, FilterResult};
use input_text::{Input, Output, ReadFault, put_all};
use std::alloc::Global;

/// The number of bytes requested of a reader at a time.
const CHUNK: usize = 4096;

/// Explains the lines of an input, to its end. Each line is written as soon as its end is read.
///
/// # Errors
///
/// `Unreadable` if a read failed: then all that was read before is explained. `Output` if a write
/// or a flush failed, `NoMemory` if out of memory; whatever fails, no output is invented.
pub fn explain<I: Input, O: Output>(alloc: Global, input: &mut I, output: &mut O) -> FilterResult
    requires reads { I.failed input.old ≡ false }
    requires writes { O.failed output.old ≡ false }
    ensures explained { OnOk result
        (ExplainsWhole (I.left input.old) (I.left input.new) (O.held output.old)
        (O.held output.new)) }
    ensures read { OnOk result (I.failed input.new ≡ false) }
    ensures failed { IfErr result
        (λ fault. fault ≡ FilterFault.Unreadable → I.failed input.new ≡ true) }
    ensures fault { IfErr result
        (λ fault. FailsToExplain fault (I.left input.old) (I.left input.new) (O.held output.old)
        (O.held output.new)) }
    ensures unwritten { O.failed output.new ≡ is_unwritten result }
{
    match explain_input(alloc, input, output)? {
        End::Whole => Ok(()),
        End::Unreadable => Err(FilterFault::Unreadable),
    }
}

/// Explains the lines of the input, to its end or to a read that fails.
fn explain_input<I: Input, O: Output>(
    alloc: Global,
    input: &mut I,
    output: &mut O,
) -> Result<End, FilterFault>
    requires reads { I.failed input.old ≡ false }
    requires writes { O.failed output.old ≡ false }
    ensures explained { OnOk result
        (Explains (I.left input.old) (I.left input.new) (O.held output.old) (O.held output.new)) }
    ensures end { IfOk result (λ end. end ≡ End.Whole → IsAtEnd (I.left input.new)) }
    ensures failed { IfOk result (λ end. I.failed input.new ≡ read_failed end) }
    ensures begun { ExplainsFront (I.left input.old) (I.left input.new) (O.held output.old)
        (O.held output.new) }
    ensures fault { IfErr result (λ e. (e ≡ FilterFault.Output) ⊎ (e ≡ FilterFault.NoMemory)) }
    ensures unwritten { O.failed output.new ≡ is_unwritten result }
{
    let mut explainer = Explainer::new();
    let mut text = Vec::new(alloc);
    let end = push_all(&mut explainer, &mut text, input, output)?;
    text.clear();
    explainer.finish(&mut text)?;
    write_text(text.as_slice(), output)?;
    Ok(end)
}

/// Explains the bytes of a reader, to its end or to a read that fails, and writes each line as its
/// end is read.
fn push_all<I: Input, O: Output>(
    explainer: &mut Explainer,
    text: &mut Vec<u8>,
    input: &mut I,
    output: &mut O,
) -> Result<End, FilterFault>
    requires reads { I.failed input.old ≡ false }
    requires writes { O.failed output.old ≡ false }
    ensures followed { OnOk result
        (Continues (I.left input.old) (I.left input.new) (O.held output.old) (O.held output.new)
        explainer.old explainer.new) }
    ensures end { IfOk result (λ end. end ≡ End.Whole → IsAtEnd (I.left input.new)) }
    ensures failed { I.failed input.new ≡ has_unread result }
    ensures begun { OnErr result
        (Begins (I.left input.old) (I.left input.new) (O.held output.old) (O.held output.new)
        explainer.old.is_long explainer.old.line.items) }
    ensures fault { IfErr result (λ e. (e ≡ FilterFault.Output) ⊎ (e ≡ FilterFault.NoMemory)) }
    ensures unwritten { O.failed output.new ≡ is_unwritten result }
{
    loop {
        if let Some(end) = push_some(explainer, text, input, output)? {
            return Ok(end);
        }
    }
}

/// Explains the bytes of one read, and writes the lines that end in it. Returns `None` if more may
/// follow.
fn push_some<I: Input, O: Output>(
    explainer: &mut Explainer,
    text: &mut Vec<u8>,
    input: &mut I,
    output: &mut O,
) -> Result<Option<End>, FilterFault>
    requires reads { I.failed input.old ≡ false }
    requires writes { O.failed output.old ≡ false }
    ensures followed { OnOk result
        (Continues (I.left input.old) (I.left input.new) (O.held output.old) (O.held output.new)
        explainer.old explainer.new) }
    ensures end { IfOk result (λ end. end ≡ Some End.Whole → IsAtEnd (I.left input.new)) }
    ensures failed { I.failed input.new ≡ has_unread_yet result }
    ensures gives { IfOk result
        (λ end. end ≡ None → (I.given input.old < I.given input.new)
        × (I.given input.new < 2 ^ 64)) }
    ensures begun { OnErr result
        (Begins (I.left input.old) (I.left input.new) (O.held output.old) (O.held output.new)
        explainer.old.is_long explainer.old.line.items) }
    ensures fault { IfErr result (λ e. (e ≡ FilterFault.Output) ⊎ (e ≡ FilterFault.NoMemory)) }
    ensures unwritten { O.failed output.new ≡ is_unwritten result }
{
    let mut chunk = [0u8; CHUNK];
    let count = match input.get(&mut chunk) {
        Ok(0) => return Ok(Some(End::Whole)),
        Ok(count) => count,
        Err(ReadFault::Failed) => return Ok(Some(End::Unreadable)),
        Err(ReadFault::NoMemory) => return Err(FilterFault::NoMemory),
    };
    text.clear();
    explainer.push(&chunk[..count], text)?;
    write_text(text.as_slice(), output)?;
    Ok(None)
}

/// Writes and flushes a text. In every case, a prefix of the text was written.
pub(crate) fn write_text<O: Output>(text: &[u8], output: &mut O) -> FilterResult
    ensures written { OnOk result (Appends (O.held output.old) (O.held output.new) text.now) }
    ensures front { AppendsFront (O.held output.old) (O.held output.new) text.now }
    ensures fault { IfErr result (λ e. e ≡ FilterFault.Output) }
    ensures failed { O.failed output.new ≡ failed_after result (O.failed output.old) }
{
    put_all(output, text)?;
    Ok(output.flush()?)
}
