//! Running a drawing program on its streams.
ghost use Rattle.std.specs.Prelude.{◌≡◌, ◌≢◌, false, true, IfErr, OnOk};
ghost use Rattle.trace.specs.Drawn.{DrawsInput, FailsInput, RefusesInput};
ghost use Rattle.filter.specs.Fault.{is_unread, is_unwritten};

use crate::LONGEST_TEXT;
use crate::drawing::Drawing;
use crate::reading::read_lines;
use filter::{FilterFault, FilterResult};
use input_text::{Input, Output, read_limited};
use std::alloc::Global;

/// Reads the whole input and then draws its lines. Nothing is written if a line has a fault.
pub fn draw<D: Drawing, I: Input, O: Output>(
    drawing: &D,
    alloc: Global,
    input: &mut I,
    output: &mut O,
) -> FilterResult
    requires reads { I.failed input.old ≡ false }
    requires writes { O.failed output.old ≡ false }
    ensures drawn { OnOk result
        (DrawsInput D.parses D.drawn (I.left input.old) (I.left input.new) (O.held output.old)
        (O.held output.new)) }
    ensures refused { RefusesInput D.parses (I.left input.old) result (O.held output.old)
        (O.held output.new) }
    ensures failed { FailsInput D.parses (I.left input.old) result }
    // The fault is that of the input exactly if a read failed, and that of the output exactly if a
    // write or a flush did.
    ensures unread { I.failed input.new ≡ is_unread result }
    ensures unwritten { O.failed output.new ≡ is_unwritten result }
    // If the output did not fail, a fault writes nothing, unless memory runs out and the drawing is
    // not whole.
    ensures kept { IfErr result
        (λ e. e ≢ FilterFault.Output → (e ≡ FilterFault.NoMemory → D.is_whole ≡ true)
        → output.new ≡ output.old) }
{
    let text = read_limited(alloc, input, LONGEST_TEXT + 1)?;
    let things = read_lines(alloc, drawing, text.as_slice())?;
    drawing.draw(alloc, things.as_slice(), output)
}
