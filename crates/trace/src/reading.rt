//! Parsing the lines of a text.
ghost use Rattle.std.specs.Prelude.{ℕ, ◌≡◌, ◌⊎◌, ◌≤◌, List, IfErr, IfOk, MatchResult, length};
ghost use Rattle.filter.specs.declared.fault.FilterFault.TheVariants.{NoMemory};
ghost use Rattle.trace.specs.Drawn.{Refuses};
ghost use Rattle.trace.specs.Text.{TextParses};

use crate::drawing::Drawing;
use filter::FilterFault;
use std::alloc::Global;
use text::cut_line;

/// The most bytes of an input.
pub const LONGEST_TEXT: usize = 16_777_216;

/// What the lines of a text tell, in order.
///
/// The first fault is reported: a text longer than [`LONGEST_TEXT`], and then the first line that
/// has a fault.
pub(crate) fn read_lines<D: Drawing>(
    alloc: Global,
    drawing: &D,
    text: &[u8],
) -> Result<Vec<D::Item>, FilterFault>
    ensures item { IfOk result (λ v. TextParses D.parses text.now v.items) }
    ensures few { IfOk result (λ v. length v.items ≤ 16777216) }
    ensures exact { (things : List D.Item) → TextParses D.parses text.now things
        → MatchResult result (λ v. v.items ≡ things) (λ e. e ≡ NoMemory) }
    ensures fault { IfErr result (λ e. (e ≡ NoMemory) ⊎ Refuses D.parses text.now e) }
{
    if text.len() > LONGEST_TEXT {
        return Err(FilterFault::TooLong);
    }
    let mut things = Vec::new(alloc);
    let mut number = 0u64;
    let mut rest = text;
    while !rest.is_empty() {
        let (line, after) = cut_line(rest);
        number += 1;
        let Ok(item) = drawing.read(line) else {
            return Err(FilterFault::BadLine(number));
        };
        if let Some(thing) = item {
            if things.push(thing).is_err() {
                return Err(FilterFault::NoMemory);
            }
        }
        rest = after;
    }
    Ok(things)
}
