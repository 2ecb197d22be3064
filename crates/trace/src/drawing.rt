//! The interface of a drawing program.
ghost use Rattle.std.specs.Prelude.{◌≡◌, ◌⊎◌, ◌≤◌, ℕ, Bool, true, false, List, Option, Ok, IfErr, IfOk, OnOk, length};
ghost use Rattle.std.specs.Io.KnownBytes.{Appends};
ghost use Rattle.filter.specs.Fault.{is_unwritten};
ghost use Rattle.filter.specs.declared.fault.FilterFault.TheVariants.{NoMemory, Output};

use filter::{FilterResult, FilterText};
use input_text::Output;
use std::alloc::Global;

/// The fault of a line that begins like one that is drawn and is not one.
#[derive(Clone, Copy, Debug)]
pub struct BadLine;

/// A program that draws the output of `station`.
pub trait Drawing {
    /// The result of parsing a line, if it has one.
    type Item: Drop;

    /// Whether a line has this result. A line with a fault has neither a result nor none.
    ghost parses: { List ℕ → Option Self.Item → Type 0 };

    /// The drawing of the results of the lines, in order.
    ghost drawn: { List Self.Item → List ℕ };

    /// Whether nothing is written if out of memory.
    ghost is_whole: { Bool } = { true };

    /// The texts of the program's command line. Its fault lines begin with the name.
    fn text(&self) -> FilterText<'static>;

    /// Parses a line. Returns `None` if the line is not one that is drawn.
    fn read(&self, line: &[u8]) -> Result<Option<Self::Item>, BadLine>
        ensures item { IfOk result (λ item. parses line.now item) }
        ensures exact { (item : Option Self.Item) → parses line.now item → result ≡ Ok item };

    /// Draws the results of lines, at most 16,777,216 of them.
    fn draw<O: Output>(&self, alloc: Global, item: &[Self::Item], output: &mut O) -> FilterResult
        requires few { length item.now ≤ 16777216 }
        requires writes { O.failed output.old ≡ false }
        ensures text { OnOk result
            (Appends (O.held output.old) (O.held output.new) (drawn item.now)) }
        ensures fault { IfErr result (λ e. (e ≡ Output) ⊎ (e ≡ NoMemory)) }
        ensures unwritten { O.failed output.new ≡ is_unwritten result }
        ensures kept { IfErr result
            (λ e. e ≡ NoMemory → is_whole ≡ true → output.new ≡ output.old) };
}
