//! The interface of a filter.
ghost use Rattle.std.specs.Prelude.{◌≡◌, ℕ, IfErr, List, OnOk, Option, false};
ghost use Rattle.filter.specs.Fault.{is_unwritten};
ghost use Rattle.filter.specs.declared.fault.FilterFault.{FilterFault};
ghost use Rattle.filter.specs.declared.text.FilterFlags.{FilterFlags};

use crate::fault::FilterResult;
use crate::text::{FilterFlags, FilterText};
use input_text::{Input, Output};
use std::alloc::Global;

/// What a run of a filter is given beside its streams.
#[derive(Clone, Copy)]
pub struct Run {
    pub alloc: Global,
    /// Which flags of the command line are set.
    pub flags: FilterFlags,
}

/// A program that reads an input and writes an output.
pub trait Filter {
    /// The effect of a run with these flags that does not fail: the input before and after it, and
    /// the output before and after it.
    ghost filters: { FilterFlags
        → (old_input new_input old_output new_output : Option (List ℕ)) → Type 0 };

    /// The effect of one that fails so.
    ghost fails: { FilterFlags → FilterFault
        → (old_input new_input old_output new_output : Option (List ℕ)) → Type 0 };

    /// The texts of its command line.
    fn text(&self) -> FilterText<'static>;

    /// Runs it on an input.
    fn run<I: Input, O: Output>(&self, run: Run, input: &mut I, output: &mut O) -> FilterResult
        requires reads { I.failed input.old ≡ false }
        requires writes { O.failed output.old ≡ false }
        ensures filtered { OnOk result
            (filters run.flags (I.left input.old) (I.left input.new) (O.held output.old)
            (O.held output.new)) }
        ensures failed { IfErr result
            (λ fault. fails run.flags fault (I.left input.old) (I.left input.new)
            (O.held output.old) (O.held output.new)) }
        // The fault is that of the output exactly if a write or a flush failed.
        ensures unwritten { O.failed output.new ≡ is_unwritten result };
}
