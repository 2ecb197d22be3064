//! Running a filter on its arguments.
ghost use Rattle.std.specs.Prelude.{ℕ, ◌≡◌, ◌≢◌, ◌==◌, ◌≤◌, List, Some, OnOk, true, false, map};
ghost use Rattle.std.specs.Io.KnownBytes.{Appends};
ghost use Rattle.clap.specs.Words.{Text};
ghost use Rattle.command_line.specs.Requests.{is_request};
ghost use Rattle.filter.specs.Fault.{status_of};
ghost use Rattle.filter.specs.declared.fault.FilterFault.{FilterFault};
ghost use Rattle.filter.specs.FilterLine.{AsksFilter, file_in};
ghost use Rattle.filter.specs.FilterRuns.{Rejects, RunsOn, RunsWords};
ghost use Rattle.input_text.specs.Write.{failed_after};

use crate::filter::{Filter, Run};
use crate::orders::filter_order;
use crate::report::StartFault;
use crate::text::{FilterFlags, FilterOrder, FilterText};
use command_line::{OrderFault, open_file};
use input_text::{Broken, Input, Output, put_all};
use std::alloc::Global;
use std::io::Write;
use std::rt::Files;

/// The name of standard input in fault lines.
const STANDARD_INPUT: &'static str = "-";

/// Runs a filter on the arguments after its name, and returns its exit status, 0 to 6.
///
/// It reads the file that the arguments name; without one it reads `input`. If they ask for help or
/// the version, that is written to `output`. If the status is not 0, the reason is written to
/// `faults`.
pub fn execute_words<F: Filter, R: Files + AllocGlobal, I: Input, O: Output, E: Write>(
    filter: &F,
    text: FilterText<'_>,
    rt: &R,
    words: &[&str],
    input: &mut I,
    output: &mut O,
    faults: &mut E,
) -> u8
    requires reads { I.failed input.old ≡ false }
    requires writes { O.failed output.old ≡ false }
    ensures most { result ≤ 6 }
    // Status 0 is returned only after a whole run, or where the arguments ask for a text, which is
    // written.
    ensures done { result ≡ 0
        → RunsWords F.filters text.entry (map (λ word. word.now) words.entry.now)
        (I.left input.old) (I.left input.new) (O.held output.old) (O.held output.new) }
    // If a file is named, standard input is left as it was.
    ensures unread { (file : Text)
        → file_in text.entry (map (λ word. word.now) words.entry.now) ≡ Some file
        → input.new ≡ input.old }
    // Arguments that clap rejects read nothing, and write nothing unless they ask for a text.
    ensures rejected { Rejects text.entry (map (λ word. word.now) words.entry.now)
        → input.new ≡ input.old }
    ensures kept { Rejects text.entry (map (λ word. word.now) words.entry.now)
        → (AsksFilter text.entry (map (λ word. word.now) words.entry.now) → ⊥)
        → output.new ≡ output.old }
    // The status is 4 exactly if a write or a flush failed.
    ensures unwritten { O.failed output.new ≡ (result == 4) }
    ensures quiet { result ≡ 0 → faults.new ≡ faults.old }
{
    match filter_order(rt.alloc(), text, words) {
        Ok(order) => run_order(filter, rt, order, input, output, faults),
        Err(fault) => answer(rt.alloc(), text.name, fault, output, faults),
    }
}

/// Runs a filter on an input, and returns the exit status, 0 to 6.
///
/// `flags` says which flags are set. `source` is the name of the input in fault lines. If the status
/// is not 0, the reason is written to `faults`.
pub fn execute<F: Filter, I: Input, O: Output, E: Write>(
    filter: &F,
    alloc: Global,
    flags: FilterFlags,
    source: &str,
    input: &mut I,
    output: &mut O,
    faults: &mut E,
) -> u8
    requires reads { I.failed input.old ≡ false }
    requires writes { O.failed output.old ≡ false }
    ensures most { result ≤ 6 }
    ensures done { result ≡ 0
        → F.filters flags (I.left input.old) (I.left input.new) (O.held output.old)
        (O.held output.new) }
    // Any other status is that of the fault with which it failed: 4 exactly if a write or a flush
    // did.
    ensures failed { result ≢ 0 → (fault : FilterFault) × (result ≡ status_of fault)
        × F.fails flags fault (I.left input.old) (I.left input.new) (O.held output.old)
        (O.held output.new) }
    ensures unwritten { O.failed output.new ≡ (result == 4) }
    ensures quiet { result ≡ 0 → faults.new ≡ faults.old }
{
    match filter.run(Run { alloc, flags }, input, output) {
        Ok(()) => 0,
        Err(fault) => fault.report(filter.text(), source, faults),
    }
}

/// Runs a filter on the file of an order, or on standard input.
fn run_order<F: Filter, R: Files + AllocGlobal, I: Input, O: Output, E: Write>(
    filter: &F,
    rt: &R,
    order: FilterOrder,
    input: &mut I,
    output: &mut O,
    faults: &mut E,
) -> u8
    requires reads { I.failed input.old ≡ false }
    requires writes { O.failed output.old ≡ false }
    ensures most { result ≤ 6 }
    ensures done { result ≡ 0
        → RunsOn (F.filters order.flags) order.file (I.left input.old) (I.left input.new)
        (O.held output.old) (O.held output.new) }
    ensures unread { (file : Text) → order.file ≡ Some file → input.new ≡ input.old }
    ensures unwritten { O.failed output.new ≡ (result == 4) }
    ensures quiet { result ≡ 0 → faults.new ≡ faults.old }
{
    let alloc = rt.alloc();
    let FilterOrder { file, flags } = order;
    let Some(file) = file else {
        return execute(filter, alloc, flags, STANDARD_INPUT, input, output, faults);
    };
    match open_file(rt, &file) {
        Ok(mut opened) => execute(
            filter,
            alloc,
            flags,
            file.as_str(),
            &mut opened,
            output,
            faults,
        ),
        Err(why) => StartFault::of_opening(file, why).report(filter.text().name, faults),
    }
}

/// Answers arguments that are no order: with the text that they ask for, or with a fault.
fn answer<O: Output, E: Write>(
    alloc: Global,
    program: &str,
    fault: OrderFault,
    output: &mut O,
    faults: &mut E,
) -> u8
    requires writes { O.failed output.old ≡ false }
    ensures most { result ≤ 6 }
    ensures done { result ≡ 0 → (is_request fault ≡ true)
        × ((text : List ℕ) × Appends (O.held output.old) (O.held output.new) text) }
    ensures kept { is_request fault ≡ false → output.new ≡ output.old }
    ensures unwritten { O.failed output.new ≡ (result == 4) }
    ensures quiet { result ≡ 0 → faults.new ≡ faults.old }
{
    match fault.requested_text(alloc) {
        Ok(Some(text)) => match write_text(text.as_str(), output) {
            Ok(()) => 0,
            Err(Broken) => StartFault::Output.report(program, faults),
        },
        Ok(None) => fault.report(program, faults),
        Err(error) => OrderFault::from(error).report(program, faults),
    }
}

/// Writes and flushes a text.
fn write_text<O: Output>(text: &str, output: &mut O) -> Result<(), Broken>
    ensures written { OnOk result (Appends (O.held output.old) (O.held output.new) text.now) }
    ensures failed { O.failed output.new ≡ failed_after result (O.failed output.old) }
{
    put_all(output, text.as_bytes())?;
    output.flush()
}
