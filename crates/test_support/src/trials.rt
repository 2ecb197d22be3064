//! Trials of a filter that draws: streams that fail, and little memory.

use crate::{
    Broken, Ran, Rough, Spaces, Uneven, run, run_as_room_grows, run_from, run_to, run_unreported,
};
use filter::Filter;
use std::alloc::{AllocError, Global};
use std::io::ErrorKind;

const ONE_PACKET: &[u8] = b"track 1 FF 00 FF\n";

/// Six idle packets, so that lists of what lines tell grow more than once.
const IDLES: &[u8] = b"track 1 FF 00 FF
track 2 FF 00 FF
track 3 FF 00 FF
track 4 FF 00 FF
track 5 FF 00 FF
track 6 FF 00 FF
";

/// The line that a program of this name reports for a fault.
fn fault_line(alloc: Global, name: &str, fault: &str) -> Result<String, AllocError> {
    format!(in alloc; "{name}: {fault}\n")
}

/// Whether an input that cannot be read is reported.
fn reports_unreadable_input<F: Filter>(filter: &F, alloc: Global, unread: &[u8]) -> bool {
    let mut stops = Uneven::new(ONE_PACKET, 20, Some(ErrorKind::Other));
    run_from(filter, alloc, &mut stops).is(2, b"", unread)
        && run_from(filter, alloc, &mut Broken::new()).is(2, b"", unread)
}

/// Whether interrupted reads are tried again.
fn retries_interrupted_reads<F: Filter>(filter: &F, alloc: Global, end: &[u8]) -> bool {
    let ran = run_from(filter, alloc, &mut Uneven::new(ONE_PACKET, 5, None));
    ran.has_drawn_up_to(end)
}

/// Whether a long input is read one byte past the limit.
fn reads_to_the_limit<F: Filter>(filter: &F, alloc: Global, too_long: &[u8]) -> bool {
    let mut spaces = Spaces { read: 0 };
    let ran = run_from(filter, alloc, &mut spaces);
    ran.is(5, b"", too_long) && spaces.read == 16_777_217
}

/// Whether an output that cannot be written is reported.
fn reports_unwritable_output<F: Filter>(filter: &F, alloc: Global, unwritten: &[u8]) -> bool {
    let mut text = ONE_PACKET;
    let (status, faults) = run_to(filter, alloc, &mut text, &mut Broken::new());
    status == 4 && faults.as_slice() == unwritten
}

/// Whether an output that fails after its first 100 bytes is reported, whether a write fails or writes no byte.
fn reports_output_that_ends<F: Filter>(filter: &F, alloc: Global, unwritten: &[u8]) -> bool {
    for end in [Some(ErrorKind::Other), None] {
        let mut text = ONE_PACKET;
        let mut output = Rough::new(alloc, 100, 1, 1, end);
        let (status, faults) = run_to(filter, alloc, &mut text, &mut output);
        if status != 4 || faults.as_slice() != unwritten || output.written.len() != 100 {
            return false;
        }
    }
    true
}

/// Whether interrupted writes (every second, or two of three) are tried again, and short writes continued.
fn retries_interrupted_writes<F: Filter>(filter: &F, alloc: Global, end: &[u8]) -> bool {
    for interrupts in 1..3u32 {
        let mut text = ONE_PACKET;
        let mut output = Rough::new(alloc, 100, interrupts, 1000, None);
        let (status, _) = run_to(filter, alloc, &mut text, &mut output);
        if status != 0 || !output.written.as_slice().ends_with(end) {
            return false;
        }
    }
    true
}

/// Whether a fault that cannot be reported has the status of one that is.
fn ends_though_unreported<F: Filter>(filter: &F, alloc: Global) -> bool {
    let mut text = b"track\n".as_slice();
    run_unreported(filter, alloc, &mut text) == 5
}

/// Names the first trial of standard streams that the filter fails, or returns `None`. `end`: how its drawing of one packet
/// ends.
///
/// # Errors
///
/// Out of memory for the test itself.
pub fn first_failure<F: Filter>(
    filter: &F,
    alloc: Global,
    end: &[u8],
) -> Result<Option<&'static str>, AllocError> {
    let unread = fault_line(alloc, filter.text().name, "cannot read -")?;
    if !reports_unreadable_input(filter, alloc, unread.as_bytes()) {
        return Ok(Some("standard input cannot be read"));
    }
    if !retries_interrupted_reads(filter, alloc, end) {
        return Ok(Some("standard input is interrupted"));
    }
    let too_long = fault_line(alloc, filter.text().name, "too long")?;
    if !reads_to_the_limit(filter, alloc, too_long.as_bytes()) {
        return Ok(Some("standard input is without end"));
    }
    let unwritten = fault_line(alloc, filter.text().name, "output")?;
    if !reports_unwritable_output(filter, alloc, unwritten.as_bytes()) {
        return Ok(Some("standard output cannot be written"));
    }
    if !reports_output_that_ends(filter, alloc, unwritten.as_bytes()) {
        return Ok(Some("standard output fails at a later write"));
    }
    if !retries_interrupted_writes(filter, alloc, end) {
        return Ok(Some("standard output is interrupted"));
    }
    if !ends_though_unreported(filter, alloc) {
        return Ok(Some("standard error cannot be written"));
    }
    Ok(None)
}

/// Runs a filter on six packets and `more`, with ever more memory, from none until a run succeeds. Returns how many runs
/// reported `no memory`, and the result of the first other one.
///
/// This takes the memory of the process, and so needs the allocator of the C library: `rt test`, and not `rt try`.
///
/// # Errors
///
/// Out of memory for the test itself.
pub fn run_with_little_memory<F: Filter>(
    filter: &F,
    alloc: Global,
    more: &[u8],
) -> Result<(u32, Ran), AllocError> {
    let mut text = Vec::new(alloc);
    text.extend_from_slice(IDLES)?;
    text.extend_from_slice(more)?;
    let no_memory = fault_line(alloc, filter.text().name, "no memory")?;
    run_as_room_grows(filter, alloc, text.as_slice(), no_memory.as_bytes())
}
