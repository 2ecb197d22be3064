//! Filters on their three streams, and the results of runs.
ghost use Rattle.std.specs.Prelude.{◌≡◌, false};

use crate::devices::Broken;
use crate::memory::Scarcity;
use filter::{Filter, FilterFlags, execute};
use input_text::{Input, Output, TrackedReader, TrackedWriter};
use std::alloc::{AllocError, Global};
use std::io::{Read, Write};
use std::mem;

/// How many bytes more are left from run to run: the granularity of the C library's allocator, so
/// that no allocation is skipped.
const STEP: usize = 16;

/// The most runs with too little memory.
const MOST_REFUSED: u32 = 40_000;

/// The status and the output of a run.
#[derive(Drop)]
pub struct Ran {
    /// The exit status.
    pub status: u8,
    /// The bytes written to standard output.
    pub output: Vec<u8>,
    /// The bytes written to standard error.
    pub faults: Vec<u8>,
}

impl Ran {
    /// Whether the run had this result.
    pub fn is(&self, status: u8, output: &[u8], faults: &[u8]) -> bool {
        self.status == status
            && self.output.as_slice() == output
            && self.faults.as_slice() == faults
    }

    /// Whether the run reported no fault, and its output ends like this.
    pub fn has_drawn_up_to(&self, end: &[u8]) -> bool {
        self.status == 0 && self.faults.is_empty() && self.output.as_slice().ends_with(end)
    }
}

/// Standard input, standard output and standard error of a run.
struct Streams<'a, I, O, E>(&'a mut I, &'a mut O, &'a mut E);

/// Runs a filter without flags, and returns the exit status.
fn run_on<F: Filter, I: Input, O: Output, E: Write>(
    filter: &F,
    alloc: Global,
    on: Streams<I, O, E>,
) -> u8
    requires { (I.failed on.0.now ≡ false) × (O.failed on.1.now ≡ false) }
{
    let Streams(input, output, faults) = on;
    execute(
        filter,
        alloc,
        FilterFlags::default(),
        "-",
        input,
        output,
        faults,
    )
}

/// Runs a filter on this reader.
pub fn run_from<F: Filter, R: Read>(filter: &F, alloc: Global, reader: &mut R) -> Ran {
    let mut output = Vec::new(alloc);
    let (status, faults) = run_to(filter, alloc, reader, &mut output);
    Ran {
        status,
        output,
        faults,
    }
}

/// Runs a filter on this text.
pub fn run<F: Filter>(filter: &F, alloc: Global, text: &[u8]) -> Ran {
    let mut reader = text;
    run_from(filter, alloc, &mut reader)
}

/// Runs a filter on this reader and with this output. Returns the status and the text on standard
/// error.
pub fn run_to<F: Filter, R: Read, O: Write>(
    filter: &F,
    alloc: Global,
    reader: &mut R,
    output: &mut O,
) -> (u8, Vec<u8>) {
    let mut faults = Vec::new(alloc);
    let mut input = TrackedReader::new(reader);
    let mut output = TrackedWriter::new(output);
    let status = run_on(filter, alloc, Streams(&mut input, &mut output, &mut faults));
    (status, faults)
}

/// Returns the status of a run on this reader whose standard error cannot be written.
pub fn run_unreported<F: Filter, R: Read>(filter: &F, alloc: Global, reader: &mut R) -> u8 {
    let mut output = TrackedWriter::new(Vec::new(alloc));
    let mut input = TrackedReader::new(reader);
    run_on(
        filter,
        alloc,
        Streams(&mut input, &mut output, &mut Broken::new()),
    )
}

/// Runs a filter on this text with more and more memory, from none, until a run does not report
/// that memory ran out: with this fault line, no output and status 6. Returns the number of runs
/// that did, and the result of the first other run, or else of the last. The memory of the results
/// is taken at the start.
///
/// # Errors
///
/// The process had too little memory at the start.
pub fn run_as_room_grows<F: Filter>(
    filter: &F,
    alloc: Global,
    text: &[u8],
    no_memory: &[u8],
) -> Result<(u32, Ran), AllocError> {
    // The stack grows to all that a run needs of it, while memory is available.
    let mut ran = run(filter, alloc, text);
    ran.output = Vec::with_capacity(alloc, 16_384)?;
    ran.faults = Vec::with_capacity(alloc, 64)?;
    let mut scarcity = Scarcity::new(alloc)?;
    for refused in 0..MOST_REFUSED {
        ran.output.clear();
        ran.faults.clear();
        let mut input = TrackedReader::new(text);
        scarcity.leave(refused as usize * STEP)?;
        let mut output = TrackedWriter::new(mem::replace(&mut ran.output, Vec::new(alloc)));
        let on = Streams(&mut input, &mut output, &mut ran.faults);
        ran.status = run_on(filter, alloc, on);
        ran.output = output.into_inner();
        scarcity.relax();
        if ran.status != 6 || !ran.output.is_empty() || ran.faults.as_slice() != no_memory {
            return Ok((refused, ran));
        }
    }
    Ok((MOST_REFUSED, ran))
}
