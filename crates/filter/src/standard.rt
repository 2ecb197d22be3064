//! Running a filter on the arguments of the process and the standard streams.
ghost use Rattle.std.specs.Prelude.{◌≡◌, ◌≤◌, false};

use crate::announced::Announced;
use crate::closed_pipe::{FaultWriter, PipeWriter, exit_status};
use crate::filter::Filter;
use crate::orders::not_utf8_text;
use crate::running::execute_words;
use crate::terminal::is_terminal;
use crate::text::FilterText;
use command_line::{OrderFault, read_words, texts};
use input_text::{Input, TrackedReader, TrackedWriter};
use std::cell::Cell;
use std::io;
use std::io::Write;
use std::process::ExitCode;

/// Runs a filter on the arguments of the process and the standard streams, and returns the exit
/// code.
///
/// If it waits for what is typed on a terminal, it says so on standard error. A reader that closes
/// the pipe of standard output ends it with status 0, and nothing is said.
pub fn run_filter<F: Filter>(filter: &F, rt: &HostRuntime) -> ExitCode {
    let text = filter.text();
    ExitCode::from(match run_words(filter, text, rt) {
        Ok(status) => status,
        Err(fault) => fault.report(text.name, &mut rt.stderr()),
    })
}

/// Runs a filter, and returns the exit status. Fails if the arguments cannot be read.
fn run_words<F: Filter>(
    filter: &F,
    text: FilterText<'_>,
    rt: &HostRuntime,
) -> Result<u8, OrderFault> {
    let words = read_words(rt.alloc(), rt, |alloc| not_utf8_text(alloc, text))?;
    let texts = texts(rt.alloc(), words.as_slice())?;
    let mut input = TrackedReader::new(Announced::new(
        rt.reader(),
        rt.stderr(),
        text.name,
        is_terminal(rt),
    ));
    Ok(run_on_streams(
        filter,
        text,
        rt,
        texts.as_slice(),
        &mut input,
        io::writer(rt),
        rt.stderr(),
    ))
}

/// Runs a filter on these streams, and returns the exit status, 0 to 6: 0 also if the reader of the
/// output has closed its pipe.
fn run_on_streams<F: Filter, I: Input, W: Write + Drop, E: Write + Drop>(
    filter: &F,
    text: FilterText<'_>,
    rt: &HostRuntime,
    words: &[&str],
    input: &mut I,
    writer: W,
    faults: E,
) -> u8
    requires reads { I.failed input.old ≡ false }
    ensures most { result ≤ 6 }
{
    let is_closed = Cell::new(false);
    let mut output = TrackedWriter::new(PipeWriter {
        writer,
        is_closed: &is_closed,
    });
    let mut faults = FaultWriter {
        faults,
        is_closed: &is_closed,
    };
    let status = execute_words(filter, text, rt, words, input, &mut output, &mut faults);
    exit_status(status, is_closed.get())
}
