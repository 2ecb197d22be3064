//! Parsing arguments by the command line of a table.
ghost use Rattle.std.specs.Prelude.{◌≡◌, [], IfErr, IfOk, map, true};
ghost use Rattle.clap.specs.Words.{fault_of, is_simple_and_free};
ghost use Rattle.command_line.specs.CommandLine.{HasRows, program_app};
ghost use Rattle.command_line.specs.Fault.{IsOfKind, IsRejectedBy};
ghost use Rattle.command_line.specs.Requests.{IsRequestedBy};

use crate::building::program;
use crate::fault::OrderFault;
use crate::table::ProgramText;
use clap::ArgMatches;
use clap::error::ErrorKind;
use std::alloc::Global;

/// Parses the arguments of a program, given without its name.
///
/// # Errors
///
/// `Usage` if the arguments are unknown, or ask for help or the version; `NoMemory` if out of
/// memory.
pub fn matches_of<'a>(
    alloc: Global,
    text: &ProgramText<'_, 'a>,
    words: &'a [&'a str],
) -> Result<ArgMatches<'a>, OrderFault>
    requires simple { is_simple_and_free (program_app text.now) ≡ true }
    ensures rows { IfOk result
        (HasRows (program_app text.now) (map (λ word. word.now) words.entry.now)) }
    // Clap accepts the arguments.
    ensures taken { IfOk result
        (λ _. fault_of (program_app text.now) (map (λ word. word.now) words.entry.now) ≡ []) }
    // `Usage` is returned only if clap rejects the arguments, and then with a kind for which it
    // does.
    ensures fault { IfErr result (IsRejectedBy
        (fault_of (program_app text.now) (map (λ word. word.now) words.entry.now))) }
    // It is help or the version only if clap answers the arguments with it.
    ensures requested { IfErr result (IsRequestedBy
        (fault_of (program_app text.now) (map (λ word. word.now) words.entry.now))) }
{
    let command = program(alloc, text)?;
    Ok(command.try_get_matches_from(words)?)
}

/// Returns the text for an argument that is not UTF-8, followed by the usage of a program.
pub fn not_utf8(alloc: Global, text: &ProgramText<'_, '_>) -> OrderFault
    ensures { IsOfKind ErrorKind.InvalidValue result }
{
    usage(alloc, text, ErrorKind::InvalidValue, "a word is not UTF-8")
}

/// Returns the text for a wrong value, this message, followed by the usage of a program.
pub fn wrong_value(alloc: Global, text: &ProgramText<'_, '_>, message: &str) -> OrderFault
    ensures { IsOfKind ErrorKind.ValueValidation result }
{
    usage(alloc, text, ErrorKind::ValueValidation, message)
}

/// Returns the text for a value out of its range, followed by the usage of a program.
pub fn out_of_range(alloc: Global, text: &ProgramText<'_, '_>) -> OrderFault
    ensures { IsOfKind ErrorKind.ValueValidation result }
{
    wrong_value(alloc, text, "a value is out of its range")
}

/// Returns this message, followed by the usage of a program.
fn usage(alloc: Global, text: &ProgramText<'_, '_>, kind: ErrorKind, message: &str) -> OrderFault
    ensures { IsOfKind kind result }
{
    let error = match program(alloc, text) {
        Ok(mut command) => command.error(kind, message),
        Err(error) => Err(error),
    };
    match error {
        Ok(error) => OrderFault::Usage(error),
        Err(_) => OrderFault::NoMemory,
    }
}
