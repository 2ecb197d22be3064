//! Parsing the command line of a filter: a program that reads a file or standard input, and writes
//! to standard output.
ghost use Rattle.std.specs.Prelude.{◌≡◌, [], IfErr, IfOk, map};
ghost use Rattle.clap.specs.Words.{fault_of, found_of, rows_of};
ghost use Rattle.clap.specs.declared.error.kind.ErrorKind.TheVariants.{InvalidValue};
ghost use Rattle.command_line.specs.Fault.{IsOfKind, IsRejectedBy};
ghost use Rattle.command_line.specs.Requests.{IsRequestedBy};
ghost use Rattle.filter.specs.FilterLine.{IsFilterOrder, IsFlagIn, filter_app, flag_of};

use crate::table::{arguments_of, program_text};
use crate::text::{FilterFlag, FilterFlags, FilterOrder, FilterText};
use clap::ArgMatches;
use command_line::{OrderFault, file_name, flag, matches_of, not_utf8};
use std::alloc::Global;

/// Returns the text for an argument that is not UTF-8, followed by the usage of a filter.
pub(crate) fn not_utf8_text(alloc: Global, text: FilterText<'_>) -> OrderFault
    ensures kind { IsOfKind InvalidValue result }
{
    let arguments = arguments_of(text);
    not_utf8(alloc, &program_text(text, arguments.as_slice()))
}

/// Whether a flag is set, if there is one.
fn is_set(found: &ArgMatches<'_>, text: Option<FilterFlag<'_>>) -> bool
    ensures { IsFlagIn (flag_of text.entry) (rows_of (found_of found.now)) result }
{
    match text {
        Some(text) => flag(found, text.name).unwrap_or(false),
        None => false,
    }
}

/// Parses the arguments of a filter, given without the program's name.
///
/// # Errors
///
/// `Usage` if the arguments are unknown, or ask for help or the version; `NoMemory` if out of
/// memory.
pub fn filter_order<'a>(
    alloc: Global,
    text: FilterText<'a>,
    words: &'a [&'a str],
) -> Result<FilterOrder, OrderFault>
    // The order holds what clap's matches hold.
    ensures order { IfOk result
        (IsFilterOrder text.entry (map (λ word. word.now) words.entry.now)) }
    // Clap accepts the arguments of an order.
    ensures taken { IfOk result
        (λ _. fault_of (filter_app text.entry) (map (λ word. word.now) words.entry.now) ≡ []) }
    // `Usage` is returned only if clap rejects the arguments, and then with a kind for which it
    // does.
    ensures fault { IfErr result (IsRejectedBy
        (fault_of (filter_app text.entry) (map (λ word. word.now) words.entry.now))) }
    // It is help or the version only if clap answers the arguments with it.
    ensures requested { IfErr result (IsRequestedBy
        (fault_of (filter_app text.entry) (map (λ word. word.now) words.entry.now))) }
{
    let arguments = arguments_of(text);
    let matches = matches_of(alloc, &program_text(text, arguments.as_slice()), words)?;
    Ok(FilterOrder {
        file: file_name(alloc, &matches, "file")?,
        flags: FilterFlags {
            first: is_set(&matches, text.flag),
            second: is_set(&matches, text.second_flag),
        },
    })
}
