//! Parsing the command line of `station`.
ghost use Rattle.std.specs.Prelude.{◌≡◌, [], Ok, None, IfErr, IfOk, codes, map};
ghost use Rattle.clap.specs.Words.{found_of, rows_of, subcommand_of, subcommand_rows_of};
ghost use Rattle.command_line.specs.Fault.{IsOfKind, IsRejectedBy, IsUnmatched};
ghost use Rattle.station_orders.specs.Fault.{IsOrderFault, refusals};
ghost use Rattle.station_orders.specs.Order.{IsMatched, IsOrder, IsOrderOf};
ghost use Rattle.station_orders.specs.StationLine.{station_app};

use crate::table::station;
use crate::words::Order;
use clap::ArgMatches;
use clap::error::ErrorKind;
use command_line::{OrderFault, file_name, matches_of, not_utf8, number};
use std::alloc::Global;

// The fault of a value out of range. Clap has checked each value, so this is never called.
fn out_of_range(alloc: Global) -> OrderFault
    ensures { IsOfKind ErrorKind.ValueValidation result }
{
    command_line::out_of_range(alloc, station())
}

/// Returns the text for an argument that is not UTF-8, followed by the usage.
pub fn no_text(alloc: Global) -> OrderFault
    ensures { IsOfKind ErrorKind.InvalidValue result }
{
    not_utf8(alloc, station())
}

fn replay(alloc: Global, found: &ArgMatches<'_>) -> Result<Order, OrderFault>
    ensures order { IfOk result
        (λ order. IsOrder (codes "replay") (rows_of (found_of found.now)) order) }
    ensures fault { IfErr result
        (IsUnmatched (λ order. IsOrder (codes "replay") (rows_of (found_of found.now)) order)) }
{
    let Some(lines) = number(found, "lines", 1, 8) else {
        return Err(out_of_range(alloc));
    };
    let roster = file_name(alloc, found, "roster")?;
    Ok(Order::Replay {
        lines: lines as u8,
        roster,
    })
}

fn monitor(alloc: Global, found: &ArgMatches<'_>) -> Result<Order, OrderFault>
    ensures order { IfOk result
        (λ order. IsOrder (codes "monitor") (rows_of (found_of found.now)) order) }
    ensures fault { IfErr result
        (IsUnmatched (λ order. IsOrder (codes "monitor") (rows_of (found_of found.now)) order)) }
{
    match file_name(alloc, found, "file")? {
        Some(file) => Ok(Order::Monitor { file }),
        None => Err(out_of_range(alloc)),
    }
}

fn serve(alloc: Global, found: &ArgMatches<'_>) -> Result<Order, OrderFault>
    ensures order { IfOk result
        (λ order. IsOrder (codes "serve") (rows_of (found_of found.now)) order) }
    ensures fault { IfErr result
        (IsUnmatched (λ order. IsOrder (codes "serve") (rows_of (found_of found.now)) order)) }
{
    let (Some(port), Some(turns), Some(reads), Some(connections)) = (
        number(found, "port", 1, 65_535),
        number(found, "turns", 0, 255),
        number(found, "reads", 1, u32::MAX),
        number(found, "connections", 1, 1000),
    ) else {
        return Err(out_of_range(alloc));
    };
    Ok(Order::Serve {
        port: port as u16,
        roster: file_name(alloc, found, "roster")?,
        turns: turns as u8,
        reads,
        connections,
    })
}

fn command_order(alloc: Global, command: &str, found: &ArgMatches<'_>) -> Result<Order, OrderFault>
    ensures order { IfOk result
        (λ order. IsOrder command.now (rows_of (found_of found.now)) order) }
    ensures fault { IfErr result
        (IsUnmatched (λ order. IsOrder command.now (rows_of (found_of found.now)) order)) }
{
    match command {
        "replay" => replay(alloc, found),
        "monitor" => monitor(alloc, found),
        "serve" => serve(alloc, found),
        _ => Err(out_of_range(alloc)),
    }
}

fn matched(alloc: Global, matches: &ArgMatches<'_>) -> Result<Order, OrderFault>
    ensures order { IfOk result (λ order. IsMatched (subcommand_rows_of matches.now) order) }
    ensures fault { IfErr result
        (IsUnmatched (λ order. IsMatched (subcommand_rows_of matches.now) order)) }
{
    match matches.subcommand() {
        Some((command, found)) => command_order(alloc, command, found),
        None => Err(out_of_range(alloc)),
    }
}

/// Parses the arguments of `station`, given without the program's name.
///
/// # Errors
///
/// `Usage` if the arguments are unknown or ask for help; `NoMemory` if out of memory.
pub fn order<'a>(alloc: Global, words: &'a [&'a str]) -> Result<Order, OrderFault>
    // An order holds what clap's matches hold, each number in its range.
    ensures order { IfOk result
        (λ order. IsOrderOf (map (λ word. word.now) words.entry.now) order) }
    ensures no_words { words.entry.now ≡ [] → result ≡ Ok (Order.Replay 1 None) }
    // Clap accepts the arguments of an order.
    ensures taken { IfOk result (λ _. refusals (map (λ word. word.now) words.entry.now) ≡ []) }
    // `Usage` is returned only if clap rejects the arguments, and then with a kind for which it
    // does, or if no order corresponds to its matches.
    ensures fault { IfErr result (IsOrderFault (map (λ word. word.now) words.entry.now)) }
{
    if words.is_empty() {
        return Ok(Order::Replay {
            lines: 1,
            roster: None,
        });
    }
    let matches = matches_of(alloc, station(), words)?;
    matched(alloc, &matches)
}
