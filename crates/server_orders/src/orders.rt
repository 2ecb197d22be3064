//! Parsing the command line of `lbserver`.
ghost use Rattle.std.specs.Prelude.{◌≡◌, [], IfErr, IfOk, OnOk, codes, map, string_bytes};
ghost use Rattle.std.specs.List.{list_all};
ghost use Rattle.clap.specs.Words.{fault_of, first_of, found_of, one_of, rows_of};
ghost use Rattle.command_line.specs.Fault.{IsOfKind, IsUnmatched};
ghost use Rattle.command_line.specs.Requests.{IsRequestedBy};
ghost use Rattle.server_orders.specs.Shares.{all_given};
ghost use Rattle.server_orders.specs.declared.words.ServerOrder.{ServerOrder as OrderValue};
ghost use Rattle.server_orders.specs.ServerLine.{AreCompatible, AreCompatibleFor, AreHosts, AreSettings, IsDefaultOrder, IsNumberIfGiven, IsServerFault, IsServerOrder, IsServerOrderOf, is_host_byte, is_host_name, server_app};

use crate::shares::shares;
use crate::table::lbserver;
use crate::words::{ServerOrder, Settings};
use clap::ArgMatches;
use clap::error::ErrorKind;
use command_line::{
    FileName, OrderFault, address, file_name, flag, matches_of, not_utf8, number, repeated, text,
    wrong_value,
};
use std::alloc::{AllocError, Global};

/// Returns the number of an optional option. A value outside this range is a fault.
fn number_if_given(
    alloc: Global,
    found: &ArgMatches<'_>,
    id: &str,
    least: u32,
    most: u32,
) -> Result<Option<u32>, OrderFault>
    ensures number { IfOk result
        (IsNumberIfGiven (one_of id.now (rows_of (found_of found.now))) least most) }
    ensures fault { IfErr result
        (IsUnmatched (IsNumberIfGiven (one_of id.now (rows_of (found_of found.now))) least most)) }
{
    if text(found, id).is_none() {
        return Ok(None);
    }
    match number(found, id, least, most) {
        Some(number) => Ok(Some(number)),
        None => Err(out_of_range(alloc)),
    }
}

// The fault of a value out of range. Clap has checked each value, so this is never called.
fn out_of_range(alloc: Global) -> OrderFault
    ensures { IsOfKind ErrorKind.ValueValidation result }
{
    command_line::out_of_range(alloc, lbserver())
}

// Clap accepts any text as an address.
fn no_address(alloc: Global) -> OrderFault
    ensures { IsOfKind ErrorKind.ValueValidation result }
{
    wrong_value(
        alloc,
        lbserver(),
        "the address is no IPv4 address, as 127.0.0.1 is",
    )
}

/// Returns the text for an argument that is not UTF-8, followed by the usage of `lbserver`.
pub fn not_utf8_server_text(alloc: Global) -> OrderFault
    ensures { IsOfKind ErrorKind.InvalidValue result }
{
    not_utf8(alloc, lbserver())
}

/// Returns the names of the repeated option `--host`. One that is no host name is a fault.
fn hosts(alloc: Global, found: &ArgMatches<'_>) -> Result<Vec<String>, OrderFault>
    ensures hosts { IfOk result
        (λ hosts. AreHosts (all_given found.now (codes "host"))
        (map (λ host. string_bytes host) hosts.items)) }
    ensures fault { IfErr result (IsUnmatched (AreHosts (all_given found.now (codes "host")))) }
{
    let Some(names) = repeated(found, "host") else {
        return Ok(Vec::new(alloc));
    };
    if !are_host_names(names) {
        return Err(no_host_name(alloc));
    }
    Ok(copied(alloc, names)?)
}

/// Whether each of these is a host name.
fn are_host_names(names: &[&str]) -> bool
    ensures { result ≡ list_all is_host_name (map (λ name. name.now) names.now) }
{
    for name in names {
        if !is_host_name(name.as_bytes()) {
            return false;
        }
    }
    true
}

/// Whether a name has letters, digits, hyphens and dots alone, and any.
fn is_host_name(name: &[u8]) -> bool
    ensures { result ≡ is_host_name name.now }
{
    !name.is_empty() && are_host_bytes(name)
}

fn are_host_bytes(bytes: &[u8]) -> bool
    ensures { result ≡ list_all is_host_byte bytes.now }
{
    bytes.iter().all(|byte| is_host_byte(*byte))
}

fn is_host_byte(byte: u8) -> bool
    ensures { result ≡ is_host_byte byte }
{
    byte.is_ascii_alphanumeric() || byte == b'-' || byte == b'.'
}

/// Copies texts.
fn copied(alloc: Global, texts: &[&str]) -> Result<Vec<String>, AllocError>
    ensures { IfOk result
        (λ copies. map (λ copy. string_bytes copy) copies.items
        ≡ map (λ text. text.now) texts.entry.now) }
{
    let mut copies = Vec::new(alloc);
    for text in texts {
        copies.push(String::from_str(alloc, text)?)?;
    }
    Ok(copies)
}

// Clap accepts any text as a name.
fn no_host_name(alloc: Global) -> OrderFault
    ensures { IsOfKind ErrorKind.ValueValidation result }
{
    wrong_value(
        alloc,
        lbserver(),
        "the host is no name: letters, digits, hyphens and dots, without a port",
    )
}

// A plan without a roster.
fn no_roster(alloc: Global) -> OrderFault
    ensures { IsOfKind ErrorKind.ValueValidation result }
{
    wrong_value(alloc, lbserver(), "--plan needs --roster")
}

// A file without a page.
fn no_page(alloc: Global) -> OrderFault
    ensures { IsOfKind ErrorKind.ValueValidation result }
{
    wrong_value(alloc, lbserver(), "--page-file needs --page")
}

// A rate beside turns after messages.
fn two_paces(alloc: Global) -> OrderFault
    ensures { IsOfKind ErrorKind.ValueValidation result }
{
    wrong_value(alloc, lbserver(), "--rate cannot be used with --turns")
}

/// Checks that a plan has a roster, that the file of a page has a page, and that a rate is not
/// given with turns.
fn check_compatible(alloc: Global, found: &ArgMatches<'_>) -> Result<(), OrderFault>
    ensures compatible { OnOk result (AreCompatible (rows_of (found_of found.now))) }
    ensures fault { IfErr result
        (IsUnmatched (AreCompatibleFor {A = OrderValue} (rows_of (found_of found.now)))) }
{
    if text(found, "plan").is_some() && text(found, "roster").is_none() {
        return Err(no_roster(alloc));
    }
    if text(found, "page-file").is_some() && text(found, "page").is_none() {
        return Err(no_page(alloc));
    }
    if text(found, "rate").is_some() && text(found, "turns").is_some() {
        return Err(two_paces(alloc));
    }
    Ok(())
}

/// Returns the settings of an order.
fn settings(alloc: Global, found: &ArgMatches<'_>) -> Result<Settings, OrderFault>
    ensures settings { IfOk result (AreSettings (rows_of (found_of found.now))) }
    ensures fault { IfErr result (IsUnmatched (AreSettings (rows_of (found_of found.now)))) }
{
    let Some(address) = address(found, "address") else {
        return Err(no_address(alloc));
    };
    let (Some(port), Some(track), Some(quiet), Some(times), Some(seed)) = (
        number(found, "port", 0, 65_535),
        flag(found, "track"),
        flag(found, "quiet"),
        flag(found, "times"),
        number(found, "seed", 0, u32::MAX),
    ) else {
        return Err(out_of_range(alloc));
    };
    let turns = number_if_given(alloc, found, "turns", 0, 255)?;
    let rate = number_if_given(alloc, found, "rate", 1, 100)?;
    let clients = number_if_given(alloc, found, "clients", 0, u32::MAX)?;
    let page = number_if_given(alloc, found, "page", 0, 65_535)?;
    Ok(Settings {
        address,
        port: port as u16,
        turns: turns.map(|turns| turns as u8),
        rate: rate.map(|rate| rate as u8),
        clients,
        track,
        quiet,
        times,
        page: page.map(|port| port as u16),
        seed,
    })
}

/// The names of files of an order.
#[derive(Drop)]
struct Files {
    roster: Option<FileName>,
    plan: Option<FileName>,
    programmer: Option<FileName>,
    page_file: Option<FileName>,
}

/// Returns the names of files of an order.
fn file_names(alloc: Global, found: &ArgMatches<'_>) -> Result<Files, AllocError>
    ensures { IfOk result (λ files.
        (files.roster ≡ first_of (codes "roster") (rows_of (found_of found.now)))
        × (files.plan ≡ first_of (codes "plan") (rows_of (found_of found.now)))
        × (files.programmer ≡ first_of (codes "programmer") (rows_of (found_of found.now)))
        × (files.page_file ≡ first_of (codes "page-file") (rows_of (found_of found.now)))) }
{
    Ok(Files {
        roster: file_name(alloc, found, "roster")?,
        plan: file_name(alloc, found, "plan")?,
        programmer: file_name(alloc, found, "programmer")?,
        page_file: file_name(alloc, found, "page-file")?,
    })
}

/// Returns the order of these matches. What owns memory is made last: each early return after it
/// frees it.
fn matched(alloc: Global, found: &ArgMatches<'_>) -> Result<ServerOrder, OrderFault>
    ensures order { IfOk result (IsServerOrder (rows_of (found_of found.now))) }
    ensures fault { IfErr result (IsUnmatched (IsServerOrder (rows_of (found_of found.now)))) }
{
    let settings = settings(alloc, found)?;
    check_compatible(alloc, found)?;
    let files = file_names(alloc, found)?;
    let hosts = hosts(alloc, found)?;
    let lose = shares(alloc, found)?;
    Ok(ServerOrder {
        address: settings.address,
        port: settings.port,
        roster: files.roster,
        plan: files.plan,
        programmer: files.programmer,
        turns: settings.turns,
        rate: settings.rate,
        clients: settings.clients,
        track: settings.track,
        quiet: settings.quiet,
        times: settings.times,
        page: settings.page,
        page_file: files.page_file,
        hosts,
        lose,
        seed: settings.seed,
    })
}

/// Parses the arguments of `lbserver`, given without the program's name. An option that is not
/// given has its default.
///
/// # Errors
///
/// `Usage` if the arguments are unknown, the address is not valid, or help is asked for; `NoMemory`
/// if out of memory.
pub fn server_order<'a>(alloc: Global, words: &'a [&'a str]) -> Result<ServerOrder, OrderFault>
    // An order holds what clap's matches hold, each number in its range.
    ensures order { IfOk result
        (λ order. IsServerOrderOf (map (λ word. word.now) words.entry.now) order) }
    ensures no_words { words.entry.now ≡ [] → IfOk result IsDefaultOrder }
    // Clap accepts the arguments of an order.
    ensures taken { IfOk result
        (λ _. fault_of server_app (map (λ word. word.now) words.entry.now) ≡ []) }
    // `Usage` is returned only if clap rejects the arguments, and then with a kind for which it
    // does, or if no order corresponds to its matches.
    ensures fault { IfErr result (IsServerFault (map (λ word. word.now) words.entry.now)) }
    // It is help or the version only if clap answers the arguments with it.
    ensures requested { IfErr result
        (IsRequestedBy (fault_of server_app (map (λ word. word.now) words.entry.now))) }
{
    let matches = matches_of(alloc, lbserver(), words)?;
    matched(alloc, &matches)
}
