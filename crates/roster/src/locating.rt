//! Finding more about the first fault of a text.
ghost use Rattle.std.specs.Prelude.{◌≡◌, ◌≤◌, Ok, Err, IfOk, MatchResult, length, option_map};
ghost use Rattle.toml.specs.Parse.{parse_document};
ghost use Rattle.toml.specs.View.{table_view, view};
ghost use Rattle.roster.specs.Details.{AreDetails, cv_fault_in, described_in, details_at, details_of, line_feeds, name_in, node_at, node_table_at};
ghost use Rattle.roster.specs.Toml.{table_in};

use crate::described::Described;
use crate::details::FaultDetails;
use crate::entry::{Name, read_name};
use crate::fault::RosterFaultKind;
use crate::reading::read_version;
use crate::table::{text_at, value_at};
use decoder_cv::CvFault;
use std::alloc::{AllocError, Global};
use std::str;
use toml::{Table, Value};

/// Returns more about the first fault of a text, which is at this node, 1 to 64, or 0.
///
/// # Errors
///
/// Out of memory.
pub fn fault_details(alloc: Global, text: &[u8], node: u8) -> Result<FaultDetails, AllocError>
    ensures { IfOk result (AreDetails text.now (table_in text.now) node) }
{
    match str::from_utf8(text) {
        Ok(text) => details_in(alloc, text, node),
        Err(error) => Ok(details_at(text, error.valid_up_to())),
    }
}

/// The details of a text that is UTF-8.
fn details_in(alloc: Global, text: &str, node: u8) -> Result<FaultDetails, AllocError>
    ensures { IfOk result (AreDetails text.now (parse_document text.now) node) }
{
    match toml::table_from_str(alloc, text) {
        Ok(table) => Ok(node_details(&table, node)),
        Err(error) => match error.span() {
            Some(span) => Ok(details_at(text.as_bytes(), span.start)),
            None => Err(AllocError),
        },
    }
}

/// The details of a text that is no TOML from this byte on.
fn details_at(text: &[u8], at: usize) -> FaultDetails
    requires { at ≤ length text.now }
    ensures { result ≡ details_at text.now at }
{
    FaultDetails {
        line: Some(line_feeds(&text[..at]) + 1),
        name: None,
        cv: None,
    }
}

/// How many lines end in a text.
fn line_feeds(text: &[u8]) -> usize
    ensures count { result ≡ line_feeds text.now }
    ensures most { result ≤ length text.now }
{
    let mut count = 0;
    for byte in text {
        if *byte == b'\n' {
            count += 1;
        }
    }
    count
}

/// The details of a node, 1 to 64; there are none of the whole.
fn node_details(whole: &Table, node: u8) -> FaultDetails
    ensures { result
        ≡ details_of (table_view whole.now) (node_table_at (table_view whole.now) node) }
{
    match node_table(whole, node) {
        Some(table) => FaultDetails {
            line: None,
            name: name_in(table).ok(),
            cv: cv_fault_in(whole, table),
        },
        None => FaultDetails {
            line: None,
            name: None,
            cv: None,
        },
    }
}

/// The table of a node, from 1.
pub(crate) fn node_table(whole: &Table, node: u8) -> Option<&Table>
    ensures { option_map (λ table. table_view table.now) result
        ≡ node_table_at (table_view whole.now) node }
{
    node_value(whole, node)?.as_table()
}

/// The value of a node, from 1.
fn node_value(whole: &Table, node: u8) -> Option<&Value>
    ensures { option_map (λ value. view value.now) result ≡ node_at (table_view whole.now) node }
{
    let index = usize::from(node).checked_sub(1)?;
    value_at(whole, "node")?.get(index)
}

/// The name of a node.
fn name_in(table: &Table) -> Result<Name, RosterFaultKind>
    ensures { MatchResult result (λ name. name_in (table_view table.now) ≡ Ok name.bytes)
        (λ why. name_in (table_view table.now) ≡ Err why) }
{
    match text_at(table, "name") {
        Some(name) => read_name(&[], name),
        None => Err(RosterFaultKind::BadShape),
    }
}

/// The fault of the variables of a node.
fn cv_fault_in(whole: &Table, table: &Table) -> Option<CvFault>
    ensures { result ≡ cv_fault_in (described_in (table_view whole.now) (table_view table.now)) }
{
    match described_in(whole, table) {
        Ok(described) => described.cv_fault(),
        Err(_) => None,
    }
}

/// What a node says of its decoder, in the version of the whole.
pub(crate) fn described_in<'a>(
    whole: &Table,
    table: &'a Table,
) -> Result<Described<'a>, RosterFaultKind>
    ensures { result ≡ described_in (table_view whole.now) (table_view table.now) }
{
    let version = read_version(whole)?;
    match text_at(table, "kind") {
        Some(kind) => Described::read(version, kind, table),
        None => Err(RosterFaultKind::BadShape),
    }
}
