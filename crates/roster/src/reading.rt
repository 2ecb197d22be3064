//! Reading a roster.
ghost use Rattle.std.specs.Prelude.{◌≡◌, ◌≢◌, ◌≤◌, [], Ok, Err, Some, None, IfOk, IfErr, IsUtf8, MatchResult, length, option_map};
ghost use Rattle.toml.specs.View.{items_view, table_view, view};
ghost use Rattle.roster.specs.declared.fault.RosterFaultKind.TheVariants.{NoMemory, NotToml};
ghost use Rattle.roster.specs.Entry.{IsRoster};
ghost use Rattle.roster.specs.Format.{array_or_none, entries_after, nodes_in, roster_in, roster_of, version_in};
ghost use Rattle.roster.specs.Toml.{table_in};

use crate::entry::Entry;
use crate::fault::{RosterFault, RosterFaultKind};
use crate::roster::{Entries, Roster};
use crate::table::{integer_at, knows_only, value_at};
use crate::version::Version;
use decoder_node::MAX_NODES;
use std::alloc::Global;
use std::str;
use toml::{Table, Value};

/// A fault of the whole.
fn of_all(why: RosterFaultKind) -> RosterFault
    ensures { result ≡ record { why = why; node = 0 } }
{
    RosterFault { why, node: 0 }
}

/// Reads a roster, a text in TOML of any length.
///
/// ```toml
/// version = 2
///
/// [[node]]
/// name = "shunter"
/// kind = "loco"
/// cvs = [[1, 3], [29, 2]]
///
/// [[node]]
/// name = "yard"
/// kind = "accessory"
/// module = 1
/// ```
///
/// The top level has `version`, which is 1 or 2, and `node`, an array of 1 to 64 tables. Each has a `name`, 1 to 16
/// ASCII letters, digits, `-` or `_`, which no earlier node has. A `loco` of version 2 has `cvs`, an array of pairs of a
/// variable's number and its value, of which 1 and 29 have to be there; one of version 1 has `cv1` and `cv29`, and may
/// have `cv17` and `cv18`. Where 17 is left out it is 192, where 18 is, 0. An `accessory` has its `module`. There are no
/// other keys.
///
/// The first fault is reported: `NotToml`, `BadShape` of the top level, `Empty` and `TooMany`, all four at node 0; then
/// node after node, counted from 1, `BadShape`, `BadName`, and `BadModule` or `BadCv`; in version 2 `BadCv` for a value
/// outside 0 to 255, `BadCvList`, and `BadCv` for values that make no locomotive decoder. `NoMemory`, at node 0, comes
/// where a growth is refused before that.
#[tactic(auto, unfolding(crate::specs::Format::roster_in))]
pub fn read(alloc: Global, text: &[u8]) -> Result<Roster, RosterFault>
    // The roster is what the text says.
    ensures ok { IfOk result (λ roster. roster_in text.now ≡ Ok roster) }
    // The fault is the first of the text, unless memory ran out.
    ensures fault { IfErr result (λ fault. fault.why ≢ NoMemory → roster_in text.now ≡ Err fault) }
    ensures memory { IfErr result
        (λ fault. fault.why ≡ NoMemory → (fault.node ≡ 0) × IsUtf8 text.now) }
    ensures roster { IfOk result IsRoster }
{
    match read_toml(alloc, text) {
        Ok(table) => read_table(&table),
        Err(why) => Err(of_all(why)),
    }
}

/// Returns the table of a text in TOML.
///
/// # Errors
///
/// `NotToml`; `NoMemory` if out of memory.
pub fn read_toml(alloc: Global, text: &[u8]) -> Result<Table, RosterFaultKind>
    ensures ok { IfOk result (λ table. table_in text.now ≡ Some (table_view table)) }
    ensures refused { IfErr result
        (λ why. why ≢ NoMemory → (why ≡ NotToml) × (table_in text.now ≡ None)) }
    ensures memory { IfErr result (λ why. why ≡ NoMemory → IsUtf8 text.now) }
{
    let text = match str::from_utf8(text) {
        Ok(text) => text,
        Err(_) => return Err(RosterFaultKind::NotToml),
    };
    match toml::table_from_str(alloc, text) {
        Ok(table) => Ok(table),
        Err(error) if error.is_memory() => Err(RosterFaultKind::NoMemory),
        Err(_) => Err(RosterFaultKind::NotToml),
    }
}

/// The roster of a text's table, or its first fault.
fn read_table(table: &Table) -> Result<Roster, RosterFault>
    ensures answer { MatchResult result (λ roster. roster_of (table_view table.now) ≡ Ok roster)
        (λ fault. roster_of (table_view table.now) ≡ Err fault) }
    ensures roster { IfOk result IsRoster }
    ensures memory { IfErr result (λ fault. fault.why ≢ NoMemory) }
{
    match (read_version(table), read_nodes(table)) {
        (Ok(version), Ok(values)) => Ok(Roster::new(read_entries(version, values)?)),
        (Err(why), _) | (_, Err(why)) => Err(of_all(why)),
    }
}

/// The version of the format, or `BadShape` of the top level.
pub(crate) fn read_version(table: &Table) -> Result<Version, RosterFaultKind>
    ensures answer { result ≡ version_in (table_view table.now) }
    ensures memory { IfErr result (λ why. why ≢ NoMemory) }
{
    if !knows_only(table, &["version", "node"]) {
        return Err(RosterFaultKind::BadShape);
    }
    match integer_at(table, "version") {
        Some(number) => Version::of_number(number),
        None => Err(RosterFaultKind::BadShape),
    }
}

/// The members of `node`, 1 to 64, or `BadShape`, `Empty` or `TooMany`.
#[tactic(auto, using(crate::proofs::Keys::items_len_view))]
fn read_nodes(table: &Table) -> Result<&[Value], RosterFaultKind>
    ensures answer { MatchResult result
        (λ values. nodes_in (table_view table.now) ≡ Ok (items_view values.now))
        (λ why. nodes_in (table_view table.now) ≡ Err why) }
    ensures some { IfOk result (λ values. 1 ≤ length values.now) }
    ensures most { IfOk result (λ values. length values.now ≤ 64) }
    ensures memory { IfErr result (λ why. why ≢ NoMemory) }
{
    let values = read_array(value_at(table, "node"))?;
    match values.len() {
        0 => Err(RosterFaultKind::Empty),
        1..=MAX_NODES => Ok(values),
        _ => Err(RosterFaultKind::TooMany),
    }
}

/// The members of an array, and none where there is no value; or `BadShape`.
fn read_array(value: Option<&Value>) -> Result<&[Value], RosterFaultKind>
    ensures { MatchResult result
        (λ values. array_or_none (option_map (λ value. view value.now) value.entry)
        ≡ Ok (items_view values.now))
        (λ why. array_or_none (option_map (λ value. view value.now) value.entry) ≡ Err why) }
{
    let Some(value) = value else {
        return Ok(&[]);
    };
    match value.as_array() {
        Some(values) => Ok(values.as_slice()),
        None => Err(RosterFaultKind::BadShape),
    }
}

/// The entries of these nodes, or the first fault.
#[tactic(auto, using(crate::proofs::Names::named_nil, crate::proofs::Names::named_push))]
fn read_entries(version: Version, values: &[Value]) -> Result<Entries, RosterFault>
    requires some { 1 ≤ length values.now }
    requires most { length values.now ≤ 64 }
    ensures answer { MatchResult result
        (λ entries. entries_after version [] (items_view values.now) ≡ Ok entries.items)
        (λ fault. entries_after version [] (items_view values.now) ≡ Err fault) }
    ensures roster { IfOk result (λ entries. IsRoster entries.items) }
    ensures memory { IfErr result (λ fault. fault.why ≢ NoMemory) }
{
    let mut entries = Entries::new();
    let mut node = 0;
    for value in values {
        node += 1;
        match Entry::read(version, entries.as_slice(), value) {
            Ok(entry) => entries.push(entry),
            Err(why) => return Err(RosterFault { why, node }),
        }
    }
    Ok(entries)
}
