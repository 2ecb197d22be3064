//! The entries of a roster.
ghost use Rattle.std.specs.Prelude.{◌≡◌, IfOk, IsTrue, MatchResult, Ok, Err};
ghost use Rattle.toml.specs.View.{view};
ghost use Rattle.roster.specs.Entry.{is_free, is_name, is_taken};
ghost use Rattle.roster.specs.Format.{entry_of, entry_with, name_after};

use crate::described::Described;
use crate::fault::RosterFaultKind;
use crate::table::text_at;
use crate::version::Version;
use arrayvec::ArrayString;
use decoder_node::NodeSpec;
use std::marker::Model;
use text::are_name_bytes;
use toml::Value;

/// The longest name, in bytes.
const LONGEST_NAME: usize = 16;

/// The name of a decoder.
pub(crate) type Name = ArrayString<LONGEST_NAME>;

/// The name of a decoder, and what it is.
///
/// Contracts see it as these two.
#[derive(Default, Drop)]
pub(crate) struct Entry {
    name: Name,
    spec: NodeSpec,
}

impl Model for Entry {
    ghost use Rattle.roster.specs.Entry.{Entry};

    ghost Value = { Entry };

    ghost view = { λ entry. record { name = entry.name.bytes; spec = entry.spec } };
}

impl Entry {
    /// The entry of a node after the `earlier` ones, or its first fault.
    pub(crate) fn read(
        version: Version,
        earlier: &[Entry],
        value: &Value,
    ) -> Result<Entry, RosterFaultKind>
        ensures answer { result ≡ entry_of version earlier.now (view value.now) }
        ensures free { IfOk result (λ entry. IsTrue (is_free earlier.now entry.name)) }
    {
        let Some(table) = value.as_table() else {
            return Err(RosterFaultKind::BadShape);
        };
        let (Some(name), Some(kind)) = (text_at(table, "name"), text_at(table, "kind")) else {
            return Err(RosterFaultKind::BadShape);
        };
        let described = Described::read(version, kind, table)?;
        Entry::of(earlier, name, described)
    }

    /// The entry of this name and this decoder after the `earlier` ones, or its first fault.
    fn of(earlier: &[Entry], name: &str, described: Described<'_>) -> Result<Entry, RosterFaultKind>
        ensures answer { result ≡ entry_with earlier.now name.now described.entry }
        ensures free { IfOk result (λ entry. IsTrue (is_free earlier.now entry.name)) }
    {
        let name = read_name(earlier, name)?;
        let spec = described.spec()?;
        Ok(Entry { name, spec })
    }

    /// Its name, at most 16 bytes.
    pub(crate) fn name(&self) -> &str
        ensures value { result.now ≡ self.now.name }
    {
        self.name.as_str()
    }

    /// What its decoder is.
    pub(crate) fn spec(&self) -> NodeSpec
        ensures { result ≡ self.now.spec }
    {
        self.spec
    }
}

/// The name of the next entry, or `BadName`.
pub(crate) fn read_name(earlier: &[Entry], name: &str) -> Result<Name, RosterFaultKind>
    ensures answer { MatchResult result (λ text. name_after earlier.now name.now ≡ Ok text.bytes)
        (λ why. name_after earlier.now name.now ≡ Err why) }
    ensures free { IfOk result (λ text. IsTrue (is_free earlier.now text.bytes)) }
{
    if !is_name(name) || is_taken(earlier, name) {
        return Err(RosterFaultKind::BadName);
    }
    match Name::from(name) {
        Ok(name) => Ok(name),
        Err(_) => Err(RosterFaultKind::BadName),
    }
}

fn is_name(name: &str) -> bool
    ensures { result ≡ is_name name.now }
{
    matches!(name.len(), 1..=LONGEST_NAME) && are_name_bytes(name.as_bytes())
}

fn is_taken(entries: &[Entry], name: &str) -> bool
    ensures { result ≡ is_taken entries.now name.now }
{
    entries.iter().any(|entry| name == entry.name())
}
