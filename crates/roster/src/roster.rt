//! A roster.
ghost use Rattle.std.specs.Prelude.{◌≡◌, ◌<◌, ◌≤◌, IsTrue, length, map, slice_get};
ghost use Rattle.std.specs.List.{slice_index_or};
ghost use Rattle.roster.specs.Decoders.{decoder_name, entries_of};
ghost use Rattle.roster.specs.Entry.{is_name, name_of, spec_of, Entry as EntryValue, IsRoster};

use crate::entry::Entry;
use arrayvec::ArrayVec;
use decoder_node::{MAX_NODES, NodeList};
use std::marker::Model;

/// The entries of a roster, in order.
pub(crate) type Entries = ArrayVec<Entry, MAX_NODES>;

/// The decoders of a layout, 1 to 64 in order, each with a different name.
///
/// Contracts see it as the list of its entries.
#[derive(Drop)]
pub struct Roster {
    entries: Entries,
}

impl Model for Roster {
    ghost use Rattle.std.specs.Prelude.{List};
    ghost use Rattle.roster.specs.Decoders.{decoder_name, entries_of};
    ghost use Rattle.roster.specs.Entry.{Entry, IsRoster};

    ghost Value = { List Entry };

    ghost view = { λ roster. roster.entries.items };

    ghost invariant = { λ roster. IsRoster roster.entries.items };
}

impl Roster {
    /// The roster of these entries.
    pub(crate) fn new(entries: Entries) -> Roster
        requires { IsRoster entries.items }
        ensures { result ≡ entries.items }
    {
        Roster { entries }
    }

    /// The decoders in order, without their names.
    pub fn nodes(&self) -> NodeList
        ensures nodes { result.items ≡ map spec_of self.now }
        ensures count { length result.items ≡ length self.now }
    {
        let mut nodes = NodeList::new();
        for entry in self.entries.as_slice() {
            nodes.push(entry.spec());
        }
        nodes
    }

    /// How many decoders there are, 1 to 64.
    pub fn len(&self) -> usize
        ensures count { result ≡ length self.now }
        ensures some { 1 ≤ result }
        ensures most { result ≤ 64 }
        ensures roster { IsRoster self.now }
    {
        self.entries.len()
    }

    /// The name of decoder i, counted from 0: 1 to 16 ASCII letters, digits, `-` or `_`.
    pub fn name(&self, i: usize) -> &str
        requires { i < length self.now }
        ensures value { (none : EntryValue)
            → result.now ≡ name_of (slice_index_or self.now i none) }
        ensures legal { IsTrue (is_name result.now) }
        ensures most { length result.now ≤ 16 }
    {
        self.entries.as_slice()[i].name()
    }
    /// The name of decoder i, counted from 0; an empty text if there is no such decoder.
    #[tactic(auto, using(crate::proofs::Naming::name_found, crate::proofs::Naming::name_lost))]
    fn name_or_empty(&self, i: usize) -> &str
        ensures name { result.now ≡ decoder_name (slice_get self.now i) }
        ensures most { length result.now ≤ 16 }
    {
        if i < self.len() { self.name(i) } else { "" }
    }
}

/// The name of decoder i of a roster, counted from 0; an empty text if there is no roster or no such
/// decoder.
pub fn decoder_name<'a>(roster: Option<&'a Roster>, i: usize) -> &'a str
    ensures name { result.now ≡ decoder_name (slice_get (entries_of roster.entry) i) }
    ensures most { length result.now ≤ 16 }
{
    match roster {
        Some(roster) => roster.name_or_empty(i),
        None => "",
    }
}
