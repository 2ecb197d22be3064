//! Finding more about the first fault of a plan's text.
ghost use Rattle.std.specs.Prelude.{◌≡◌, None, IfOk, find, map, not, option_map, string_bytes};
ghost use Rattle.std.specs.BTreeMap.{keys};
ghost use Rattle.std.specs.List.{list_any};
ghost use Rattle.std.specs.Str.{bytes_eq};
ghost use Rattle.toml.specs.View.{table_view, view};
ghost use Rattle.roster.specs.Toml.{table_in};
ghost use Rattle.railway_plan.specs.Details.{IsAtLine, details_of, end_text, keys_of, member_at, name_at, part_at, text_in, unknown_key, value_in, word_at};
ghost use Rattle.railway_plan.specs.Format.{spelled};
ghost use Rattle.railway_plan.specs.Located.{IsLocated};

use crate::details::{LocatedFault, PlanDetails, shown};
use crate::fault::{PlanTextFault, Reason, Section};
use crate::key::{BLOCK_KEYS, JOINT_KEYS, Key, PLAN_KEYS, TRAIN_KEYS, TURNOUT_KEYS};
use crate::repeating::other_at;
use crate::table::value_at;
use roster::{fault_details, read_toml};
use std::alloc::{AllocError, Global};
use toml::{Table, Value};

/// Returns the first fault of a plan's text with more about it.
///
/// # Errors
///
/// Out of memory.
pub fn locate(alloc: Global, text: &[u8], fault: PlanTextFault) -> Result<LocatedFault, AllocError>
    ensures { IfOk result (IsLocated text.now fault) }
{
    let details = match read_toml(alloc, text) {
        Ok(table) => details_of(&table, &fault),
        Err(roster::RosterFaultKind::NoMemory) => return Err(AllocError),
        Err(_) => line_details(alloc, text)?,
    };
    Ok(LocatedFault { fault, details })
}

/// The details of a text that is no TOML.
fn line_details(alloc: Global, text: &[u8]) -> Result<PlanDetails, AllocError>
    requires { table_in text.now ≡ None }
    ensures { IfOk result (IsAtLine text.now) }
{
    let details = fault_details(alloc, text, 0)?;
    Ok(PlanDetails {
        line: details.line(),
        name: None,
        word: None,
        other: None,
    })
}

/// The details of a fault of a text with this table.
fn details_of(whole: &Table, fault: &PlanTextFault) -> PlanDetails
    ensures { result ≡ details_of fault.now (table_view whole.now) }
{
    PlanDetails {
        line: None,
        name: shown(name_at(whole, fault.section)),
        word: shown(word_at(whole, fault.why, fault.section)),
        other: other_at(whole, fault.why, fault.section),
    }
}

/// The table of a part of a kind by its number, from 1.
fn member_at(whole: &Table, key: Key, number: usize) -> Option<&Table>
    ensures { option_map (λ table. table_view table.now) result
        ≡ member_at key number (table_view whole.now) }
{
    let index = number.checked_sub(1)?;
    value_at(whole, key)?.get(index)?.as_table()
}

/// The table of a part.
fn part_at(whole: &Table, section: Section) -> Option<&Table>
    ensures { option_map (λ table. table_view table.now) result
        ≡ part_at section (table_view whole.now) }
{
    match section {
        Section::Whole => Some(whole),
        Section::Block(number) => member_at(whole, Key::Block, number),
        Section::Joint(number) => member_at(whole, Key::Joint, number),
        Section::Turnout(number) => member_at(whole, Key::Turnout, number),
        Section::Train(number) => member_at(whole, Key::Train, number),
    }
}

/// The value at a key of a part.
pub(crate) fn value_in(whole: &Table, section: Section, key: Key) -> Option<&Value>
    ensures { option_map (λ value. view value.now) result
        ≡ value_in key (part_at section (table_view whole.now)) }
{
    value_at(part_at(whole, section)?, key)
}

/// The text at a key of a part.
pub(crate) fn text_in(whole: &Table, section: Section, key: Key) -> Option<&str>
    ensures { option_map (λ text. text.now) result
        ≡ text_in key (part_at section (table_view whole.now)) }
{
    value_in(whole, section, key)?.as_str()
}

/// The name of a part: of a block its own, of a train its decoder's.
pub(crate) fn name_at(whole: &Table, section: Section) -> Option<&str>
    ensures { option_map (λ text. text.now) result ≡ name_at section (table_view whole.now) }
{
    match section {
        Section::Block(_) => text_in(whole, section, Key::Name),
        Section::Train(_) => text_in(whole, section, Key::Decoder),
        Section::Whole | Section::Joint(_) | Section::Turnout(_) => None,
    }
}

/// The keys that a part may have.
fn keys_of(section: Section) -> &'static [&'static str]
    ensures { map (λ word. word.now) result.now ≡ map spelled (keys_of section) }
{
    match section {
        Section::Whole => &PLAN_KEYS,
        Section::Block(_) => &BLOCK_KEYS,
        Section::Joint(_) => &JOINT_KEYS,
        Section::Turnout(_) => &TURNOUT_KEYS,
        Section::Train(_) => &TRAIN_KEYS,
    }
}

/// Whether a key is one of these.
fn is_one_of(known: &[&str], key: &str) -> bool
    ensures { result ≡ list_any (λ word. bytes_eq word.now key.now) known.now }
{
    known.contains(&key)
}

/// The first key of a table's map that is none of these.
fn other_key<'a>(table: &'a Table, known: &[&str]) -> Option<&'a String>
    ensures { option_map (λ key. key.now) result
        ≡ find (λ key. not (list_any (λ word. bytes_eq word.now (string_bytes key)) known.now))
        (keys table.now) }
{
    table.keys().find(|key| !is_one_of(known, key.as_str()))
}

/// The first key of a table that is none of these.
fn unknown_key<'a>(table: &'a Table, known: &[&str]) -> Option<&'a str>
    ensures { option_map (λ key. key.now) result
        ≡ unknown_key (map (λ word. word.now) known.now) (table_view table.now) }
{
    Some(other_key(table, known)?.as_str())
}

/// The end that a part has at a key: of a joint, which has two, that of this index.
fn end_text(part: &Table, key: Key, index: usize) -> Option<&str>
    ensures { option_map (λ text. text.now) result ≡ end_text key index (table_view part.now) }
{
    let value = value_at(part, key)?;
    match key {
        Key::Ends => value.get(index)?.as_str(),
        _ => value.as_str(),
    }
}

/// The word of the text that is wrong.
fn word_at(whole: &Table, why: Reason, section: Section) -> Option<&str>
    ensures { option_map (λ text. text.now) result ≡ word_at why section (table_view whole.now) }
{
    match why {
        Reason::UnknownKey => unknown_key(part_at(whole, section)?, keys_of(section)),
        Reason::UnknownEnd { key, index } => end_text(part_at(whole, section)?, key, index),
        Reason::UnknownBlock | Reason::OffTrack => text_in(whole, section, Key::Block),
        _ => None,
    }
}
