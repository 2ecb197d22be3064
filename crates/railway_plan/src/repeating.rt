//! The parts of a plan that have the same name, sensor, decoder or end as another.
ghost use Rattle.std.specs.Prelude.{◌≡◌, ◌≤◌, None, length, option_map};
ghost use Rattle.toml.specs.View.{items_view, table_view, view};
ghost use Rattle.railway_plan.specs.Sought.{is_sought};
ghost use Rattle.railway_plan.specs.Details.{any_text, end_name, has_value, is_same, joint_names, last_from, last_naming, last_with, member_value, names_at, other_at, part_at, parts_at, same_integer, same_text, turnout_names, value_in};

use crate::details::{LONGEST_WORD, Word, shown};
use crate::fault::{Reason, Section};
use crate::key::Key;
use crate::locating::{name_at, value_in};
use crate::table::value_at;
use arrayvec::ArrayString;
use railway::End;
use toml::{Table, Value};

/// The longest end of a block that is looked for, in bytes.
const LONGEST_END: usize = LONGEST_WORD + 2;

/// Whether two texts are there, and the same.
fn same_text(one: Option<&str>, other: Option<&str>) -> bool
    ensures { result ≡ same_text (option_map (λ text. text.now) one.entry)
        (option_map (λ text. text.now) other.entry) }
{
    match (one, other) {
        (Some(one), Some(other)) => one == other,
        _ => false,
    }
}

/// Whether two integers are there, and the same.
fn same_integer(one: Option<i64>, other: Option<i64>) -> bool
    ensures { result ≡ same_integer one other }
{
    match (one, other) {
        (Some(one), Some(other)) => one == other,
        _ => false,
    }
}

/// Whether two values are the same text or the same integer.
fn is_same(one: &Value, other: &Value) -> bool
    ensures { result ≡ is_same (view one.now) (view other.now) }
{
    same_text(one.as_str(), other.as_str()) || same_integer(one.as_integer(), other.as_integer())
}

/// The value at a key of a part.
fn member_value(part: &Value, key: Key) -> Option<&Value>
    ensures { option_map (λ value. view value.now) result ≡ member_value key (view part.now) }
{
    value_at(part.as_table()?, key)
}

/// Whether a part has this value at a key.
fn has_value(part: &Value, key: Key, wanted: &Value) -> bool
    ensures { result ≡ has_value key (view wanted.now) (view part.now) }
{
    match member_value(part, key) {
        Some(value) => is_same(wanted, value),
        None => false,
    }
}

/// Whether the value at a key of a part names this end.
fn names_at(part: &Value, key: Key, end: &str) -> bool
    ensures { result ≡ names_at key end.now (view part.now) }
{
    match member_value(part, key) {
        Some(value) => same_text(value.as_str(), Some(end)),
        None => false,
    }
}

/// Whether one of the values names this end.
fn any_text(values: &[Value], end: &str) -> bool
    ensures { result ≡ any_text end.now (items_view values.now) }
{
    for value in values {
        if same_text(value.as_str(), Some(end)) {
            return true;
        }
    }
    false
}

fn joint_names(part: &Value, end: &str) -> bool
    ensures { result ≡ joint_names end.now (view part.now) }
{
    let Some(value) = member_value(part, Key::Ends) else {
        return false;
    };
    match value.as_array() {
        Some(values) => any_text(values.as_slice(), end),
        None => false,
    }
}

fn turnout_names(part: &Value, end: &str) -> bool
    ensures { result ≡ turnout_names end.now (view part.now) }
{
    names_at(part, Key::Common, end)
        || names_at(part, Key::Closed, end)
        || names_at(part, Key::Thrown, end)
}

/// The parts of a kind.
fn parts_at(whole: &Table, key: Key) -> &[Value]
    ensures { items_view result.now ≡ parts_at key (table_view whole.now) }
{
    match value_at(whole, key) {
        Some(value) => match value.as_array() {
            Some(values) => values.as_slice(),
            None => &[],
        },
        None => &[],
    }
}

/// What a part is looked for by.
#[derive(Clone, Copy)]
enum Sought<'a> {
    /// This value at a key.
    Value { key: Key, wanted: &'a Value },
    /// A joint that names this end.
    JointEnd { end: &'a str },
    /// A turnout that names this end.
    TurnoutEnd { end: &'a str },
}

/// Whether a part is one that is looked for.
fn is_sought(sought: Sought<'_>, part: &Value) -> bool
    ensures { result ≡ is_sought sought.entry (view part.now) }
{
    match sought {
        Sought::Value { key, wanted } => has_value(part, key, wanted),
        Sought::JointEnd { end } => joint_names(part, end),
        Sought::TurnoutEnd { end } => turnout_names(part, end),
    }
}

/// The number, from 1, of the last of these parts that is looked for.
fn last(parts: &[Value], sought: Sought<'_>) -> Option<usize>
    ensures { result ≡ last_from (is_sought sought.entry) 1 (items_view parts.now) None }
{
    let mut found = None;
    for (i, part) in parts.iter().enumerate() {
        if is_sought(sought, part) {
            found = Some(i + 1);
        }
    }
    found
}

/// The last turnout that names this end, or else the last joint.
fn last_naming(whole: &Table, end: &str) -> Option<Section>
    ensures { result ≡ last_naming end.now (table_view whole.now) }
{
    if let Some(number) = last(parts_at(whole, Key::Turnout), Sought::TurnoutEnd { end }) {
        return Some(Section::Turnout(number));
    }
    let number = last(parts_at(whole, Key::Joint), Sought::JointEnd { end })?;
    Some(Section::Joint(number))
}

/// The last part that names an end of the block of this name.
fn naming_block(whole: &Table, block: &Word, end: End) -> Option<Section>
    ensures { result ≡ last_naming (end_name block.now.bytes end) (table_view whole.now) }
{
    let mut name: ArrayString<LONGEST_END> = ArrayString::new();
    name.push_str(block.as_str());
    name.push_str(match end {
        End::A => ".a",
        End::B => ".b",
    });
    last_naming(whole, name.as_str())
}

/// The number of the last part of a kind with the value of this one at a key.
fn last_like(whole: &Table, section: Section, key: Key, kind: Key) -> Option<usize>
    ensures { result ≡ last_with (value_in key (part_at section (table_view whole.now))) key kind
        (table_view whole.now) }
{
    let wanted = value_in(whole, section, key)?;
    last(parts_at(whole, kind), Sought::Value { key, wanted })
}

/// The last part with the same name, sensor, decoder or end.
pub(crate) fn other_at(whole: &Table, why: Reason, section: Section) -> Option<Section>
    ensures { result ≡ other_at why section (table_view whole.now) }
{
    match why {
        Reason::RepeatedName => {
            let number = last_like(whole, section, Key::Name, Key::Block)?;
            Some(Section::Block(number))
        }
        Reason::RepeatedSensor => {
            let number = last_like(whole, section, Key::Sensor, Key::Block)?;
            Some(Section::Block(number))
        }
        Reason::RepeatedDecoder => {
            let number = last_like(whole, section, Key::Decoder, Key::Train)?;
            Some(Section::Train(number))
        }
        Reason::RepeatedEnd(end) => naming_block(whole, &shown(name_at(whole, section))?, end),
        _ => None,
    }
}
