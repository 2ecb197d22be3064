//! What a table of TOML holds at its keys.
ghost use Rattle.std.specs.Prelude.{◌≡◌, map, option_map, string_bytes};
ghost use Rattle.std.specs.BTreeMap.{keys};
ghost use Rattle.std.specs.List.{list_all, list_any};
ghost use Rattle.std.specs.Str.{bytes_eq};
ghost use Rattle.toml.specs.Data.{get_member};
ghost use Rattle.toml.specs.View.{table_view, view};
ghost use Rattle.roster.specs.declared.fault.RosterFaultKind.TheVariants.{BadShape};
ghost use Rattle.roster.specs.Steps.{or_fault};
ghost use Rattle.roster.specs.Toml.{integer_at, integer_or, knows_only, text_at};

use toml::{Table, Value};

/// Whether the key is one of these.
fn is_one_of(known: &[&str], key: &str) -> bool
    ensures { result ≡ list_any (λ word. bytes_eq word.now key.now) known.now }
{
    known.contains(&key)
}

/// Whether each key of the map is one of these.
fn keys_are(table: &Table, known: &[&str]) -> bool
    ensures { result
        ≡ list_all (λ key. list_any (λ word. bytes_eq word.now (string_bytes key)) known.now)
        (keys table.now) }
{
    table.keys().all(|key| is_one_of(known, key.as_str()))
}

/// Whether each key of a table is one of these.
pub fn knows_only(table: &Table, known: &[&str]) -> bool
    ensures { result ≡ knows_only (map (λ word. word.now) known.now) (table_view table.now) }
{
    keys_are(table, known)
}

/// The value at a key of a table.
pub fn value_at<'a>(table: &'a Table, key: &str) -> Option<&'a Value>
    ensures { option_map (λ value. view value.now) result
        ≡ get_member key.now (table_view table.now) }
{
    table.get(key)
}

/// The text at a key, if there is one.
pub(crate) fn text_at<'a>(table: &'a Table, key: &str) -> Option<&'a str>
    ensures { or_fault (option_map (λ text. text.now) result) BadShape
        ≡ text_at key.now (table_view table.now) }
{
    value_at(table, key).and_then(Value::as_str)
}

/// The integer at a key, if there is one.
pub(crate) fn integer_at(table: &Table, key: &str) -> Option<i64>
    ensures { or_fault result BadShape ≡ integer_at key.now (table_view table.now) }
{
    value_at(table, key).and_then(Value::as_integer)
}

/// The integer at a key, if there is one, or `default` where the key is left out.
pub(crate) fn integer_or(table: &Table, key: &str, default: i64) -> Option<i64>
    ensures { or_fault result BadShape
        ≡ integer_or (get_member key.now (table_view table.now)) default }
{
    match value_at(table, key) {
        Some(value) => value.as_integer(),
        None => Some(default),
    }
}
