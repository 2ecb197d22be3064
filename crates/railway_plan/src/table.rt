//! What a table of a plan's text has at its keys.
ghost use Rattle.std.specs.Prelude.{◌≡◌, Ok, Err, MatchResult, map, option_map};
ghost use Rattle.toml.specs.View.{items_view, table_view, view};
ghost use Rattle.railway_plan.specs.Format.{array_or_none, feedback_or_none, in_range, is_coordinate, number_at, point_of, point_of_items, point_of_two, point_or_none, rate_or_none, sensor_or_none, text_at, time_or_none, value_at};

use crate::bounds::{Bounds, RATE, SENSOR, TIME};
use crate::fault::Reason;
use crate::key::Key;
use railway::Point;
use toml::{Table, Value};

/// The furthest coordinate of a point from 0.
const FURTHEST: i64 = 10_000;

/// Returns the value at a key.
pub(crate) fn value_at<'a>(table: &'a Table, key: Key) -> Option<&'a Value>
    ensures { option_map (λ value. view value.now) result
        ≡ value_at key (table_view table.now) }
{
    roster::value_at(table, key.as_str())
}

/// Returns the text at a key.
pub(crate) fn text_at<'a>(table: &'a Table, key: Key) -> Result<&'a str, Reason>
    ensures { MatchResult result (λ text. text_at key (table_view table.now) ≡ Ok text.now)
        (λ why. text_at key (table_view table.now) ≡ Err why) }
{
    match value_at(table, key) {
        Some(value) => match value.as_str() {
            Some(text) => Ok(text),
            None => Err(Reason::BadKey(key)),
        },
        None => Err(Reason::BadKey(key)),
    }
}

/// Returns the number at a key.
pub(crate) fn number_at(table: &Table, key: Key, bounds: Bounds) -> Result<u32, Reason>
    ensures { result ≡ number_at key bounds (table_view table.now) }
{
    match value_at(table, key) {
        Some(value) => match value.as_integer() {
            Some(number) => in_range(key, bounds, number),
            None => Err(Reason::BadKey(key)),
        },
        None => Err(Reason::BadKey(key)),
    }
}

/// Returns a number within the bounds of a key.
fn in_range(key: Key, bounds: Bounds, number: i64) -> Result<u32, Reason>
    ensures { result ≡ in_range key bounds number }
{
    let (least, most) = (i64::from(bounds.least), i64::from(bounds.most));
    if least <= number && number <= most {
        Ok(number as u32)
    } else {
        Err(Reason::BadKey(key))
    }
}

/// Returns the sensor of a block, which may have none.
pub(crate) fn sensor(value: Option<&Value>) -> Result<Option<u16>, Reason>
    ensures { result ≡ sensor_or_none (option_map (λ value. view value.now) value.entry) }
{
    let Some(value) = value else {
        return Ok(None);
    };
    match value.as_integer() {
        Some(number) => Ok(Some(in_range(Key::Sensor, SENSOR, number)? as u16)),
        None => Err(Reason::BadKey(Key::Sensor)),
    }
}

/// Returns the rate at a key, which may be left out.
pub(crate) fn rate(key: Key, value: Option<&Value>) -> Result<Option<u16>, Reason>
    ensures { result ≡ rate_or_none key (option_map (λ value. view value.now) value.entry) }
{
    let Some(value) = value else {
        return Ok(None);
    };
    match value.as_integer() {
        Some(number) => Ok(Some(in_range(key, RATE, number)? as u16)),
        None => Err(Reason::BadKey(key)),
    }
}

/// Returns the time of a turnout, which may be left out; then it is 0.
pub(crate) fn time(value: Option<&Value>) -> Result<u16, Reason>
    ensures { result ≡ time_or_none (option_map (λ value. view value.now) value.entry) }
{
    let Some(value) = value else {
        return Ok(0);
    };
    match value.as_integer() {
        Some(number) => Ok(in_range(Key::Time, TIME, number)? as u16),
        None => Err(Reason::BadKey(Key::Time)),
    }
}

/// Returns whether a turnout has feedback; it has none if that is left out.
pub(crate) fn feedback(value: Option<&Value>) -> Result<bool, Reason>
    ensures { result ≡ feedback_or_none (option_map (λ value. view value.now) value.entry) }
{
    let Some(value) = value else {
        return Ok(false);
    };
    match value.as_bool() {
        Some(has_feedback) => Ok(has_feedback),
        None => Err(Reason::BadKey(Key::Feedback)),
    }
}

/// Returns the point at a key, which may be left out.
pub(crate) fn point(key: Key, value: Option<&Value>) -> Result<Option<Point>, Reason>
    ensures { result ≡ point_or_none key (option_map (λ value. view value.now) value.entry) }
{
    let Some(value) = value else {
        return Ok(None);
    };
    match point_of(value) {
        Some(point) => Ok(Some(point)),
        None => Err(Reason::BadKey(key)),
    }
}

fn point_of(value: &Value) -> Option<Point>
    ensures { result ≡ point_of (view value.now) }
{
    point_of_items(value.as_array()?.as_slice())
}

fn point_of_items(values: &[Value]) -> Option<Point>
    ensures { result ≡ point_of_items (items_view values.now) }
{
    match values {
        [x, y] => point_of_two(x.as_integer(), y.as_integer()),
        _ => None,
    }
}

fn point_of_two(x: Option<i64>, y: Option<i64>) -> Option<Point>
    ensures { result ≡ point_of_two x y }
{
    match (x, y) {
        (Some(x), Some(y)) if is_coordinate(x) && is_coordinate(y) => Some(Point {
            x: x as i32,
            y: y as i32,
        }),
        _ => None,
    }
}

fn is_coordinate(number: i64) -> bool
    ensures { result ≡ is_coordinate number }
{
    -FURTHEST <= number && number <= FURTHEST
}

/// Returns the members of the array at a key, none if it is left out.
pub(crate) fn array(key: Key, value: Option<&Value>) -> Result<&[Value], Reason>
    ensures { MatchResult result
        (λ values. array_or_none key (option_map (λ value. view value.now) value.entry)
        ≡ Ok (items_view values.now))
        (λ why. array_or_none key (option_map (λ value. view value.now) value.entry) ≡ Err why) }
{
    let Some(value) = value else {
        return Ok(&[]);
    };
    match value.as_array() {
        Some(values) => Ok(values.as_slice()),
        None => Err(Reason::BadKey(key)),
    }
}
