//! The rows of a picture: the strip of packets and messages, and a lane for each decoder.
ghost use Rattle.std.specs.Prelude.{◌≡◌, ◌≤◌, ◌+◌, ◌*◌, ◌++◌, ◌∷◌, [], IfErr, IfOk, length};
ghost use Rattle.std.specs.Vec.{vec_len};
ghost use Rattle.filter.specs.declared.fault.FilterFault.TheVariants.{NoMemory};
ghost use Rattle.timeline.specs.Rows.{is_known, is_shown, lane_rows, lanes_of, row_if, rows_in, rows_of, strip, with_lane};

use crate::event::Event;
use crate::levels::{is_named, is_parsed};
use crate::row::{Kind, Part, Row};
use filter::{FilterFault, FilterResult};
use std::alloc::Global;
use trace::{Name, Seen};

/// The possible rows of a lane.
const KINDS: [Kind; 26] = [
    Kind::Packets,
    Kind::Speed,
    Kind::Stops,
    Kind::Emergencies,
    Kind::Direction,
    Kind::Function(0),
    Kind::Function(1),
    Kind::Function(2),
    Kind::Function(3),
    Kind::Function(4),
    Kind::Function(5),
    Kind::Function(6),
    Kind::Function(7),
    Kind::Function(8),
    Kind::Function(9),
    Kind::Function(10),
    Kind::Function(11),
    Kind::Function(12),
    Kind::Output(0),
    Kind::Output(1),
    Kind::Output(2),
    Kind::Output(3),
    Kind::Output(4),
    Kind::Output(5),
    Kind::Output(6),
    Kind::Output(7),
];

fn is_known(lanes: &[Seen], name: &Name) -> bool
    ensures { result ≡ is_known lanes.now name.now }
{
    lanes.iter().any(|lane| is_named(lane, name))
}

/// Adds a lane if an event shows a decoder that has none.
fn add_lane(lanes: &mut Vec<Seen>, event: &Event) -> FilterResult
    ensures lanes { IfOk result (λ _. lanes.new.items ≡ with_lane lanes.old.items event.now) }
    ensures few { IfOk result (λ _. vec_len lanes.new ≤ vec_len lanes.old + 1) }
    ensures fault { IfErr result (λ e. e ≡ NoMemory) }
{
    let Event::Shown(seen) = event else {
        return Ok(());
    };
    if is_known(lanes.as_slice(), &seen.name) {
        return Ok(());
    }
    lanes.push(seen.clone()?)?;
    Ok(())
}

/// Returns the decoders that events show, in the order in which they are first shown, each in the
/// state shown then.
fn lanes_of(alloc: Global, events: &[Event]) -> Result<Vec<Seen>, FilterFault>
    ensures lanes { IfOk result (λ v. v.items ≡ lanes_of events.now) }
    ensures few { IfOk result (λ v. vec_len v ≤ length events.now) }
    ensures fault { IfErr result (λ e. e ≡ NoMemory) }
{
    let mut lanes = Vec::new(alloc);
    for event in events {
        add_lane(&mut lanes, event)?;
    }
    Ok(lanes)
}

/// Whether the row of this kind in a lane has anything to show.
fn is_shown(lane: &Seen, events: &[Event], kind: Kind) -> bool
    ensures { result ≡ is_shown lane.now events.now kind }
{
    events.iter().any(|event| is_parsed(lane, kind, event))
}

fn add_row(rows: &mut Vec<Row>, lane: &Seen, events: &[Event], kind: &Kind) -> FilterResult
    ensures rows { IfOk result
        (λ _. rows.new.items
        ≡ rows.old.items
        ++ row_if (is_shown lane.now events.now kind.now) (Row.Lane lane.now kind.now)) }
    ensures few { IfOk result (λ _. vec_len rows.new ≤ vec_len rows.old + 1) }
    ensures fault { IfErr result (λ e. e ≡ NoMemory) }
{
    if !is_shown(lane, events, *kind) {
        return Ok(());
    }
    rows.push(Row::Lane(lane.clone()?, *kind))?;
    Ok(())
}

/// Adds those of these rows of a lane that have anything to show.
fn add_rows(rows: &mut Vec<Row>, lane: &Seen, events: &[Event], kinds: &[Kind]) -> FilterResult
    ensures rows { IfOk result
        (λ _. rows.new.items ≡ rows.old.items ++ rows_in lane.now events.now kinds.now) }
    ensures few { IfOk result (λ _. vec_len rows.new ≤ vec_len rows.old + length kinds.now) }
    ensures fault { IfErr result (λ e. e ≡ NoMemory) }
{
    for kind in kinds {
        add_row(rows, lane, events, kind)?;
    }
    Ok(())
}

fn add_part(rows: &mut Vec<Row>, part: Part) -> FilterResult
    ensures rows { IfOk result (λ _. rows.new.items ≡ rows.old.items ++ Row.Strip part ∷ []) }
    ensures few { IfOk result (λ _. vec_len rows.new ≤ vec_len rows.old + 1) }
    ensures fault { IfErr result (λ e. e ≡ NoMemory) }
{
    rows.push(Row::Strip(part))?;
    Ok(())
}

/// Adds the parts of the strip of packets and messages.
fn add_strip(rows: &mut Vec<Row>) -> FilterResult
    ensures rows { IfOk result (λ _. rows.new.items ≡ rows.old.items ++ strip) }
    ensures few { IfOk result (λ _. vec_len rows.new ≤ vec_len rows.old + 6) }
    ensures fault { IfErr result (λ e. e ≡ NoMemory) }
{
    add_part(rows, Part::Locomotives)?;
    add_part(rows, Part::Accessories)?;
    add_part(rows, Part::Everyone)?;
    add_part(rows, Part::Idle)?;
    add_part(rows, Part::Unpowered)?;
    add_part(rows, Part::Messages)
}

/// Adds the rows of each lane.
fn add_lanes(rows: &mut Vec<Row>, lanes: &[Seen], events: &[Event]) -> FilterResult
    ensures rows { IfOk result
        (λ _. rows.new.items ≡ rows.old.items ++ lane_rows events.now lanes.now) }
    ensures few { IfOk result (λ _. vec_len rows.new ≤ vec_len rows.old + 26 * length lanes.now) }
    ensures fault { IfErr result (λ e. e ≡ NoMemory) }
{
    for lane in lanes {
        add_rows(rows, lane, events, &KINDS)?;
    }
    Ok(())
}

/// Returns the rows of a picture, from the top.
pub(crate) fn rows_of(alloc: Global, events: &[Event]) -> Result<Vec<Row>, FilterFault>
    ensures rows { IfOk result (λ v. v.items ≡ rows_of events.now) }
    ensures few { IfOk result (λ v. length v.items ≤ 6 + 26 * length events.now) }
    ensures fault { IfErr result (λ e. e ≡ NoMemory) }
{
    let lanes = lanes_of(alloc, events)?;
    let mut rows = Vec::new(alloc);
    add_strip(&mut rows)?;
    add_lanes(&mut rows, lanes.as_slice(), events)?;
    Ok(rows)
}
