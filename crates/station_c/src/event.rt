//! The events, as C describes them.
ghost use Rattle.std.specs.Prelude.{◌≡◌};
ghost use Rattle.std.specs.List.{list_all};
ghost use Rattle.station_c.specs.Event.{event_of, is_one};

use crate::kind::{BYTE, NOISE, TURN};
use layout_core::Event;

/// One event of a layout. Fields that do not belong to its kind are ignored.
#[repr(C)]
#[derive(Clone, Copy)]
pub struct EventFields {
    /// Of a turn: decoder i misses the packet if bit i is set.
    pub missed: u64,
    /// Of noise: the microseconds of the half-bit.
    pub half: u16,
    /// 0 for a byte, 1 for a turn, 2 for noise.
    pub kind: u8,
    /// Of a byte: its line.
    pub line: u8,
    /// Of a byte: the byte.
    pub byte: u8,
    /// Of noise: the decoder that hears it.
    pub node: u8,
}

/// Returns the event of these fields.
pub(crate) fn read(fields: &EventFields) -> Event
    ensures { result ≡ event_of fields.now }
{
    match fields.kind {
        BYTE => Event::Byte {
            line: fields.line,
            byte: fields.byte,
        },
        TURN => Event::Turn {
            missed: fields.missed,
        },
        _ => Event::Noise {
            node: fields.node,
            half: fields.half,
        },
    }
}

/// Whether these fields describe an event of a layout with `lines` lines and `nodes` decoders.
fn is_one(fields: &EventFields, lines: u8, nodes: usize) -> bool
    ensures { result ≡ is_one lines nodes fields.now }
{
    match fields.kind {
        BYTE => fields.line < lines,
        TURN => true,
        NOISE => usize::from(fields.node) < nodes,
        _ => false,
    }
}

/// Whether each of these describes an event of a layout with `lines` lines and `nodes` decoders.
pub(crate) fn are_events(events: &[EventFields], lines: u8, nodes: usize) -> bool
    ensures { result ≡ list_all (is_one lines nodes) events.now }
{
    events.iter().all(|fields| is_one(fields, lines, nodes))
}
