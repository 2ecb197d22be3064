//! The command station: from the bytes of its lines to replies, and from turns of the track to
//! packets.
//!
//! A [`Station`] takes each byte of a line by [`Station::byte`] and returns the
//! [`Reply`](ln_ops::Reply), and gives the packet of each turn by [`Station::turn`].
//! [`Station::run`] runs a list of [`Call`]s.
//!
//! ```ignore
//! let mut station = Station::new(alloc, 1)?;
//! if let Some(reply) = station.byte(0, byte) { /* write it */ }
//! if let Some(packet) = station.turn() { /* send it on the track */ }
//! ```
//!
//! The tests are in `library_tests/src`: `test_station_core.rt` and `test_station_core/`, and in
//! `tests/process_checks/conversations.py`.
#![tactic(auto)]

mod call;
mod immediate;
pub mod laws;
mod meaning;
mod messages;
mod packets;
mod schedule;
mod slot_data;
mod station;

pub use call::{Call, Step};
pub use laws::{
    calls_are_moves, changes_first, changes_wait, coverage, desk_of_messages, messages_of_a_line,
    neighbours, packets_are_short, packets_of_the_desk, stays_a_desk, switches_are_sent,
    switches_in_order,
};
pub use meaning::{
    functions_are_bits, group_three_is_asked, messages_write_their_bytes, off_ends_by_power_on,
    packets_are_carried, what_is_new_waits, whole_slots_wait,
};
pub use refresh_ring::{Kind, Power};
pub use station::{MAX_LINES, Station, StationFault};
