//! The schedule of a command station: which packet it sends next.
//!
//! A [`Schedule`] receives which slots are refreshed, what was changed and which switches are
//! requested, and picks the packet of each turn by [`Schedule::pick`]. A place is a slot with one
//! kind of packet. The [`Ring`] goes round the places of the refreshed slots; jobs are changes and
//! requests, which wait to be sent at once; ring and jobs take turns.
//!
//! ```ignore
//! let mut schedule: Schedule<BitRing> = Schedule::new(alloc)?;
//! schedule.refresh(1, true);
//! schedule.changed(1, Kind::Speed);
//! let pick = schedule.pick(&table, Power::Running);
//! ```
//!
//! The tests are in `library_tests/src/test_refresh_ring.rt`.
#![tactic(auto)]

mod bit_ring;
mod bits;
mod fault;
mod job;
mod kind;
pub mod laws;
mod pick;
mod place;
mod place_set;
mod plain;
mod queue;
mod ring;
mod rings;
mod schedule;
mod turn;
mod view;

pub use bit_ring::BitRing;
pub use fault::{Full, NoMemory};
pub use job::{Destination, Job};
pub use kind::Kind;
pub use laws::{
    changes_first, four_turns, idle_has_a_cause, neighbours, picks_are_due, switches_in_order,
};
pub use pick::{Pick, Power};
pub use plain::PlainRing;
pub use ring::Ring;
pub use rings::both;
pub use schedule::Schedule;
pub use view::View;
