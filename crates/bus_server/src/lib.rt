//! The server of a bus: clients are accepted, read, written to and disconnected, round after round,
//! while track time elapses, trains run and a decoder is programmed. A [`Transport`] connects the clients, a [`TimeSource`]
//! is the clock and a [`Observer`] the log, so there are no sockets, no clock and no printing
//! here.
//!
//! [`Server::run`] is the loop. [`Losses`] draws the packets that decoders miss.
//!
//! The tests are in `server_tests/src`: `test_bus_server` and `test_losses.rt`.
#![tactic(auto)]

mod after_round;
mod answers;
mod arranging;
mod device_report;
mod device_reports;
mod failing;
mod hub;
pub mod laws;
mod losses;
mod named_node;
mod observer;
mod pace;
mod placement;
mod running;
mod send_queue;
mod send_queues;
mod sensors;
mod server;
mod time_source;
mod track;
mod track_due;
mod transport;
mod under_way;

pub use crate::losses::{Losses, Shares};
pub use after_round::AfterRound;
pub use bus::MAX_CLIENTS;
pub use named_node::{Name, NamedNode, NamedNodes};
pub use observer::Observer;
pub use pace::Pace;
pub use programming_track::ProgrammingBench;
pub use railway::Railway;
pub use running::Stop;
pub use server::Server;
pub use time_source::TimeSource;
pub use transport::{IoOutcome, Transport};

/// The most clients, as they are numbered.
const CLIENTS: u8 = MAX_CLIENTS as u8;
