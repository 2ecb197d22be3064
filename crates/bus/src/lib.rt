//! A layout whose lines are clients of LocoNet over TCP, as a pure state machine: one event in, its
//! outcome out.
//!
//! A [`Bus`] takes each [`Event`] by [`Bus::step`] and returns its [`Outcome`], from which
//! [`Outcome::push_text_for`] makes the text for each client.
//!
//! ```ignore
//! let mut bus = Bus::new(alloc, nodes, options)?;
//! let outcome = bus.step(&Event::Receives { client: 0, byte });
//! outcome.push_text_for(0, &mut text);
//! ```
#![tactic(auto)]

mod bus;
mod course;
mod event;
pub mod laws;
mod options;
mod outcome;
mod sending;
mod turning;

pub use bus::{Bus, MAX_CLIENTS};
pub use course::run;
pub use event::Event;
pub use laws::{
    events_are_the_layout, headline, however_cut, own_lines, text_since_connecting, time_adds_up,
    turns_are_bounded, turns_of_the_time,
};
pub use options::BusOptions;
pub use outcome::Outcome;
pub use turning::SHORTEST_TURN;
