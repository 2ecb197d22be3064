//! Packets of the track: bytes, instructions, and what they are as halves.
//!
//! The tests are in `library_tests/src`: `test_dcc_packet.rt` and `test_dcc_packet_steps.rt`.
#![tactic(auto)]

mod address;
mod build;
mod instr;
pub mod laws;
mod module;
mod packet;
mod reading;
mod steps;

pub use address::Address;
pub use build::{accessory, group_one, group_three, group_two, idle, speed, stop_all};
pub use instr::Instr;
pub use laws::{
    one_spelling, sent_packets_spell, speeds_read_back, speeds_rise, spellings_are_read,
};
pub use module::Module;
pub use packet::Packet;
pub use reading::read;
pub use steps::{Motion, Steps, steps_of};
