//! The packets of service mode, direct mode (NMRA S-9.2.3): what is sent to a decoder on a
//! programming track.
//!
//! The tests are in `library_tests/src/test_programming_track.rt`.
#![tactic(auto)]

mod instruction;
pub mod laws;
mod packet;
mod reading;

pub use instruction::Instruction;
pub use laws::{bits_are_as_drawn, one_spelling, spellings_are_read};
pub use packet::ServicePacket;
pub use reading::read;
