//! A programming track: its programmer, the decoder that stands on it, and time (NMRA S-9.2.3; LocoNet
//! Personal Use Edition 1.0, programmer task); and a bench, which has decoders for it.
//!
//! The tests are in `library_tests/src/test_programming_track.rt`.
#![tactic(auto)]

pub mod laws;
mod packet_end;
mod programming_bench;
mod programming_track;

pub use laws::{
    bits_are_read_and_written, changes_are_reported, decoders_keep_their_variables, ends_are_few,
    failures_are_reported, reads_return_the_value, tasks_are_short, tasks_take_their_time,
    time_adds_up, without_a_decoder, writes_store_the_value,
};
pub use packet_end::{DecoderName, MAX_ENDS, NamedChange, PacketEnd, PacketEnds};
pub use programming_bench::{MAX_DECODERS, ProgrammingBench};
pub use programming_track::ProgrammingTrack;
