//! LocoNet over TCP, in lines of ASCII text.
//!
//! A [`RequestReader`] takes a client's text byte by byte and returns each [`Request`] that a line
//! makes. [`push_receive`] and its like append the lines that clients receive.
//!
//! ```ignore
//! for byte in received {
//!     match reader.push(*byte) {
//!         Some(Request::Send(message)) => { /* send it */ }
//!         Some(Request::Invalid(reason)) => push_sent_error(&mut text, reason),
//!         Some(Request::Turns(count)) => { /* run them */ }
//!         Some(Request::States(things)) => { /* tell how they stand */ }
//!         Some(Request::Place(placement)) => { /* put a train there */ }
//!         Some(Request::Device(request)) => { /* put a decoder on the programming track */ }
//!         None => {}
//!     }
//! }
//! ```
//!
//! The tests are in `library_tests/src/test_loconet_tcp.rt`.
#![tactic(auto)]

mod client_lines;
pub mod laws;
mod parsing;
mod reader;
mod request;

pub use client_lines::{
    Text, push_change, push_device, push_node, push_place, push_receive, push_sent_error,
    push_sent_ok, push_server_full, push_state, push_states_ok, push_turns, push_turns_ok,
    push_version,
};
pub use laws::{any_cut, received_is_sendable};
pub use parsing::{Bytes, LONGEST_KEPT, LONGEST_LINE, bytes_of, leading_bytes};
pub use reader::RequestReader;
pub use request::{
    DeviceAnswer, DeviceRequest, Facing, FailError, Failure, LONGEST_WORD, MountError, PlaceError,
    Placement, Reason, Request, Things, TurnsError, Word,
};
