//! Explanations of LocoNet messages and DCC packets in plain words.
//!
//! [`message_words`] explains the bytes of a message, [`describe_packet`] those of a packet and
//! [`service_words`] those of a packet of the programming track, as [`Words`], ASCII text of at most 400
//! bytes.
//!
//! ```ignore
//! let words = message_words(&[0x83, 0x7C]);  // "track power on"
//! ```
//!
//! The tests are in `library_tests/src/test_describe.rt` and `tests/process_checks/explained.py`.
#![tactic(auto)]

mod fields;
mod maker_rows;
mod message_rows;
mod messages;
mod packet_rows;
mod packets;
mod pieces;
mod rows;
mod service_packets;
mod slots;

pub use messages::{describe_message, message_words};
pub use packets::describe_packet;
pub use pieces::Words;
pub use service_packets::service_words;
