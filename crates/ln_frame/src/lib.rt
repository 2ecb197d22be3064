//! Messages of a LocoNet line, and the framer that finds them in its bytes.
//!
//! The tests are in `library_tests/src/test_ln_frame.rt`.
#![tactic(auto)]

mod framer;
mod msg;

pub use framer::{Framer, any_cut, left_is_enough, never_overlap, whole_message};
pub use msg::{MAX_LEN, Msg, OPCODE, message_len, sealed_is_whole};
