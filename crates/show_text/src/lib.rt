//! The texts of `station`: scripts to read, and lines to print.
//!
//! [`read_script`] parses a script into [`Command`]s, [`read_hex`] parses hex text into bytes. A
//! [`Line`] is a line of output; [`message_line`], [`reply_line`], [`track_line`] and [`node_line`]
//! return one.
//!
//! ```ignore
//! for command in read_script(alloc, text, 1, 2)? { /* run it */ }
//! let line = message_line(&message);  // "msg 83 7C power on"
//! ```
//!
//! The tests are in `library_tests/src/test_show_text.rt`.
#![tactic(auto)]

mod command;
pub mod laws;
mod line;
mod messages;
mod nodes;
mod script;
mod traffic;

pub use command::{Command, ScriptFault, ScriptFaultKind};
pub use laws::written_is_read;
pub use line::Line;
pub use messages::message_line;
pub use nodes::node_line;
pub use script::read_script;
pub use text::{HexFault, HexWhy, LONGEST_TEXT, read_hex};
pub use traffic::{off_line, push_off, push_track, reply_line, track_line};
