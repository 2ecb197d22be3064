//! The command line of `lbserver`.
//!
//! [`server_order`] parses the arguments of the program into a [`ServerOrder`]. [`share_for`] returns
//! the share of packets that a decoder misses.
#![tactic(auto)]

mod orders;
mod share;
mod shares;
mod table;
mod words;

pub use orders::{not_utf8_server_text, server_order};
pub use share::Share;
pub use shares::share_for;
pub use words::ServerOrder;
