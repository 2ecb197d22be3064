//! The decoders of a layout, read from a roster: a text in TOML.
//!
//! The tests are in `tests/process_checks/rosters.py`.
#![tactic(auto)]

mod decoder;
mod described;
mod details;
mod entry;
mod fault;
mod four_variables;
mod locating;
mod node_variables;
mod pair;
mod pairs;
mod reading;
mod roster;
mod table;
mod version;

pub use details::FaultDetails;
pub use fault::{RosterFault, RosterFaultKind};
pub use locating::fault_details;
pub use node_variables::variables;
pub use pairs::CvPairs;
pub use reading::{read, read_toml};
pub use roster::{Roster, decoder_name};
pub use table::{knows_only, value_at};
