//! The configuration variables of a decoder, as it hears service mode on a programming track (NMRA
//! S-9.2.3, direct mode).
//!
//! The tests are in `library_tests/src/test_programming_track.rt`.
#![tactic(auto)]

mod cv_change;
mod cv_memory;
pub mod laws;

pub use cv_change::CvChange;
pub use cv_memory::{CV_COUNT, CvMemory};
pub use laws::{acknowledged_in_service_mode, changes_are_complete, others_never_change};
