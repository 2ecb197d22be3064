//! How trains and turnouts stand, as lines of text for clients and pages.
//!
//! A [`TrainPlace`] is what a `TRAIN` line says of a train behind its name. [`turnout_line`] says how
//! a turnout lies or that it moves.
//!
//! ```ignore
//! let place = TrainPlace::of(railway.blocks(), &train, railway.speed(0));
//! place.line("shunter", railway.blocks()); // "TRAIN shunter main 4 b main 120"
//! turnout_line(&turnout);                  // "TURNOUT 2 thrown"
//! ```
//!
//! The tests are in `tests/server_checks/states.py`.
#![tactic(auto)]

mod train_place;
mod turnouts;
mod words;

pub use train_place::TrainPlace;
pub use turnouts::{side_of, turnout_line};
pub use words::{LONGEST_STATE, StateLine, letter_of};
