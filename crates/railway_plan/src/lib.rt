//! Track plans, read from a text in TOML.
//!
//! [`read`] returns the [`Plan`](railway::Plan) of a text, and [`read_railway`] its railway for the
//! decoders of a roster. Both return the first fault instead. [`locate`] finds more about it in the
//! text: a [`LocatedFault`] is shown as `block 2 (main): length must be 1 to 100000`.
//!
//! The tests are in `tests/server_checks/plans.py`.
#![tactic(auto)]

mod bounds;
mod details;
mod fault;
mod key;
mod laying;
mod locating;
mod members;
mod names;
mod parts;
mod reading;
mod repeating;
mod table;

pub use details::{LocatedFault, PlanDetails};
pub use fault::{PlanTextFault, Reason, Section, TrainName, TrainNames};
pub use key::Key;
pub use laying::read_railway;
pub use locating::locate;
pub use reading::read;
