//! How a train gathers speed and brakes: each distance is exact, however time is cut.
//!
//! A [`Drive`] is what a train is asked for: a direction, a speed and a [`Momentum`].
//! [`Velocity::leg`] cuts a time into parts in which the train goes one way, and returns how far it
//! goes in each.
//!
//! A speed is in femtometres a microsecond, so that a millimetre a second each second is one more
//! each microsecond, and all numbers are whole.
//!
//! The tests of trains with momentum are in `layout_tests/src/test_railway.rt`.
#![tactic(auto)]

pub mod laws;
mod leg;
mod velocity;

pub use leg::{LONGEST_LEG, Leg};
pub use velocity::{Drive, FASTEST, Momentum, Velocity};
