//! Trains on the track plan of a layout, and the sensors of its blocks.
//!
//! A [`Plan`] has blocks, joints and turnouts between their ends, and trains. [`Railway::new`]
//! checks it. A caller passes each piece of time to [`Railway::elapse`], with the layout whose
//! decoders run the trains and move the turnouts, and receives the reports of sensors and turnouts. The
//! layout is only read.
//!
//! ```ignore
//! let mut railway = Railway::new(plan, &decoders)?;
//! let reports = railway.elapse(5_796, &world);
//! for report in reports.sensors.as_slice() { /* send report.message() */ }
//! for report in reports.turnouts.as_slice() { /* send report.message() */ }
//! ```
//!
//! Trains run as their decoders run, not as they were asked to: speed step n of N is n / N of the
//! top speed, at once or as fast as their [`Momentum`] lets them. An emergency stop is at once. A
//! train stops at an end that nothing joins, and stands without track power. It lies over any number
//! of blocks. It is derailed by a turnout that moves or lies against it or is thrown under a part of
//! it, and stands until [`Railway::place`] puts it back. Two trains in a block are a [`Conflict`].
//!
//! The tests are in `layout_tests/src/test_railway.rt`.
#![tactic(auto)]

mod block;
mod block_set;
mod checking;
mod conflict;
mod exit;
mod failing;
mod failing_sensors;
mod fault;
mod feedback;
mod joint;
pub mod laws;
mod moving;
mod one_way;
mod passing;
mod placement;
mod plan;
mod railway;
mod reading;
mod report;
mod track;
mod train;
mod turnout_report;

pub use block::{
    Block, BlockEnd, End, LONGEST_BLOCK, LONGEST_NAME, MILLIMETRE, Name, Point, block_name,
};
pub use block_set::BlockSet;
pub use conflict::{Conflict, Conflicts};
pub use exit::Exit;
pub use fault::{Part, PlaceFault, PlanFault};
pub use feedback::{TimeReports, TurnoutReports};
pub use joint::{Joint, Turnout, TurnoutState};
pub use ln_ops::{SensorReport, is_interrogation};
pub use motion::{Momentum, Velocity};
pub use plan::{MAX_BLOCKS, MAX_JOINTS, MAX_TRAINS, MAX_TURNOUTS, Plan};
pub use railway::Railway;
pub use report::{MAX_REPORTS, Reports};
pub use train::{Place, Position, Train, TrainState};
pub use turnout_report::TurnoutReport;
