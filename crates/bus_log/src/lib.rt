//! The log of a bus: a line for each event, for people.
//!
//! A [`Printer`] observes a bus and prints its outcomes. A [`LogQueue`] queues the lines until a
//! [`LogOutput`] takes them.
//!
//! ```ignore
//! let mut printer = Printer::new(log, roster, verbosity, server.world(), server.railway());
//! server.run(&mut transport, &mut clock, &mut printer, &mut after_round, most)?;
//! ```
#![tactic(auto)]

mod change;
mod exchanges;
mod laws;
mod line_queue;
mod listening;
mod log_output;
mod log_queue;
mod messages;
mod printer;
mod programming_lines;
mod railway_lines;
mod times;
mod turn_times;
mod verbosity;

pub use laws::ignored_messages_have_no_effect;
pub use line_queue::LOG_CAPACITY;
pub use listening::print_listening;
pub use log_output::{LogOutput, write_queued};
pub use log_queue::LogQueue;
pub use printer::{Printer, decoders};
pub use turn_times::TurnTimes;
pub use verbosity::Verbosity;
