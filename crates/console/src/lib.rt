//! Files and streams of a run: bounded reading, printing of lines, and reporting of
//! faults; and `station monitor`, which needs no layout.
//!
//! A [`RunFault`] is why a run fails, with its text and exit status; [`report`] reports it.
//! [`Buffered`] is a buffer for an output, and [`print`] prints a line. [`read_roster`] returns the
//! roster of a file.
//!
//! ```ignore
//! match run(arguments) {
//!     Ok(()) => 0,
//!     Err(fault) => report(&fault, &mut faults),
//! }
//! ```
#![tactic(auto)]

mod buffered;
mod fault;
mod flushing;
mod input;
mod monitoring;
mod output;
mod reporting;
mod roster_file;

pub use buffered::Buffered;
pub use fault::RunFault;
pub use flushing::flush_after;
pub use input::{read_whole, whole_from};
pub use monitoring::{monitor, monitor_from};
pub use output::{WriteError, print, print_ended, print_to};
pub use reporting::{STATION, report, report_as};
pub use roster_file::{LONGEST_ROSTER, read_roster, roster_from};
