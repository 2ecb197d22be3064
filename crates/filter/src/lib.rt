//! Programs that read a file or standard input, and write standard output.
//!
//! Such a program implements [`Filter`]: the texts of its command line, and what it does with an
//! input. [`run_filter`] reads its arguments and runs it on the file that they name, or on
//! standard input; `--help` and `--version` are answered on standard output.
//!
//! ```ignore
//! fn main(rt: HostRuntime) -> ExitCode {
//!     run_filter(&Explain, &rt)
//! }
//! ```
#![tactic(auto)]

mod announced;
mod closed_pipe;
mod fault;
mod filter;
mod orders;
mod report;
mod running;
mod standard;
mod table;
mod terminal;
mod text;

pub use fault::{FilterFault, FilterResult};
pub use filter::{Filter, Run};
pub use orders::filter_order;
pub use running::{execute, execute_words};
pub use standard::run_filter;
pub use text::{FilterFlag, FilterFlags, FilterOrder, FilterText};
