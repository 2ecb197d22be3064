//! `explain`: copies its input, and adds to each line of a message or a packet an explanation in
//! plain words.
#![tactic(auto)]

mod brackets;
mod capture;
mod conversion;
mod end;
mod explain;
mod explainer;
mod fault_lines;
mod hex;
mod laws;
mod line_kinds;
mod lines;
mod parts;
mod streams;

pub use capture::capture_text;
pub use conversion::{Conversion, convert};
pub use explain::Explain;
pub use explainer::Explainer;
use filter::run_filter;
pub use hex::hex_text;
pub use laws::{messages_are_explained, printed_lines_are_explained};
use std::process::ExitCode;
pub use streams::explain;

#[cfg(test)]
mod tests;

fn main(rt: HostRuntime) -> ExitCode {
    run_filter(&Explain, &rt)
}
