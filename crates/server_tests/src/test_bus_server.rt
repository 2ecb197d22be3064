//! Runs of a server over a transport, a clock and an observer in memory, each of which keeps a log.

pub mod kept;
#[cfg(test)]
mod memory;
#[cfg(test)]
mod runs;
#[cfg(test)]
mod script_run;
