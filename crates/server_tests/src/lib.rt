//! The tests of `bus_server` and `web`, a file `test_CRATE.rt` for each: runs of a server in memory,
//! whose devices keep logs, and pages on streams that fail. There is no other code here.
#![tactic(auto)]

pub mod test_bus_server;
#[cfg(test)]
mod test_losses;
#[cfg(test)]
mod test_web;
