//! `track_signal`: writes the signal on the rails, half-bit by half-bit, of the packets in the
//! output of `station`, as a value change dump for wave viewers.
#![tactic(auto)]

mod drawing;
mod signal;

pub use signal::TrackSignal;
use std::process::ExitCode;
use trace::draw_standard;

#[cfg(test)]
mod tests;

fn main(rt: HostRuntime) -> ExitCode {
    draw_standard(&TrackSignal, &rt)
}
