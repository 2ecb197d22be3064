//! `station`: a LocoNet command station with the DCC decoders on its track. It replays scripts,
//! prints captured messages, and serves throttles over TCP.
#![tactic(auto)]

mod executing;
mod layout;
mod listening;
mod replay;

pub use command_line::{FileName, OrderFault};
use command_line::{read_words, texts};
use console::STATION;
pub use console::{RunFault, report};
pub use executing::execute;
use input_text::{TrackedReader, TrackedWriter};
pub use layout::new_world;
pub use listening::{serve_connection, serve_on};
use station_orders::no_text;
pub use station_orders::{Order, order};
use std::io;
use std::process::ExitCode;

#[cfg(test)]
mod tests;

fn main(rt: HostRuntime) -> ExitCode {
    ExitCode::from(match run_words(&rt) {
        Ok(status) => status,
        Err(fault) => fault.report(STATION, &mut rt.stderr()),
    })
}

/// Runs the program on its arguments and the standard streams, and returns its exit status. Fails
/// if the arguments cannot be read.
fn run_words(rt: &HostRuntime) -> Result<u8, OrderFault> {
    let words = read_words(rt.alloc(), rt, |alloc| no_text(alloc))?;
    let texts = texts(rt.alloc(), words.as_slice())?;
    Ok(execute(
        rt,
        texts.as_slice(),
        &mut TrackedReader::new(rt.reader()),
        &mut TrackedWriter::new(io::writer(rt)),
        &mut rt.stderr(),
    ))
}
