//! `lbserver`: a LocoNet command station that serves clients of LocoNet over TCP.
#![tactic(auto)]

mod after_round;
mod answering;
mod device_logs;
mod executing;
mod fault;
mod files;
mod plan_file;
mod programmer_file;
mod reach;
mod roster_file;
mod roster_line;
mod shares;
mod standard_output;
mod terminal_writer;

use command_line::{read_words, texts};
use device_logs::DeviceLogs;
use executing::execute;
use fault::ServerFault;
use server_orders::not_utf8_server_text;
use standard_output::StandardOutput;
use std::io;
use std::process::ExitCode;
use terminal_writer::TerminalWriter;

fn main(rt: HostRuntime) -> ExitCode {
    ExitCode::from(match run_words(&rt) {
        Ok(status) => status,
        Err(fault) => fault.report(&mut rt.stderr()),
    })
}

/// Runs the program on its arguments, and returns its exit status. Fails if the arguments cannot be
/// read.
fn run_words(rt: &HostRuntime) -> Result<u8, ServerFault> {
    let words = read_words(rt.alloc(), rt, |alloc| not_utf8_server_text(alloc))?;
    let texts = texts(rt.alloc(), words.as_slice())?;
    let mut output = StandardOutput::new(rt, TerminalWriter::new(rt, io::writer(rt)), rt.stderr())?;
    Ok(execute(
        rt,
        texts.as_slice(),
        &mut output,
        &mut rt.stderr(),
        &mut DeviceLogs::new(),
    ))
}
