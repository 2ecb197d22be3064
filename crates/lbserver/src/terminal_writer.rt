//! Standard output, which is not waited for where it is a terminal.

use std::fs::{File, OpenOptions};
use std::io;
use std::io::{IsTerminal, Write};
use std::net::TcpStream;
use std::os::fd::OwnedFd;

/// Standard output, among the files of the process.
const STANDARD_OUTPUT_FILE: &str = "/proc/self/fd/1";

/// A writer of standard output. `write` does not wait for a terminal, `write_all` does.
///
/// A terminal that accepts bytes may have room for one alone, and waits with the rest of a write.
/// So it is opened once more, in non-blocking mode. The mode of standard output stays, since other
/// programs share it. A terminal that cannot be opened is waited for.
#[derive(Drop)]
pub(crate) struct TerminalWriter<W> {
    writer: W,
    terminal: Option<File>,
}

impl<W: Write + Drop> TerminalWriter<W> {
    /// Creates the writer over one of standard output.
    pub(crate) fn new(rt: &HostRuntime, writer: W) -> Self {
        let terminal = if rt.stdout().is_terminal() {
            open_terminal(rt).ok()
        } else {
            None
        };
        TerminalWriter { writer, terminal }
    }
}

impl<W: Write> Write for TerminalWriter<W> {
    fn write(&mut self, buf: &[u8]) -> io::Result<usize> {
        match &mut self.terminal {
            Some(terminal) => terminal.write(buf),
            None => self.writer.write(buf),
        }
    }

    fn flush(&mut self) -> io::Result<()> {
        self.writer.flush()
    }

    fn write_all(&mut self, buf: &[u8]) -> io::Result<()> {
        self.writer.write_all(buf)
    }
}

/// Opens the terminal of standard output, in non-blocking mode.
fn open_terminal(rt: &HostRuntime) -> io::Result<File> {
    let terminal = OpenOptions::new()
        .write(true)
        .open(rt, STANDARD_OUTPUT_FILE)?;
    // Only types of sockets set the mode. It is that of the open file, which a clone shares.
    let clone = TcpStream::from(OwnedFd::from(terminal.try_clone()?));
    clone.set_nonblocking(true)?;
    Ok(terminal)
}
