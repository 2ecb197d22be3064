//! The outputs after a round: standard output, written only while it accepts bytes, and what pages
//! have received.
ghost use Rattle.std.specs.Prelude.{◌≡◌, IfOk, None, OnOk, false, true};
ghost use Rattle.std.specs.Io.KnownBytes.{Appends};
ghost use Rattle.input_text.specs.Write.{failed_after};

use crate::roster_line::NAME;
use bus_log::LogOutput;
use console::{RunFault, WriteError};
use mio::unix::SourceFd;
use mio::{Events, Interest, Poll, Token};
use pages::Updates;
use std::alloc::AllocGlobal;
use std::io;
use std::io::{ErrorKind, Stderr, Write};
use std::net::Net;
use std::os::fd::RawFd;
use std::time::Duration;

/// The file descriptor of standard output.
pub(crate) const STANDARD_OUTPUT: RawFd = 1;

/// In how many parts a wait for standard output is.
const WAIT_PARTS: u32 = 10;

/// A writer of standard output's file descriptor, written only while that accepts bytes, and what
/// the page at each client index has received.
///
/// A pipe or a terminal is registered for readiness. A file cannot be registered, and always
/// accepts bytes.
#[derive(Drop)]
pub(crate) struct StandardOutput<O> {
    pub(crate) writer: O,
    poll: Poll,
    events: Events,
    is_pollable: bool,
    /// Whether a write failed.
    pub(crate) failed: bool,
    /// Where the first failed write of the log is reported.
    faults: Stderr,
    pub(crate) updates: Updates,
}

impl<O: Write + Drop> StandardOutput<O> {
    /// Creates the output, which has not failed.
    ///
    /// # Errors
    ///
    /// `Network` if the system has no poll left, and `NoMemory`.
    pub(crate) fn new<R: Net + AllocGlobal>(
        rt: &R,
        writer: O,
        faults: Stderr,
    ) -> Result<Self, RunFault>
        ensures { IfOk result (λ output. output.failed ≡ false) }
    {
        let Ok(poll) = Poll::new(rt) else {
            return Err(RunFault::Network);
        };
        let Ok(events) = Events::with_capacity(rt.alloc(), 1) else {
            return Err(RunFault::NoMemory);
        };
        let mut source = SourceFd(&STANDARD_OUTPUT);
        let registered = poll
            .registry()
            .register(&mut source, Token(0), Interest::WRITABLE);
        Ok(StandardOutput {
            writer,
            poll,
            events,
            is_pollable: registered.is_ok(),
            failed: false,
            faults,
            updates: Updates::new(),
        })
    }
}

impl<O: Write> StandardOutput<O> {
    /// Writes a whole text and flushes it, however long its reader takes.
    ///
    /// # Errors
    ///
    /// `WriteError` if the writer fails. The number of bytes written is then not known.
    pub(crate) fn write_text(&mut self, text: &str) -> Result<(), WriteError>
        ensures written { OnOk result
            (Appends (O.contents self.old.writer) (O.contents self.new.writer) text.now) }
        ensures failed { self.new.failed ≡ failed_after result self.old.failed }
    {
        match write_all(text, &mut self.writer) {
            Ok(()) => Ok(()),
            Err(_) => Err(self.fail()),
        }
    }

    /// Records that a write of the log failed, and reports it the first time. The run goes on: what
    /// it drives does not depend on a log.
    fn note_failure(&mut self, why: ErrorKind) -> WriteError
        ensures writer { self.new.writer ≡ self.old.writer }
        ensures failed { self.new.failed ≡ true }
    {
        if !self.failed {
            let reason = reason_of(why);
            let _ = writeln!(
                self.faults,
                "{NAME}: the log cannot be written: {reason}; running on without it"
            );
        }
        self.fail()
    }

    /// Records that a write failed.
    fn fail(&mut self) -> WriteError
        ensures writer { self.new.writer ≡ self.old.writer }
        ensures failed { self.new.failed ≡ true }
    {
        self.failed = true;
        WriteError
    }

    /// Returns whether standard output accepts bytes within `longest`. Waits in parts, since a signal
    /// ends the part in which it comes.
    fn is_writable(&mut self, longest: Duration) -> bool
        ensures writer { self.new.writer ≡ self.old.writer }
        ensures failed { self.new.failed ≡ self.old.failed }
    {
        if !self.is_pollable {
            return true;
        }
        let part = longest / WAIT_PARTS;
        for _part in 1..WAIT_PARTS {
            if self.accepts_bytes(part) {
                return true;
            }
            if part.is_zero() {
                return false;
            }
        }
        self.accepts_bytes(part)
    }

    /// Returns whether standard output is ready within `longest`, or before a signal.
    fn accepts_bytes(&mut self, longest: Duration) -> bool
        ensures writer { self.new.writer ≡ self.old.writer }
        ensures failed { self.new.failed ≡ self.old.failed }
    {
        // Registering again reports a state that is ready already.
        let mut source = SourceFd(&STANDARD_OUTPUT);
        let _ = self
            .poll
            .registry()
            .reregister(&mut source, Token(0), Interest::WRITABLE);
        match self.poll.poll(&mut self.events, Some(longest)) {
            Ok(()) => self.events.iter().next().is_some(),
            Err(_) => false,
        }
    }
}

impl<O: Write> LogOutput for StandardOutput<O> {
    ghost written = { λ output. O.contents output.writer };

    ghost counts = { λ _. None };

    ghost failed = { λ output. output.failed };

    fn write_ready(&mut self, bytes: &[u8], longest: Duration) -> Result<usize, WriteError> {
        if !self.is_writable(longest) {
            return Ok(0);
        }
        match self.writer.write(bytes) {
            Ok(count) => Ok(count),
            Err(error) if is_retryable(&error) => Ok(0),
            Err(error) => Err(self.note_failure(error.kind())),
        }
    }
}

/// Returns why a write failed, in words.
fn reason_of(why: ErrorKind) -> &'static str {
    match why {
        ErrorKind::StorageFull => "no space left on the device",
        ErrorKind::QuotaExceeded => "the quota is used up",
        ErrorKind::FileTooLarge => "the file is too large",
        ErrorKind::BrokenPipe => "its reader has closed the pipe",
        _ => "write error",
    }
}

/// Writes and flushes a text.
fn write_all<O: Write>(text: &str, writer: &mut O) -> io::Result<()>
    ensures { OnOk result (Appends (O.contents writer.old) (O.contents writer.new) text.now) }
{
    writer.write_all(text.as_bytes())?;
    writer.flush()
}

/// Whether the write is to be retried later.
fn is_retryable(error: &io::Error) -> bool {
    matches!(error.kind(), ErrorKind::WouldBlock | ErrorKind::Interrupted)
}
