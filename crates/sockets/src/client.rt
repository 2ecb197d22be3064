//! A connected client and its stream.
ghost use Rattle.std.specs.Prelude.{◌≡◌, ◌-◌, Ok, false, true};
ghost use Rattle.sockets.specs.Silences.{action_after, left_after};
ghost use Rattle.sockets.specs.declared.silence.Action.TheVariants.{End};
ghost use Rattle.std.specs.Io.{ReadsAtMost, WritesAtMost};

use crate::silence::{Action, Silence};
use mio::net::TcpStream;
use pages::PageText;
use std::alloc::Global;
use std::io;
use std::io::{BufReader, ErrorKind, Read, Write};
use web::Page;

/// The most bytes that are read ahead of a program.
const READ_AHEAD: usize = 512;

/// The most reads at once of a page that sends no text but, for example, pings.
const MOST_TRIES: u8 = 4;

/// A connected client.
#[derive(Drop)]
pub(crate) enum Client {
    /// A program, by LocoNet over TCP.
    Program(ProgramClient),
    /// A page, by the same text over a WebSocket.
    Page(PageClient),
}

impl Client {
    /// Reads from the client, as `Read` does. `now` is in microseconds since the start. Sets
    /// `has_backlog` if the client may have sent more than was read.
    pub(crate) fn read(
        &mut self,
        room: &mut [u8],
        now: u64,
        has_backlog: &mut bool,
    ) -> io::Result<usize>
        ensures { ReadsAtMost result room.new }
    {
        match self {
            Client::Program(program) => program.read(room, has_backlog),
            Client::Page(page_client) => page_client.read(room, now, has_backlog),
        }
    }

    /// Writes to the client, as `Write` does.
    pub(crate) fn write(&mut self, bytes: &[u8]) -> io::Result<usize>
        ensures { WritesAtMost result bytes.now }
    {
        match self {
            Client::Program(program) => program.stream.get_mut().write(bytes),
            Client::Page(page_client) => page_client.write(bytes),
        }
    }
}

/// A program connected to the bus.
#[derive(Drop)]
pub(crate) struct ProgramClient {
    /// With the bytes that were read ahead.
    stream: BufReader<TcpStream>,
    /// It has ended its sending, and its next read is its end.
    has_ended: bool,
}

impl ProgramClient {
    /// Creates the client of a program.
    ///
    /// # Errors
    ///
    /// Out of memory. The stream is closed then.
    pub(crate) fn new(alloc: Global, stream: TcpStream) -> io::Result<ProgramClient> {
        Ok(ProgramClient {
            stream: BufReader::with_capacity(alloc, READ_AHEAD, stream)?,
            has_ended: false,
        })
    }

    /// Reads from the program, as `Read` does. At the end of what it sends the read would block once,
    /// and sets `has_backlog`: it receives its last answers before its connection is closed.
    fn read(&mut self, room: &mut [u8], has_backlog: &mut bool) -> io::Result<usize>
        ensures reads { ReadsAtMost result room.new }
        ensures ended { self.old.has_ended ≡ true → result ≡ Ok 0 }
    {
        if self.has_ended {
            return Ok(0);
        }
        match self.stream.read(room) {
            Ok(0) => {
                self.has_ended = true;
                *has_backlog = true;
                Err(io::Error::from(ErrorKind::WouldBlock))
            }
            received => received,
        }
    }
}

/// A page connected to the bus.
#[derive(Drop)]
pub(crate) struct PageClient {
    page: Page<TcpStream>,
    /// What the page has not taken of the text of the bus.
    text: PageText,
    /// True until `take_just_opened` is first called.
    is_just_opened: bool,
    /// Text of the bus was sent. The first is the version, before which no message is sent.
    has_version: bool,
    /// How long it has been silent.
    silence: Silence,
    /// It has answered no ping, and its next read is its end.
    is_lost: bool,
}

impl PageClient {
    /// Creates the client of a page that was sent nothing yet. `now` is in microseconds since the
    /// start.
    pub(crate) fn new(page: Page<TcpStream>, now: u64) -> PageClient
        ensures opened { result.is_just_opened ≡ true }
        ensures here { result.is_lost ≡ false }
    {
        PageClient {
            page,
            text: PageText::new(),
            is_just_opened: true,
            has_version: false,
            silence: Silence::new(now),
            is_lost: false,
        }
    }

    /// Pings the page if it has been silent for 20 seconds. After 40 it is lost: it has vanished
    /// without closing its connection.
    pub(crate) fn check(&mut self, now: u64)
        ensures { action_after (now - self.old.silence.heard) self.old.silence.is_pinged ≡ End
            → self.new.is_lost ≡ true }
    {
        match self.silence.action(now) {
            Action::Nothing => {}
            // A page that has disconnected is removed at its next read.
            Action::Ping => {
                let _ = self.page.ping();
            }
            Action::End => self.is_lost = true,
        }
    }

    /// Returns the microseconds until the page is to be checked.
    pub(crate) fn time_left(&self, now: u64) -> u64
        ensures { result
            ≡ left_after (now - self.now.silence.heard) self.now.silence.is_pinged }
    {
        self.silence.time_left(now)
    }

    /// Returns whether the page is new, so that a caller that records the sent states clears them,
    /// and marks it as no longer new.
    pub(crate) fn take_just_opened(&mut self) -> bool
        ensures first { result ≡ self.old.is_just_opened }
        ensures once { self.new.is_just_opened ≡ false }
    {
        let is_just_opened = self.is_just_opened;
        self.is_just_opened = false;
        is_just_opened
    }

    /// Whether messages between lines may be sent: the version was sent before, and the words of each
    /// message. Writes queued bytes first, until the stream would block.
    pub(crate) fn is_writable(&mut self) -> bool {
        // A page that has disconnected is removed at its next read.
        let _ = self.page.flush();
        let _ = self.write_text();
        self.has_version && self.text.queued().is_empty()
    }

    /// Sends one message between lines, whole or not at all. Returns false if it was not sent.
    pub(crate) fn send(&mut self, message: &str) -> bool {
        self.text.queued().is_empty() && self.page.send(message).is_ok()
    }

    /// Reads from the page, as `Read` does. Sets `has_backlog` if it may have sent more and none of
    /// it was text.
    fn read(&mut self, room: &mut [u8], now: u64, has_backlog: &mut bool) -> io::Result<usize>
        ensures reads { ReadsAtMost result room.new }
        ensures lost { self.old.is_lost ≡ true → result ≡ Ok 0 }
    {
        if self.is_lost {
            return Ok(0);
        }
        for _try in 0..MOST_TRIES {
            let received = self.page.read_lines(room);
            if !is_silent(&received) {
                self.silence = Silence::new(now);
            }
            match received {
                Err(error) if error.kind() == ErrorKind::Interrupted => {}
                received => return received,
            }
        }
        *has_backlog = true;
        Err(io::Error::from(ErrorKind::WouldBlock))
    }

    /// Writes text of the bus to the page, as `Write` does, and the words of its messages.
    fn write(&mut self, bytes: &[u8]) -> io::Result<usize>
        ensures { WritesAtMost result bytes.now }
    {
        self.has_version = true;
        self.write_text()?;
        let taken = self.text.push(bytes);
        self.write_text()?;
        if taken == 0 && !bytes.is_empty() {
            return Err(io::Error::from(ErrorKind::WouldBlock));
        }
        Ok(taken)
    }

    /// Writes what is queued of the text, as far as the page takes it.
    fn write_text(&mut self) -> io::Result<()> {
        if self.text.queued().is_empty() {
            return Ok(());
        }
        match self.page.write_lines(self.text.queued()) {
            Ok(taken) => {
                self.text.consume(taken);
                Ok(())
            }
            Err(error) if error.kind() == ErrorKind::WouldBlock => Ok(()),
            Err(error) => Err(error),
        }
    }
}

/// Whether nothing was received: the read would block.
fn is_silent(received: &io::Result<usize>) -> bool {
    match received {
        Err(error) => error.kind() == ErrorKind::WouldBlock,
        Ok(_) => false,
    }
}
