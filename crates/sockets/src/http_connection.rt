//! An HTTP exchange and its stream.
ghost use Rattle.std.specs.Prelude.{◌≡◌, ◌<◌, ◌-◌, ◌↔◌, ◌⊎◌, IfOk, true};
ghost use Rattle.std.specs.IoError.{error_kind};
ghost use Rattle.web.specs.declared.exchange.Stage.TheVariants.{ReadingRequest};
ghost use Rattle.web.specs.Exchanges.{initial_exchange, leftover_of};
ghost use Rattle.sockets.specs.declared.http_connection.Progress.TheVariants.{Upgraded, Blocked};
ghost use Rattle.sockets.specs.Connections.{IsUpgraded};

use mio::net::TcpStream;
use std::alloc::{AllocError, Global};
use std::io;
use std::io::{Error, ErrorKind, Read, Write};
use std::net::Shutdown;
use web::{HttpExchange, Page, PageReply, Stage};

/// The most bytes read at once.
const READ_SIZE: usize = 1_024;

/// A stream whose sending direction can be closed separately.
pub trait Stream: Read + Write + Drop {
    /// Closes the sending direction: after the bytes written, the peer reads the end.
    ///
    /// # Errors
    ///
    /// The error of the stream, if it has failed.
    fn end(&mut self) -> io::Result<()>;
}

impl Stream for TcpStream {
    fn end(&mut self) -> io::Result<()> {
        self.shutdown(Shutdown::Write)
    }
}

/// An HTTP exchange and its stream.
#[derive(Drop)]
pub struct HttpConnection<S> {
    stream: S,
    exchange: HttpExchange,
}

/// The progress of an HTTP exchange.
#[derive(Clone, Copy)]
pub enum Progress {
    /// Nothing can be read or written now.
    Blocked,
    /// Bytes were read or written, and more may follow.
    Advanced,
    /// The handshake is complete, and the connection is a WebSocket.
    Upgraded,
    /// The connection is to be closed.
    Finished,
}

impl<S: Stream> HttpConnection<S> {
    /// Creates the exchange of a new connection. `now` is in microseconds since the start.
    pub fn new(stream: S, now: u64) -> Self
        ensures stream { result.stream ≡ stream }
        ensures exchange { result.exchange ≡ initial_exchange now }
    {
        HttpConnection {
            stream,
            exchange: HttpExchange::new(now),
        }
    }

    /// Returns the microseconds until `advance` has to be called, even if the stream stays blocked.
    pub fn time_left(&self, now: u64) -> u64
        ensures { result ≡ self.now.exchange.deadline - now }
    {
        self.exchange.time_left(now)
    }

    /// Advances the exchange by at most one read or one write. The server is reached by these names,
    /// and `page` is the response that holds the page.
    ///
    /// Returns `Blocked` only before the deadline; after it, sends status 408 or returns
    /// `Finished`.
    pub fn advance(&mut self, names: &[String], page: &PageReply, now: u64) -> Progress
        ensures in_time { result ≡ Blocked → now < self.new.exchange.deadline }
        ensures upgrades { result ≡ Upgraded → IsUpgraded self.new.exchange.stage }
    {
        let progress = match self.exchange.stage() {
            Stage::ReadingRequest => self.receive(names, now),
            Stage::WritingResponse { .. } => self.send(page, now),
            Stage::Upgraded { .. } => Progress::Upgraded,
            Stage::Draining => self.drain(),
        };
        match progress {
            Progress::Blocked if self.time_left(now) == 0 => self.time_out(now),
            progress => progress,
        }
    }

    /// Returns the page of an upgraded connection, on the same stream. Every byte after the
    /// handshake belongs to the page.
    ///
    /// # Errors
    ///
    /// Out of memory.
    pub fn into_page(self, alloc: Global) -> Result<Page<S>, AllocError>
        ensures leftover { IfOk result
            (λ page. page.socket.input ≡ leftover_of self.exchange.stage self.exchange.received) }
        ensures stream { IfOk result (λ page. page.socket.stream.stream ≡ self.stream) }
    {
        Page::new(alloc, self.stream, self.exchange.leftover())
    }

    /// Handles the deadline: sends status 408, or ends the exchange.
    fn time_out(&mut self, now: u64) -> Progress
        ensures blocked { result ≡ Blocked → now < self.new.exchange.deadline }
        ensures upgrades { result ≡ Upgraded → IsUpgraded self.new.exchange.stage }
    {
        if self.exchange.time_out(now) {
            Progress::Advanced
        } else {
            Progress::Finished
        }
    }

    /// Reads bytes of the request.
    fn receive(&mut self, names: &[String], now: u64) -> Progress
        requires { self.old.exchange.stage ≡ ReadingRequest }
        ensures { result ≡ Upgraded → IsUpgraded self.new.exchange.stage }
    {
        let mut room = [0; READ_SIZE];
        let most = self.exchange.room().min(READ_SIZE);
        match self.stream.read(&mut room[..most]) {
            Ok(count) if count > 0 => {
                self.exchange.receive(names, &room[..count], now);
                Progress::Advanced
            }
            Err(error) if is_retryable(&error) => Progress::Blocked,
            _ => Progress::Finished,
        }
    }

    /// Writes the rest of the response. After it nothing more is sent, except to an upgraded
    /// connection.
    fn send(&mut self, page: &PageReply, now: u64) -> Progress
        ensures { result ≡ Upgraded → IsUpgraded self.new.exchange.stage }
    {
        match self.stream.write(self.exchange.remaining(page)) {
            Ok(count) if count > 0 => self.exchange.sent(count, page, now),
            Err(error) if is_retryable(&error) => return Progress::Blocked,
            _ => return Progress::Finished,
        }
        match self.exchange.stage() {
            Stage::Upgraded { .. } => Progress::Upgraded,
            Stage::Draining if self.stream.end().is_err() => Progress::Finished,
            _ => Progress::Advanced,
        }
    }

    /// Reads and discards further bytes.
    fn drain(&mut self) -> Progress
        ensures { result ≡ Upgraded → IsUpgraded self.new.exchange.stage }
    {
        let mut room = [0; READ_SIZE];
        match self.stream.read(&mut room) {
            Ok(count) if count > 0 => Progress::Advanced,
            Err(error) if is_retryable(&error) => Progress::Blocked,
            _ => Progress::Finished,
        }
    }
}

/// Whether the read or write is to be retried later.
pub fn is_retryable(error: &Error) -> bool
    ensures { result ≡ true ↔ (error_kind error.now ≡ ErrorKind.WouldBlock)
        ⊎ (error_kind error.now ≡ ErrorKind.Interrupted) }
{
    matches!(error.kind(), ErrorKind::WouldBlock | ErrorKind::Interrupted)
}
