//! The ports of a server, and the streams of up to eight clients, without a clock.
ghost use Rattle.std.specs.Prelude.{◌≡◌, ◌<◌, None, length};
ghost use Rattle.bus_server.specs.TransportEvents.{IsWithin};
ghost use Rattle.bus_server.specs.declared.transport.IoOutcome.TheVariants.{Closed};

use crate::client::{Client, PageClient, ProgramClient};
use crate::http_connection::is_retryable;
use crate::http_server::{HttpServer, MAX_EXCHANGES};
use crate::wait_time::{duration_of, sooner};
use bus_server::{IoOutcome, MAX_CLIENTS};
use loconet_tcp::{Text, push_server_full};
use mio::net::{TcpListener, TcpStream};
use mio::unix::SourceFd;
use mio::{Events, Interest, Poll, Registry, Token};
use pages::Clients;
use std::alloc::Global;
use std::io;
use std::io::{ErrorKind, Write};
use std::net::SocketAddr;
use std::os::fd::RawFd;
use web::Page;

/// The ports of a server, and the streams of the accepted clients, by their index, 0 to 7.
#[derive(Drop)]
pub(crate) struct Connections {
    alloc: Global,
    poll: Poll,
    events: Events,
    listener: TcpListener,
    clients: [Option<Client>; MAX_CLIENTS],
    http: Option<HttpServer>,
    /// A page has sent bytes, and may have sent more, or a program has ended its sending.
    has_backlog: bool,
    /// The last reading of the clock, in microseconds since the start.
    now: u64,
}

impl Connections {
    /// Registers the listener for programs. All memory is allocated here, but for 512 bytes for each
    /// program while it is connected.
    pub(crate) fn new(alloc: Global, poll: Poll, listener: TcpListener) -> io::Result<Connections> {
        let mut listener = listener;
        register_listener(&mut listener, poll.registry(), MAX_CLIENTS)?;
        Ok(Connections {
            alloc,
            poll,
            events: Events::with_capacity(alloc, MAX_CLIENTS + MAX_EXCHANGES + 2)?,
            listener,
            clients: [None, None, None, None, None, None, None, None],
            http: None,
            has_backlog: false,
            now: 0,
        })
    }

    /// Serves a page to browsers by this server, and accepts pages as clients.
    pub(crate) fn serve_page(&mut self, http: HttpServer) -> io::Result<()> {
        let mut http = http;
        register_listener(http.listener_mut(), self.poll.registry(), MAX_CLIENTS + 1)?;
        self.http = Some(http);
        Ok(())
    }

    /// Ends a wait when a file descriptor becomes writable.
    pub(crate) fn wake_on(&self, descriptor: &RawFd) {
        let mut source = SourceFd(descriptor);
        let _ = self
            .poll
            .registry()
            .register(&mut source, Token(MAX_CLIENTS + 3), Interest::WRITABLE);
    }

    /// Returns the address and port for programs, and those of the page, if one is served.
    pub(crate) fn addresses(&self) -> io::Result<(SocketAddr, Option<SocketAddr>)> {
        let page = match &self.http {
            Some(http) => Some(http.listener().local_addr()?),
            None => None,
        };
        Ok((self.listener.local_addr()?, page))
    }

    /// Waits for readiness, at most `longest` microseconds. `now` is in microseconds since the
    /// start.
    ///
    /// An event only ends the wait. Each round visits all clients, so no event is looked up, and a
    /// stale one does no harm.
    pub(crate) fn wait(&mut self, longest: Option<u64>, now: u64) -> io::Result<()> {
        let longest = sooner(longest, self.time_left(now));
        match self.poll.poll(&mut self.events, longest.map(duration_of)) {
            Err(error) if error.kind() != ErrorKind::Interrupted => Err(error),
            _ => Ok(()),
        }
    }

    /// Returns how long connections can be left waiting, in microseconds.
    fn time_left(&self, now: u64) -> Option<u64> {
        if self.has_backlog {
            return Some(0);
        }
        match &self.http {
            Some(http) => sooner(http.time_left(now), self.pages_time_left(now)),
            None => None,
        }
    }

    /// Returns the microseconds until a page is to be checked.
    fn pages_time_left(&self, now: u64) -> Option<u64> {
        let mut left = None;
        for client in &self.clients {
            if let Some(Client::Page(page_client)) = client {
                left = sooner(left, Some(page_client.time_left(now)));
            }
        }
        left
    }

    /// Serves the HTTP connections, and checks that each page is still there. `now` is in
    /// microseconds since the start.
    pub(crate) fn serve_browsers(&mut self, now: u64) {
        self.serve_http(now);
        self.check_pages(now);
    }

    /// Checks that each page is still there. `now` is in microseconds since the start.
    fn check_pages(&mut self, now: u64) {
        self.now = now;
        for place in 0..MAX_CLIENTS {
            if let Some(page_client) = self.page_client(place) {
                page_client.check(now);
            }
        }
    }

    /// Serves the HTTP connections. `now` is in microseconds since the start.
    fn serve_http(&mut self, now: u64) {
        self.has_backlog = false;
        if let Some(http) = &mut self.http {
            http.round(self.poll.registry(), Token(MAX_CLIENTS + 2), now);
        }
    }

    /// Returns the page at a client index, if that client is a page.
    pub(crate) fn page_client(&mut self, place: usize) -> Option<&mut PageClient>
        requires { place < 8 }
    {
        match &mut self.clients[place] {
            Some(Client::Page(page_client)) => Some(page_client),
            _ => None,
        }
    }

    /// Closes the connection of a client that has disconnected.
    fn disconnect(&mut self, client: u8) -> IoOutcome
        requires { client < 8 }
        ensures { result ≡ Closed }
    {
        self.close(client);
        IoOutcome::Closed
    }

    /// Returns an upgraded page that waits for a client index.
    fn upgraded(&mut self) -> Option<Page<TcpStream>> {
        match &mut self.http {
            Some(http) => http.take_upgraded(),
            None => None,
        }
    }

    /// Accepts a pending program. If memory is out, it is disconnected.
    fn accept_program(&mut self, place: usize) -> Option<ProgramClient> {
        let (mut stream, _) = self.listener.accept().ok()?;
        self.prepare(&mut stream, place).ok()?;
        ProgramClient::new(self.alloc, stream).ok()
    }

    /// Prepares a stream to be served at a client index.
    fn prepare(&self, stream: &mut TcpStream, place: usize) -> io::Result<()> {
        // Otherwise a second write waits some 40 ms for the client to acknowledge the first.
        stream.set_nodelay(true)?;
        // Both directions from the start, because a change is reported once.
        self.poll.registry().register(
            stream,
            Token(place),
            Interest::READABLE | Interest::WRITABLE,
        )
    }

    /// Sends a pending program the text that the server is full. Returns false if none is pending.
    fn reject_program(&mut self, text: &[u8]) -> bool {
        let Ok((mut stream, _)) = self.listener.accept() else {
            return false;
        };
        let _ = stream.write(text);
        true
    }

    /// Accepts an upgraded page first, and otherwise a program.
    pub(crate) fn accept(&mut self, client: u8) -> bool
        requires { client < 8 }
    {
        let place = usize::from(client);
        let client = match self.upgraded() {
            Some(page) => Some(Client::Page(PageClient::new(page, self.now))),
            None => self.accept_program(place).map(Client::Program),
        };
        let is_there = client.is_some();
        self.clients[place] = client;
        is_there
    }

    /// Tells a pending client that the server is full, and closes its connection. Returns false if
    /// none is pending.
    pub(crate) fn reject(&mut self) -> bool {
        let mut text = Text::new();
        push_server_full(&mut text);
        match self.upgraded() {
            Some(page) => reject_page(page, text.as_slice()),
            None => self.reject_program(text.as_slice()),
        }
    }

    /// Reads what a client sent to the front of `room`.
    pub(crate) fn read(&mut self, client: u8, room: &mut [u8]) -> IoOutcome
        requires { client < 8 }
        ensures { IsWithin result (length room.new) }
    {
        let Some(stream) = &mut self.clients[usize::from(client)] else {
            return IoOutcome::WouldBlock;
        };
        match stream.read(room, self.now, &mut self.has_backlog) {
            Ok(count) if count > 0 => IoOutcome::Bytes(count),
            Err(error) if is_retryable(&error) => IoOutcome::WouldBlock,
            _ => self.disconnect(client),
        }
    }

    /// Writes bytes to a client, as many from the front as it takes.
    pub(crate) fn write(&mut self, client: u8, bytes: &[u8]) -> IoOutcome
        requires client { client < 8 }
        requires some { 0 < length bytes.now }
        ensures { IsWithin result (length bytes.now) }
    {
        let Some(stream) = &mut self.clients[usize::from(client)] else {
            return IoOutcome::WouldBlock;
        };
        match stream.write(bytes) {
            Ok(count) if count > 0 => IoOutcome::Bytes(count),
            Err(error) if is_retryable(&error) => IoOutcome::WouldBlock,
            _ => self.disconnect(client),
        }
    }

    /// Closes the connection of a client.
    pub(crate) fn close(&mut self, client: u8)
        requires { client < 8 }
    {
        self.clients[usize::from(client)] = None;
    }
}

impl Clients for Connections {
    ghost page_log = { λ _. None };

    fn take_just_opened(&mut self, place: usize) -> bool {
        match self.page_client(place) {
            Some(page_client) => page_client.take_just_opened(),
            None => false,
        }
    }

    fn is_writable(&mut self, place: usize) -> bool {
        match self.page_client(place) {
            Some(page_client) => page_client.is_writable(),
            None => false,
        }
    }

    fn send(&mut self, place: usize, message: &str) -> bool {
        match self.page_client(place) {
            Some(page_client) => page_client.send(message),
            None => false,
        }
    }
}

/// Sends an upgraded page the text that the server is full, and returns true.
fn reject_page(page: Page<TcpStream>, text: &[u8]) -> bool {
    let mut page = page;
    // A page that has already disconnected receives no text.
    let _ = page.write_lines(text);
    page.close();
    true
}

/// Registers a listener for readiness.
fn register_listener(
    listener: &mut TcpListener,
    registry: &Registry,
    token: usize,
) -> io::Result<()> {
    registry.register(listener, Token(token), Interest::READABLE)
}
