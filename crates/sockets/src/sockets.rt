//! The sockets of a server, and the clock that measures their deadlines.
ghost use Rattle.std.specs.Prelude.{◌≡◌, IfOk, Some, []};
ghost use Rattle.pages.specs.Shown.{IsOfRoster};

use crate::call_log::{CallLog, Returned};
use crate::connections::Connections;
use crate::http_server::HttpServer;
use crate::stopwatch::Stopwatch;
use crate::system_fault::SystemFault;
use bus_server::{IoOutcome, Transport};
use mio::Poll;
use mio::net::TcpListener;
use pages::{Shown, Updates};
use std::alloc::AllocGlobal;
use std::io;
use std::net::{Net, SocketAddr};
use std::os::fd::RawFd;
use std::time::Clock;
use web::PageReply;

/// The ports of a server, the streams of the accepted clients, and a clock.
///
/// What the system delivers is outside the proofs; what the calls of this transport returned is kept
/// in its log.
// What a struct lends that holds a reference has no rule yet, so the connections stand apart.
#[derive(Drop)]
pub struct Sockets<'a, C> {
    connections: Connections,
    clock: &'a C,
    watch: Stopwatch,
    log: CallLog,
}

impl<'a, C: Net + AllocGlobal + Clock> Sockets<'a, C> {
    /// Listens for programs on an address and a port. All memory is allocated here, but for 512 bytes
    /// for each program while it is connected.
    ///
    /// # Errors
    ///
    /// Nothing can listen there, out of memory, or the clock cannot be read.
    pub fn bind(rt: &'a C, address: SocketAddr) -> Result<Sockets<'a, C>, SystemFault>
        ensures { IfOk result (λ sockets. sockets.log.events ≡ []) }
    {
        match listen(rt, address) {
            Ok(sockets) => Ok(sockets),
            Err(error) => Err(SystemFault::of(error)),
        }
    }

    /// Listens for browsers on an address and a port, serves them a page, and accepts pages as
    /// clients. Browsers reach it by an IP address, as `localhost`, or by one of these names. All
    /// memory is allocated here.
    ///
    /// # Errors
    ///
    /// Nothing can listen there, or out of memory.
    pub fn bind_page(
        &mut self,
        address: SocketAddr,
        page: &[u8],
        names: Vec<String>,
    ) -> Result<(), SystemFault>
        ensures { self.new.log ≡ self.old.log }
    {
        match self.listen_for_page(address, page, names) {
            Ok(()) => Ok(()),
            Err(error) => Err(SystemFault::of(error)),
        }
    }

    /// Serves a page to browsers on an address and a port, and by these names.
    fn listen_for_page(
        &mut self,
        address: SocketAddr,
        page: &[u8],
        names: Vec<String>,
    ) -> io::Result<()>
        ensures { self.new.log ≡ self.old.log }
    {
        let alloc = self.clock.alloc();
        let listener = TcpListener::bind(self.clock, address)?;
        let reply = PageReply::new(alloc, page)?;
        self.connections
            .serve_page(HttpServer::new(alloc, listener, reply, names))
    }
}

/// Creates the sockets for programs on an address and a port.
fn listen<C: Net + AllocGlobal + Clock>(rt: &C, address: SocketAddr) -> io::Result<Sockets<'_, C>>
    ensures { IfOk result (λ sockets. sockets.log.events ≡ []) }
{
    let watch = Stopwatch::new(rt)?;
    Ok(Sockets {
        connections: connections(rt, address)?,
        clock: rt,
        watch,
        log: CallLog::new(),
    })
}

/// Creates the connections of programs on an address and a port.
fn connections<C: Net + AllocGlobal>(rt: &C, address: SocketAddr) -> io::Result<Connections> {
    let listener = TcpListener::bind(rt, address)?;
    let poll = Poll::new(rt)?;
    Connections::new(rt.alloc(), poll, listener)
}

impl<C: Clock> Sockets<'_, C> {
    /// Ends a wait when a file descriptor becomes writable. A descriptor that cannot be registered
    /// is always writable.
    pub fn wake_on(&self, descriptor: &RawFd) {
        self.connections.wake_on(descriptor);
    }

    /// Returns the address and port for programs, and those of the page, if one is served.
    ///
    /// # Errors
    ///
    /// The system does not report them.
    pub fn addresses(&self) -> Result<(SocketAddr, Option<SocketAddr>), SystemFault> {
        match self.connections.addresses() {
            Ok(addresses) => Ok(addresses),
            Err(error) => Err(SystemFault::of(error)),
        }
    }

    /// Sends the pages what they lack of the decoders, the plan and its trains.
    pub fn update_pages(&mut self, updates: &mut Updates, shown: &Shown<'_>)
        requires { IsOfRoster shown.now }
        ensures { self.new.log ≡ self.old.log }
    {
        updates.send_all(&mut self.connections, shown);
    }

    /// Closes all connections and the ports, and returns the log.
    ///
    /// Owners of the sockets drop them by this call, so that the drop is proved in one place.
    pub fn close_all(self) -> CallLog
        ensures { result ≡ self.entry.log }
    {
        let Sockets {
            connections: _,
            clock: _,
            watch: _,
            log,
        } = self;
        log
    }

    /// Waits, serves the HTTP connections, and pings the pages that are silent.
    fn wait_and_serve(&mut self, longest: Option<u32>) -> io::Result<()>
        ensures { self.new.log ≡ self.old.log }
    {
        let now = self.watch.now(self.clock)?;
        self.connections.wait(longest.map(u64::from), now)?;
        let now = self.watch.now(self.clock)?;
        self.connections.serve_browsers(now);
        Ok(())
    }
}

impl<C: Clock> Transport for Sockets<'_, C> {
    type Fault = SystemFault;

    ghost log = { λ sockets. Some sockets.log.events };

    /// Also serves the HTTP connections, and pings the pages that are silent. Fails if the clock
    /// cannot be read, or the system cannot wait.
    fn wait(&mut self, longest: Option<u32>) -> Result<(), SystemFault> {
        self.log.add(&Returned::Wait { longest }, &[]);
        match self.wait_and_serve(longest) {
            Ok(()) => Ok(()),
            Err(error) => Err(SystemFault::of(error)),
        }
    }

    fn accept(&mut self, client: u8) -> bool {
        let is_there = self.connections.accept(client);
        self.log.add(&Returned::Accept { client, is_there }, &[]);
        is_there
    }

    fn reject(&mut self) -> bool {
        let is_there = self.connections.reject();
        self.log.add(&Returned::Reject { is_there }, &[]);
        is_there
    }

    fn read(&mut self, client: u8, room: &mut [u8]) -> IoOutcome {
        let outcome = self.connections.read(client, room);
        self.log.add(&Returned::Read { client, outcome }, room);
        outcome
    }

    fn write(&mut self, client: u8, bytes: &[u8]) -> IoOutcome {
        let outcome = self.connections.write(client, bytes);
        self.log.add(&Returned::Write { client, outcome }, bytes);
        outcome
    }

    fn close(&mut self, client: u8) {
        self.connections.close(client);
        self.log.add(&Returned::Close { client }, &[]);
    }
}
