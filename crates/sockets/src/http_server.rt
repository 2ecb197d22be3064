//! The HTTP server of the page: exchanges, until the response is sent or the connection is
//! upgraded.

use crate::http_connection::{HttpConnection, Progress};
use crate::wait_time::sooner;
use mio::net::{TcpListener, TcpStream};
use mio::{Interest, Registry, Token};
use std::alloc::Global;
use std::mem;
use web::{Page, PageReply};

/// The most concurrent HTTP connections. Further ones stay pending until one of these has ended.
pub(crate) const MAX_EXCHANGES: usize = 16;

/// A slot for an HTTP connection.
#[derive(Drop)]
enum HttpSlot {
    /// No connection.
    Free,
    /// An HTTP exchange.
    Asked(HttpConnection<TcpStream>),
    /// An upgraded page that waits for a client index.
    UpgradeRequest(Page<TcpStream>),
}

/// A port for browsers, and its HTTP connections.
#[derive(Drop)]
pub(crate) struct HttpServer {
    alloc: Global,
    listener: TcpListener,
    page: PageReply,
    /// The names by which browsers reach it.
    names: Vec<String>,
    http: [HttpSlot; MAX_EXCHANGES],
    /// An exchange advanced in the last round, and there may be more to do.
    has_backlog: bool,
}

impl HttpServer {
    /// Creates a server on this listener, whose page is in this response. Exchanges allocate no
    /// memory.
    pub(crate) fn new(
        alloc: Global,
        listener: TcpListener,
        page: PageReply,
        names: Vec<String>,
    ) -> HttpServer {
        HttpServer {
            alloc,
            listener,
            page,
            names,
            http: [
                HttpSlot::Free,
                HttpSlot::Free,
                HttpSlot::Free,
                HttpSlot::Free,
                HttpSlot::Free,
                HttpSlot::Free,
                HttpSlot::Free,
                HttpSlot::Free,
                HttpSlot::Free,
                HttpSlot::Free,
                HttpSlot::Free,
                HttpSlot::Free,
                HttpSlot::Free,
                HttpSlot::Free,
                HttpSlot::Free,
                HttpSlot::Free,
            ],
            has_backlog: false,
        }
    }

    /// The listener.
    pub(crate) fn listener(&self) -> &TcpListener {
        &self.listener
    }

    /// The listener, to register it.
    pub(crate) fn listener_mut(&mut self) -> &mut TcpListener {
        &mut self.listener
    }

    /// Returns how long the next round may be delayed, in microseconds: 0 if there may be more to
    /// do, otherwise until the earliest deadline, if there is an exchange.
    pub(crate) fn time_left(&self, now: u64) -> Option<u64> {
        if self.has_backlog {
            return Some(0);
        }
        let mut least = None;
        for slot in &self.http {
            if let HttpSlot::Asked(connection) = slot {
                least = sooner(least, Some(connection.time_left(now)));
            }
        }
        least
    }

    /// Accepts pending connections and advances each exchange. `now` is in microseconds since the
    /// start.
    ///
    /// Each exchange makes one read or one write, so a round is bounded.
    pub(crate) fn round(&mut self, registry: &Registry, token: Token, now: u64) {
        self.has_backlog = false;
        for slot in &mut self.http {
            if let HttpSlot::Free = slot {
                accept(&self.listener, slot, registry, token, now);
            }
            let names = self.names.as_slice();
            self.has_backlog |= advance(slot, self.alloc, names, &self.page, now);
        }
    }

    /// Returns an upgraded page that waits for a client index, if there is one.
    pub(crate) fn take_upgraded(&mut self) -> Option<Page<TcpStream>> {
        for slot in &mut self.http {
            if let HttpSlot::UpgradeRequest(_) = slot {
                if let HttpSlot::UpgradeRequest(page) = mem::replace(slot, HttpSlot::Free) {
                    return Some(page);
                }
            }
        }
        None
    }
}

/// Accepts a pending connection in a free slot.
fn accept(
    listener: &TcpListener,
    slot: &mut HttpSlot,
    registry: &Registry,
    token: Token,
    now: u64,
) {
    let Ok((mut stream, _)) = listener.accept() else {
        return;
    };
    // A connection that cannot be registered is closed.
    let both = Interest::READABLE | Interest::WRITABLE;
    if stream.set_nodelay(true).is_ok() && registry.register(&mut stream, token, both).is_ok() {
        *slot = HttpSlot::Asked(HttpConnection::new(stream, now));
    }
}

/// Advances the exchange in a slot. Returns true if there may be more to do.
fn advance(
    slot: &mut HttpSlot,
    alloc: Global,
    names: &[String],
    page: &PageReply,
    now: u64,
) -> bool {
    let HttpSlot::Asked(connection) = slot else {
        return false;
    };
    match connection.advance(names, page, now) {
        Progress::Blocked => return false,
        Progress::Advanced => {}
        Progress::Upgraded => join(slot, alloc),
        Progress::Finished => *slot = HttpSlot::Free,
    }
    true
}

/// Turns an upgraded exchange into a page that waits for a client index. Closes it if out of
/// memory.
fn join(slot: &mut HttpSlot, alloc: Global) {
    if let HttpSlot::Asked(connection) = mem::replace(slot, HttpSlot::Free) {
        *slot = upgraded(connection, alloc);
    }
}

/// Returns the slot of an upgraded exchange, with its page; a free one if out of memory.
fn upgraded(connection: HttpConnection<TcpStream>, alloc: Global) -> HttpSlot {
    match connection.into_page(alloc) {
        Ok(page) => HttpSlot::UpgradeRequest(page),
        Err(_) => HttpSlot::Free,
    }
}
