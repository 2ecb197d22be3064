//! The connections of a server.
ghost use Rattle.std.specs.Prelude.{◌≡◌, ◌<◌, Option, List, [], ◌∷◌, length};
ghost use Rattle.bus.specs.Log.{Extends};
ghost use Rattle.bus_server.specs.TransportEvents.{IsWithin, Polled, ServerClosed, TransportEvent, accept_events, read_events, reject_events, write_events};

/// The outcome of a read or a write.
#[derive(Clone, Copy)]
pub enum IoOutcome {
    /// That many bytes were read or written, at least one.
    Bytes(usize),
    /// Nothing can be read or written now.
    WouldBlock,
    /// The client has closed the connection, or it has failed.
    Closed,
}

/// The connections of up to eight clients, each with an index, 0 to 7. Only [`Transport::wait`] waits.
pub trait Transport {
    /// Why waiting failed. Only the transport makes one, so a run that ends with it met a transport that failed.
    type Fault;

    /// All that has happened so far, in order, if the transport keeps it.
    ghost log: { Self → Option (List TransportEvent) };

    /// Waits until there may be input, but at most `longest` microseconds; with `None`, until there is.
    fn wait(&mut self, longest: Option<u32>) -> Result<(), Self::Fault>
        ensures { Extends (log self.old) (log self.new) (Polled longest ∷ []) };

    /// Accepts a pending client at a free index. Returns false if none is pending.
    fn accept(&mut self, client: u8) -> bool
        requires { client < 8 }
        ensures { Extends (log self.old) (log self.new) (accept_events client result) };

    /// Tells a pending client that the server is full, and closes its connection. Returns false if none is pending.
    fn reject(&mut self) -> bool
        ensures { Extends (log self.old) (log self.new) (reject_events result) };

    /// Reads what a client sent to the front of `buf`.
    fn read(&mut self, client: u8, buf: &mut [u8]) -> IoOutcome
        requires { client < 8 }
        ensures within { IsWithin result (length buf.new) }
        ensures log { Extends (log self.old) (log self.new) (read_events client result buf.new) };

    /// Writes bytes to a client, as many from the front as it takes.
    fn write(&mut self, client: u8, bytes: &[u8]) -> IoOutcome
        requires client { client < 8 }
        requires some { 0 < length bytes.now }
        ensures within { IsWithin result (length bytes.now) }
        ensures log { Extends (log self.old) (log self.new)
            (write_events client result bytes.now) };

    /// Closes the connection of a client.
    fn close(&mut self, client: u8)
        requires { client < 8 }
        ensures { Extends (log self.old) (log self.new) (ServerClosed client ∷ []) };
}
