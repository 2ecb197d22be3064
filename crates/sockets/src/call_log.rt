//! What the calls of sockets and of a clock returned, which only proofs see.
ghost use Rattle.std.specs.Prelude.{◌≡◌, ◌++◌, [], Bool, List, false, true, ℕ};
ghost use Rattle.bus_server.specs.TransportEvents.{TransportEvent};

use crate::system_fault::SystemFault;
use bus_server::IoOutcome;
use std::marker::{Model, PhantomData};

/// What a call returned.
#[derive(Clone, Copy)]
pub(crate) enum Returned {
    /// A wait of at most this many microseconds was begun.
    Wait { longest: Option<u32> },
    /// Whether a pending client was accepted.
    Accept { client: u8, is_there: bool },
    /// Whether a pending client was rejected.
    Reject { is_there: bool },
    /// The outcome of a read.
    Read { client: u8, outcome: IoOutcome },
    /// The outcome of a write.
    Write { client: u8, outcome: IoOutcome },
    /// The connection of a client was closed.
    Close { client: u8 },
    /// The microseconds since the last reading of the clock.
    Elapsed { micros: u64 },
    /// A call of the system failed.
    Failed,
}

/// What the calls of sockets or of a clock returned, in order. Only this crate adds to it. It takes
/// no memory, and nothing is done for it at run time.
#[derive(Drop)]
pub struct CallLog {
    /// So that no other crate makes one.
    marker: PhantomData<u8>,
    /// What the calls of the transport returned.
    pub ghost events: { List TransportEvent },
    /// What the readings of the clock returned.
    pub ghost readings: { List ℕ },
    /// Whether a call of the system has failed.
    pub ghost failed: { Bool },
}

impl Model for CallLog {
    ghost use Rattle.std.specs.Borrow.{ftrue};

    ghost also_owns = { λ _. ftrue };
}

impl CallLog {
    ghost use Rattle.sockets.specs.Calls.{events_of, failed_after, readings_of};

    /// Creates the log of what was not called yet.
    pub fn new() -> CallLog
        ensures { (result.events ≡ []) × (result.readings ≡ []) × (result.failed ≡ false) }
    {
        CallLog {
            marker: PhantomData,
        }
    }

    /// Records that a call of the system failed.
    pub fn record_fault(&mut self, _fault: SystemFault)
        ensures failed { self.new.failed ≡ true }
        ensures events { self.new.events ≡ self.old.events }
        ensures readings { self.new.readings ≡ self.old.readings }
    {
        self.add(&Returned::Failed, &[]);
    }

    /// Adds what one more call returned, with the bytes that were read or given.
    pub(crate) fn add(&mut self, returned: &Returned, bytes: &[u8])
        ensures events { self.new.events ≡ self.old.events ++ events_of returned.now bytes.now }
        ensures readings { self.new.readings ≡ self.old.readings ++ readings_of returned.now }
        ensures failed { self.new.failed ≡ failed_after returned.now self.old.failed }
    {
        *self = self.with(returned, bytes);
    }

    /// Returns the log with what one more call returned.
    fn with(&self, _returned: &Returned, _bytes: &[u8]) -> CallLog
        ensures { (result.events ≡ self.now.events ++ events_of _returned.now _bytes.now)
            × (result.readings ≡ self.now.readings ++ readings_of _returned.now)
            × (result.failed ≡ failed_after _returned.now self.now.failed) }
    {
        CallLog {
            marker: PhantomData,
        }
    }
}
