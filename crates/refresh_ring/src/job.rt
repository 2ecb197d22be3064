//! What waits to be sent, and where packets go.
ghost use Rattle.std.specs.Prelude.{◌≡◌};
ghost use Rattle.refresh_ring.specs.Jobs.{is_place, sends_of};

use crate::kind::Kind;

/// What waits to be sent.
#[derive(Clone, Copy)]
pub enum Job {
    /// The packet of this kind for what is in the slot, 1 to 119, at the moment of sending.
    Place {
        slot: u8,
        kind: Kind,
    },
    /// A switch request, number 0 to 2039, which is sent once more, or twice more where `again` is
    /// true.
    Request {
        number: u16,
        closed: bool,
        on: bool,
        again: bool,
    },
}

/// The decoders that a packet goes to.
#[derive(Clone, Copy)]
pub enum Destination {
    /// The locomotive decoders at an address.
    Loco { address: u16 },
    /// An accessory decoder module, counted from 1.
    Module { number: u16 },
}

impl Job {
    // Whether the job is of this place.
    pub(crate) fn is_place(&self, slot: u8, kind: Kind) -> bool
        ensures { result ≡ is_place slot kind self.now }
    {
        match *self {
            Job::Place {
                slot: other,
                kind: other_kind,
            } => other == slot && other_kind.number() == kind.number(),
            Job::Request { .. } => false,
        }
    }

    // How often the job is still sent.
    pub(crate) fn sends(&self) -> u32
        ensures { result ≡ sends_of self.now }
    {
        match *self {
            Job::Place { .. } => 1,
            Job::Request { again, .. } => { if again { 2 } else { 1 } }
        }
    }
}
