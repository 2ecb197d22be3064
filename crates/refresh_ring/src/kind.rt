//! The packets of a slot.
ghost use Rattle.std.specs.Prelude.{◌≡◌, ◌<◌};
ghost use Rattle.refresh_ring.specs.Places.{kinds, number_of};

/// What a packet to a locomotive sets. A place of the ring is a slot and a kind.
#[derive(Clone, Copy, Debug, PartialEq, Eq)]
pub enum Kind {
    /// Speed and direction.
    Speed,
    /// Functions F0 to F4.
    GroupOne,
    /// Functions F5 to F8.
    GroupTwo,
    /// Functions F9 to F12.
    GroupThree,
}

impl Kind {
    // The order of the kinds in the ring.
    pub(crate) fn number(self) -> u16
        ensures number { result ≡ number_of self }
        ensures range { result < kinds }
    {
        self as u16
    }
}
