//! What a turn sends, and the power of the track.

/// The power of the track.
#[derive(Clone, Copy, Debug, PartialEq, Eq)]
pub enum Power {
    /// The track has no power, and nothing is sent.
    Off,
    /// Locomotives run.
    Running,
    /// All locomotives are stopped, and the track has power.
    Paused,
}

/// What a turn sends.
#[derive(Clone, Copy, PartialEq, Eq)]
pub enum Pick {
    /// Nothing, as the track has no power.
    Off,
    /// The broadcast stop of all locomotives.
    StopAll,
    /// The idle packet.
    Idle,
    /// The packet of this kind for what is in the slot, 1 to 119.
    Place { slot: u8, kind: Kind },
    /// The packet of a switch, 0 to 2039, to be closed or thrown, its output on or off.
    Switch { number: u16, closed: bool, on: bool },
}

use crate::kind::Kind;
