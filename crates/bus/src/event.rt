//! The events of a bus.

use ln_frame::Msg;
use programming_track::NamedChange;
use service_mode::ServicePacket;

/// An event of a bus. Clients are numbered from 0 to 7, as the lines of the station.
#[derive(Drop)]
pub enum Event {
    /// A client connects.
    Connects {
        client: u8,
    },
    /// A byte of a client's text is received.
    Receives {
        client: u8,
        byte: u8,
    },
    /// A client disconnects; an unfinished line is discarded.
    Disconnects {
        client: u8,
    },
    /// A device beside the station, like a sensor or a programmer, sends a message to all.
    Reports {
        message: Msg,
    },
    /// A packet has been sent on the programming track beside the station; its address is below 1024.
    /// It may have changed the variables of the decoder there.
    Programs {
        packet: ServicePacket,
        change: Option<NamedChange>,
    },
    /// `micros` microseconds of track time elapse, at most 5,796, so that at most one turn begins
    /// in them. Decoder i misses it if bit i of `missed` is set.
    Elapses {
        micros: u16,
        missed: u64,
    },
    /// The remaining time of the current turn elapses, so that the next one begins. Decoder i
    /// misses it if bit i of `missed` is set.
    Turn {
        missed: u64,
    },
}
