//! What the logs of a run hold.
use loconet_tcp::{DeviceAnswer, PlaceError, Reason, Things, TurnsError};

/// One call of a transport, and what it returned: what `TransportEvent` is in contracts, but a read is one entry.
#[derive(Drop)]
pub enum Entry {
    Polled(Option<u32>),
    Accepted(u8),
    Received(u8, Vec<u8>),
    PeerClosed(u8),
    Written(u8, Vec<u8>),
    ServerClosed(u8),
    ReadBlocked(u8),
    WriteBlocked(u8),
    NonePending,
    Refused,
}

/// One observation of a layout without decoders.
#[derive(Drop)]
pub enum Seen {
    Nothing,
    Connected(u8),
    Disconnected(u8),
    Rejected(u8, Reason),
    Sent(u8, Vec<u8>, Option<Vec<u8>>),
    Reported(Vec<u8>),
    TurnsRequested(u8, Result<u16, TurnsError>),
    StatesRequested(u8, Things),
    Placed(u8, Result<(), PlaceError>),
    DeviceAnswered(u8, DeviceAnswer),
    TurnBegan(Option<Vec<u8>>),
    Overflowed(u8),
    Skipped(u64),
}
