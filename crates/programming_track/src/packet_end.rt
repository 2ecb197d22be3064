//! What happens on a programming track.

use arrayvec::{ArrayString, ArrayVec};
use cv_memory::CvChange;
use programmer::TaskResult;
use service_mode::ServicePacket;

/// The most packets that end within the longest turn of the main track, 12,540 microseconds.
pub const MAX_ENDS: usize = 3;

/// A packet that has been sent on the programming track, the result of the task if it was its last, and
/// what it changed of the decoder's variables.
#[derive(Clone, Copy, Default, PartialEq, Eq)]
pub struct PacketEnd {
    pub packet: ServicePacket,
    pub result: Option<TaskResult>,
    pub change: Option<CvChange>,
}

/// Packets that have been sent, in order.
pub type PacketEnds = ArrayVec<PacketEnd, MAX_ENDS>;

/// The name of a decoder, at most 16 bytes.
pub type DecoderName = ArrayString<16>;

/// A change of the variables of the decoder with this name.
#[derive(Clone, Copy)]
pub struct NamedChange {
    pub name: DecoderName,
    pub change: CvChange,
}
