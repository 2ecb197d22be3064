//! The answers to events, for C.
ghost use Rattle.std.specs.Prelude.{◌≡◌, ◌≤◌, length};
ghost use Rattle.layout_core.specs.Served.{IsSendableAnswer};
ghost use Rattle.station_c.specs.Answer.{answered, filled, padded};

use crate::kind::{OFF, PACKET, QUIET, REPLY};
use ln_ops::to_msg;
use station_core::Step;

/// The most bytes of an answer or a message: those of slot data.
pub(crate) const MOST_BYTES: usize = 14;

/// The answer to one event.
#[repr(C)]
#[derive(Clone, Copy, Debug, PartialEq)]
pub struct Answer {
    /// 0 for no answer, 1 for a reply, 2 for a packet, 3 for a turn without power.
    pub kind: u8,
    /// The number of bytes: of a reply 4 or 14, of a packet 3 to 6, otherwise 0.
    pub size: u8,
    /// The bytes, followed by zeros.
    pub bytes: [u8; MOST_BYTES],
}

/// Converts an answer for C.
pub(crate) fn answered(step: &Step) -> Answer
    requires { IsSendableAnswer step.now }
    ensures { result ≡ answered step.now }
{
    match step {
        Step::Quiet => filled(QUIET, &[]),
        Step::Reply(reply) => filled(REPLY, to_msg(reply).bytes()),
        Step::Packet(packet) => filled(PACKET, packet.bytes()),
        Step::Off => filled(OFF, &[]),
    }
}

/// Returns an answer of this kind with these bytes.
fn filled(kind: u8, from: &[u8]) -> Answer
    requires { length from.now ≤ 14 }
    ensures { result ≡ filled kind from.now }
{
    Answer {
        kind,
        size: from.len() as u8,
        bytes: padded(from),
    }
}

/// Returns these bytes, followed by zeros.
pub(crate) fn padded(from: &[u8]) -> [u8; MOST_BYTES]
    requires { length from.now ≤ 14 }
    ensures { result ≡ padded from.now }
{
    let mut bytes = [0; MOST_BYTES];
    bytes[..from.len()].copy_from_slice(from);
    bytes
}
