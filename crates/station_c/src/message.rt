//! LocoNet messages, for C.
ghost use Rattle.std.specs.Prelude.{◌≡◌, ◌&&◌, nat_lt, true, false, length};
ghost use Rattle.ln_frame.specs.Message.{is_body};
ghost use Rattle.station_c.specs.Messages.{message_with};

use crate::answer::{MOST_BYTES, padded};
use ln_frame::Msg;

/// A LocoNet message.
#[repr(C)]
#[derive(Clone, Copy, Debug, PartialEq)]
pub struct Message {
    /// The number of bytes, 2 to 14.
    pub size: u8,
    /// The bytes, the check byte the last, followed by zeros.
    pub bytes: [u8; MOST_BYTES],
}

/// Writes the message with this body. Returns false, and writes nothing, if it is not the body of a
/// message of at most 14 bytes.
pub(crate) fn seal(body: &[u8], message: &mut Message) -> bool
    ensures done { result ≡ (nat_lt (length body.now) 14 && is_body body.now) }
    ensures message { result ≡ true → message.new ≡ message_with body.now }
    ensures untouched { result ≡ false → message.new ≡ message.old }
{
    if body.len() >= MOST_BYTES || !Msg::is_body(body) {
        return false;
    }
    let sealed = Msg::sealed(body);
    *message = Message {
        size: body.len() as u8 + 1,
        bytes: padded(sealed.bytes()),
    };
    true
}
