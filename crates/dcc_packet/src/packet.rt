//! The bytes of a packet.
ghost use Rattle.std.specs.Prelude.{◌≡◌, ℕ, ◌<◌, ◌≤◌, List, length, slice_index, Some, None, if◌then◌else◌};
ghost use Rattle.dcc_packet.specs.Packet.{has_packet_length, is_checked, xor_of, IsPacket};
ghost use Rattle.dcc_packet.specs.Form.{with_check};

use arrayvec::ArrayVec;
use std::marker::Model;

/// The most bytes of a packet.
pub(crate) const MAX_LEN: usize = 6;

/// The bytes of a packet of the track, 3 to 6, the last of them the error detection byte (S-9.2,
/// general packet format), whether that is right or wrong.
#[derive(Drop)]
pub struct Packet {
    bytes: ArrayVec<u8, MAX_LEN>,
}

impl Model for Packet {
    ghost Value = { List ℕ };

    ghost view = { λ p. p.bytes.items };

    ghost invariant = { λ p. IsPacket p.bytes.items };

    ghost inverse = { λ bytes. record { bytes = record { items = bytes } } };
}

impl Packet {
    /// The packet of these bytes, the check last, or `None` where they are fewer than 3 or more
    /// than 6.
    #[inline]
    pub fn of(bytes: &[u8]) -> Option<Packet>
        ensures { result ≡ (if has_packet_length bytes.now then Some bytes.now else None) }
    {
        match bytes.len() {
            3..=6 => {
                let mut packet = ArrayVec::new();
                for byte in bytes {
                    packet.push(*byte);
                }
                Some(Packet { bytes: packet })
            }
            _ => None,
        }
    }

    /// The packet of 2 to 5 bytes and their check.
    pub(crate) fn sealed(body: &[u8]) -> Packet
        requires some { 2 ≤ length body.now }
        requires room { length body.now ≤ 5 }
        ensures { result ≡ with_check body.now }
    {
        let mut bytes: ArrayVec<u8, MAX_LEN> = ArrayVec::new();
        for byte in body {
            bytes.push(*byte);
        }
        Packet::ended(bytes)
    }

    /// The packet of 2 to 5 bytes, followed by their check.
    pub(crate) fn ended(mut bytes: ArrayVec<u8, MAX_LEN>) -> Packet
        requires some { 2 ≤ length bytes.items }
        requires room { length bytes.items ≤ 5 }
        ensures { result ≡ with_check bytes.items }
    {
        let check = check_of(bytes.as_slice());
        bytes.push(check);
        Packet { bytes }
    }

    /// The bytes, the check last.
    #[inline]
    pub fn bytes(&self) -> &[u8]
        ensures value { result.now ≡ self.now }
        ensures form { IsPacket result.now }
    {
        self.bytes.as_slice()
    }

    /// Whether the check is right: the exclusive or of all bytes is 0.
    #[inline]
    pub fn is_checked(&self) -> bool
        ensures { result ≡ is_checked self.now }
    {
        check_of(self.bytes()) == 0
    }
}

/// The exclusive or of the bytes.
fn check_of(bytes: &[u8]) -> u8
    ensures check { result ≡ xor_of bytes.now }
    ensures bytes { (i : ℕ) → slice_index bytes.now i < 256 }
{
    bytes.iter().fold(0, |sum, byte| sum ^ byte)
}
