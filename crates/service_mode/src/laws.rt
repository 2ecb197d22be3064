//! The laws of the spelling, each as a function that does nothing and ensures it.
ghost use Rattle.std.specs.Prelude.{◌≡◌, ◌<◌, ℕ, List, Some, IsTrue, slice_index};
ghost use Rattle.service_mode.specs.declared.packet.ServicePacket.{ServicePacket};
ghost use Rattle.std.specs.List.{flat_map};
ghost use Rattle.service_mode.specs.declared.instruction.Instruction.{Instruction};
ghost use Rattle.service_mode.specs.Bits.{bits_of, drawn};
ghost use Rattle.service_mode.specs.Reading.{packet_of};
ghost use Rattle.service_mode.specs.Spelling.{body_of, bytes_of, is_legal, is_legal_packet};

/// The bytes of a packet are read as that packet.
pub fn spellings_are_read()
    ensures { (p : ServicePacket) → IsTrue (is_legal_packet p) → packet_of (bytes_of p) ≡ Some p }
{}

/// Bytes that are read as a packet are the bytes of that packet, which names a variable from CV1 to
/// CV1024 and a bit from 0 to 7.
pub fn one_spelling()
    ensures legal { (bytes : List ℕ) (p : ServicePacket)
        → ((i : ℕ) → slice_index bytes i < 256) → packet_of bytes ≡ Some p
        → IsTrue (is_legal_packet p) }
    ensures bytes { (bytes : List ℕ) (p : ServicePacket)
        → ((i : ℕ) → slice_index bytes i < 256) → packet_of bytes ≡ Some p → bytes ≡ bytes_of p }
{}

/// The bytes before the check are the bits that the standard draws.
pub fn bits_are_as_drawn()
    ensures { (i : Instruction) → IsTrue (is_legal i) → flat_map bits_of (body_of i) ≡ drawn i }
{}
