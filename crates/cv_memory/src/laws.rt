//! The laws of a decoder on the programming track, each as a function that does nothing and ensures it.
ghost use Rattle.std.specs.Prelude.{◌≡◌, ◌≢◌, ◌&&◌, ℕ, Bool, List, None, Option, Some, false, slice_index, true};
ghost use Rattle.service_mode.specs.declared.instruction.Instruction.{Instruction};
ghost use Rattle.service_mode.specs.declared.packet.ServicePacket.{ServicePacket};
ghost use Rattle.cv_memory.specs.Changes.{after_some_change, change_by};
ghost use Rattle.cv_memory.specs.Hearing.{CvState, acknowledges, heard, is_acknowledged, is_obeyed, is_read_only};
ghost use Rattle.cv_memory.specs.History.{address_of, after_all, in_service, resets, some_packet, was_last};

/// A decoder that has heard nothing acknowledges an instruction exactly if nothing but instructions
/// came since the last reset packet, the packet before it was the same instruction, and what it says
/// is so or is done. The packets are listed with the latest first.
pub fn acknowledged_in_service_mode()
    ensures { (values filed : List ℕ) (packets : List (Option ServicePacket)) (i : Instruction)
        → acknowledges (after_all values filed packets) (some_packet i)
        ≡ (in_service packets && was_last packets i
        && is_acknowledged (after_all values filed packets) i) }
{}

/// A packet changes no variable but the one that it names, never CV7 and CV8, and what is no
/// instruction changes none. But a write of 8 to CV8 that is obeyed gives all the values of the file.
pub fn others_never_change()
    ensures named { (d : CvState) (i : Instruction) (address : ℕ) → resets i ≡ false
        → address ≢ address_of i
        → slice_index (heard d (some_packet i)).values address ≡ slice_index d.values address }
    ensures read_only { (d : CvState) (i : Instruction) → resets i ≡ false
        → is_read_only (address_of i) ≡ true → (heard d (some_packet i)).values ≡ d.values }
    ensures reset { (d : CvState) (i : Instruction) → resets i ≡ true → is_obeyed d i ≡ true
        → (heard d (some_packet i)).values ≡ d.filed }
    ensures unnamed { (d : CvState) (p : Option ServicePacket)
        → ((i : Instruction) → p ≢ some_packet i) → (heard d p).values ≡ d.values }
    ensures file { (d : CvState) (p : Option ServicePacket) → (heard d p).filed ≡ d.filed }
{}

/// The change that a packet makes gives the variables their new values, and a packet that changes none
/// makes none.
pub fn changes_are_complete()
    ensures values { (d : CvState) (p : Option ServicePacket)
        → (heard d p).values ≡ after_some_change d.filed d.values (change_by d p) }
    ensures unchanged { (d : CvState) (p : Option ServicePacket)
        → (heard d p).values ≡ d.values → change_by d p ≡ None }
{}
