//! The laws of this crate, each as a function that does nothing and ensures it: a call hands the law to a proof.
ghost use Rattle.std.specs.Prelude.{◌≡◌, ◌↔◌, ◌<◌, ◌≤◌, ◌+◌, ◌-◌, ◌*◌, ◌/◌, ◌%◌, ℕ, Bool, List, Some, IsTrue, true};
ghost use Rattle.dcc_packet.specs.declared.address.Address.{Address};
ghost use Rattle.dcc_packet.specs.declared.instr.Instr.{Instr};
ghost use Rattle.dcc_packet.specs.declared.instr.Instr.TheVariants.{Idle, StopAll};
ghost use Rattle.dcc_packet.specs.declared.steps.Motion.{Motion};
ghost use Rattle.dcc_packet.specs.declared.steps.Motion.TheVariants.{Stop, Emergency, Step};
ghost use Rattle.dcc_packet.specs.declared.steps.Steps.{Steps};
ghost use Rattle.dcc_packet.specs.declared.steps.Steps.TheVariants.{S14, S28, S128};
ghost use Rattle.dcc_packet.specs.Address.{is_legal};
ghost use Rattle.dcc_packet.specs.Form.{bit};
ghost use Rattle.dcc_packet.specs.Meant.{speed_instr, group_one_instr, group_two_instr, group_three_instr, accessory_instr};
ghost use Rattle.dcc_packet.specs.Motions.{is_motion};
ghost use Rattle.dcc_packet.specs.Packet.{is_checked, IsPacket};
ghost use Rattle.dcc_packet.specs.Reading.{instruction_of};
ghost use Rattle.dcc_packet.specs.Sent.{code_of, low_14, low_28, speed_bytes, group_one_bytes, group_two_bytes, group_three_bytes, accessory_bytes, idle_bytes, last_switch, stop_all_bytes};
ghost use Rattle.dcc_packet.specs.Spells.{Spells};
ghost use Rattle.dcc_packet.specs.Steps.{motion_of};
ghost use Rattle.dcc_packet.specs.SpeedNumbers.{motion_of_number, number_28};

/// No bytes spell two instructions.
pub fn one_spelling()
    ensures { (bytes : List ℕ) (i j : Instr) → Spells bytes i → Spells bytes j → i ≡ j }
{}

/// The instruction of bytes is the one that they spell, and bytes that spell one are a packet with a right check.
///
/// `Spells` has one line for each form of packet of S-9.2 and S-9.2.1: the bytes in front of the check, with the ranges
/// of their parts. `instruction_of` is how a decoder reads them. `IsPacket` says that they are 3 to 6 bytes, `is_checked`
/// that the last is the exclusive or of the others.
pub fn spellings_are_read()
    ensures packet { (bytes : List ℕ) (i : Instr) → Spells bytes i → IsPacket bytes
        × IsTrue (is_checked bytes) }
    ensures read { (bytes : List ℕ) (i : Instr) → (instruction_of bytes ≡ Some i) ↔ Spells bytes i }
{}

/// The packets that a command station sends spell their instructions, whatever it sends them for.
pub fn sent_packets_spell()
    ensures speed { (address : Address) (steps : Steps) (motion : Motion) (forward f0 : Bool)
        → IsTrue (is_legal address) → IsTrue (is_motion steps motion)
        → Spells (speed_bytes address steps motion forward f0)
        (speed_instr address steps motion forward f0) }
    ensures group_one { (address : Address) (functions : ℕ) → IsTrue (is_legal address)
        → Spells (group_one_bytes address functions) (group_one_instr address functions) }
    ensures group_two { (address : Address) (functions : ℕ) → IsTrue (is_legal address)
        → Spells (group_two_bytes address functions) (group_two_instr address functions) }
    ensures group_three { (address : Address) (functions : ℕ) → IsTrue (is_legal address)
        → Spells (group_three_bytes address functions) (group_three_instr address functions) }
    ensures accessory { (number : ℕ) (closed on : Bool) → number ≤ last_switch
        → Spells (accessory_bytes number closed on) (accessory_instr number closed on) }
    ensures idle { Spells idle_bytes Idle }
    ensures stop_all { Spells stop_all_bytes (StopAll true) }
{}

/// A decoder with the same steps makes of a speed packet the motion that it was built for, and with 14 steps its F0.
pub fn speeds_read_back()
    ensures fourteen { (motion : Motion) (f0 : Bool) → IsTrue (is_motion S14 motion)
        → (motion_of_number S14 (low_14 motion f0 % 16) ≡ motion)
        × (low_14 motion f0 / 16 ≡ bit f0) }
    ensures twenty_eight { (motion : Motion) → IsTrue (is_motion S28 motion)
        → motion_of_number S28 (number_28 (low_28 motion)) ≡ motion }
    ensures in_two_bytes { (motion : Motion) → IsTrue (is_motion S128 motion)
        → motion_of_number S128 (code_of motion) ≡ motion }
{}

/// SPD says stop at 0 and emergency stop at 1. From 2, the first step, to 127, the last, it never falls, and each step is
/// reached. Of 126 steps each is one SPD. The 126 are shared out to 14 steps by nines, and to 28 by nines of halves.
pub fn speeds_rise()
    ensures stands { (steps : Steps) → (motion_of steps 0 ≡ Stop)
        × (motion_of steps 1 ≡ Emergency) }
    ensures first { (steps : Steps) → motion_of steps 2 ≡ Step steps 1 }
    ensures last { (motion_of S14 127 ≡ Step S14 14) × (motion_of S28 127 ≡ Step S28 28)
        × (motion_of S128 127 ≡ Step S128 126) }
    ensures rises { (steps : Steps) (slow fast m n : ℕ) → slow ≤ fast
        → motion_of steps slow ≡ Step steps m → motion_of steps fast ≡ Step steps n → m ≤ n }
    ensures reaches { (steps : Steps) (n : ℕ) → IsTrue (is_motion steps (Step steps n)) → (spd : ℕ)
        × (spd < 128) × (motion_of steps spd ≡ Step steps n) }
    ensures by_nines { (spd : ℕ) → 2 ≤ spd → (n : ℕ) × (motion_of S14 spd ≡ Step S14 n)
        × (9 * (n - 1) ≤ spd - 2) × (spd - 2 < 9 * n) }
    ensures by_halves { (spd : ℕ) → 2 ≤ spd → (n : ℕ) × (motion_of S28 spd ≡ Step S28 n)
        × (9 * (n - 1) ≤ 2 * (spd - 2)) × (2 * (spd - 2) < 9 * n) }
    ensures one_by_one { (spd : ℕ) → 2 ≤ spd → (n : ℕ) × (motion_of S128 spd ≡ Step S128 n)
        × (n + 1 ≡ spd) }
{}
