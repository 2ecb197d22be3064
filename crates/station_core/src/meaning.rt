//! What the definitions mean, each said another way than it is defined.
ghost use Rattle.std.specs.Int.{bit_at};
ghost use Rattle.std.specs.Prelude.{◌≡◌, ◌≢◌, ◌<◌, ◌^◌, ◌↔◌, ℕ, List, Some, nat_lt, true};
ghost use Rattle.std.specs.List.{list_all};
ghost use Rattle.slot_table.specs.Desk.{Desk};
ghost use Rattle.slot_table.specs.Entry.{Entry, IsSlot};
ghost use Rattle.ln_frame.specs.Message.{IsWhole};
ghost use Rattle.ln_ops.specs.Message.{op_of};
ghost use Rattle.ln_ops.specs.declared.op.Op.{Op as OpOf};
ghost use Rattle.ln_ops.specs.declared.op.Op.TheVariants.{PowerOn};
ghost use Rattle.refresh_ring.specs.declared.kind.Kind.{Kind as KindOf};
ghost use Rattle.refresh_ring.specs.declared.pick.Power.TheVariants.{Off};
ghost use Rattle.station_core.specs.Entries.{functions_asked, is_forward};
ghost use Rattle.station_core.specs.After.{desk_after, power_after};
ghost use Rattle.station_core.specs.Answer.{answer, more_reply};
ghost use Rattle.station_core.specs.ImmediatePackets.{can_carry, carried_by, carrying};
ghost use Rattle.station_core.specs.Immediate.{more_asked, with_more};
ghost use Rattle.station_core.specs.Meaning.{AskMore, IsNew, LeavesSlot, WaitsAfter, asked_bits, bits_of_slot};
ghost use Rattle.station_core.specs.Powered.{HasDesk, PoweredDesk};
ghost use Rattle.station_core.specs.Reads.{WritesItsBytes};
ghost use Rattle.station_core.specs.Seen.{Seen};

use crate::laws;

/// A slot asks for F0 to F12 bit by bit, and for no function above. Bit 5 of DIRF is the direction,
/// 0 forward.
pub fn functions_are_bits()
    ensures bits { (e : Entry) → asked_bits e ≡ bits_of_slot e }
    ensures no_more { (e : Entry) → functions_asked e < 2 ^ 13 }
    ensures forward { (e : Entry) → is_forward e ≡ true ↔ bit_at e.dirf 5 ≡ 0 }
{}

/// What a message changes of the packets of a refreshed slot waits, and so do all packets of a slot
/// that it makes a refreshed one.
pub fn what_is_new_waits()
    ensures { (seen : Seen) (op : OpOf) (slot : ℕ) (kind : KindOf) → HasDesk seen.powered
        → IsSlot slot → IsNew seen op slot kind → WaitsAfter seen op slot kind }
{
    laws::changes_wait();
    slot_table::laws::others_stay();
    slot_table::laws::own_slots();
}

/// After a message that leaves a whole slot each packet of the slot waits, whether it changed or
/// not.
pub fn whole_slots_wait()
    ensures { (seen : Seen) (op : OpOf) (slot : ℕ) (kind : KindOf) → IsSlot slot
        → LeavesSlot seen.powered.desk op slot → WaitsAfter seen op slot kind }
{
    laws::changes_wait();
}

/// OPC_IMM_PACKET asks for F9 to F12 of a slot exactly where its bytes are a packet of function
/// group three to the address in that slot, as the station itself sends that address.
pub fn group_three_is_asked()
    ensures { (desk : Desk) (bytes : List ℕ) (slot bits : ℕ)
        → list_all (λ byte. nat_lt byte 256) bytes ≡ true
        → (more_asked desk bytes ≡ Some (record { slot = slot; bits = bits }))
        ↔ AskMore desk bytes slot bits }
{}

/// The bytes that a throttle puts into OPC_IMM_PACKET, one to five, are the bytes that are read of
/// it, whatever the repeats; by these alone the station answers, and changes the slots.
pub fn packets_are_carried()
    ensures whole { (repeats : ℕ) (bytes : List ℕ) → can_carry repeats bytes ≡ true
        → IsWhole (carrying repeats bytes) }
    ensures read { (repeats : ℕ) (bytes : List ℕ) → can_carry repeats bytes ≡ true
        → carried_by (op_of (carrying repeats bytes)) ≡ bytes }
    ensures after { (repeats : ℕ) (bytes : List ℕ) (desk : Desk) → can_carry repeats bytes ≡ true
        → desk_after desk (op_of (carrying repeats bytes))
        ≡ with_more desk (more_asked desk bytes) }
    ensures answer { (repeats : ℕ) (bytes : List ℕ) (powered : PoweredDesk) (waiting : ℕ)
        → can_carry repeats bytes ≡ true
        → answer powered (op_of (carrying repeats bytes)) waiting
        ≡ Some (more_reply (more_asked powered.desk bytes)) }
{
    ln_frame::sealed_is_whole();
}

/// Off ends by power on alone.
pub fn off_ends_by_power_on()
    ensures { (op : OpOf) → op ≢ PowerOn → power_after Off op ≡ Off }
{}

/// What OPC_RQ_SL_DATA is answered for a slot after each message is what it was answered before,
/// but for the bytes that the message writes.
pub fn messages_write_their_bytes()
    ensures { (powered : PoweredDesk) (slot : ℕ) → HasDesk powered → IsSlot slot
        → WritesItsBytes powered slot }
{
    slot_table::laws::rows_are_legal();
    slot_table::laws::others_stay();
    slot_table::laws::own_slots();
}
