//! What OPC_IMM_PACKET asks for: a packet of the track, of which this station takes those of
//! function group three.
ghost use Rattle.std.specs.Prelude.{◌≡◌, ◌<◌, true, take, IfSome};
ghost use Rattle.slot_table.specs.Entry.{IsSlot};
ghost use Rattle.slot_table.specs.Reading.{is_placed, slot_of};
ghost use Rattle.station_core.specs.Immediate.{more_in, more_asked};

use slot_table::SlotTable;

/// The most bytes of a packet that the message has, without their check.
const MOST_BYTES: usize = 5;

/// F9 to F12 of the locomotive in a slot.
#[derive(Clone, Copy)]
pub(crate) struct More {
    pub(crate) slot: u8,
    /// Below 16, bit 0 being F9.
    pub(crate) bits: u8,
}

/// The first `count` of these bytes, or all where they are fewer.
pub(crate) fn counted(count: u8, bytes: &[u8; MOST_BYTES]) -> &[u8]
    ensures { result.now ≡ take count bytes.now }
{
    let count = usize::from(count).min(MOST_BYTES);
    &bytes[..count]
}

/// F9 to F12 of the slot of an address, where it has one.
fn more_in(table: &SlotTable, address: u16, bits: u8) -> Option<More>
    requires { bits < 16 }
    ensures more { result ≡ more_in (slot_of table.now address) bits }
    ensures slot { IfSome result (λ more. IsSlot more.slot) }
    ensures bits { IfSome result (λ more. more.bits < 16) }
    ensures placed { IfSome result (λ more. is_placed table.now more.slot ≡ true) }
{
    let slot = table.find(address)?;
    Some(More { slot, bits })
}

/// F9 to F12 of the slot that the bytes of a packet are for, the check not among them.
pub(crate) fn more_asked(table: &SlotTable, bytes: &[u8]) -> Option<More>
    ensures more { result ≡ more_asked table.now bytes.now }
    ensures slot { IfSome result (λ more. IsSlot more.slot) }
    ensures bits { IfSome result (λ more. more.bits < 16) }
    ensures placed { IfSome result (λ more. is_placed table.now more.slot ≡ true) }
{
    match bytes {
        [short @ 1..=127, byte @ 160..=175] => more_in(table, u16::from(*short), byte % 16),
        [high @ 192..=231, low, byte @ 160..=175] => {
            let address = u16::from(high - 192) * 256 + u16::from(*low);
            // No address of a slot below 128 is sent as two bytes.
            if address < 128 {
                return None;
            }
            more_in(table, address, byte % 16)
        }
        _ => None,
    }
}
