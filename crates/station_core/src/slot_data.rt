//! The bytes of slot data.
ghost use Rattle.std.specs.Prelude.{◌≡◌};
ghost use Rattle.ln_ops.specs.Slot.{state_number};
ghost use Rattle.slot_table.specs.Entry.{IsRow, IsSlot};
ghost use Rattle.station_core.specs.Answer.{slot_bytes, track_status};

use ln_ops::{Row, SlotFields, State};
use refresh_ring::Power;

// The slot data of a row.
pub(crate) fn slot_fields(slot: u8, row: &Row, power: Power) -> SlotFields
    requires slot { IsSlot slot }
    requires row { IsRow row.now }
    ensures { result ≡ slot_bytes power slot row.now }
{
    SlotFields {
        slot,
        stat: 16 * state_number(row.state) + row.kind,
        adr: (row.address % 128) as u8,
        spd: row.spd,
        dirf: row.dirf,
        trk: track_status(power),
        ss2: row.ss2,
        adr2: (row.address / 128) as u8,
        snd: row.snd,
        id1: row.id1,
        id2: row.id2,
    }
}

// Bits 5 and 4 of STAT1.
fn state_number(state: State) -> u8
    ensures { result ≡ state_number state }
{
    state as u8
}

// TRK: LocoNet 1.1, power on, and not paused.
fn track_status(power: Power) -> u8
    ensures { result ≡ track_status power }
{
    match power {
        Power::Off => 0x06,
        Power::Running => 0x07,
        Power::Paused => 0x05,
    }
}
