//! What a throttle loads and writes: an address, one field, or a whole slot.
ghost use Rattle.std.specs.Prelude.{◌≡◌, ◌<◌, IfOk, OnOk, OnErr};
ghost use Rattle.slot_table.specs.{address_of};
ghost use Rattle.slot_table.specs.Entry.{IsSlot, entry_of, row_with};
ghost use Rattle.slot_table.specs.Desk.{IsDesk};
ghost use Rattle.slot_table.specs.Values.{IsValue};
ghost use Rattle.slot_table.specs.Writes.{WritesField, take_answer, after_take, is_legal_field, keeps_slot, with_field, kept_more, entry_from, is_elsewhere, write_answer, after_write};

use crate::bytes::{is_address, is_held, is_slot, is_stat, state_of};
use crate::fault::SlotFault;
use crate::field::Field;
use crate::table::SlotTable;
use ln_ops::{Row, SlotFields, State};

impl SlotTable {
    /// Loads an address (OPC_LOCO_ADR): the slot that holds it, as it is, or else the least free
    /// one, which is then idle with 128 steps, speed 0, forward and all functions off.
    ///
    /// Refused as `Illegal` outside 1 to 10239, and else as `NoFree` where it has no slot and none
    /// is free.
    pub fn take(&mut self, address: u16) -> Result<u8, SlotFault>
        ensures answer { result ≡ take_answer self.old address }
        ensures slot { IfOk result IsSlot }
        ensures after { self.new ≡ after_take self.old address }
        ensures refused { OnErr result (self.new ≡ self.old) }
        ensures desk { IsDesk self.new }
    {
        let found = self.find(address);
        if !is_address(address) {
            return Err(SlotFault::Illegal);
        }
        if let Some(n) = found {
            return Ok(n);
        }
        let Some(n) = self.free() else {
            return Err(SlotFault::NoFree);
        };
        let row = Row {
            state: State::Idle,
            kind: 3,
            address,
            ..Row::FREE
        };
        self.put(n, row);
        Ok(n)
    }

    /// Sets SPD (OPC_LOCO_SPD), below 128. Refused as `Illegal` unless the slot is in 1 to 119 and
    /// not free.
    pub fn set_speed(&mut self, n: u8, spd: u8) -> Result<(), SlotFault>
        requires { spd < 128 }
        ensures { WritesField self.old n (Field.Speed spd) result self.new }
    {
        self.set_field(n, Field::Speed(spd))
    }

    /// Sets direction and F0 to F4 (OPC_LOCO_DIRF), below 128, of which the low six bits are kept.
    /// Refused as `Illegal` unless the slot is in 1 to 119 and not free.
    pub fn set_dirf(&mut self, n: u8, dirf: u8) -> Result<(), SlotFault>
        requires { dirf < 128 }
        ensures { WritesField self.old n (Field.Dirf dirf) result self.new }
    {
        self.set_field(n, Field::Dirf(dirf))
    }

    /// Sets F5 to F8 (OPC_LOCO_SND), below 128, of which the low four bits are kept.
    /// Refused as `Illegal` unless the slot is in 1 to 119 and not free.
    pub fn set_snd(&mut self, n: u8, snd: u8) -> Result<(), SlotFault>
        requires { snd < 128 }
        ensures { WritesField self.old n (Field.Snd snd) result self.new }
    {
        self.set_field(n, Field::Snd(snd))
    }

    /// Sets F9 to F12, below 16: bits 3 to 0 are F12 to F9. Refused as `Illegal` where the slot is
    /// free.
    pub fn set_more(&mut self, n: u8, more: u8) -> Result<(), SlotFault>
        requires slot { IsSlot n }
        requires more { more < 16 }
        ensures { WritesField self.old n (Field.More more) result self.new }
    {
        self.set_field(n, Field::More(more))
    }

    /// Writes one field of a slot.
    ///
    /// Refused as `Illegal` unless the slot is in 1 to 119 and not free, and a STAT1 is one that a
    /// slot may have.
    pub fn set_field(&mut self, n: u8, field: Field) -> Result<(), SlotFault>
        requires { IsValue field }
        ensures { WritesField self.old n field result self.new }
    {
        let row = self.held(n)?;
        if !is_legal_field(field) {
            return Err(SlotFault::Illegal);
        }
        if keeps_slot(field) {
            self.change(n, with_field(row, field));
        } else {
            self.clear(n);
        }
        Ok(())
    }

    /// Sets state and decoder type (OPC_SLOT_STAT1), below 128. The state free clears the slot, and
    /// a mark on it.
    ///
    /// Refused as `Illegal` unless the slot is in 1 to 119 and not free, and STAT1 is one that a
    /// slot may have.
    pub fn set_stat(&mut self, n: u8, stat: u8) -> Result<(), SlotFault>
        requires { stat < 128 }
        ensures { WritesField self.old n (Field.Stat stat) result self.new }
    {
        self.set_field(n, Field::Stat(stat))
    }

    /// Writes a whole slot (OPC_WR_SL_DATA), TRK ignored. The slot no longer waits to be
    /// dispatched, and the state free clears it, whatever the address. F9 to F12 stay as they are
    /// where the slot has this address already, and are off where it has not.
    ///
    /// Refused as `Illegal` where the slot is not in 1 to 119, STAT1 is not one that a slot may
    /// have, or the address of a state other than free is not in 1 to 10239; else as `Held` where
    /// that address is in another slot.
    pub fn write_row(&mut self, fields: &SlotFields) -> Result<(), SlotFault>
        ensures answer { result ≡ write_answer self.old fields.now }
        ensures slot { OnOk result (IsSlot fields.now.slot) }
        ensures after { self.new ≡ after_write self.old fields.now }
        ensures refused { OnErr result (self.new ≡ self.old) }
        ensures desk { IsDesk self.new }
    {
        let n = fields.slot;
        let state = state_of(fields.stat);
        let address = address_of(fields);
        let found = self.find(address);
        if !is_slot(n) || !is_stat(fields.stat) {
            return Err(SlotFault::Illegal);
        }
        if !is_held(state) {
            self.clear(n);
            return Ok(());
        }
        if !is_address(address) {
            return Err(SlotFault::Illegal);
        }
        if is_elsewhere(found, n) {
            return Err(SlotFault::Held);
        }
        let more = self.kept_more(n, address);
        self.clear(n);
        self.put(n, row_from(fields, more));
        Ok(())
    }

    // F9 to F12 as the slot has them, where it has this address, and else all off.
    fn kept_more(&self, n: u8, address: u16) -> u8
        requires { IsSlot n }
        ensures more { result ≡ kept_more self.now n address }
        ensures bits { result < 16 }
    {
        let row = self.row(n);
        if row.address == address { row.more } else { 0 }
    }
}

// Whether a slot may have what is written to the field.
fn is_legal_field(field: Field) -> bool
    ensures { result ≡ is_legal_field field }
{
    match field {
        Field::Stat(stat) => is_stat(stat),
        Field::Speed(_) | Field::Dirf(_) | Field::Snd(_) | Field::More(_) => true,
    }
}

// Whether the slot is not free with the field written.
fn keeps_slot(field: Field) -> bool
    ensures { result ≡ keeps_slot field }
{
    match field {
        Field::Stat(stat) => is_held(state_of(stat)),
        Field::Speed(_) | Field::Dirf(_) | Field::Snd(_) | Field::More(_) => true,
    }
}

// The row with the field written.
fn with_field(row: Row, field: Field) -> Row
    ensures { result ≡ row_with row.address (with_field field (entry_of row)) }
{
    match field {
        Field::Speed(spd) => Row { spd, ..row },
        Field::Dirf(dirf) => Row {
            dirf: dirf % 64,
            ..row
        },
        Field::Snd(snd) => Row {
            snd: snd % 16,
            ..row
        },
        Field::More(more) => Row { more, ..row },
        Field::Stat(stat) => Row {
            state: state_of(stat),
            kind: stat % 8,
            ..row
        },
    }
}

// The address that ADR2 and ADR spell.
fn address_of(fields: &SlotFields) -> u16
    ensures { result ≡ address_of fields.now }
{
    u16::from(fields.adr2) * 128 + u16::from(fields.adr)
}

// The row that the bytes ask for, with these F9 to F12.
fn row_from(fields: &SlotFields, more: u8) -> Row
    ensures { result ≡ row_with (address_of fields.now) (entry_from fields.now more) }
{
    Row {
        state: state_of(fields.stat),
        kind: fields.stat % 8,
        address: address_of(fields),
        spd: fields.spd,
        dirf: fields.dirf % 64,
        snd: fields.snd % 16,
        more,
        ss2: fields.ss2,
        id1: fields.id1,
        id2: fields.id2,
    }
}

// Whether the address that was found is in another slot.
fn is_elsewhere(found: Option<u8>, n: u8) -> bool
    ensures { result ≡ is_elsewhere found n }
{
    match found {
        Some(m) => m != n,
        None => false,
    }
}
