//! The effect of a line's messages on the station, and its replies.
ghost use Rattle.std.specs.Prelude.{◌≡◌, ◌==◌, ◌||◌, ◌<◌, [], Some, IfSome, IfOk, OnErr, true};
ghost use Rattle.std.specs.Result.{ForOk};
ghost use Rattle.ln_ops.specs.Message.{IsOfData};
ghost use Rattle.ln_ops.specs.Reply.{IsSendable};
ghost use Rattle.refresh_ring.specs.Jobs.{requests_in};
ghost use Rattle.slot_table.specs.Changes.{slot_if};
ghost use Rattle.slot_table.specs.Desk.{IsDesk};
ghost use Rattle.slot_table.specs.Entry.{IsSlot};
ghost use Rattle.slot_table.specs.Moves.{after_shift, can_shift};
ghost use Rattle.slot_table.specs.Values.{IsValue};
ghost use Rattle.slot_table.specs.Writes.{after_field, after_take, take_answer};
ghost use Rattle.station_core.specs.After.{after_move, paused};
ghost use Rattle.station_core.specs.Answer.{answer, is_taken, more_reply, move_answer, slot_data, slot_or_refusal};
ghost use Rattle.station_core.specs.Schedule.{of_field, of_more, of_slot};
ghost use Rattle.station_core.specs.Immediate.{more_asked, with_more};
ghost use Rattle.station_core.specs.Station.{after_change, after_op};

use crate::immediate::{counted, more_asked};
use crate::schedule::{Change, change_of, refresh_if_driven, schedule_changes};
use crate::slot_data::slot_fields;
use crate::station::Station;
use ln_ops::{Op, Reply, SlotFields, im_bytes};
use refresh_ring::Power;
use slot_table::{Field, SlotFault, SlotTable};

// What OPC_LONG_ACK answers to: opcodes with bit 7 clear.
const SW_REQ: u8 = 0x30;

const MOVE_SLOTS: u8 = 0x3A;

const RQ_SL_DATA: u8 = 0x3B;

const SW_ACK: u8 = 0x3D;

const LOCO_ADR: u8 = 0x3F;

const WR_SL_DATA: u8 = 0x6F;

const IMM_PACKET: u8 = 0x7D;

// The codes of OPC_LONG_ACK.
const ACCEPTED: u8 = 0x7F;

const REFUSED: u8 = 0x00;

/// The last switch that can be asked for.
const LAST_SWITCH: u16 = 2039;

impl Station {
    // Carries out a message. A separate function, since most bytes end no message.
    #[inline(never)]
    pub(crate) fn carry_out_op(&mut self, op: Op) -> Option<Reply>
        requires { IsOfData op }
        ensures reply { result ≡ answer self.old.powered op (requests_in self.old.jobs) }
        ensures state { self.new ≡ after_op self.old op }
        ensures sendable { IfSome result IsSendable }
    {
        match op {
            Op::PowerOff => self.set_power(Power::Off),
            Op::PowerOn => self.set_power(Power::Running),
            Op::ForceIdle => self.pause(),
            Op::Speed { slot, spd } => self.set_field(slot, Field::Speed(spd)),
            Op::Dirf { slot, dirf } => self.set_field(slot, Field::Dirf(dirf)),
            Op::Snd { slot, snd } => self.set_field(slot, Field::Snd(snd)),
            Op::SlotStat { slot, stat } => self.set_field(slot, Field::Stat(stat)),
            Op::Move { src, dest } => self.move_slot(src, dest),
            Op::LocoAddr { high, low } => self.load(high, low),
            Op::SlotWrite(fields) => self.write(&fields),
            Op::SlotRead { slot } => self.read_slot(slot),
            Op::SwReq { number, closed, on } => self.request_switch(number, closed, on),
            Op::SwAck { number, closed, on } => self.acknowledge_switch(number, closed, on),
            // Sent by a master, not by a throttle.
            Op::LongAck { .. } | Op::SlotData(_) => None,
            Op::Imm { count, .. } => self.set_more(counted(count, &im_bytes(op))),
            Op::Other => None,
        }
    }

    fn set_power(&mut self, power: Power) -> Option<Reply>
        ensures reply { result ≡ None }
        ensures state { self.new
            ≡ record self.old { powered = record self.old.powered { power = power } } }
    {
        self.power = power;
        None
    }

    // OPC_IDLE: a running track is paused.
    fn pause(&mut self) -> Option<Reply>
        ensures reply { result ≡ None }
        ensures state { self.new
            ≡ record self.old {
              powered = record self.old.powered {
                power = paused
                    self.old.powered.power;
              };
            } }
    {
        if self.power == Power::Running {
            self.power = Power::Paused;
        }
        None
    }

    // One field of a slot. What it changes of the packets waits.
    fn set_field(&mut self, slot: u8, field: Field) -> Option<Reply>
        requires { IsValue field }
        ensures reply { result ≡ None }
        ensures state { self.new
            ≡ after_change self.old (after_field self.old.powered.desk slot field)
            (of_field self.old.powered.desk slot field) }
    {
        slot_table::laws::others_stay();
        if self.table.set_field(slot, field).is_err() {
            return None;
        }
        schedule_changes(&self.table, &mut self.schedule, slot, change_of(field));
        None
    }

    // F9 to F12 of a slot, by the bytes of a packet in OPC_IMM_PACKET.
    fn set_more(&mut self, bytes: &[u8]) -> Option<Reply>
        ensures reply { result ≡ Some (more_reply (more_asked self.old.powered.desk bytes.now)) }
        ensures state { self.new
            ≡ after_change self.old
            (with_more self.old.powered.desk (more_asked self.old.powered.desk bytes.now))
            (of_more self.old.powered.desk (more_asked self.old.powered.desk bytes.now)) }
        ensures sendable { IfSome result IsSendable }
    {
        let Some(more) = more_asked(&self.table, bytes) else {
            return Some(refusal(IMM_PACKET));
        };
        self.set_field(more.slot, Field::More(more.bits));
        Some(Reply::LongAck {
            opc: IMM_PACKET,
            ack: ACCEPTED,
        })
    }

    // OPC_MOVE_SLOTS: dispatch get, null move, dispatch put or move, tried in this order.
    fn move_slot(&mut self, src: u8, dest: u8) -> Option<Reply>
        ensures reply { result ≡ answer self.old.powered (Op.Move src dest) 0 }
        ensures state { self.new ≡ after_op self.old (Op.Move src dest) }
        ensures sendable { IfSome result IsSendable }
    {
        let slot = if stays(src, dest) {
            self.dispatch(src, dest)
        } else {
            self.shift(src, dest)
        };
        Some(self.slot_or_refusal(MOVE_SLOTS, slot))
    }

    // Dispatch get, null move or dispatch put.
    fn dispatch(&mut self, src: u8, dest: u8) -> Result<u8, SlotFault>
        requires { (src == 0 || (src == dest || dest == 0)) ≡ true }
        ensures answer { result ≡ move_answer self.old.powered.desk src dest }
        ensures slot { IfOk result IsSlot }
        ensures state { self.new
            ≡ after_change self.old (after_move self.old.powered.desk src dest) (of_slot result) }
    {
        slot_table::laws::others_stay();
        let slot = handed_over(&mut self.table, src, dest)?;
        schedule_changes(&self.table, &mut self.schedule, slot, Change::All);
        Ok(slot)
    }

    fn shift(&mut self, src: u8, dest: u8) -> Result<u8, SlotFault>
        ensures answer { result ≡ slot_if (can_shift self.old.powered.desk src dest) dest }
        ensures slot { IfOk result IsSlot }
        ensures state { self.new
            ≡ after_change self.old (after_shift self.old.powered.desk src dest) (of_slot result) }
    {
        slot_table::laws::others_stay();
        let slot = self.table.shift(src, dest)?;
        refresh_if_driven(&self.table, &mut self.schedule, src);
        schedule_changes(&self.table, &mut self.schedule, slot, Change::All);
        Ok(slot)
    }

    // OPC_LOCO_ADR: the slot of an address.
    fn load(&mut self, high: u8, low: u8) -> Option<Reply>
        requires { IsOfData (Op.LocoAddr high low) }
        ensures reply { result ≡ answer self.old.powered (Op.LocoAddr high low) 0 }
        ensures state { self.new ≡ after_op self.old (Op.LocoAddr high low) }
        ensures sendable { IfSome result IsSendable }
    {
        let slot = self.take(u16::from(high) * 128 + u16::from(low));
        Some(self.slot_or_refusal(LOCO_ADR, slot))
    }

    fn take(&mut self, address: u16) -> Result<u8, SlotFault>
        ensures answer { result ≡ take_answer self.old.powered.desk address }
        ensures slot { IfOk result IsSlot }
        ensures state { self.new
            ≡ after_change self.old (after_take self.old.powered.desk address) [] }
    {
        slot_table::laws::others_stay();
        let slot = self.table.take(address)?;
        schedule_changes(&self.table, &mut self.schedule, slot, Change::Nothing);
        Ok(slot)
    }

    // OPC_WR_SL_DATA: a whole slot.
    fn write(&mut self, fields: &SlotFields) -> Option<Reply>
        ensures reply { result ≡ answer self.old.powered (Op.SlotWrite fields.now) 0 }
        ensures state { self.new ≡ after_op self.old (Op.SlotWrite fields.now) }
        ensures sendable { IfSome result IsSendable }
    {
        slot_table::laws::others_stay();
        if self.table.write_row(fields).is_err() {
            return Some(refusal(WR_SL_DATA));
        }
        schedule_changes(&self.table, &mut self.schedule, fields.slot, Change::All);
        Some(Reply::LongAck {
            opc: WR_SL_DATA,
            ack: ACCEPTED,
        })
    }

    // OPC_RQ_SL_DATA: what a slot reads as.
    fn read_slot(&self, slot: u8) -> Option<Reply>
        ensures reply { result ≡ answer self.now.powered (Op.SlotRead slot) 0 }
        ensures sendable { IfSome result IsSendable }
    {
        if slot < 1 || slot > 119 {
            return Some(refusal(RQ_SL_DATA));
        }
        Some(self.slot_data(slot))
    }

    // OPC_SW_REQ: answered only where it is refused.
    fn request_switch(&mut self, number: u16, closed: bool, on: bool) -> Option<Reply>
        ensures reply { result
            ≡ answer self.old.powered (Op.SwReq number closed on) (requests_in self.old.jobs) }
        ensures state { self.new ≡ after_op self.old (Op.SwReq number closed on) }
        ensures sendable { IfSome result IsSendable }
    {
        if self.switch(number, closed, on) {
            None
        } else {
            Some(refusal(SW_REQ))
        }
    }

    // OPC_SW_ACK: always answered.
    fn acknowledge_switch(&mut self, number: u16, closed: bool, on: bool) -> Option<Reply>
        ensures reply { result
            ≡ answer self.old.powered (Op.SwAck number closed on) (requests_in self.old.jobs) }
        ensures state { self.new ≡ after_op self.old (Op.SwAck number closed on) }
        ensures sendable { IfSome result IsSendable }
    {
        let ack = if self.switch(number, closed, on) {
            ACCEPTED
        } else {
            REFUSED
        };
        Some(Reply::LongAck { opc: SW_ACK, ack })
    }

    // Whether the request was taken.
    fn switch(&mut self, number: u16, closed: bool, on: bool) -> bool
        ensures taken { result ≡ is_taken number (requests_in self.old.jobs) }
        ensures state { self.new ≡ after_op self.old (Op.SwReq number closed on) }
    {
        number <= LAST_SWITCH && self.schedule.switch(number, closed, on).is_ok()
    }

    // The slot data of the slot that a message gives, or a refusal of that message.
    fn slot_or_refusal(&self, opc: u8, slot: Result<u8, SlotFault>) -> Reply
        requires opc { opc < 128 }
        requires slot { ForOk slot IsSlot }
        ensures reply { result ≡ slot_or_refusal opc self.now.powered slot }
        ensures sendable { IsSendable result }
    {
        match slot {
            Ok(slot) => self.slot_data(slot),
            Err(_) => refusal(opc),
        }
    }

    fn slot_data(&self, slot: u8) -> Reply
        requires { IsSlot slot }
        ensures reply { result ≡ slot_data self.now.powered slot }
        ensures sendable { IsSendable result }
    {
        let row = self.table.row(slot);
        Reply::SlotData(slot_fields(slot, &row, self.power))
    }
}

// Whether OPC_MOVE_SLOTS leaves the locomotive in its slot.
fn stays(src: u8, dest: u8) -> bool
    ensures { result ≡ (src == 0 || (src == dest || dest == 0)) }
{
    src == 0 || src == dest || dest == 0
}

// What such a message does to the table: dispatch get, null move or dispatch put, tried in this
// order.
fn handed_over(table: &mut SlotTable, src: u8, dest: u8) -> Result<u8, SlotFault>
    requires { (src == 0 || (src == dest || dest == 0)) ≡ true }
    ensures answer { result ≡ move_answer table.old src dest }
    ensures slot { IfOk result IsSlot }
    ensures after { table.new ≡ after_move table.old src dest }
    ensures refused { OnErr result (table.new ≡ table.old) }
    ensures desk { IsDesk table.new }
{
    if src == 0 {
        table.dispatch_get()
    } else if src == dest {
        table.null_move(src)
    } else {
        table.dispatch_put(src)
    }
}

fn refusal(opc: u8) -> Reply
    requires { opc < 128 }
    ensures reply { result ≡ Reply.LongAck opc 0 }
    ensures sendable { IsSendable result }
{
    Reply::LongAck { opc, ack: REFUSED }
}
