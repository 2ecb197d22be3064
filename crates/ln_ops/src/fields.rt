//! The bytes of slot data.

use std::marker::Model;

/// The bytes that OPC_SL_RD_DATA and OPC_WR_SL_DATA carry between count and check, each below 128.
#[derive(Clone, Copy)]
pub struct SlotFields {
    /// SLOT: the slot's number.
    pub slot: u8,
    /// STAT1: bits 5 and 4 the state, bits 2 to 0 the decoder type.
    pub stat: u8,
    /// ADR: the low seven bits of the address.
    pub adr: u8,
    /// SPD: the speed.
    pub spd: u8,
    /// DIRF: direction and F0 to F4.
    pub dirf: u8,
    /// TRK: the state of the track.
    pub trk: u8,
    /// SS2: the second status byte.
    pub ss2: u8,
    /// ADR2: the high seven bits of the address.
    pub adr2: u8,
    /// SND: F5 to F8.
    pub snd: u8,
    /// ID1: the low seven bits of the throttle's own number.
    pub id1: u8,
    /// ID2: the high seven bits of the throttle's own number.
    pub id2: u8,
}

impl Model for SlotFields {
    ghost use Rattle.ln_ops.specs.Fields.{SlotBytes, AreData, slot_bytes};

    ghost Value = { SlotBytes };

    ghost view = { λ f.
        slot_bytes f.slot f.stat f.adr f.spd f.dirf f.trk f.ss2 f.adr2 f.snd f.id1 f.id2 };

    ghost invariant = { λ f. AreData
        (slot_bytes f.slot f.stat f.adr f.spd f.dirf f.trk f.ss2 f.adr2 f.snd f.id1 f.id2) };

    ghost inverse = { λ f.
        record {
          slot = f.slot;
          stat = f.stat;
          adr = f.adr;
          spd = f.spd;
          dirf = f.dirf;
          trk = f.trk;
          ss2 = f.ss2;
          adr2 = f.adr2;
          snd = f.snd;
          id1 = f.id1;
          id2 = f.id2;
        } };
}
