//! What a slot reads as.

/// The use of a slot: bits 5 and 4 of STAT1.
#[derive(Clone, Copy, Debug, PartialEq, Eq)]
pub enum State {
    /// 00: the slot stands for no locomotive.
    Free,
    /// 01: loaded and refreshed, owned by no throttle.
    Common,
    /// 10: loaded, and not refreshed.
    Idle,
    /// 11: loaded, refreshed and driven by a throttle.
    InUse,
}

/// What a slot reads as: zeros with the state free where no locomotive is in it.
#[derive(Clone, Copy)]
pub struct Row {
    pub state: State,
    /// The decoder type, bits 2 to 0 of STAT1: 0 and 4 are 28 steps, 2 is 14 steps, 3 and 7 are 128
    /// steps.
    pub kind: u8,
    /// The locomotive address, 1 to 10239.
    pub address: u16,
    /// SPD: 0 stop, 1 emergency stop, 2 to 127 rising speeds.
    pub spd: u8,
    /// DIRF: bit 5 the direction (0 forward), bit 4 F0, bits 3 to 0 F4 to F1.
    pub dirf: u8,
    /// SND: bits 3 to 0 are F8 to F5.
    pub snd: u8,
    /// F12 to F9 in bits 3 to 0, which no byte of slot data shows.
    pub more: u8,
    /// SS2, the second status byte, kept as it was written.
    pub ss2: u8,
    /// ID1 and ID2, the throttle's own number, kept as they were written.
    pub id1: u8,
    pub id2: u8,
}

impl Row {
    /// The row of a slot in which no locomotive stands.
    pub const FREE: Row = Row {
        state: State::Free,
        kind: 0,
        address: 0,
        spd: 0,
        dirf: 0,
        snd: 0,
        more: 0,
        ss2: 0,
        id1: 0,
        id2: 0,
    };
}
