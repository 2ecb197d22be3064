//! The fields of a slot that are written one at a time.

/// One field of a slot, and what is written to it.
#[derive(Clone, Copy)]
pub enum Field {
    /// SPD, below 128.
    Speed(u8),
    /// Direction and F0 to F4, of which the low six bits are kept.
    Dirf(u8),
    /// F5 to F8, of which the low four bits are kept.
    Snd(u8),
    /// F9 to F12, below 16: bits 3 to 0 are F12 to F9.
    More(u8),
    /// State and decoder type. The state free clears the slot, and a mark on it.
    Stat(u8),
}
