//! The instructions of packets.
use crate::address::Address;
use crate::module::Module;

/// An instruction of the track (S-9.2 and S-9.2.1), its fields as they are in the packet.
#[derive(Clone, Copy)]
pub enum Instr {
    /// Nothing, for every decoder.
    Idle,
    /// Every locomotive decoder takes its first state.
    Reset,
    /// Every locomotive decoder stops.
    StopAll {
        emergency: bool,
    },
    /// Speed and direction in one byte: direction bit and the five bits below it, which hold 14 or
    /// 28 steps.
    Speed {
        address: Address,
        d: bool,
        low: u8,
    },
    /// Speed and direction in two bytes, 128 steps: direction bit and the seven bits below it.
    Speed128 {
        address: Address,
        d: bool,
        s: u8,
    },
    /// Functions: bit 4 is F0, bits 3 to 0 are F4 to F1.
    GroupOne {
        address: Address,
        bits: u8,
    },
    /// Functions: bits 3 to 0 are F8 to F5.
    GroupTwo {
        address: Address,
        bits: u8,
    },
    /// Functions: bits 3 to 0 are F12 to F9.
    GroupThree {
        address: Address,
        bits: u8,
    },
    /// One of the two outputs of a pair, 0 to 3, of an accessory decoder is switched on or off.
    Accessory {
        module: Module,
        pair: u8,
        closed: bool,
        on: bool,
    },
}
