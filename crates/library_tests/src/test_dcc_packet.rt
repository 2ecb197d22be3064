//! Packets worked out by hand from S-9.2 and S-9.2.1.

use dcc_packet::{
    Address, Instr, Module, Motion, Packet, Steps, accessory, group_one, group_three, group_two,
    idle, read, speed, steps_of, stop_all,
};
use std::process::Abort;
use std::test::Fail;

/// Asserts that the packet has these bytes.
fn check(rt: &impl Abort, packet: &Packet, bytes: &[u8]) {
    assert_eq!(rt; packet.bytes(), bytes);
}

const SHORT_3: Address = Address::Short(3);

const SHORT_4: Address = Address::Short(4);

const SHORT_55: Address = Address::Short(55);

const LONG_1234: Address = Address::Long(1234);

const LONG_10239: Address = Address::Long(10239);

const S14: Steps = Steps::S14;

const S28: Steps = Steps::S28;

const S128: Steps = Steps::S128;

/// An address, steps, SPD, forward and F0, and the bytes of the packet.
type SpeedRow = (Address, Steps, u8, bool, bool, &'static [u8]);

const SPEED_ROWS: [SpeedRow; 13] = [
    // The last of 128 steps, forward, and a stop in reverse.
    (SHORT_3, S128, 127, true, false, &[0x03, 0x3F, 0xFF, 0xC3]),
    (SHORT_3, S128, 0, false, false, &[0x03, 0x3F, 0x00, 0x3C]),
    // 28 steps: emergency stop, the first step and the last.
    (SHORT_3, S28, 1, true, false, &[0x03, 0x61, 0x62]),
    (SHORT_3, S28, 2, true, false, &[0x03, 0x62, 0x61]),
    (SHORT_3, S28, 127, true, false, &[0x03, 0x7F, 0x7C]),
    // 14 steps: the last with F0.
    (SHORT_3, S14, 127, true, true, &[0x03, 0x7F, 0x7C]),
    // The standard's example: address 55 at step 6 of 28, forward.
    (SHORT_55, S28, 25, true, false, &[0x37, 0x74, 0x43]),
    // Two-byte addresses.
    (
        LONG_10239,
        S128,
        0,
        true,
        false,
        &[0xE7, 0xFF, 0x3F, 0x80, 0xA7],
    ),
    (
        LONG_1234,
        S128,
        64,
        true,
        false,
        &[0xC4, 0xD2, 0x3F, 0xC0, 0xE9],
    ),
    // One SPD with 128, 28 and 14 steps.
    (SHORT_3, S128, 64, true, false, &[0x03, 0x3F, 0xC0, 0xFC]),
    (SHORT_3, S28, 64, true, false, &[0x03, 0x78, 0x7B]),
    (SHORT_3, S14, 64, true, false, &[0x03, 0x68, 0x6B]),
    (SHORT_3, S14, 64, true, true, &[0x03, 0x78, 0x7B]),
];

#[test]
fn speed_packets_have_the_bytes_of_the_standard(rt: HostRuntime) {
    for &(address, steps, spd, forward, f0, bytes) in &SPEED_ROWS {
        assert!(rt; address.is_legal());
        assert!(rt; spd < 128);
        let motion = steps_of(steps, spd);
        check(&rt, &speed(address, steps, motion, forward, f0), bytes);
    }
}

/// A function group, an address, functions, and the bytes of the packet.
const FUNCTION_ROWS: [(u8, Address, u16, &'static [u8]); 18] = [
    (1, SHORT_3, 0, &[0x03, 0x80, 0x83]),
    (2, SHORT_3, 0, &[0x03, 0xB0, 0xB3]),
    (3, SHORT_3, 0, &[0x03, 0xA0, 0xA3]),
    // F1, whose bit is the lowest of group one.
    (1, SHORT_3, 1 << 1, &[0x03, 0x81, 0x82]),
    (2, SHORT_3, 1 << 1, &[0x03, 0xB0, 0xB3]),
    (3, SHORT_3, 1 << 1, &[0x03, 0xA0, 0xA3]),
    // F0, F5 and F7.
    (1, SHORT_4, 0b1010_0001, &[0x04, 0x90, 0x94]),
    (2, SHORT_4, 0b1010_0001, &[0x04, 0xB5, 0xB1]),
    (3, SHORT_4, 0b1010_0001, &[0x04, 0xA0, 0xA4]),
    // F9, whose bit is the lowest of group three.
    (1, SHORT_3, 1 << 9, &[0x03, 0x80, 0x83]),
    (2, SHORT_3, 1 << 9, &[0x03, 0xB0, 0xB3]),
    (3, SHORT_3, 1 << 9, &[0x03, 0xA1, 0xA2]),
    // F9 of a long address.
    (1, LONG_1234, 1 << 9, &[0xC4, 0xD2, 0x80, 0x96]),
    (2, LONG_1234, 1 << 9, &[0xC4, 0xD2, 0xB0, 0xA6]),
    (3, LONG_1234, 1 << 9, &[0xC4, 0xD2, 0xA1, 0xB7]),
    // All functions, those past F12 too.
    (1, SHORT_3, 0xFFFF, &[0x03, 0x9F, 0x9C]),
    (2, SHORT_3, 0xFFFF, &[0x03, 0xBF, 0xBC]),
    (3, SHORT_3, 0xFFFF, &[0x03, 0xAF, 0xAC]),
];

#[test]
fn function_packets_have_the_bytes_of_the_standard(rt: HostRuntime) {
    for &(group, address, set, bytes) in &FUNCTION_ROWS {
        assert!(rt; address.is_legal());
        let packet = match group {
            1 => group_one(address, set),
            2 => group_two(address, set),
            _ => group_three(address, set),
        };
        check(&rt, &packet, bytes);
    }
}

/// A switch, closed, on, and the bytes of the packet.
const SWITCH_ROWS: [(u16, bool, bool, &'static [u8]); 3] = [
    (0, true, true, &[0x81, 0xF9, 0x78]),
    (4, true, true, &[0x82, 0xF9, 0x7B]),
    (2039, false, true, &[0xBE, 0x8E, 0x30]),
];

#[test]
fn other_packets_have_the_bytes_of_the_standard(rt: HostRuntime) {
    for &(number, closed, on, bytes) in &SWITCH_ROWS {
        assert!(rt; number <= 2039);
        check(&rt, &accessory(number, closed, on), bytes);
    }
    check(&rt, &idle(), &[0xFF, 0x00, 0xFF]);
    check(&rt, &stop_all(), &[0x00, 0x51, 0x51]);
}

// Bytes, and the instruction that they spell.
const READ_ROWS: [(&'static [u8], Option<Instr>); 14] = [
    (&[0xFF, 0x00, 0xFF], Some(Instr::Idle)),
    (&[0x00, 0x00, 0x00], Some(Instr::Reset)),
    // Broadcast stop: S decides which, D and C are ignored.
    (
        &[0x00, 0x40, 0x40],
        Some(Instr::StopAll { emergency: false }),
    ),
    (
        &[0x00, 0x70, 0x70],
        Some(Instr::StopAll { emergency: false }),
    ),
    (
        &[0x00, 0x51, 0x51],
        Some(Instr::StopAll { emergency: true }),
    ),
    (
        &[0x00, 0x61, 0x61],
        Some(Instr::StopAll { emergency: true }),
    ),
    (&[0x00, 0x42, 0x42], None),
    // No module: 0, and 511, the broadcast to accessory decoders.
    (&[0x80, 0xF9, 0x79], None),
    (&[0xBF, 0x8E, 0x31], None),
    // A wrong check.
    (&[0x03, 0x3F, 0xC0, 0xFD], None),
    // A consist, and a longer form after the byte of a listed one.
    (&[0x03, 0x20, 0x23], None),
    (&[0x03, 0x80, 0x01, 0x82], None),
    // Addresses that are reserved.
    (&[0xE8, 0x00, 0x80, 0x68], None),
    (&[0xFE, 0x00, 0xFE], None),
];

/// The name of an instruction, its address and its other fields: two are the same if these are.
type Parts = (&'static str, Option<Address>, [u16; 4]);

fn parts(instruction: Instr) -> Parts {
    match instruction {
        Instr::Idle => ("idle", None, [0; 4]),
        Instr::Reset => ("reset", None, [0; 4]),
        Instr::StopAll { emergency } => ("stop all", None, [u16::from(emergency), 0, 0, 0]),
        Instr::Speed { address, d, low } => {
            ("speed", Some(address), [u16::from(d), u16::from(low), 0, 0])
        }
        Instr::Speed128 { address, d, s } => {
            (
                "speed 128",
                Some(address),
                [u16::from(d), u16::from(s), 0, 0],
            )
        }
        Instr::GroupOne { address, bits } => {
            ("group one", Some(address), [u16::from(bits), 0, 0, 0])
        }
        Instr::GroupTwo { address, bits } => {
            ("group two", Some(address), [u16::from(bits), 0, 0, 0])
        }
        Instr::GroupThree { address, bits } => {
            ("group three", Some(address), [u16::from(bits), 0, 0, 0])
        }
        Instr::Accessory {
            module,
            pair,
            closed,
            on,
        } => {
            let number = module.number();
            (
                "accessory",
                None,
                [number, u16::from(pair), u16::from(closed), u16::from(on)],
            )
        }
    }
}

/// Asserts that these bytes spell this instruction.
fn check_reading(rt: &impl Abort, bytes: &[u8], instruction: Option<Instr>) -> Result<(), Fail> {
    let packet = Packet::of(bytes).ok_or("no packet")?;
    assert!(rt;
        read(&packet).map(parts) == instruction.map(parts),
        "{bytes:?}"
    );
    Ok(())
}

#[test]
fn reads_listed_forms_alone(rt: HostRuntime) -> Result<(), Fail> {
    for &(bytes, instruction) in &READ_ROWS {
        check_reading(&rt, bytes, instruction)?;
    }
    Ok(())
}

/// An address, steps, the bit of the direction, the bits of the speed, and the bytes of that
/// packet.
const TOLD_SPEEDS: [(Address, Steps, bool, u8, &'static [u8]); 4] = [
    (SHORT_55, S28, true, 0x14, &[0x37, 0x74, 0x43]),
    (SHORT_3, S28, false, 0x08, &[0x03, 0x48, 0x4B]),
    (SHORT_3, S128, true, 64, &[0x03, 0x3F, 0xC0, 0xFC]),
    (LONG_1234, S128, true, 64, &[0xC4, 0xD2, 0x3F, 0xC0, 0xE9]),
];

#[test]
fn reads_speeds(rt: HostRuntime) -> Result<(), Fail> {
    for &(address, steps, d, bits, bytes) in &TOLD_SPEEDS {
        let instruction = match steps {
            Steps::S128 => Instr::Speed128 {
                address,
                d,
                s: bits,
            },
            _ => Instr::Speed {
                address,
                d,
                low: bits,
            },
        };
        check_reading(&rt, bytes, Some(instruction))?;
    }
    Ok(())
}

/// A function group, an address, the bits of the functions, and the bytes of that packet.
const TOLD_FUNCTIONS: [(u8, Address, u8, &'static [u8]); 4] = [
    (1, LONG_10239, 0, &[0xE7, 0xFF, 0x80, 0x98]),
    (1, SHORT_4, 0x10, &[0x04, 0x90, 0x94]),
    (2, SHORT_4, 5, &[0x04, 0xB5, 0xB1]),
    (3, SHORT_3, 1, &[0x03, 0xA1, 0xA2]),
];

#[test]
fn reads_functions(rt: HostRuntime) -> Result<(), Fail> {
    for &(group, address, bits, bytes) in &TOLD_FUNCTIONS {
        let instruction = match group {
            1 => Instr::GroupOne { address, bits },
            2 => Instr::GroupTwo { address, bits },
            _ => Instr::GroupThree { address, bits },
        };
        check_reading(&rt, bytes, Some(instruction))?;
    }
    Ok(())
}

#[test]
fn reads_the_first_and_the_last_module(rt: HostRuntime) -> Result<(), Fail> {
    let first = Instr::Accessory {
        module: Module::new(1).ok_or("no module")?,
        pair: 0,
        closed: true,
        on: true,
    };
    let last = Instr::Accessory {
        module: Module::new(510).ok_or("no module")?,
        pair: 3,
        closed: false,
        on: true,
    };
    check_reading(&rt, &[0x81, 0xF9, 0x78], Some(first))?;
    check_reading(&rt, &[0xBE, 0x8E, 0x30], Some(last))
}

/// Steps, SPD, and its step.
const STEP_ROWS: [(Steps, u8, u8); 6] = [
    (Steps::S128, 2, 1),
    (Steps::S28, 2, 1),
    (Steps::S14, 2, 1),
    (Steps::S128, 127, 126),
    (Steps::S28, 127, 28),
    (Steps::S14, 127, 14),
];

#[test]
fn speeds_rise_from_the_first_step_to_the_last(rt: HostRuntime) {
    for &(of, spd, n) in &STEP_ROWS {
        assert!(rt; spd < 128);
        assert!(rt;
            steps_of(of, spd) == Motion::Step { of, n },
            "SPD {spd} is not step {n}"
        );
    }
}

/// A decoder type, and its steps.
const KIND_ROWS: [(u8, Option<Steps>); 9] = [
    (0, Some(Steps::S28)),
    (1, None),
    (2, Some(Steps::S14)),
    (3, Some(Steps::S128)),
    (4, Some(Steps::S28)),
    (5, None),
    (6, None),
    (7, Some(Steps::S128)),
    (8, None),
];

#[test]
fn decoder_types_have_their_steps(rt: HostRuntime) {
    for &(kind, steps) in &KIND_ROWS {
        assert!(rt; Steps::of_kind(kind) == steps, "kind {kind}");
    }
}

/// An address, and whether a decoder may have it.
const ADDRESS_ROWS: [(Address, bool); 7] = [
    (Address::Short(0), false),
    (Address::Short(1), true),
    (Address::Short(127), true),
    (Address::Short(128), false),
    (Address::Long(0), true),
    (Address::Long(10239), true),
    (Address::Long(10240), false),
];

#[test]
fn addresses_have_their_bounds(rt: HostRuntime) {
    for (at, &(address, legal)) in ADDRESS_ROWS.iter().enumerate() {
        assert!(rt; address.is_legal() == legal, "row {at}");
    }
}

/// A number, and whether a module has it.
const MODULE_ROWS: [(u16, bool); 4] = [(0, false), (1, true), (510, true), (511, false)];

#[test]
fn modules_have_their_bounds(rt: HostRuntime) {
    for &(number, is_module) in &MODULE_ROWS {
        let module = Module::new(number).map(|module| module.number());
        assert!(rt; module == is_module.then_some(number), "{number}");
    }
}

/// A number of bytes, and whether they are a packet.
const LENGTH_ROWS: [(usize, bool); 4] = [(2, false), (3, true), (6, true), (7, false)];

#[test]
fn packets_have_three_to_six_bytes(rt: HostRuntime) {
    for &(len, is_packet) in &LENGTH_ROWS {
        assert!(rt; len <= 7);
        assert!(rt;
            Packet::of(&[0; 7][..len]).is_some() == is_packet,
            "{len} bytes"
        );
    }
}
