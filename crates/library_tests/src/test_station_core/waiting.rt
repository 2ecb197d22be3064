//! The packets of a slot that wait to be sent after a message, and the sends ahead of them.

ghost use Rattle.slot_table.specs.Entry.{IsSlot};

use super::say;
use refresh_ring::Kind;
use station_core::Station;
use std::alloc::Global;
use std::process::Abort;
use std::test::Fail;

/// The sends ahead of speed and function groups one, two and three of a slot.
type Ahead = [Option<u32>; 4];

const EACH: Ahead = [Some(0), Some(1), Some(2), Some(3)];

const NONE: Ahead = [None; 4];

/// A name, the messages before, the message, and the slot whose packets wait then, all four. Slot 1
/// is idle at first, with address 3.
const WHOLE: &[(&str, &[u8], &[u8], u8)] = &[
    ("a slot put into use", &[], &[0xB5, 0x01, 0x33, 0x78], 1),
    ("a slot made common", &[], &[0xB5, 0x01, 0x13, 0x58], 1),
    (
        "28 steps asked for",
        &[0xBA, 0x01, 0x01, 0x45],
        &[0xB5, 0x01, 0x30, 0x7B],
        1,
    ),
    ("a null move", &[], &[0xBA, 0x01, 0x01, 0x45], 1),
    (
        "a null move of a slot in use",
        &[0xBA, 0x01, 0x01, 0x45],
        &[0xBA, 0x01, 0x01, 0x45],
        1,
    ),
    ("a dispatch put", &[], &[0xBA, 0x01, 0x00, 0x44], 1),
    (
        "a dispatch put of a slot in use",
        &[0xBA, 0x01, 0x01, 0x45],
        &[0xBA, 0x01, 0x00, 0x44],
        1,
    ),
    (
        "a dispatch get",
        &[0xBA, 0x01, 0x00, 0x44],
        &[0xBA, 0x00, 0x00, 0x45],
        1,
    ),
    (
        "a move",
        &[0xBA, 0x01, 0x00, 0x44],
        &[0xBA, 0x01, 0x02, 0x46],
        2,
    ),
    (
        "a whole-slot write",
        &[],
        &[
            0xEF, 0x0E, 0x01, 0x33, 0x03, 0x00, 0x00, 0x07, 0x00, 0x00, 0x00, 0x00, 0x00, 0x28,
        ],
        1,
    ),
    (
        "a whole-slot write of what stands there",
        &[0xBA, 0x01, 0x01, 0x45],
        &[
            0xEF, 0x0E, 0x01, 0x33, 0x03, 0x00, 0x00, 0x07, 0x00, 0x00, 0x00, 0x00, 0x00, 0x28,
        ],
        1,
    ),
];

/// A name, a message to slot 1, in use with address 3, and the packets that wait then.
const PARTS: &[(&str, &[u8], Ahead)] = &[
    (
        "OPC_LOCO_SPD",
        &[0xA0, 0x01, 0x40, 0x1E],
        [Some(0), None, None, None],
    ),
    (
        "OPC_LOCO_DIRF",
        &[0xA1, 0x01, 0x20, 0x7F],
        [Some(0), Some(1), None, None],
    ),
    (
        "OPC_LOCO_SND",
        &[0xA2, 0x01, 0x05, 0x59],
        [None, None, Some(0), None],
    ),
    (
        "OPC_IMM_PACKET",
        &[
            0xED, 0x0B, 0x7F, 0x20, 0x02, 0x03, 0x21, 0x00, 0x00, 0x00, 0x66,
        ],
        [None, None, None, Some(0)],
    ),
    (
        "OPC_LOCO_ADR",
        &[0xBF, 0x00, 0x03, 0x43],
        [None, None, None, None],
    ),
    (
        "OPC_RQ_SL_DATA",
        &[0xBB, 0x01, 0x00, 0x45],
        [None, None, None, None],
    ),
];

fn ahead(station: &Station, slot: u8) -> Ahead
    requires { IsSlot slot }
{
    [
        station.sends_ahead(slot, Kind::Speed),
        station.sends_ahead(slot, Kind::GroupOne),
        station.sends_ahead(slot, Kind::GroupTwo),
        station.sends_ahead(slot, Kind::GroupThree),
    ]
}

/// Power on, and address 3 into slot 1.
const LOADED: &[u8] = &[0x83, 0x7C, 0xBF, 0x00, 0x03, 0x43];

/// A null move of slot 1.
const USED: &[u8] = &[0xBA, 0x01, 0x01, 0x45];

/// Power is on, address 3 is in slot 1, and then these messages and turns followed.
fn prepared(rt: &impl Abort, alloc: Global, before: &[u8]) -> Result<Station, Fail> {
    let mut station = Station::new(alloc, 1)?;
    say(rt, &mut station, LOADED);
    say(rt, &mut station, before);
    for _ in 0..16 {
        let _ = station.turn();
    }
    assert!(rt; ahead(&station, 1) == NONE && ahead(&station, 2) == NONE);
    Ok(station)
}

fn all_wait(rt: &impl Abort, alloc: Global, rows: &[(&str, &[u8], &[u8], u8)]) -> Result<(), Fail> {
    for (name, before, said, slot) in rows {
        let mut station = prepared(rt, alloc, before)?;
        say(rt, &mut station, said);
        assert!(rt; *slot >= 1 && *slot <= 119);
        assert!(rt; ahead(&station, *slot) == EACH, "{name}");
    }
    Ok(())
}

fn these_wait(rt: &impl Abort, alloc: Global, rows: &[(&str, &[u8], Ahead)]) -> Result<(), Fail> {
    for (name, said, waiting) in rows {
        let mut station = prepared(rt, alloc, USED)?;
        say(rt, &mut station, said);
        assert!(rt; ahead(&station, 1) == *waiting, "{name}");
    }
    Ok(())
}

#[test]
fn a_whole_slot_waits(rt: HostRuntime) -> Result<(), Fail> {
    all_wait(&rt, rt.alloc(), WHOLE)
}

#[test]
fn what_a_message_changes_waits(rt: HostRuntime) -> Result<(), Fail> {
    these_wait(&rt, rt.alloc(), PARTS)
}
