//! What a station tells of its queues, and lists of calls. Whole conversations are in
//! `tests/process_checks`.

mod waiting;

use dcc_packet::idle;
use refresh_ring::Kind;
use station_core::{Call, Power, Station, StationFault, Step};
use std::process::Abort;
use std::test::Fail;

// Address 3 is loaded, the track gets power, and a null move puts slot 1 in use.
const IN_USE: &[u8] = &[0xBF, 0x00, 0x03, 0x43, 0x83, 0x7C, 0xBA, 0x01, 0x01, 0x45];

// F9 of address 3, by OPC_IMM_PACKET.
const F9_ON: &[u8] = &[
    0xED, 0x0B, 0x7F, 0x23, 0x22, 0x03, 0x21, 0x00, 0x00, 0x00, 0x45,
];

// Switch 0 closed.
const CLOSE: &[u8] = &[0xB0, 0x00, 0x30, 0x7F];

fn say(rt: &impl Abort, station: &mut Station, bytes: &[u8]) {
    for byte in bytes {
        assert!(rt; station.lines() > 0);
        station.byte(0, *byte);
    }
}

#[test]
fn has_one_to_eight_lines(rt: HostRuntime) -> Result<(), Fail> {
    for lines in &[0, 9] {
        assert!(rt; Station::new(rt.alloc(), *lines).err() == Some(StationFault::BadLines));
    }
    for lines in 1..=8 {
        let station = Station::new(rt.alloc(), lines)?;
        assert!(rt; station.lines() == lines && station.power() == Power::Off);
    }
    Ok(())
}

/// Speed and function groups one and two of a locomotive newly in use are sent before group three.
#[test]
fn counts_what_is_queued(rt: HostRuntime) -> Result<(), Fail> {
    let mut station = Station::new(rt.alloc(), 1)?;
    assert!(rt; station.sends_ahead(1, Kind::Speed).is_none());
    say(&rt, &mut station, IN_USE);
    say(&rt, &mut station, &[0xA0, 0x01, 0x40, 0x1E]);
    assert!(rt; station.sends_ahead(1, Kind::Speed) == Some(0));
    assert!(rt; station.sends_ahead(1, Kind::GroupTwo) == Some(2));
    say(&rt, &mut station, F9_ON);
    assert!(rt; station.sends_ahead(1, Kind::GroupThree) == Some(3));
    for _ in 0..33 {
        say(&rt, &mut station, CLOSE);
    }
    assert!(rt; station.switches_waiting() == 32);
    Ok(())
}

// The list may be divided anywhere.
#[test]
fn runs_lists_of_calls(rt: HostRuntime) -> Result<(), Fail> {
    let mut station = Station::new(rt.alloc(), 1)?;
    let first = [Call::Byte {
        line: 0,
        byte: 0x83,
    }];
    let rest = [
        Call::Turn,
        Call::Byte {
            line: 0,
            byte: 0x7C,
        },
        Call::Turn,
    ];
    let mut step = [Step::Off];
    station.run(first.as_slice(), step.as_mut_slice());
    assert!(rt; matches!(&step, [Step::Quiet]));
    assert!(rt; station.lines() == 1);
    let mut steps = [Step::Quiet, Step::Off, Step::Quiet];
    station.run(rest.as_slice(), steps.as_mut_slice());
    let [Step::Off, Step::Quiet, Step::Packet(sent)] = &steps else {
        return Err("other steps".into());
    };
    assert!(rt; sent.bytes() == idle().bytes());
    Ok(())
}

#[test]
fn requests_wait_until_their_second_send(rt: HostRuntime) -> Result<(), Fail> {
    let mut station = Station::new(rt.alloc(), 1)?;
    say(&rt, &mut station, &[0x83, 0x7C]);
    say(&rt, &mut station, CLOSE);
    say(&rt, &mut station, &[0xB0, 0x04, 0x30, 0x7B]);
    assert!(rt; station.switches_waiting() == 2);
    for waiting in &[2, 2, 1, 1, 1, 0, 0] {
        let _ = station.turn();
        assert!(rt; station.switches_waiting() == *waiting);
    }
    Ok(())
}
