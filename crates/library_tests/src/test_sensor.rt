//! Messages of sensors, as LocoNet Personal Use Edition 1.0 has OPC_INPUT_REP.

use ln_frame::{Framer, Msg};
use ln_ops::{SensorReport, begins_interrogation, is_interrogation};
use std::test::Fail;

/// Sensors, whether their blocks are occupied, and their messages.
const REPORTS: [(u16, bool, &'static [u8]); 6] = [
    (1, true, &[0xB2, 0x00, 0x50, 0x1D]),
    (1, false, &[0xB2, 0x00, 0x40, 0x0D]),
    (2, true, &[0xB2, 0x00, 0x70, 0x3D]),
    (3, true, &[0xB2, 0x01, 0x50, 0x1C]),
    (257, true, &[0xB2, 0x00, 0x51, 0x1C]),
    (4096, false, &[0xB2, 0x7F, 0x6F, 0x5D]),
];

/// Returns the message that the bytes end in.
fn message(bytes: &[u8]) -> Option<Msg> {
    let mut framer = Framer::new();
    let mut last = None;
    for byte in bytes {
        last = framer.push(*byte);
    }
    last
}

#[test]
fn reports_are_written_and_read(rt: HostRuntime) -> Result<(), Fail> {
    for (sensor, occupied, bytes) in REPORTS {
        let report = SensorReport { sensor, occupied };
        assert_eq!(rt; report.message().bytes(), bytes, "{sensor}");
        let read = SensorReport::read(&message(bytes).ok_or("message")?);
        assert!(rt; read == Some(report), "{sensor}");
    }
    Ok(())
}

/// Messages, whether they are of an interrogation, and whether they begin one.
const REQUESTS: [(&'static [u8], bool, bool); 10] = [
    (&[0xB0, 0x78, 0x27, 0x10], true, true),
    (&[0xB0, 0x78, 0x67, 0x50], true, true),
    (&[0xB0, 0x79, 0x27, 0x11], true, false),
    (&[0xB0, 0x7B, 0x27, 0x13], true, false),
    (&[0xB0, 0x78, 0x07, 0x30], true, false),
    (&[0xB0, 0x7B, 0x07, 0x33], true, false),
    (&[0xB0, 0x7C, 0x27, 0x14], false, false),
    (&[0xB0, 0x78, 0x37, 0x00], false, false),
    (&[0xB2, 0x78, 0x27, 0x12], false, false),
    (&[0x83, 0x7C], false, false),
];

#[test]
fn one_request_of_a_round_is_answered(rt: HostRuntime) -> Result<(), Fail> {
    for (bytes, asks, begins) in REQUESTS {
        let message = message(bytes).ok_or("message")?;
        assert_eq!(rt; is_interrogation(&message), asks);
        assert_eq!(rt; begins_interrogation(&message), begins);
        assert!(rt; SensorReport::read(&message).is_some() == (bytes.first() == Some(&0xB2)));
    }
    Ok(())
}
