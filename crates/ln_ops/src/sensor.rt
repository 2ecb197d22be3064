//! What sensors report, and the request that asks all of them to report (LocoNet Personal Use
//! Edition 1.0, OPC_INPUT_REP and OPC_SW_REQ).
ghost use Rattle.std.specs.Prelude.{◌≡◌};
ghost use Rattle.ln_frame.specs.Message.{IsWhole};
ghost use Rattle.ln_ops.specs.Sensor.{begins_interrogation, is_interrogation, report_bytes, report_of};

use crate::op::OPC_SW_REQ;
use ln_frame::Msg;

/// A sensor reports its level.
const OPC_INPUT_REP: u8 = 0xB2;

/// The last sensor. Sensors count from 1, as layout software shows them.
pub const LAST_SENSOR: u16 = 4096;

/// The report of a sensor: its block is occupied, or is free.
#[derive(Clone, Copy, Default, PartialEq, Eq)]
pub struct SensorReport {
    /// The sensor, 1 to 4096.
    pub sensor: u16,
    /// Whether its block is occupied.
    pub occupied: bool,
}

impl SensorReport {
    /// Returns the message of this report.
    pub fn message(self) -> Msg
        ensures whole { IsWhole result }
        ensures bytes { result ≡ report_bytes self.sensor self.occupied }
    {
        let index = self.sensor.saturating_sub(1);
        let low = (index / 2 % 128) as u8;
        let level = u8::from(self.occupied) * 16;
        let high = 64 + (index % 2) as u8 * 32 + level + (index / 256 % 16) as u8;
        Msg::sealed(&[OPC_INPUT_REP, low, high])
    }

    /// Returns the report that a message is, or `None` for any other message.
    pub fn read(message: &Msg) -> Option<SensorReport>
        ensures report { result ≡ report_of message.now }
    {
        match message.bytes() {
            [OPC_INPUT_REP, low, high, _] => {
                let index = u16::from(high % 16) * 256 + u16::from(*low) * 2;
                Some(SensorReport {
                    sensor: 1 + index + u16::from(high / 32 % 2),
                    occupied: high / 16 % 2 == 1,
                })
            }
            _ => None,
        }
    }
}

/// Whether a message is one of the eight requests by which layout software asks all sensors to
/// report: for turnouts 1017 to 1020, closed and thrown, with the output off.
pub fn is_interrogation(message: &Msg) -> bool
    ensures asks { result ≡ is_interrogation message.now }
{
    match message.bytes() {
        [OPC_SW_REQ, sw1, sw2, _] => *sw1 / 4 == 0x1E && *sw2 % 32 == 0x07,
        _ => false,
    }
}

/// Whether a message is the first of these eight requests, for turnout 1017 closed.
///
/// It alone is answered, so that one round gives one report of each sensor.
pub fn begins_interrogation(message: &Msg) -> bool
    ensures begins { result ≡ begins_interrogation message.now }
{
    match message.bytes() {
        [OPC_SW_REQ, sw1, sw2, _] => *sw1 == 0x78 && *sw2 % 64 == 0x27,
        _ => false,
    }
}
