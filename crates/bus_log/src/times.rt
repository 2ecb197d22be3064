//! The time with which a line of the log may begin.
ghost use Rattle.std.specs.Prelude.{◌≡◌, ◌<◌, ◌≤◌, ◌+◌, ◌++◌, length, option_map};
ghost use Rattle.bus.specs.Bus.{duration};
ghost use Rattle.bus_log.specs.Times.{first_times, three_digits, time_text, times_after, two_digits};

use crate::turn_times::TurnTimes;
use arrayvec::ArrayString;
use bus::{Outcome, SHORTEST_TURN};
use dcc_packet::Packet;
use half_bits::duration_in_micros;
use text::{PushAscii, push_number};

/// The text before a line, at most 32 bytes.
pub(crate) type Stamp = ArrayString<32>;

/// The times of the turn that is under way at the start.
pub(crate) fn first_times() -> TurnTimes
    ensures { result ≡ first_times }
{
    TurnTimes {
        began: 0,
        ends: u64::from(duration(&None)),
    }
}

/// Returns the times of the turn that is under way after an outcome.
pub(crate) fn times_after(before: TurnTimes, outcome: &Outcome) -> TurnTimes
    ensures { result ≡ times_after before outcome.now }
{
    match outcome {
        Outcome::TurnBegan { packet } => TurnTimes {
            began: before.ends,
            ends: before.ends.saturating_add(u64::from(duration(packet))),
        },
        _ => before,
    }
}

/// Returns the duration of a turn that sends this packet, or none, in microseconds.
fn duration(packet: &Option<Packet>) -> u32
    ensures { result ≡ duration packet.now }
{
    half_bits::laws::durations_are_bounded();
    match packet {
        Some(packet) => duration_in_micros(packet),
        None => SHORTEST_TURN,
    }
}

/// Returns a time in milliseconds as hours, minutes, seconds and milliseconds, as `0:00:12.345 `.
pub(crate) fn time_stamp(millis: u64) -> Stamp
    ensures { result.bytes ≡ time_text millis }
{
    let mut stamp = Stamp::new();
    push_number(&mut stamp, millis / 3_600_000);
    stamp.push_ascii(b':');
    push_two_digits(&mut stamp, (millis / 60_000 % 60) as u8);
    stamp.push_ascii(b':');
    push_two_digits(&mut stamp, (millis / 1_000 % 60) as u8);
    stamp.push_ascii(b'.');
    push_three_digits(&mut stamp, (millis % 1_000) as u16);
    stamp.push_ascii(b' ');
    stamp
}

fn push_two_digits(stamp: &mut Stamp, n: u8)
    requires range { n < 100 }
    requires room { length stamp.old.bytes + 2 ≤ 32 }
    ensures { stamp.new.bytes ≡ stamp.old.bytes ++ two_digits n }
{
    stamp.push_ascii(b'0' + n / 10);
    stamp.push_ascii(b'0' + n % 10);
}

fn push_three_digits(stamp: &mut Stamp, n: u16)
    requires range { n < 1000 }
    requires room { length stamp.old.bytes + 3 ≤ 32 }
    ensures { stamp.new.bytes ≡ stamp.old.bytes ++ three_digits n }
{
    stamp.push_ascii(b'0' + (n / 100) as u8);
    push_two_digits(stamp, (n % 100) as u8);
}
