//! The value change dump of packets (IEEE 1364, 18).
ghost use Rattle.std.specs.Prelude.{ℕ, false, ◌≡◌, ◌+◌, ◌*◌, ◌<◌, ◌≤◌, ◌^◌, ◌⊎◌, Some, true, IfErr, IfOk, OnOk, sum};
ghost use Rattle.std.specs.Io.KnownBytes.{Appends};
ghost use Rattle.half_bits.specs.Halves.{halves_of};
ghost use Rattle.filter.specs.Fault.{is_unwritten};
ghost use Rattle.filter.specs.declared.fault.FilterFault.TheVariants.{NoMemory, Output};
ghost use Rattle.track_signal.specs.Dump.{change_text, changes_from, changes_text, idle_halves, sent_halves, stamp};

use dcc_packet::{Packet, idle};
use filter::{FilterFault, FilterResult};
use half_bits::halves;
use input_text::{Output, put_all};
use std::io;
use std::io::Write;

/// The header before the first time stamp: the unit of time and the one wire.
pub(crate) const HEADER: &[u8] =
    b"$timescale 1 us $end\n$scope module track $end\n$var wire 1 ! rails $end\n$upscope $end\n$enddefinitions $end\n";

/// The buffer of a packet: at most 138 half-bits, each of at most 25 bytes.
pub(crate) const ROOM: usize = 4096;

/// Writes a time stamp.
fn write_stamp<O: Write>(time: u64, output: &mut O) -> io::Result<()>
    ensures { OnOk result (Appends (O.contents output.old) (O.contents output.new) (stamp time)) }
{
    writeln!(output, "#{time}")
}

/// Writes the change of the rails to this side at this time.
fn write_change<O: Write>(time: u64, is_high: bool, output: &mut O) -> io::Result<()>
    ensures { OnOk result
        (Appends (O.contents output.old) (O.contents output.new) (change_text time is_high)) }
{
    write_stamp(time, output)?;
    let value = if is_high { b"1!\n" } else { b"0!\n" };
    output.write_all(value)
}

/// Draws a packet that begins at time `start`, each bit as a high half and then a low one. Returns
/// the time of its end.
fn draw_packet<O: Write>(packet: &Packet, start: u64, output: &mut O) -> io::Result<u64>
    requires { start + 13800 < 2 ^ 64 }
    ensures text { OnOk result
        (Appends (O.contents output.old) (O.contents output.new)
        (changes_text (changes_from start true (halves_of packet.now)))) }
    ensures end { IfOk result (λ end. end ≡ start + sum (halves_of packet.now)) }
    ensures soon { IfOk result (λ end. end ≤ start + 13800) }
{
    let mut time = start;
    let mut is_high = true;
    for half in halves(packet) {
        write_change(time, is_high, output)?;
        time += u64::from(half);
        is_high = !is_high;
    }
    Ok(time)
}

/// Draws what a turn sent, by one write: `text` is cleared, and the packet drawn into it first.
/// Returns the time of its end; a turn that sent nothing takes no time.
pub(crate) fn write_sent<O: Output>(
    packet: &Option<Packet>,
    start: u64,
    text: &mut Vec<u8>,
    output: &mut O,
) -> Result<u64, FilterFault>
    requires end { start + 13800 < 2 ^ 64 }
    requires writes { O.failed output.old ≡ false }
    ensures text { OnOk result
        (Appends (O.held output.old) (O.held output.new)
        (changes_text (changes_from start true (sent_halves packet.now)))) }
    ensures end { IfOk result (λ end. end ≡ start + sum (sent_halves packet.now)) }
    ensures soon { IfOk result (λ end. end ≤ start + 13800) }
    ensures fault { IfErr result (λ e. (e ≡ Output) ⊎ (e ≡ NoMemory)) }
    ensures unwritten { O.failed output.new ≡ is_unwritten result }
{
    let Some(packet) = packet else {
        return Ok(start);
    };
    text.clear();
    let end = draw_packet(packet, start, text).map_err(|_| FilterFault::NoMemory)?;
    put_all(output, text.as_slice())?;
    Ok(end)
}

/// Writes the last time stamp by one write: `text` is cleared, and the stamp written into it first.
pub(crate) fn write_end<O: Output>(time: u64, text: &mut Vec<u8>, output: &mut O) -> FilterResult
    requires { O.failed output.old ≡ false }
    ensures text { OnOk result (Appends (O.held output.old) (O.held output.new) (stamp time)) }
    ensures fault { IfErr result (λ e. (e ≡ Output) ⊎ (e ≡ NoMemory)) }
    ensures unwritten { O.failed output.new ≡ is_unwritten result }
{
    text.clear();
    write_stamp(time, text).map_err(|_| FilterFault::NoMemory)?;
    Ok(put_all(output, text.as_slice())?)
}

/// Draws this many idle packets. Returns the time of their end.
pub(crate) fn write_idle<O: Output>(
    count: u64,
    start: u64,
    text: &mut Vec<u8>,
    output: &mut O,
) -> Result<u64, FilterFault>
    requires end { start + 13800 * count < 2 ^ 64 }
    requires writes { O.failed output.old ≡ false }
    ensures text { OnOk result
        (Appends (O.held output.old) (O.held output.new)
        (changes_text (changes_from start true (idle_halves count)))) }
    ensures end { IfOk result (λ end. end ≡ start + sum (idle_halves count)) }
    ensures soon { IfOk result (λ end. end ≤ start + 13800 * count) }
    ensures fault { IfErr result (λ e. (e ≡ Output) ⊎ (e ≡ NoMemory)) }
    ensures unwritten { O.failed output.new ≡ is_unwritten result }
{
    let mut time = start;
    let mut left = count;
    while left > 0 {
        time = write_sent(&Some(idle()), time, text, output)?;
        left -= 1;
    }
    Ok(time)
}
