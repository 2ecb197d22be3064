//! The lines of the programming track.
ghost use Rattle.std.specs.Prelude.{◌≡◌, ◌∷◌, []};
ghost use Rattle.bus_log.specs.Lines.{change_line, change_lines, programming_line, programming_lines, sent_lines};
ghost use Rattle.bus_log.specs.LogQueues.{after_lines};

use crate::log_queue::LogQueue;
use cv_memory::CvChange;
use dcc_packet::Packet;
use programming_track::NamedChange;
use show_text::Line;
use text::{push_hex_words, push_number};

/// Prints a packet of the programming track, with the turns of the main track so far, if packets are
/// printed, and then the change that it made, if it made one.
pub(crate) fn print_programming(
    log: &mut LogQueue,
    track: bool,
    turns: u64,
    packet: &Packet,
    change: &Option<NamedChange>,
)
    ensures { log.new ≡ after_lines log.old (programming_lines track turns packet.now change.now) }
{
    print_sent(log, track, turns, packet);
    print_change(log, change);
}

/// Prints a packet, if packets are printed.
fn print_sent(log: &mut LogQueue, track: bool, turns: u64, packet: &Packet)
    ensures { log.new ≡ after_lines log.old (sent_lines track turns packet.now) }
{
    if track {
        log.print_line(&line_of(turns, packet));
    }
}

/// Prints a change, if there is one.
fn print_change(log: &mut LogQueue, change: &Option<NamedChange>)
    ensures { log.new ≡ after_lines log.old (change_lines change.now) }
{
    if let Some(change) = change {
        log.print_line(&line_of_change(change));
    }
}

/// Returns `programming`, a number, and the bytes of a packet in upper-case hexadecimal digits.
fn line_of(turns: u64, packet: &Packet) -> Line
    ensures { result.bytes ≡ programming_line turns packet.now }
{
    let mut line = Line::new();
    line.push_str("programming ");
    push_number(&mut line, turns);
    push_hex_words(&mut line, packet.bytes());
    line
}

/// Returns `cv`, the decoder's name, and the number of the variable and its value, or that all are as in
/// the file.
fn line_of_change(change: &NamedChange) -> Line
    ensures { result.bytes ≡ change_line change.now }
{
    let mut line = Line::new();
    line.push_str("cv ");
    line.push_str(change.name.as_str());
    match change.change {
        CvChange::Stored { address, value } => {
            line.push_str(" ");
            push_number(&mut line, u64::from(address) + 1);
            line.push_str(" = ");
            push_number(&mut line, u64::from(value));
        }
        CvChange::Reset => line.push_str(" as in the file"),
    }
    line
}
