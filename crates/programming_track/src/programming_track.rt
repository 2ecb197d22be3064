//! The programming track.
ghost use Rattle.std.specs.Prelude.{◌≡◌, ◌↔◌, ◌≤◌, ◌<◌, ◌-◌, IfSome, IsSome, IsTrue, Some, false, max, option_map};
ghost use Rattle.std.specs.List.{list_all};
ghost use Rattle.service_mode.specs.Spelling.{is_legal_packet};
ghost use Rattle.cv_memory.specs.Hearing.{acknowledges, heard};
ghost use Rattle.programmer.specs.Machine.{idle, reply_of};
ghost use Rattle.programmer.specs.Replies.{is_legal_reply};
ghost use Rattle.programmer.specs.Requests.{is_for_programmer, request_in};
ghost use Rattle.programming_track.specs.Tasks.{change_on, decoder_after, load_of};
ghost use Rattle.programming_track.specs.Time.{elapsed_by, ends_within, is_legal_end, micros_of};
ghost use Rattle.programming_track.specs.Track.{at_packet_start, requested, restarted};

use crate::packet_end::{PacketEnd, PacketEnds};
use cv_memory::{CvChange, CvMemory};
use half_bits::duration_in_micros;
use ln_frame::Msg;
use programmer::{Load, Programmer, TaskReply};
use service_mode::ServicePacket;

/// The ones of the preamble that the main track has not: 20 and not 14 (S-9.2.3), in microseconds.
const LONGER_PREAMBLE: u32 = 6 * 116;

/// A programming track.
#[derive(Drop)]
pub struct ProgrammingTrack {
    pub programmer: Programmer,
    /// The decoder that stands on the track, if one does.
    pub decoder: Option<CvMemory>,
    /// Whether acknowledgments fail: the decoder obeys, and nothing is drawn.
    pub fails: bool,
    /// The microseconds of the packet under way that have passed; 0 if there is none.
    pub elapsed: u32,
}

impl ProgrammingTrack {
    /// A track with a decoder or none, on which no task has been requested.
    pub fn new(decoder: Option<CvMemory>) -> ProgrammingTrack
        ensures { result ≡ at_packet_start idle false decoder }
    {
        ProgrammingTrack {
            programmer: Programmer::new(),
            decoder,
            fails: false,
            elapsed: 0,
        }
    }

    /// Does what a message asks for. Returns the reply, or `None` if the message is not for slot 124
    /// and goes to the station.
    pub fn request(&mut self, message: &Msg) -> Option<TaskReply>
        ensures state { self.new ≡ requested self.old message.now }
        ensures reply { result ≡ reply_of self.old.programmer (request_in message.now) }
        ensures legal { IfSome result (λ reply. IsTrue (is_legal_reply reply)) }
        ensures withheld { IsSome result ↔ IsTrue (is_for_programmer message.now) }
    {
        let reply = self.programmer.request(message);
        if !self.programmer.is_busy() {
            self.elapsed = 0;
        }
        reply
    }

    /// Puts another decoder on the track, or none. It has heard nothing, and a task under way goes on.
    /// Returns the decoder that stood there.
    pub fn mount(&mut self, decoder: Option<CvMemory>) -> Option<CvMemory>
        ensures state { self.new ≡ record self.old { decoder = option_map restarted decoder } }
        ensures before { result ≡ self.old.decoder }
    {
        let before = self.decoder.take();
        if let Some(mut decoder) = decoder {
            decoder.restart();
            self.decoder = Some(decoder);
        }
        before
    }

    /// Lets time elapse, at most the longest turn of the main track, 12,540 microseconds. Returns the
    /// packets that ended in it.
    pub fn elapse(&mut self, micros: u32) -> PacketEnds
        requires { micros ≤ 12540 }
        ensures state { self.new ≡ elapsed_by micros self.old }
        ensures ends { result.items ≡ ends_within micros self.old }
        ensures legal { IsTrue (list_all is_legal_end result.items) }
    {
        let mut left = micros;
        let mut ends = PacketEnds::new();
        'packets: while let Some(packet) = self.programmer.packet() {
            let rest = rest_of(packet, self.elapsed);
            if left < rest {
                self.elapsed += left;
                return ends;
            }
            left -= rest;
            self.elapsed = 0;
            let change = change_on(&self.decoder, packet);
            let load = send(&mut self.decoder, self.fails, packet);
            let result = self.programmer.step(load);
            ends.push(PacketEnd {
                packet,
                result,
                change,
            });
        }
        ends
    }
}

/// What a packet changes of the decoder's variables, if there is one.
fn change_on(decoder: &Option<CvMemory>, packet: ServicePacket) -> Option<CvChange>
    requires { IsTrue (is_legal_packet packet) }
    ensures { result ≡ change_on decoder.now packet }
{
    match decoder {
        Some(decoder) => decoder.change_by(packet),
        None => None,
    }
}

/// Sends a packet. Returns what is drawn.
fn send(decoder: &mut Option<CvMemory>, fails: bool, packet: ServicePacket) -> Load
    requires { IsTrue (is_legal_packet packet) }
    ensures load { result ≡ load_of fails decoder.old packet }
    ensures decoder { decoder.new ≡ decoder_after decoder.old packet }
{
    match decoder {
        Some(decoder) => {
            let acknowledged = hear(decoder, packet);
            Load::Decoder {
                acknowledged: acknowledged && !fails,
            }
        }
        None => Load::Empty,
    }
}

/// Lets a decoder hear a packet. Returns whether it acknowledges.
fn hear(decoder: &mut CvMemory, packet: ServicePacket) -> bool
    requires { IsTrue (is_legal_packet packet) }
    ensures state { decoder.new ≡ heard decoder.old (Some packet) }
    ensures answer { result ≡ acknowledges decoder.old (Some packet) }
{
    // The bytes of a packet are read as that packet.
    service_mode::spellings_are_read();
    let packet = packet.packet();
    decoder.hear(packet.bytes())
}

/// How many microseconds of a packet are left, and at least one.
fn rest_of(packet: ServicePacket, elapsed: u32) -> u32
    requires { IsTrue (is_legal_packet packet) }
    ensures rest { result ≡ max 1 (micros_of packet - elapsed) }
    ensures shortest { 5820 ≤ micros_of packet }
    ensures longest { micros_of packet ≤ 13236 }
{
    micros(packet).saturating_sub(elapsed).max(1)
}

/// How many microseconds a packet takes.
fn micros(packet: ServicePacket) -> u32
    requires { IsTrue (is_legal_packet packet) }
    ensures micros { result ≡ micros_of packet }
    ensures shortest { 5820 ≤ result }
    ensures longest { result ≤ 13236 }
{
    let packet = packet.packet();
    duration_in_micros(&packet) + LONGER_PREAMBLE
}
