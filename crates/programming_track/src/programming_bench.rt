//! A programming track with decoders for it.
ghost use Rattle.std.specs.Prelude.{◌≡◌, ◌≤◌, ◌<◌, ◌*◌, ◌/◌, ◌%◌, IfSome, IsTrue, OnOk, None, length, option_copied, position};
ghost use Rattle.std.specs.List.{list_all, slice_index_or};
ghost use Rattle.std.specs.Str.{bytes_eq};
ghost use Rattle.arrayvec.specs.ArrayString.{ArrayString as ArrayStringValue};
ghost use Rattle.programmer.specs.Machine.{reply_of};
ghost use Rattle.programmer.specs.Replies.{is_legal_reply};
ghost use Rattle.programmer.specs.Requests.{is_for_programmer, request_in};
ghost use Rattle.programming_track.specs.Bench.{IsBench, bare, bench_elapsed, bench_requested, decoder_named, dismounted, first_mounted, has_decoder, is_changed_at, is_index, is_changed_in, memory_of, mounted_as, name_at, name_on, next_change, number_at, put_on, value_at, value_in, with_decoder, with_failing};
ghost use Rattle.programming_track.specs.Time.{ends_within, is_legal_end};

use crate::packet_end::{DecoderName, PacketEnds};
use crate::programming_track::ProgrammingTrack;
use arrayvec::ArrayVec;
use cv_memory::{CV_COUNT, CvMemory};
use ln_frame::Msg;
use programmer::TaskReply;
use std::alloc::{AllocError, Global};
use std::marker::Model;

/// The most decoders of a bench.
pub const MAX_DECODERS: usize = 64;

/// A programming track, and decoders of which one may stand on it. Each keeps its variables when it is
/// taken off the track and put on it again.
#[derive(Drop)]
pub struct ProgrammingBench {
    track: ProgrammingTrack,
    names: ArrayVec<DecoderName, MAX_DECODERS>,
    /// The variables of each decoder that does not stand on the track.
    memories: Vec<Option<CvMemory>>,
    /// The index of the decoder that stands on the track.
    mounted: Option<usize>,
}

impl Model for ProgrammingBench {
    ghost use Rattle.std.specs.Prelude.{◌≡◌, ◌<◌, IfSome, length};
    ghost use Rattle.programming_track.specs.Bench.{BenchState};

    ghost Value = { BenchState };

    ghost view = { λ b. record {
      track = b.track;
      names = b.names.items;
      memories = b.memories.items;
      mounted = b.mounted;
    } };

    ghost invariant = { λ b. (length b.names.items ≡ length b.memories.items)
        × IfSome b.mounted (λ index. index < length b.memories.items) };
}

impl ProgrammingBench {
    /// A bench with an empty track and no decoders.
    pub fn new(alloc: Global) -> ProgrammingBench
        ensures { result ≡ bare }
    {
        ProgrammingBench {
            track: ProgrammingTrack::new(None),
            names: ArrayVec::new(),
            memories: Vec::new(alloc),
            mounted: None,
        }
    }

    /// How many decoders there are, at most 64.
    pub fn len(&self) -> usize
        ensures count { result ≡ length self.now.names }
        ensures most { result ≤ 64 }
        ensures bench { IsBench self.now }
    {
        self.names.len()
    }

    /// Adds a decoder, which does not stand on the track, under a name of at most 16 bytes. There are
    /// at most 64.
    ///
    /// # Errors
    ///
    /// Out of memory.
    pub fn add(&mut self, name: &str, memory: CvMemory) -> Result<(), AllocError>
        requires room { length self.old.names < 64 }
        requires name { length name.now ≤ 16 }
        ensures added { OnOk result ((own : ArrayStringValue) × (own.bytes ≡ name.now)
            × (self.new ≡ with_decoder self.old own memory)) }
    {
        let mut own = DecoderName::new();
        own.push_str(name);
        if self.memories.push(Some(memory)).is_err() {
            return Err(AllocError);
        }
        self.names.push(own);
        Ok(())
    }

    /// Puts the first decoder on the track, if there is one. None stands there before.
    pub fn mount_first(&mut self)
        ensures { self.new ≡ first_mounted self.old }
    {
        if !self.memories.is_empty() {
            self.put_on(0);
        }
    }

    /// Puts the first decoder of this name on the track. Returns false, and changes nothing, if there
    /// is none. The decoder has heard nothing, and a task under way goes on.
    pub fn mount(&mut self, name: &[u8]) -> bool
        ensures state { self.new ≡ mounted_as name.now self.old }
        ensures found { result ≡ has_decoder self.old name.now }
    {
        match self.find(name) {
            Some(index) => {
                self.dismount();
                self.put_on(index);
                true
            }
            None => false,
        }
    }

    /// Takes the decoder off the track, if one stands there.
    pub fn dismount(&mut self)
        ensures state { self.new ≡ dismounted self.old }
        ensures count { length self.new.memories ≡ length self.old.memories }
    {
        let memory = self.track.mount(None);
        if let Some(index) = self.mounted {
            self.memories[index] = memory;
        }
        self.mounted = None;
    }

    /// Lets acknowledgments fail from now on, or not.
    pub fn set_failing(&mut self, fails: bool)
        ensures { self.new ≡ with_failing fails self.old }
    {
        self.track.fails = fails;
    }

    /// Does what a message asks for. Returns the reply, or `None` if the message is not for slot 124
    /// and goes to the station.
    pub fn request(&mut self, message: &Msg) -> Option<TaskReply>
        ensures state { self.new ≡ bench_requested self.old message.now }
        ensures reply { result ≡ reply_of self.old.track.programmer (request_in message.now) }
        ensures legal { IfSome result (λ reply. IsTrue (is_legal_reply reply)) }
    {
        self.track.request(message)
    }

    /// Lets time elapse, at most the longest turn of the main track, 12,540 microseconds. Returns the
    /// packets that ended in it.
    pub fn elapse(&mut self, micros: u32) -> PacketEnds
        requires { micros ≤ 12540 }
        ensures state { self.new ≡ bench_elapsed micros self.old }
        ensures ends { result.items ≡ ends_within micros self.old.track }
        ensures legal { IsTrue (list_all is_legal_end result.items) }
    {
        self.track.elapse(micros)
    }

    /// The name of the decoder that stands on the track, if one does.
    pub fn mounted_name(&self) -> Option<DecoderName>
        ensures { result ≡ name_on self.now }
    {
        match self.mounted {
            Some(index) => Some(self.names.as_slice()[index]),
            None => None,
        }
    }

    /// The position from this one on, of the next variable that differs from the file: 1024 times the
    /// index of its decoder, and its address.
    pub fn next_change(&self, from: usize) -> Option<usize>
        ensures next { result ≡ next_change self.now from }
        ensures within { IfSome result (λ found. found < 1024 * length self.now.names) }
        ensures most { IfSome result (λ found. found < 65536) }
    {
        for position in from..CV_COUNT * self.names.len() {
            if self.is_changed_at(position) {
                return Some(position);
            }
        }
        None
    }

    /// The name of the decoder whose variable has this position, at most 16 bytes.
    pub fn name(&self, position: usize) -> &str
        requires { position < 1024 * length self.now.names }
        ensures name { result.now ≡ name_at self.now position }
        ensures most { length result.now ≤ 16 }
    {
        self.names.as_slice()[position / CV_COUNT].as_str()
    }

    /// The number of the variable at a position, 1 to 1024.
    pub fn number(&self, position: usize) -> u16
        ensures number { result ≡ number_at position }
        ensures most { result ≤ 1024 }
    {
        (position % CV_COUNT) as u16 + 1
    }

    /// The value of the variable at a position.
    pub fn value(&self, position: usize) -> u8
        ensures { result ≡ value_at self.now position }
    {
        match self.memory(position / CV_COUNT) {
            Some(memory) => memory.value((position % CV_COUNT) as u16),
            None => 0,
        }
    }

    /// Whether the variable at a position differs from the file.
    fn is_changed_at(&self, position: usize) -> bool
        ensures { result ≡ is_changed_at self.now position }
    {
        match self.memory(position / CV_COUNT) {
            Some(memory) => memory.is_changed((position % CV_COUNT) as u16),
            None => false,
        }
    }

    /// The variables of a decoder.
    fn memory(&self, index: usize) -> Option<&CvMemory>
        ensures { option_copied result ≡ memory_of self.now index }
    {
        if self.is_mounted(index) {
            self.track.decoder.as_ref()
        } else if index < self.memories.len() {
            self.memories[index].as_ref()
        } else {
            None
        }
    }

    /// Whether a decoder stands on the track.
    fn is_mounted(&self, index: usize) -> bool
        ensures { result ≡ is_index self.now.mounted index }
    {
        match self.mounted {
            Some(mounted) => mounted == index,
            None => false,
        }
    }

    /// The index of the first decoder of this name.
    fn find(&self, name: &[u8]) -> Option<usize>
        ensures index { result ≡ decoder_named self.now name.now }
        ensures within { IfSome result (λ index. index < length self.now.memories) }
    {
        self.names
            .as_slice()
            .iter()
            .position(|own| has_name(own, name))
    }

    /// Puts a decoder on the track, where none stands.
    fn put_on(&mut self, index: usize)
        requires { index < length self.old.memories }
        ensures { self.new ≡ put_on index self.old }
    {
        let memory = self.memories[index].take();
        self.track.mount(memory);
        self.mounted = Some(index);
    }
}

fn has_name(own: &DecoderName, name: &[u8]) -> bool
    ensures { result ≡ bytes_eq own.now.bytes name.now }
{
    own.as_str().as_bytes() == name
}
