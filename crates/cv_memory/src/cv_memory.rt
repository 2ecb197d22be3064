//! A decoder on the programming track.
ghost use Rattle.std.specs.Prelude.{◌≡◌, ◌<◌, ◌≤◌, ℕ, IfNone, IfSome, IsTrue, false, Some, None, length, not, slice_index};
ghost use Rattle.service_mode.specs.declared.packet.ServicePacket.TheVariants.{Direct};
ghost use Rattle.service_mode.specs.Reading.{packet_of};
ghost use Rattle.service_mode.specs.Spelling.{is_legal, is_legal_packet};
ghost use Rattle.decoder_cv.specs.Listed.{value_in};
ghost use Rattle.cv_memory.specs.Changes.{change_between, change_by, is_changed, reset_between, stored_between};
ghost use Rattle.cv_memory.specs.Filed.{filed_value};
ghost use Rattle.cv_memory.specs.Hearing.{acknowledges, heard, is_acknowledged, is_obeyed, is_read_only, is_reset, stored, values_after, with_bit};
ghost use Rattle.cv_memory.specs.History.{unheard};

use crate::cv_change::CvChange;
use decoder_cv::CvPair;
use service_mode::{Instruction, ServicePacket, read};
use std::marker::Model;

/// How many variables a decoder has: CV1 to CV1024.
pub const CV_COUNT: usize = 1024;

/// The address of CV7, the version of the decoder.
const VERSION: u16 = 6;

/// The address of CV8, the manufacturer of the decoder.
const MANUFACTURER: u16 = 7;

/// The address of CV17, the first byte of a long address.
const FIRST_OF_TWO: u16 = 16;

/// What is written to CV8 to reset the decoder.
const RESET: u8 = 8;

/// The configuration variables of a decoder, and what it heard on the programming track.
///
/// CV7 and CV8 are read only (S-9.2.2). A write of 8 to CV8 gives all variables the values of the
/// decoder's file, as in decoders in use.
#[derive(Clone, Drop)]
pub struct CvMemory {
    values: [u8; CV_COUNT],
    filed: [u8; CV_COUNT],
    service: bool,
    last: Option<Instruction>,
}

impl Model for CvMemory {
    ghost use Rattle.cv_memory.specs.Hearing.{CvState};

    ghost Value = { CvState };

    ghost view = { λ m.
        record { values = m.values; filed = m.filed; service = m.service; last = m.last } };
}

impl CvMemory {
    /// A decoder with these values of CV1 to CV1024 in its file, which has heard nothing.
    pub fn new(filed: [u8; CV_COUNT]) -> CvMemory
        ensures { result ≡ unheard filed filed }
    {
        CvMemory {
            values: filed,
            filed,
            service: false,
            last: None,
        }
    }

    /// A decoder whose file lists these variables, each once. CV17 that is not listed is 192, all others
    /// are 0.
    pub fn of_list(pairs: &[CvPair]) -> CvMemory
        ensures values { (address : ℕ) → address < 1024
            → slice_index result.values address ≡ filed_value pairs.now address }
        ensures new { result ≡ unheard result.values result.values }
    {
        let mut values = [0; CV_COUNT];
        for address in 0..1024 {
            values[usize::from(address)] = filed_value(pairs, address);
        }
        CvMemory::new(values)
    }

    /// Switches the decoder off and on: it has heard nothing, and keeps its variables.
    pub fn restart(&mut self)
        ensures { self.new ≡ unheard self.old.values self.old.filed }
    {
        self.service = false;
        self.last = None;
    }

    /// The value of the variable at an address, 0 to 1023, one less than its number.
    pub fn value(&self, address: u16) -> u8
        requires { address < 1024 }
        ensures { result ≡ slice_index self.now.values address }
    {
        self.values[usize::from(address)]
    }

    /// The values of all variables, from CV1 on.
    pub fn values(&self) -> &[u8]
        ensures value { result.now ≡ self.now.values }
        ensures length { length result.now ≡ 1024 }
        ensures bytes { (i : ℕ) → slice_index result.now i < 256 }
    {
        as_bytes(&self.values)
    }

    /// The first address from this one on, 0 to 1023, at which a variable differs from the file.
    pub fn next_change(&self, address: u16) -> Option<u16>
        ensures changed { IfSome result (λ found. (address ≤ found) × (found < 1024)
            × IsTrue (is_changed self.now found)) }
        ensures first { IfSome result (λ found. (other : ℕ) → address ≤ other → other < found
            → is_changed self.now other ≡ false) }
        ensures none { IfNone result ((other : ℕ) → address ≤ other → other < 1024
            → is_changed self.now other ≡ false) }
    {
        for at in address..1024 {
            if self.is_changed(at) {
                return Some(at);
            }
        }
        None
    }

    /// Whether the variable at an address, 0 to 1023, differs from the file.
    pub fn is_changed(&self, address: u16) -> bool
        requires { address < 1024 }
        ensures { result ≡ is_changed self.now address }
    {
        self.values[usize::from(address)] != self.filed[usize::from(address)]
    }

    /// What the decoder changes of its variables when it hears this packet.
    pub fn change_by(&self, packet: ServicePacket) -> Option<CvChange>
        requires { IsTrue (is_legal_packet packet) }
        ensures { result ≡ change_by self.now (Some packet) }
    {
        match packet {
            ServicePacket::Direct(instruction) if self.obeys(instruction) => {
                self.change_of(instruction)
            }
            _ => None,
        }
    }

    /// Hears the bytes of a packet. Returns whether the decoder acknowledges it.
    pub fn hear(&mut self, packet: &[u8]) -> bool
        ensures state { self.new ≡ heard self.old (packet_of packet.now) }
        ensures answer { result ≡ acknowledges self.old (packet_of packet.now) }
    {
        match read(packet) {
            None => {
                self.service = false;
                self.last = None;
                false
            }
            Some(ServicePacket::Reset) => {
                self.service = true;
                self.last = None;
                false
            }
            Some(ServicePacket::Direct(instruction)) => self.hear_instruction(instruction),
        }
    }

    /// Hears an instruction. Returns whether the decoder acknowledges it.
    fn hear_instruction(&mut self, instruction: Instruction) -> bool
        requires { IsTrue (is_legal instruction) }
        ensures state { self.new ≡ heard self.old (Some (Direct instruction)) }
        ensures answer { result ≡ acknowledges self.old (Some (Direct instruction)) }
    {
        if !self.service {
            self.last = None;
            return false;
        }
        let obeys = self.obeys(instruction);
        self.last = Some(instruction);
        if obeys { self.obey(instruction) } else { false }
    }

    /// Whether the decoder obeys an instruction that comes now.
    fn obeys(&self, instruction: Instruction) -> bool
        ensures { result ≡ is_obeyed self.now instruction }
    {
        match self.last {
            Some(last) => self.service && last.is_same(instruction),
            None => false,
        }
    }

    /// What an instruction that is obeyed changes.
    fn change_of(&self, instruction: Instruction) -> Option<CvChange>
        requires { IsTrue (is_legal instruction) }
        ensures { result
            ≡ change_between instruction self.now.values (values_after self.now instruction) }
    {
        match instruction {
            Instruction::VerifyByte { .. } | Instruction::VerifyBit { .. } => None,
            Instruction::WriteByte { address, value } => {
                if is_reset(address, value) {
                    self.change_of_reset()
                } else {
                    self.change_of_store(address, value)
                }
            }
            Instruction::WriteBit { address, bit, on } => {
                let value = with_bit(self.values[usize::from(address)], bit, on);
                self.change_of_store(address, value)
            }
        }
    }

    /// What a reset changes.
    fn change_of_reset(&self) -> Option<CvChange>
        ensures { result ≡ reset_between self.now.values self.now.filed }
    {
        if as_bytes(&self.values) == as_bytes(&self.filed) {
            None
        } else {
            Some(CvChange::Reset)
        }
    }

    /// What it changes to store a value.
    fn change_of_store(&self, address: u16, value: u8) -> Option<CvChange>
        requires { address < 1024 }
        ensures { result
            ≡ stored_between address self.now.values (stored self.now.values address value) }
    {
        if is_read_only(address) || self.values[usize::from(address)] == value {
            None
        } else {
            Some(CvChange::Stored { address, value })
        }
    }

    /// Obeys an instruction. Returns whether the decoder acknowledges it.
    fn obey(&mut self, instruction: Instruction) -> bool
        requires { IsTrue (is_legal instruction) }
        ensures state { self.new
            ≡ record self.old { values = values_after self.old instruction } }
        ensures answer { result ≡ is_acknowledged self.old instruction }
    {
        match instruction {
            Instruction::VerifyByte { address, value } => {
                self.values[usize::from(address)] == value
            }
            Instruction::VerifyBit { address, bit, on } => {
                (self.values[usize::from(address)] >> bit) & 1 == u8::from(on)
            }
            Instruction::WriteByte { address, value } => {
                if is_reset(address, value) {
                    self.values = self.filed;
                    true
                } else {
                    self.store(address, value)
                }
            }
            Instruction::WriteBit { address, bit, on } => {
                let value = with_bit(self.values[usize::from(address)], bit, on);
                self.store(address, value)
            }
        }
    }

    /// Stores a value, unless the variable is read only. Returns whether it is stored.
    fn store(&mut self, address: u16, value: u8) -> bool
        requires { address < 1024 }
        ensures state { self.new
            ≡ record self.old { values = stored self.old.values address value } }
        ensures answer { result ≡ not (is_read_only address) }
    {
        if is_read_only(address) {
            return false;
        }
        self.values[usize::from(address)] = value;
        true
    }
}

/// The value of the variable at an address, by a file that lists these.
fn filed_value(pairs: &[CvPair], address: u16) -> u8
    requires { address < 1024 }
    ensures { result ≡ filed_value pairs.now address }
{
    match value_in(pairs, address + 1) {
        Some(value) => value,
        None if address == FIRST_OF_TWO => 192,
        None => 0,
    }
}

/// The value that a list has for a variable, if it names it.
fn value_in(pairs: &[CvPair], number: u16) -> Option<u8>
    ensures { result ≡ value_in number pairs.now }
{
    pairs
        .iter()
        .find(|pair| pair.number == number)
        .map(|pair| pair.value)
}

/// Whether a variable cannot be written.
fn is_read_only(address: u16) -> bool
    ensures { result ≡ is_read_only address }
{
    address == VERSION || address == MANUFACTURER
}

/// Whether a value that is written resets the decoder.
fn is_reset(address: u16, value: u8) -> bool
    ensures { result ≡ is_reset address value }
{
    address == MANUFACTURER && value == RESET
}

/// The same bytes.
fn as_bytes(bytes: &[u8]) -> &[u8]
    ensures value { result.now ≡ bytes.now }
    ensures bytes { (i : ℕ) → slice_index result.now i < 256 }
{
    bytes
}

/// A byte with one bit on or off.
fn with_bit(value: u8, bit: u8, on: bool) -> u8
    requires { bit < 8 }
    ensures { result ≡ with_bit value bit on }
{
    if (value >> bit) & 1 == u8::from(on) {
        value
    } else {
        value ^ (1 << bit)
    }
}
