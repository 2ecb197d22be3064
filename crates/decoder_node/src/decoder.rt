//! A decoder, for any effect of instructions.
ghost use Rattle.std.specs.Prelude.{◌≡◌, ℕ, List, None};
ghost use Rattle.std.specs.Iterator.{IsFinite, Drains};
ghost use Rattle.dcc_packet.specs.declared.instr.Instr.{Instr as InstrValue};
ghost use Rattle.decoder_node.specs.Heard.{obeying, after_receipt};

use crate::ONE;
use dcc_packet::{Instr, Packet, read};
use decoder_rx::{Rx, bit_of};
use half_bits::halves;
use std::marker::Model;

/// Settings by which a state obeys instructions.
pub trait Obeys<State> {
    /// The state after an instruction.
    ghost does: { Self → State → InstrValue → State };

    /// The invariant of the state.
    ghost holds: { State → Type 0 };

    /// Obeys the instruction of a packet; `None` leaves the state as it is.
    fn obey(&self, state: &mut State, instr: &Option<Instr>)
        requires { holds state.old }
        ensures obeys { state.new ≡ after_receipt (does self.now) state.old instr.now }
        ensures holds { holds state.new };
}

/// A decoder on the track: its settings, the state that obeys by them, and its receiver. It hears
/// the track half by half.
#[derive(Drop)]
pub struct Decoder<Settings: Obeys<State>, State> {
    pub(crate) settings: Settings,
    pub(crate) state: State,
    rx: Rx,
}

impl<Settings: Obeys<State>, State> Model for Decoder<Settings, State> {
    ghost use Rattle.decoder_node.specs.Decoder.{Decoder};

    ghost Value = { Decoder Settings State };

    ghost view = { λ decoder.
        record { settings = decoder.settings; state = decoder.state; receiver = decoder.rx } };

    ghost invariant = { λ decoder. Settings.holds decoder.state };
}

impl<Settings: Obeys<State>, State> Decoder<Settings, State> {
    ghost use Rattle.dcc_packet.specs.Reading.{instruction_of};
    ghost use Rattle.half_bits.specs.Halves.{halves_of};
    ghost use Rattle.decoder_rx.specs.Table.{given};
    ghost use Rattle.decoder_node.specs.Decoder.{fresh, IsBetween};
    ghost use Rattle.decoder_node.specs.Hearing.{heard, heard_all, Receives};

    /// Creates a decoder with these settings and this state, which has heard nothing.
    pub(crate) fn starting(settings: Settings, state: State) -> Self
        requires { Settings.holds state }
        ensures { result ≡ fresh settings state }
    {
        Decoder {
            settings,
            state,
            rx: Rx::new(),
        }
    }

    /// Hears the next half of the track, of `half` microseconds, and obeys the packet that it
    /// completes, if any.
    #[inline]
    pub fn hear(&mut self, half: u16)
        ensures heard { self.new ≡ heard Settings.does self.old half }
        ensures quiet { given self.old.receiver half ≡ None → self.new.state ≡ self.old.state }
    {
        if let Some(packet) = self.rx.hear(half) {
            self.obey_packet(&packet);
        }
    }

    /// Obeys a packet.
    #[inline(never)]
    fn obey_packet(&mut self, packet: &Packet)
        ensures { self.new
            ≡ record self.old {
              state = obeying (Settings.does self.old.settings) self.old.state
                  packet.now;
            } }
    {
        self.settings.obey(&mut self.state, &read(packet));
    }

    /// Hears each item in order.
    ///
    /// A decoder with no packet under way that hears a wave obeys its packet; any decoder that
    /// hears a wave has no packet under way then.
    pub fn hear_all<I: Iterator<Item = u16> + Drop>(&mut self, halves: I)
        requires can { I.can_next halves }
        requires ends { IsFinite (I.remaining halves) }
        ensures { (items : List ℕ) × Drains I.next_gives halves items
            × Receives Settings.does self.old items self.new }
    {
        decoder_rx::laws::complete();
        decoder_rx::laws::settles();
        let mut halves = halves;
        // The two halves of a bit are heard together, which is quicker.
        while let Some(first) = halves.next() {
            let Some(second) = halves.next() else {
                return self.hear(first);
            };
            self.hear_two(first, second);
        }
    }

    /// Hears two halves, one after the other: together, if they are those of a bit.
    #[inline]
    fn hear_two(&mut self, first: u16, second: u16)
        ensures { self.new ≡ heard Settings.does (heard Settings.does self.old first) second }
    {
        match (bit_of(first), bit_of(second)) {
            (Some(bit), Some(next)) if bit == next => {
                // A pair not heard is a one, and each half of a one has the same effect.
                if !self.rx.hear_bit(bit) {
                    self.hear_each(ONE, ONE);
                }
            }
            _ => self.hear_each(first, second),
        }
    }

    /// The same, each half separately.
    #[inline(never)]
    fn hear_each(&mut self, first: u16, second: u16)
        ensures { self.new ≡ heard Settings.does (heard Settings.does self.old first) second }
    {
        self.hear(first);
        self.hear(second);
    }

    /// Hears all half-bits of a packet that spells `instr`, or nothing, as `hear_all` does. It is
    /// faster if no packet is under way: then only the instruction is used.
    ///
    /// Afterwards no packet is under way, and a decoder that had none under way has obeyed this
    /// one.
    #[inline]
    pub fn hear_packet(&mut self, packet: &Packet, instr: &Option<Instr>)
        requires read { instr.now ≡ instruction_of packet.now }
        ensures hears { Receives Settings.does self.old (halves_of packet.now) self.new }
        ensures settles { IsBetween self.new }
        ensures obeys { IsBetween self.old
            → self.new.state ≡ obeying (Settings.does self.old.settings) self.old.state packet.now }
    {
        decoder_rx::laws::complete();
        decoder_rx::laws::settles();
        half_bits::laws::halves_are_a_wave(packet);
        self.hear_wave(packet, instr);
    }

    /// The same, faster if its receiver hears the wave at once.
    #[inline]
    fn hear_wave(&mut self, packet: &Packet, instr: &Option<Instr>)
        requires read { instr.now ≡ instruction_of packet.now }
        ensures { self.new ≡ heard_all Settings.does self.old (halves_of packet.now) }
    {
        decoder_rx::laws::complete();
        decoder_rx::laws::settles();
        half_bits::laws::halves_are_a_wave(packet);
        if !self.rx.hear_wave() {
            return self.hear_halves(packet);
        }
        self.settings.obey(&mut self.state, instr);
    }

    /// Hears all half-bits of a packet, half by half.
    #[inline(never)]
    fn hear_halves(&mut self, packet: &Packet)
        ensures { self.new ≡ heard_all Settings.does self.old (halves_of packet.now) }
    {
        self.hear_all(halves(packet));
    }
}
