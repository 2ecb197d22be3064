//! A station: the effect of a byte on one of its lines, or of a turn of its track, on its slots,
//! its power and its jobs.
ghost use Rattle.std.specs.Prelude.{◌≡◌, ℕ, ◌<◌, ◌∷◌, ◌++◌, [], List, Some, IfOk, IfErr, IfSome, length, true, false, IsTrue};
ghost use Rattle.std.specs.Option.{option_to_list};
ghost use Rattle.ln_frame.specs.Stream.{messages_of};
ghost use Rattle.ln_frame.specs.Unfinished.{unfinished_of};
ghost use Rattle.ln_ops.specs.Message.{op_of};
ghost use Rattle.ln_ops.specs.Reply.{IsSendable};
ghost use Rattle.refresh_ring.specs.Jobs.{requests_in, sends_ahead};
ghost use Rattle.refresh_ring.specs.Scheduled.{IsScheduled};
ghost use Rattle.slot_table.specs.Desk.{IsDesk};
ghost use Rattle.slot_table.specs.Entry.{IsRow, IsSlot};
ghost use Rattle.slot_table.specs.Reading.{row_of};
ghost use Rattle.station_core.specs.Packets.{IsPickOf};
ghost use Rattle.station_core.specs.ThrottleView.{known_after_all};
ghost use Rattle.station_core.specs.Messages.{bytes_on, carried_out_on};
ghost use Rattle.station_core.specs.Moments.{AtEveryMoment};
ghost use Rattle.station_core.specs.Neighbours.{NeighboursApart};
ghost use Rattle.station_core.specs.Powered.{HasDesk};
ghost use Rattle.station_core.specs.Promises.{ChangesFirst, ChangesWait, SwitchesAreSent, SwitchesInOrder};
ghost use Rattle.station_core.specs.Runs.{AreCalls, Covers, answer_of, answers, is_call, state_after, state_of};
ghost use Rattle.station_core.specs.Seen.{first_seen, is_line_count, known_of, line_of, scheduled};
ghost use Rattle.station_core.specs.Sent.{IsPacketOfDesk};
ghost use Rattle.station_core.specs.Station.{after_byte, after_message, after_turn, answer_to_byte, answer_to_message, message_ended, packet_of, packet_of_turn};

use crate::call::{Call, Step};
use crate::laws;
use crate::packets::entry_packet;
use crate::schedule::Addresses;
use arrayvec::ArrayVec;
use dcc_packet::{Packet, accessory, idle, stop_all};
use ln_frame::{Framer, Msg, left_is_enough};
use ln_ops::{Reply, Row, read};
use refresh_ring::{BitRing, Kind, Pick, Power, Schedule};
use slot_table::SlotTable;
use std::alloc::Global;
use std::marker::Model;

/// The most lines of a station.
pub const MAX_LINES: usize = 8;

/// Why a station was not made.
#[derive(Clone, Copy, Debug, PartialEq, Eq)]
pub enum StationFault {
    /// A station has 1 to 8 lines.
    BadLines,
    /// Out of memory for the jobs that wait.
    NoMemory,
}

/// A command station: up to eight LocoNet lines, which share only the slots, and the packets of the
/// track for the slots that are in use or common.
#[derive(Drop)]
pub struct Station {
    framers: ArrayVec<Framer, MAX_LINES>,
    pub(crate) table: SlotTable,
    pub(crate) power: Power,
    pub(crate) schedule: Schedule<BitRing>,
}

impl Model for Station {
    ghost use Rattle.std.specs.Coded.{codes};
    ghost use Rattle.slot_table.specs.Desk.{desk_code};
    ghost use Rattle.station_core.specs.Seen.{Seen};

    ghost Value = { Seen };

    ghost coded = { Prim.hlevel (codes, desk_code) };

    ghost use Rattle.station_core.specs.Seen.{seen_with};
    ghost use Rattle.station_core.specs.Kept.{IsStation};

    ghost view = { λ s.
        seen_with s.framers.items (record { power = s.power; desk = s.table }) s.schedule };

    ghost invariant = { λ s. IsStation s.framers.items s.table s.schedule };
}

impl Station {
    /// Creates a station with `lines` lines: power off, all slots free, no byte received on a line,
    /// nothing to send.
    ///
    /// Fails with `BadLines` unless `lines` is 1 to 8, and otherwise if out of memory for the jobs.
    pub fn new(alloc: Global, lines: u8) -> Result<Station, StationFault>
        ensures lines { is_line_count lines ≡ false → result ≡ Err StationFault.BadLines }
        ensures made { IfOk result (λ s. (is_line_count lines ≡ true) × (s ≡ first_seen lines)) }
        ensures memory { IfErr result
            (λ e. is_line_count lines ≡ true → e ≡ StationFault.NoMemory) }
    {
        if lines < 1 || lines > 8 {
            return Err(StationFault::BadLines);
        }
        let mut framers = ArrayVec::new();
        for _ in 0..lines {
            framers.push(Framer::new());
        }
        match Schedule::new(alloc) {
            Ok(schedule) => Ok(Station {
                framers,
                table: SlotTable::new(),
                power: Power::Off,
                schedule,
            }),
            Err(_) => Err(StationFault::NoMemory),
        }
    }

    /// The invariant of every station: a law without code.
    pub fn always_legal(&self)
        ensures lines { is_line_count (length self.now.lines) ≡ true }
        // No address has two slots, and each slot that is not free has its entry.
        ensures desk { IsDesk self.now.powered.desk }
        ensures schedule { IsScheduled (scheduled self.now) }
        // What a line holds is the beginning of a message.
        ensures unfinished { (line : ℕ)
            → unfinished_of (line_of self.now line) ≡ line_of self.now line }
    {
        // A proof learns what a type keeps where a field is used.
        let _ = &self.schedule;
    }

    /// Returns the number of lines, 1 to 8.
    pub fn lines(&self) -> u8
        ensures lines { result ≡ length self.now.lines }
        ensures count { is_line_count result ≡ true }
    {
        self.framers.len() as u8
    }

    /// Returns the power of the track.
    pub fn power(&self) -> Power
        ensures { result ≡ self.now.powered.power }
    {
        self.power
    }

    /// Returns what a slot, 1 to 119, reads as; zeros with the state free if no locomotive is in
    /// it.
    pub fn row(&self, slot: u8) -> Row
        requires { IsSlot slot }
        ensures row { result ≡ row_of self.now.powered.desk slot }
        ensures legal { IsRow result }
    {
        self.table.row(slot)
    }

    /// Returns the slot that waits to be dispatched.
    pub fn mark(&self) -> Option<u8>
        ensures { result ≡ self.now.powered.desk.mark }
    {
        self.table.mark()
    }

    /// Returns how many sends wait ahead of a waiting packet of a slot, 1 to 119, or `None` if it
    /// does not wait.
    pub fn sends_ahead(&self, slot: u8, kind: Kind) -> Option<u32>
        requires { IsSlot slot }
        ensures { result ≡ sends_ahead slot kind self.now.jobs }
    {
        self.schedule.sends_ahead(slot, kind)
    }

    /// Returns how many switch requests still have a packet to send, at most 32.
    pub fn switches_waiting(&self) -> u8
        ensures { result ≡ requests_in self.now.jobs }
    {
        self.schedule.switches_waiting()
    }

    /// Receives a byte on a line, and returns the reply on that line if the byte completes a
    /// message that has one.
    // Always inlined: most bytes complete no message, and then no reply is copied.
    #[inline(always)]
    pub fn byte(&mut self, line: u8, byte: u8) -> Option<Reply>
        requires { line < length self.old.lines }
        ensures reply { result ≡ answer_to_byte self.old line byte }
        ensures state { self.new ≡ after_byte self.old line byte }
        ensures lines { length self.new.lines ≡ length self.old.lines }
        ensures sendable { IfSome result IsSendable }
        // Whatever bytes follow on the line, no message is lost and none is invented.
        ensures further { (z : List ℕ) → messages_of (line_of self.old line ++ byte ∷ z)
            ≡ option_to_list (message_ended self.old line byte)
            ++ messages_of (line_of self.new line ++ z) }
        // Each place that a message changes waits after it, where its slot is refreshed.
        ensures changes_queued { (message : List ℕ)
            → message_ended self.old line byte ≡ Some message
            → ChangesWait self.old (op_of message) }
        // No address has two slots, and each slot that is not free has its entry.
        ensures desk { IsDesk self.old.powered.desk }
    {
        laws::changes_wait();
        left_is_enough();
        let framer = &mut self.framers[line as usize];
        // A message, which has room for 127 bytes, is read where it lies.
        match &framer.push(byte) {
            Some(message) => self.carry_out_op(read(message)),
            None => None,
        }
    }

    /// Carries out a whole message, and returns its reply if it has one: what its bytes would do on
    /// a line that holds no unfinished message.
    pub fn message(&mut self, message: &Msg) -> Option<Reply>
        ensures reply { result ≡ answer_to_message self.old (Some message.now) }
        ensures state { self.new ≡ after_message self.old (Some message.now) }
        ensures sendable { IfSome result IsSendable }
        // Each place that a message changes waits after it, where its slot is refreshed.
        ensures changes_queued { ChangesWait self.old (op_of message.now) }
    {
        laws::changes_wait();
        self.carry_out_op(read(message))
    }

    /// Returns the packet to send now, or `None` exactly while the power is off.
    #[inline(never)]
    pub fn turn(&mut self) -> Option<Packet>
        ensures packet { result ≡ packet_of_turn self.old }
        ensures state { self.new ≡ after_turn self.old }
        // Made of the slots at this moment, and never of an older value.
        ensures of_the_desk { IsPacketOfDesk self.old.powered.power self.old result }
        // No address has two slots, and each slot that is not free has its entry.
        ensures desk { IsDesk self.old.powered.desk }
    {
        refresh_ring::laws::picks_are_due();
        laws::packets_of_the_desk();
        let view = Addresses { table: &self.table };
        let pick = self.schedule.pick(&view, self.power);
        self.packet_of(pick)
    }

    /// Runs the calls in order, and writes each result at the same index of `steps`. A list of
    /// calls may be divided anywhere.
    pub fn run(&mut self, calls: &[Call], steps: &mut [Step])
        requires places { length calls.now ≡ length steps.old }
        requires lines { AreCalls (length self.old.lines) calls.now }
        ensures state { self.new ≡ state_after self.old calls.now }
        ensures answers { steps.new ≡ answers self.old calls.now }
        ensures lines { length self.new.lines ≡ length self.old.lines }
        // What was asked is what the bytes of the lines ask, whatever was sent meanwhile.
        ensures reported { self.new.powered
            ≡ (known_after_all (known_of self.old) calls.now).powered }
        // On each line the whole messages of its bytes are carried out, and no others.
        ensures messages { (line : ℕ) → line < length self.old.lines
            → carried_out_on line (known_of self.old) calls.now
            ≡ messages_of (line_of self.old line ++ bytes_on line calls.now) }
        // At each moment no address has two slots, and each slot that is not free has its entry.
        ensures desks { AtEveryMoment HasDesk (known_of self.old) calls.now }
        // In a full refresh cycle of a slot each of its packets is sent.
        ensures coverage { Covers self.old calls.now }
        // No two neighbouring packets go to one locomotive address or one module.
        ensures neighbours { NeighboursApart self.old calls.now }
        // What was changed is sent before the ring comes round.
        ensures changes_first { ChangesFirst self.old calls.now }
        // Each accepted switch request is sent twice, in order, and none is left for ever.
        ensures switches_in_order { SwitchesInOrder self.old calls.now }
        ensures switches_are_sent { SwitchesAreSent self.old calls.now }
    {
        self.always_legal();
        laws::desk_of_messages();
        laws::messages_of_a_line();
        laws::stays_a_desk();
        laws::coverage();
        laws::neighbours();
        laws::changes_first();
        laws::switches_in_order();
        laws::switches_are_sent();
        for (i, call) in calls.iter().enumerate() {
            steps[i] = self.call(*call);
        }
    }

    // One call.
    #[tactic(auto, unfolding(crate::specs::Station::moved))]
    fn call(&mut self, call: Call) -> Step
        requires { IsTrue (is_call (length self.old.lines) call) }
        ensures state { self.new ≡ state_of self.old call }
        ensures answer { result ≡ answer_of self.old call }
        ensures lines { length self.new.lines ≡ length self.old.lines }
    {
        match call {
            Call::Byte { line, byte } => match self.byte(line, byte) {
                Some(reply) => Step::Reply(reply),
                None => Step::Quiet,
            },
            Call::Turn => match self.turn() {
                Some(packet) => Step::Packet(packet),
                None => Step::Off,
            },
        }
    }

    // The packet of what is sent next.
    fn packet_of(&self, pick: Pick) -> Option<Packet>
        requires { IsPickOf self.now.powered.desk pick }
        ensures { result ≡ packet_of self.now.powered.desk pick }
    {
        match pick {
            Pick::Off => None,
            Pick::StopAll => Some(stop_all()),
            Pick::Idle => Some(idle()),
            Pick::Place { slot, kind } => Some(entry_packet(kind, &self.table.row(slot))),
            Pick::Switch { number, closed, on } => Some(accessory(number, closed, on)),
        }
    }
}
