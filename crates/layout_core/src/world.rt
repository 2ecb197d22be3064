//! A layout: a station, and the decoders on its track.
ghost use Rattle.std.specs.Prelude.{◌≡◌, ◌<◌, ◌≤◌, List, IfOk, IfErr, IfSome, IsTrue, Some, length, map, true, false};
ghost use Rattle.std.specs.List.{slice_index_or};
ghost use Rattle.ln_ops.specs.Reply.{IsSendable};
ghost use Rattle.station_core.specs.Moments.{AtEveryMoment};
ghost use Rattle.station_core.specs.Station.{after_message, answer_to_message};
ghost use Rattle.station_core.specs.Powered.{HasDesk};
ghost use Rattle.station_core.specs.Seen.{first_seen, is_line_count, known_of};
ghost use Rattle.layout_core.specs.declared.node.Node.{Node as NodeValue};
ghost use Rattle.layout_core.specs.Cycle.{RunsAfterNoise, RunsAsWanted};
ghost use Rattle.layout_core.specs.Nodes.{node_of, outputs_of, running_of, spec_of};
ghost use Rattle.layout_core.specs.Served.{IsSendableAnswer};
ghost use Rattle.layout_core.specs.DecoderStates.{decoder_state_of};
ghost use Rattle.decoder_node.specs.declared.node.NodeSpec.{NodeSpec};
ghost use Rattle.show_text.specs.Nodes.{IsStateOf};
ghost use Rattle.layout_core.specs.Events.{calls_in};
ghost use Rattle.layout_core.specs.Played.{AreEvents, after_event, after_events, answer_to, answers_to, is_event};
ghost use Rattle.layout_core.specs.World.{AfterEvent, HaveHeard, HaveObeyed, IsSameLayout, OneHears};

use crate::decoder_state::DecoderState;
use crate::event::Event;
use crate::laws;
use crate::nodes::Nodes;
use decoder_node::{NodeList, Running};
use ln_frame::Msg;
use ln_ops::Reply;
use station_core::{Station, StationFault, Step};
use std::alloc::Global;

/// A station, and the decoders on its track, which change by its packets only.
#[derive(Drop)]
pub struct World {
    pub(crate) station: Station,
    pub(crate) nodes: Nodes,
}

impl World {
    /// Creates a station with `lines` lines, and these decoders, each in its first state.
    ///
    /// Fails as the station does: with `BadLines` unless `lines` is 1 to 8, and otherwise if out of
    /// memory.
    pub fn new(alloc: Global, lines: u8, nodes: NodeList) -> Result<World, StationFault>
        ensures lines { is_line_count lines ≡ false → result ≡ Err StationFault.BadLines }
        ensures station { IfOk result
            (λ w. (is_line_count lines ≡ true) × (w.station ≡ first_seen lines)) }
        ensures nodes { IfOk result (λ w. w.nodes ≡ map node_of nodes.items) }
        ensures specs { IfOk result (λ w. map spec_of w.nodes ≡ nodes.items) }
        ensures memory { IfErr result
            (λ e. is_line_count lines ≡ true → e ≡ StationFault.NoMemory) }
    {
        let station = Station::new(alloc, lines)?;
        let nodes = Nodes::new(&nodes);
        Ok(World { station, nodes })
    }

    /// The station.
    pub fn station(&self) -> &Station
        ensures { result.now ≡ self.now.station }
    {
        &self.station
    }

    /// Returns the number of decoders, at most 64.
    pub fn nodes(&self) -> usize
        ensures count { result ≡ length self.now.nodes }
        ensures most { result ≤ 64 }
    {
        self.nodes.len()
    }

    /// Returns how decoder i runs, or `None` for an accessory decoder.
    pub fn running(&self, i: usize) -> Option<Running>
        requires { i < length self.now.nodes }
        ensures { (none : NodeValue) → result ≡ running_of (slice_index_or self.now.nodes i none) }
    {
        self.nodes.running(i)
    }

    /// Returns the outputs of decoder i, bit j for output j, or `None` for a locomotive decoder.
    pub fn outputs(&self, i: usize) -> Option<u8>
        requires { i < length self.now.nodes }
        ensures { (none : NodeValue) → result ≡ outputs_of (slice_index_or self.now.nodes i none) }
    {
        self.nodes.outputs(i)
    }

    /// Returns the state of decoder i.
    pub fn decoder_state(&self, i: usize) -> DecoderState
        requires { i < length self.now.nodes }
        ensures decoder_state { (none : NodeValue)
            → result ≡ decoder_state_of (slice_index_or self.now.nodes i none) }
        // `running` for a locomotive decoder, `outputs` for an accessory decoder.
        ensures kind { (none : NodeSpec)
            → IsStateOf (slice_index_or (map spec_of self.now.nodes) i none) result.running
            result.outputs }
    {
        DecoderState {
            running: self.running(i),
            outputs: self.outputs(i),
        }
    }

    /// Runs one event: the station handles it, and each decoder that does not miss the packet hears
    /// it. Noise is heard by one decoder only.
    // Always inlined, with the effect of each event: most callers know its kind, and copy no answer.
    #[inline(always)]
    pub fn step(&mut self, event: Event) -> Step
        requires { IsTrue (is_event (length self.old.station.lines) (length self.old.nodes) event) }
        ensures station { self.new.station ≡ after_event self.old.station event }
        ensures answer { result ≡ answer_to self.old.station event }
        ensures nodes { AfterEvent event result self.old.nodes self.new.nodes }
        ensures same { IsSameLayout self.old self.new }
        ensures sendable { IsSendableAnswer result }
    {
        match event {
            Event::Byte { line, byte } => self.byte(line, byte),
            Event::Turn { missed } => self.turn(missed),
            Event::Noise { node, half } => self.noise(node, half),
        }
    }

    /// Lets the station carry out a whole message, and returns its reply if it has one: what its
    /// bytes would do on a line that holds no unfinished message. No decoder changes.
    pub fn message(&mut self, message: &Msg) -> Option<Reply>
        ensures station { self.new.station ≡ after_message self.old.station (Some message.now) }
        ensures reply { result ≡ answer_to_message self.old.station (Some message.now) }
        ensures nodes { self.new.nodes ≡ self.old.nodes }
        ensures sendable { IfSome result IsSendable }
    {
        self.station.message(message)
    }

    /// Runs the events in order and writes each result at the same index of `steps`. A list of
    /// events may be divided into calls anywhere.
    pub fn run(&mut self, events: &[Event], steps: &mut [Step])
        requires places { length events.now ≡ length steps.old }
        requires events { AreEvents (length self.old.station.lines) (length self.old.nodes)
            events.now }
        ensures station { self.new.station ≡ after_events self.old.station events.now }
        ensures answers { steps.new ≡ answers_to self.old.station events.now }
        ensures nodes { HaveHeard self.old.station events.now self.old.nodes self.new.nodes }
        ensures same { IsSameLayout self.old self.new }
        // At each moment no address has two slots, and each slot that is not free has its entry.
        ensures desks { AtEveryMoment HasDesk (known_of self.old.station) (calls_in events.now) }
        // A node that no noise names obeys exactly the packets that it hears.
        ensures obeyed { HaveObeyed self.old.station events.now self.old.nodes self.new.nodes }
        // A locomotive that hears a full refresh cycle runs as its slot says.
        ensures headline { RunsAsWanted (known_of self.old.station) events.now self.old.nodes
            self.new.nodes }
        // The same holds after any noise, given one more turn.
        ensures after_noise { RunsAfterNoise (known_of self.old.station) events.now self.old.nodes
            self.new.nodes }
    {
        laws::headline();
        station_core::laws::stays_a_desk();
        self.station.always_legal();
        for (i, event) in events.iter().enumerate() {
            steps[i] = self.step(*event);
        }
    }

    // A byte changes no decoder.
    #[inline(always)]
    fn byte(&mut self, line: u8, byte: u8) -> Step
        requires { line < length self.old.station.lines }
        ensures station { self.new.station ≡ after_event self.old.station (Event.Byte line byte) }
        ensures answer { result ≡ answer_to self.old.station (Event.Byte line byte) }
        ensures nodes { self.new.nodes ≡ self.old.nodes }
        ensures same { IsSameLayout self.old self.new }
        ensures sendable { IsSendableAnswer result }
    {
        station_core::laws::calls_are_moves();
        match self.station.byte(line, byte) {
            Some(reply) => Step::Reply(reply),
            None => Step::Quiet,
        }
    }

    // A packet is heard by the decoders that do not miss it.
    #[inline(always)]
    fn turn(&mut self, missed: u64) -> Step
        ensures station { self.new.station ≡ after_event self.old.station (Event.Turn missed) }
        ensures answer { result ≡ answer_to self.old.station (Event.Turn missed) }
        ensures nodes { AfterEvent (Event.Turn missed) result self.old.nodes self.new.nodes }
        ensures same { IsSameLayout self.old self.new }
        ensures sendable { IsSendableAnswer result }
    {
        station_core::laws::calls_are_moves();
        match self.station.turn() {
            Some(packet) => {
                self.nodes.hear(&packet, missed);
                Step::Packet(packet)
            }
            None => Step::Off,
        }
    }

    // Noise is heard by one decoder and does not concern the station.
    fn noise(&mut self, node: u8, half: u16) -> Step
        requires { node < length self.old.nodes }
        ensures station { self.new.station ≡ self.old.station }
        ensures answer { result ≡ Step.Quiet }
        ensures nodes { OneHears node half self.old.nodes self.new.nodes }
        ensures same { IsSameLayout self.old self.new }
    {
        self.nodes.noise(usize::from(node), half);
        Step::Quiet
    }
}
