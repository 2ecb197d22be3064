//! The bus.
ghost use Rattle.std.specs.Prelude.{◌≡◌, ℕ, ◌<◌, ◌≤◌, ◌+◌, [], IfErr, IfOk, IsTrue, is_some, length, map, replicate, slice_set};
ghost use Rattle.bus.specs.Bus.{granted};

use crate::event::Event;
use crate::options::BusOptions;
use crate::outcome::Outcome;
use crate::sending::{copied, send};
use crate::turning::{SHORTEST_TURN, duration, turn};
use layout_core::{Msg, NodeList, World};
use ln_ops::is_interrogation;
use loconet_tcp::{Request, RequestReader, TurnsError};
use programmer::is_for_programmer;
use station_core::{MAX_LINES, StationFault};
use std::alloc::Global;

/// The most clients at once: each has one line of the station.
pub const MAX_CLIENTS: usize = MAX_LINES;

/// A layout, the clients on its lines, and the current turn of its track.
///
/// Client i is connected to line i of the station. Between two events no line holds the beginning
/// of a message.
#[derive(Drop)]
pub struct Bus {
    pub(crate) world: World,
    pub(crate) clients: [Option<RequestReader>; MAX_CLIENTS],
    /// The microseconds left of the current turn.
    pub(crate) remaining: u32,
    pub(crate) options: BusOptions,
    ghost client_count: { length clients ≡ 8 },
    ghost idle: { world.station.lines ≡ replicate 8 [] },
    ghost under_way: { 0 < remaining },
    ghost longest: { remaining ≤ 10740 },
}

impl Bus {
    ghost use Rattle.layout_core.specs.Nodes.{node_of, spec_of};
    ghost use Rattle.layout_core.specs.World.{HaveHeard, IsSameLayout};
    ghost use Rattle.station_core.specs.Station.{packet_of_turn};
    ghost use Rattle.station_core.specs.Powered.{HasDesk};
    ghost use Rattle.bus.specs.Bus.{after_event, client_of, first_bus, for_station, is_event, is_for_devices, outcome_of, after_turn_boundary, pending_text_at, reply_to, request_at, station_after};
    ghost use Rattle.bus.specs.Invariant.{IsInvariant};
    ghost use Rattle.bus.specs.Layout.{layout_event, message_events, turn_of};
    ghost use Rattle.bus.specs.State.{bus_state};

    /// Creates a layout of eight lines with these decoders, without clients.
    ///
    /// Fails with `NoMemory` if out of memory, and never with `BadLines`.
    pub fn new(alloc: Global, nodes: NodeList, options: BusOptions) -> Result<Bus, StationFault>
        ensures new { IfOk result (λ bus. bus_state bus ≡ first_bus options) }
        ensures nodes { IfOk result (λ bus. bus.world.nodes ≡ map node_of nodes.items) }
        ensures specs { IfOk result (λ bus. map spec_of bus.world.nodes ≡ nodes.items) }
        ensures memory { IfErr result (λ e. e ≡ StationFault.NoMemory) }
    {
        let world = World::new(alloc, MAX_CLIENTS as u8, nodes)?;
        Ok(Bus {
            world,
            clients: [None, None, None, None, None, None, None, None],
            remaining: SHORTEST_TURN,
            options,
        })
    }

    /// The layout.
    pub fn world(&self) -> &World
        ensures { result.now ≡ self.now.world }
    {
        &self.world
    }

    /// Returns the microseconds left of the current turn, at least one.
    pub fn remaining(&self) -> u32
        ensures remaining { result ≡ self.now.remaining }
        ensures under_way { 0 < result }
        ensures longest { result ≤ 10740 }
    {
        self.remaining
    }

    /// Whether a client, 0 to 7, is connected.
    pub fn is_connected(&self, client: u8) -> bool
        requires { client < 8 }
        ensures { result ≡ is_some (client_of (bus_state self.now) client) }
    {
        self.clients[usize::from(client)].is_some()
    }

    /// Runs one event, and returns its outcome.
    pub fn step(&mut self, event: &Event) -> Outcome
        requires { IsTrue (is_event event.now) }
        ensures bus { bus_state self.new ≡ after_event (bus_state self.old) event.now }
        ensures outcome { result ≡ outcome_of (bus_state self.old) event.now }
        // The decoders hear the packets of the layout, and nothing else.
        ensures nodes { HaveHeard self.old.world.station
            (layout_event (bus_state self.old) event.now) self.old.world.nodes
            self.new.world.nodes }
        ensures same { IsSameLayout self.old.world self.new.world }
    {
        match event {
            Event::Connects { client } => {
                self.clients[usize::from(*client)] = Some(RequestReader::new());
                Outcome::Connected { client: *client }
            }
            Event::Disconnects { client } => {
                self.clients[usize::from(*client)] = None;
                Outcome::Disconnected { client: *client }
            }
            Event::Receives { client, byte } => self.receive(*client, *byte),
            Event::Reports { message } => Outcome::Reported {
                message: copied(message),
            },
            Event::Programs { packet, change } => Outcome::Programmed {
                packet: packet.packet(),
                change: *change,
            },
            Event::Elapses { micros, .. } if self.remaining > u32::from(*micros) => {
                self.remaining -= u32::from(*micros);
                Outcome::Nothing
            }
            Event::Elapses { micros, missed } => self.begin_turn(u32::from(*micros), *missed),
            Event::Turn { missed } => self.begin_turn(self.remaining, *missed),
        }
    }

    /// The invariant of every bus: a law without code.
    pub fn invariant_holds(&self)
        ensures kept { IsInvariant (bus_state self.now) }
        ensures desk { HasDesk self.now.world.station.powered }
    {
        self.world.station().always_legal();
    }

    /// Takes a byte of a client's text. A request to send is carried out at once.
    fn receive(&mut self, client: u8, byte: u8) -> Outcome
        requires { client < 8 }
        ensures bus { bus_state self.new
            ≡ after_event (bus_state self.old) (Event.Receives client byte) }
        ensures outcome { result ≡ outcome_of (bus_state self.old) (Event.Receives client byte) }
        ensures nodes { HaveHeard self.old.world.station
            (layout_event (bus_state self.old) (Event.Receives client byte)) self.old.world.nodes
            self.new.world.nodes }
        ensures same { IsSameLayout self.old.world self.new.world }
    {
        match self.read(client, byte) {
            None => Outcome::Nothing,
            Some(Request::Invalid(reason)) => Outcome::Rejected { client, reason },
            Some(Request::Send(message)) => {
                let reply = self.send(&message);
                Outcome::Sent {
                    client,
                    message,
                    reply,
                }
            }
            Some(Request::Turns(count)) => Outcome::TurnsRequested {
                client,
                turns: granted(self.options.is_stepped, count),
            },
            Some(Request::States(things)) => Outcome::StatesRequested { client, things },
            Some(Request::Place(placement)) => Outcome::PlaceRequested { client, placement },
            Some(Request::Device(request)) => Outcome::DeviceRequested { client, request },
        }
    }

    /// Reads a byte of a client's text, and returns the request whose line it ends.
    fn read(&mut self, client: u8, byte: u8) -> Option<Request>
        requires { client < 8 }
        ensures request { result ≡ request_at (client_of (bus_state self.old) client) byte }
        ensures bus { bus_state self.new ≡ record (bus_state self.old) {
          clients = slice_set (bus_state self.old).clients client
              (pending_text_at (client_of (bus_state self.old) client) byte);
        } }
        ensures world { self.new.world ≡ self.old.world }
    {
        match &mut self.clients[usize::from(client)] {
            Some(reader) => reader.push(byte),
            None => None,
        }
    }

    /// Gives the station a message, unless devices beside it answer it, and returns its reply.
    fn send(&mut self, message: &Msg) -> Option<Msg>
        ensures bus { bus_state self.new ≡ record (bus_state self.old) {
          station = station_after (bus_state self.old) (Some (Request.Send message.now));
        } }
        ensures reply { result ≡ reply_to (bus_state self.old) (Some (Request.Send message.now)) }
        ensures nodes { (client : ℕ) → HaveHeard self.old.world.station
            (message_events client
            (for_station (bus_state self.old) (Some (Request.Send message.now))))
            self.old.world.nodes self.new.world.nodes }
        ensures same { IsSameLayout self.old.world self.new.world }
    {
        if self.is_for_devices(message) {
            return None;
        }
        send(&mut self.world, message)
    }

    /// Whether devices beside the station answer a message: sensors or a programmer.
    fn is_for_devices(&self, message: &Msg) -> bool
        ensures { result ≡ is_for_devices self.now.options message.now }
    {
        (self.options.has_sensors && is_interrogation(message))
            || (self.options.has_programmer && is_for_programmer(message))
    }

    /// Ends the current turn within these microseconds, and begins the next one where it ends.
    fn begin_turn(&mut self, micros: u32, missed: u64) -> Outcome
        requires ends { self.old.remaining ≤ micros }
        requires soon { micros < self.old.remaining + 5796 }
        ensures bus { bus_state self.new ≡ after_turn_boundary (bus_state self.old) micros }
        ensures outcome { result ≡ Outcome.TurnBegan (packet_of_turn self.old.world.station) }
        ensures nodes { HaveHeard self.old.world.station (turn_of missed) self.old.world.nodes
            self.new.world.nodes }
        ensures same { IsSameLayout self.old.world self.new.world }
    {
        let packet = turn(&mut self.world, missed);
        self.remaining = self.remaining + duration(packet.as_ref()) - micros;
        Outcome::TurnBegan { packet }
    }
}

/// Returns the number of turns that are run on request, or why none are.
fn granted(is_stepped: bool, count: Option<u16>) -> Result<u16, TurnsError>
    ensures { result ≡ granted is_stepped count }
{
    if !is_stepped {
        return Err(TurnsError::RealTime);
    }
    match count {
        Some(count) => Ok(count),
        None => Err(TurnsError::NoNumber),
    }
}
