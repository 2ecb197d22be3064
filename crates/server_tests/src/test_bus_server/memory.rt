//! A transport, a clock and an observer in memory, each with its log. Where there is no memory for it, the test ends.
ghost use Rattle.std.specs.Prelude.{◌≡◌, ◌∷◌, ◌++◌, [], List, None, Some, false, map, option_copied, option_map};
ghost use Rattle.std.specs.List.{flat_map};
ghost use Rattle.decoder_node.specs.declared.node.NodeSpec.{NodeSpec};
ghost use Rattle.layout_core.specs.Nodes.{spec_of};
ghost use Rattle.bus_server.specs.Observations.{Observed};
ghost use Rattle.server_tests.specs.Kept.{events_of_entry, observation_of};

use super::kept::{Entry, Seen};
use bus::Outcome;
use bus_server::{AfterRound, IoOutcome, Observer, Railway, TimeSource, Transport};
use dcc_packet::Packet;
use layout_core::World;
use ln_frame::Msg;
use std::convert::Infallible;
use std::process::Abort;

/// A runtime with memory, on which a test that has failed can end.
pub(crate) trait Place: AllocGlobal + Abort {}

impl<R: AllocGlobal + Abort> Place for R {}

/// The input of a round.
#[derive(Clone, Copy)]
pub(crate) enum Input<'a> {
    Nothing,
    /// A client is pending.
    Connects,
    /// A client sends bytes. The next input begins once all are read.
    Sends(u8, &'a [u8]),
    /// A client closes its connection.
    Closes(u8),
}

/// The script has no further input, or no further reading of the clock.
#[derive(Clone, Copy, Debug, PartialEq, Eq)]
pub(crate) struct ScriptEnded;

/// A transport with an input for each round, which fails after the last one.
#[derive(Drop)]
pub(crate) struct MemoryTransport<'a, R> {
    pub(crate) rt: &'a R,
    pub(crate) script: &'a [Input<'a>],
    /// How many inputs of the script have begun.
    pub(crate) step: usize,
    /// The input of this round, until it is read or accepted.
    pub(crate) now: Input<'a>,
    /// A client that never reads: each write to it blocks.
    pub(crate) blocked: Option<u8>,
    pub(crate) log: Vec<Entry>,
}

impl<R: Place> MemoryTransport<'_, R> {
    fn keep(&mut self, entry: Entry)
        ensures { flat_map events_of_entry self.new.log.items
            ≡ flat_map events_of_entry self.old.log.items ++ events_of_entry entry }
    {
        self.log.push(entry).expect(self.rt, "memory");
    }

    /// Whether a client was pending. Its connection is no longer so.
    fn take_pending(&mut self) -> bool
        ensures { self.new.log ≡ self.old.log }
    {
        let pending = matches!(self.now, Input::Connects);
        if pending {
            self.now = Input::Nothing;
        }
        pending
    }
}

impl<R: Place> Transport for MemoryTransport<'_, R> {
    type Fault = ScriptEnded;

    ghost log = { λ transport. Some (flat_map events_of_entry transport.log.items) };

    fn wait(&mut self, longest: Option<u32>) -> Result<(), ScriptEnded> {
        self.keep(Entry::Polled(longest));
        if matches!(self.now, Input::Sends(_, [_, ..])) {
            return Ok(());
        }
        let Some(input) = self.script.get(self.step) else {
            return Err(ScriptEnded);
        };
        self.now = *input;
        self.step = self.step.saturating_add(1);
        Ok(())
    }

    fn accept(&mut self, client: u8) -> bool {
        if self.take_pending() {
            self.keep(Entry::Accepted(client));
            return true;
        }
        self.keep(Entry::NonePending);
        false
    }

    fn reject(&mut self) -> bool {
        if self.take_pending() {
            self.keep(Entry::Refused);
            return true;
        }
        self.keep(Entry::NonePending);
        false
    }

    fn read(&mut self, client: u8, buf: &mut [u8]) -> IoOutcome {
        match self.now {
            Input::Sends(from, text) if from == client && text.len() > 0 && buf.len() > 0 => {
                let count = text.len().min(buf.len());
                self.now = Input::Sends(from, &text[count..]);
                buf[..count].copy_from_slice(&text[..count]);
                let copy = buf[..count]
                    .to_vec(self.rt.alloc())
                    .expect(self.rt, "memory");
                self.keep(Entry::Received(client, copy));
                IoOutcome::Bytes(count)
            }
            Input::Closes(from) if from == client => {
                self.now = Input::Nothing;
                self.keep(Entry::PeerClosed(client));
                IoOutcome::Closed
            }
            _ => {
                self.keep(Entry::ReadBlocked(client));
                IoOutcome::WouldBlock
            }
        }
    }

    fn write(&mut self, client: u8, bytes: &[u8]) -> IoOutcome {
        if self.blocked == Some(client) {
            self.keep(Entry::WriteBlocked(client));
            return IoOutcome::WouldBlock;
        }
        let copy = bytes.to_vec(self.rt.alloc()).expect(self.rt, "memory");
        self.keep(Entry::Written(client, copy));
        IoOutcome::Bytes(bytes.len())
    }

    fn close(&mut self, client: u8) {
        self.keep(Entry::ServerClosed(client));
    }
}

/// A clock with these readings, which fails after the last one.
#[derive(Drop)]
pub(crate) struct FakeClock<'a, R> {
    pub(crate) rt: &'a R,
    pub(crate) script: &'a [u64],
    pub(crate) log: Vec<u64>,
}

impl<R: Place> TimeSource for FakeClock<'_, R> {
    ghost readings = { λ clock. Some clock.log.items };

    type Fault = ScriptEnded;

    fn elapsed(&mut self) -> Result<u64, ScriptEnded> {
        let Some(micros) = self.script.get(self.log.len()) else {
            return Err(ScriptEnded);
        };
        self.log.push(*micros).expect(self.rt, "memory");
        Ok(*micros)
    }
}

/// An observer of a layout without decoders and without a railway. It keeps what it observed.
#[derive(Drop)]
pub(crate) struct Recorder<'a, R> {
    pub(crate) rt: &'a R,
    pub(crate) log: Vec<Seen>,
}

impl<R: Place> Recorder<'_, R> {
    fn keep(&mut self, seen: Seen)
        ensures { map observation_of self.new.log.items
            ≡ map observation_of self.old.log.items ++ observation_of seen ∷ [] }
    {
        self.log.push(seen).expect(self.rt, "memory");
    }
}

impl<R: Place> Observer for Recorder<'_, R> {
    type Fault = Infallible;

    ghost decoder_specs = { λ _. [] };

    ghost observed = { λ recorder. Some (map observation_of recorder.log.items) };

    fn observe(
        &mut self,
        outcome: &Outcome,
        _world: &World,
        railway: Option<&Railway>,
    ) -> Result<(), Infallible> {
        refuse_railway(self.rt, railway);
        let seen = seen_of(self.rt, outcome);
        self.keep(seen);
        Ok(())
    }

    fn overflowed(&mut self, client: u8) -> Result<(), Infallible> {
        self.keep(Seen::Overflowed(client));
        Ok(())
    }

    fn skipped(&mut self, micros: u64) -> Result<(), Infallible> {
        self.keep(Seen::Skipped(micros));
        Ok(())
    }
}

/// Ends the test if there is a railway, which an observer cannot keep.
fn refuse_railway<R: Place>(rt: &R, railway: Option<&Railway>)
    ensures { option_copied railway.entry ≡ None }
{
    assert!(rt; railway.is_none(), "a railway");
}

/// What an observer keeps of an outcome.
fn seen_of<R: Place>(rt: &R, outcome: &Outcome) -> Seen
    ensures { observation_of result ≡ Observed outcome.now [] None }
{
    match outcome {
        Outcome::Nothing => Seen::Nothing,
        Outcome::Connected { client } => Seen::Connected(*client),
        Outcome::Disconnected { client } => Seen::Disconnected(*client),
        Outcome::Rejected { client, reason } => Seen::Rejected(*client, *reason),
        Outcome::Sent {
            client,
            message,
            reply,
        } => Seen::Sent(*client, bytes_of(rt, message), reply_of(rt, reply)),
        Outcome::Reported { message } => Seen::Reported(bytes_of(rt, message)),
        Outcome::TurnsRequested { client, turns } => Seen::TurnsRequested(*client, *turns),
        Outcome::StatesRequested { client, things } => Seen::StatesRequested(*client, *things),
        Outcome::PlaceRequested { .. } | Outcome::DeviceRequested { .. } => {
            panic!(rt; "a server answers it")
        }
        Outcome::Programmed { .. } => panic!(rt; "a programming track"),
        Outcome::Placed { client, answer } => Seen::Placed(*client, *answer),
        Outcome::DeviceAnswered { client, answer } => Seen::DeviceAnswered(*client, *answer),
        Outcome::TurnBegan { packet } => Seen::TurnBegan(packet_of(rt, packet)),
    }
}

fn bytes_of<R: Place>(rt: &R, message: &Msg) -> Vec<u8>
    ensures { result.items ≡ message.now }
{
    message.bytes().to_vec(rt.alloc()).expect(rt, "memory")
}

fn reply_of<R: Place>(rt: &R, reply: &Option<Msg>) -> Option<Vec<u8>>
    ensures { option_map (λ m. m.items) result ≡ reply.now }
{
    match reply {
        Some(message) => Some(bytes_of(rt, message)),
        None => None,
    }
}

fn packet_of<R: Place>(rt: &R, packet: &Option<Packet>) -> Option<Vec<u8>>
    ensures { option_map (λ p. p.items) result ≡ packet.now }
{
    match packet {
        Some(packet) => Some(packet.bytes().to_vec(rt.alloc()).expect(rt, "memory")),
        None => None,
    }
}

/// Nothing except the bus.
#[derive(Drop)]
pub(crate) struct NoPages;

impl<W: Transport, P: Observer> AfterRound<W, P> for NoPages {
    type Fault = Infallible;

    ghost failed = { λ _. false };

    fn after_round(
        &mut self,
        _transport: &mut W,
        _observer: &mut P,
        _world: &World,
        _railway: Option<&Railway>,
    ) -> Result<(), Infallible> {
        Ok(())
    }
}
