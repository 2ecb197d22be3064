//! A server and its rounds.
ghost use Rattle.std.specs.Prelude.{◌≡◌, ◌<◌, ◌≤◌, IfOk, IsTrue, OnErr, OnOk, false, map, option_copied};
ghost use Rattle.layout_core.specs.Nodes.{spec_of};
ghost use Rattle.bus.specs.Log.{Extends};
ghost use Rattle.bus.specs.Bus.{is_event};
ghost use Rattle.bus.specs.Course.{is_time};
ghost use Rattle.bus.specs.State.{bus_state};
ghost use Rattle.bus_server.specs.TransportEvents.{Received};
ghost use Rattle.bus_server.specs.ServerState.{Applies, RunsEventWithReports, has_overflowed, has_turns_to_follow, initial_state, is_accepted, outcome_in, waits};
ghost use Rattle.bus_server.specs.NamedNodes.{names_of, specs_of};
ghost use Rattle.bus_server.specs.Pace.{is_pace};
ghost use Rattle.bus_server.specs.Reading.{IsReadNext, ReadsOne};
ghost use Rattle.bus_server.specs.Hub.{ObservesReports};
ghost use Rattle.bus_server.specs.Snapshots.{HasReported, ProgressesBy, ProgressesWithoutInput, AcceptsAt, IsObserved, IsReady, IsReadyAfter, ObservesLayout, snapshot, state_of};
ghost use Rattle.bus_server.specs.Rounds.{Accepts, AcceptsFirst, AcceptsSome, AllWrittenTo, IsFair, IsRound, Reads, ServesClient, ServesClients, Writes, WritesNone, refusals};
ghost use Rattle.bus_server.specs.StoppedRuns.{Returns, Serves, Stops};

use crate::CLIENTS;
use crate::answers::{Answers, specs};
use crate::hub::Hub;
use crate::losses::Losses;
use crate::named_node::NamedNodes;
use crate::observer::Observer;
use crate::pace::Pace;
use crate::send_queues::empty_queues;
use crate::sensors::Sensors;
use crate::track_due::TrackDue;
use crate::transport::{IoOutcome, Transport};
use bus::{Bus, BusOptions, Event, Outcome};
use layout_core::World;
use programming_track::ProgrammingBench;
use railway::Railway;
use std::alloc::{AllocError, Global};

/// The most bytes that are read from a client before all clients are written to.
const MAX_READ: u16 = 400;

/// The most writes to a client before the next client is served. A queue lies in two pieces at most.
const MAX_WRITES: u8 = 4;

/// A bus with a send queue for each client, and how its track runs.
#[derive(Drop)]
pub struct Server {
    pub(crate) hub: Hub,
}

impl Server {
    /// A new layout with these decoders, a railway and a programming track beside it or none, and no
    /// clients. It takes all its memory here.
    ///
    /// # Errors
    ///
    /// Out of memory.
    pub fn new(
        alloc: Global,
        nodes: NamedNodes,
        railway: Option<Railway>,
        programming: Option<ProgrammingBench>,
        pace: Pace,
        losses: Losses,
    ) -> Result<Server, AllocError>
        requires pace { IsTrue (is_pace pace) }
        ensures hub { IfOk result
            (λ server. state_of server.hub
            ≡ initial_state (specs_of nodes.items) (names_of nodes.items) railway programming pace
            losses) }
        ensures specs { IfOk result
            (λ server. map spec_of server.hub.bus.world.nodes ≡ specs_of nodes.items) }
        ensures reported { IfOk result (λ server. HasReported server.hub) }
    {
        let options = BusOptions {
            is_stepped: pace.follows_messages(),
            has_sensors: railway.is_some(),
            has_programmer: programming.is_some(),
        };
        let bus = match Bus::new(alloc, specs(&nodes), options) {
            Ok(bus) => bus,
            Err(_) => return Err(AllocError),
        };
        let queues = empty_queues(alloc)?;
        let hub = Hub {
            bus,
            sensors: Sensors::new(railway, programming),
            queues,
            answers: Answers::new(nodes),
            track_due: TrackDue::none(),
            losses,
            pace,
            first_client: 0,
            disconnected: 0,
            has_backlog: false,
        };
        Ok(Server { hub })
    }

    /// The layout.
    pub fn world(&self) -> &World
        ensures { result.now ≡ self.now.hub.bus.world }
    {
        self.hub.bus.world()
    }

    /// The railway, if there is one.
    pub fn railway(&self) -> Option<&Railway>
        ensures { option_copied result ≡ (state_of self.now.hub).railway }
    {
        self.hub.railway()
    }

    /// What turns follow.
    pub fn pace(&self) -> Pace
        ensures pace { result ≡ self.now.hub.pace }
        ensures within { IsTrue (is_pace result) }
    {
        self.hub.pace
    }

    /// The microseconds that remain of the turn under way, 1 to 10,740.
    pub fn remaining(&self) -> u32
        ensures remaining { result ≡ (bus_state self.now.hub.bus).remaining }
        ensures under_way { 0 < result }
        ensures longest { result ≤ 10740 }
    {
        self.hub.bus.remaining()
    }

    /// Whether there may be more input: something was read, accepted or refused since the last wait.
    pub fn has_backlog(&self) -> bool
        ensures { result ≡ self.now.hub.has_backlog }
    {
        self.hub.has_backlog
    }

    /// Serves one round, which [`Server::run`] starts: writes to all, reads each client, writing to all after each, and accepts
    /// pending clients.
    /// While turns are left that follow a message, nobody is read or accepted.
    ///
    /// # Errors
    ///
    /// That of the observer. The round ends at once.
    pub fn round<W: Transport, P: Observer>(
        &mut self,
        transport: &mut W,
        observer: &mut P,
    ) -> Result<(), P::Fault>
        requires observes { ObservesLayout (P.decoder_specs observer.old) self.old.hub }
        requires reported { HasReported self.old.hub }
        ensures observes { ObservesLayout (P.decoder_specs observer.new) self.new.hub }
        ensures reported { OnOk result (HasReported self.new.hub) }
        ensures served { OnOk result
            (ProgressesBy IsRound
            (snapshot (W.log transport.old) (P.observed observer.old) self.old.hub)
            (snapshot (W.log transport.new) (P.observed observer.new) self.new.hub)) }
        ensures stops { OnErr result
            (Stops (snapshot (W.log transport.old) (P.observed observer.old) self.old.hub)
            (snapshot (W.log transport.new) (P.observed observer.new) self.new.hub)) }
    {
        self.accept_first(transport, observer)?;
        // Before any is read, so that one that was accepted and closes at once has the version.
        self.write_all(transport, observer)?;
        self.serve_all(transport, observer)?;
        // Last, so that the index of a client that has disconnected meanwhile is free.
        self.accept_pending(transport, observer)
    }

    /// Accepts pending clients before others are read, where turns follow messages. Otherwise those that send without a pause
    /// keep them out, as turns are left whenever all have been served.
    fn accept_first<W: Transport, P: Observer>(
        &mut self,
        transport: &mut W,
        observer: &mut P,
    ) -> Result<(), P::Fault>
        requires ready { IsReady (P.decoder_specs observer.old) self.old.hub }
        ensures ready { IsReadyAfter result (P.decoder_specs observer.new) self.new.hub }
        ensures served { Serves (ProgressesBy AcceptsFirst) result
            (snapshot (W.log transport.old) (P.observed observer.old) self.old.hub)
            (snapshot (W.log transport.new) (P.observed observer.new) self.new.hub) }
    {
        if !self.hub.accepts_first() {
            return Ok(());
        }
        self.accept_some(transport, observer)?;
        Ok(())
    }

    /// Serves each client, beginning behind the one that sent the last message.
    fn serve_all<W: Transport, P: Observer>(
        &mut self,
        transport: &mut W,
        observer: &mut P,
    ) -> Result<(), P::Fault>
        requires ready { IsReady (P.decoder_specs observer.old) self.old.hub }
        ensures ready { IsReadyAfter result (P.decoder_specs observer.new) self.new.hub }
        ensures served { Serves (ProgressesBy (ServesClients self.old.hub.first_client 8)) result
            (snapshot (W.log transport.old) (P.observed observer.old) self.old.hub)
            (snapshot (W.log transport.new) (P.observed observer.new) self.new.hub) }
    {
        let first = self.hub.first_client;
        for count in 0..CLIENTS {
            self.serve((first + count) % CLIENTS, transport, observer)?;
        }
        Ok(())
    }

    /// Reads a client, and then writes to all.
    fn serve<W: Transport, P: Observer>(
        &mut self,
        client: u8,
        transport: &mut W,
        observer: &mut P,
    ) -> Result<(), P::Fault>
        requires client { client < 8 }
        requires ready { IsReady (P.decoder_specs observer.old) self.old.hub }
        ensures ready { IsReadyAfter result (P.decoder_specs observer.new) self.new.hub }
        ensures served { Serves (ProgressesBy (ServesClient client)) result
            (snapshot (W.log transport.old) (P.observed observer.old) self.old.hub)
            (snapshot (W.log transport.new) (P.observed observer.new) self.new.hub) }
    {
        self.receive(client, transport, observer)?;
        self.write_all(transport, observer)
    }

    /// Accepts pending clients at free indexes, and rejects others.
    fn accept_pending<W: Transport, P: Observer>(
        &mut self,
        transport: &mut W,
        observer: &mut P,
    ) -> Result<(), P::Fault>
        requires ready { IsReady (P.decoder_specs observer.old) self.old.hub }
        ensures ready { IsReadyAfter result (P.decoder_specs observer.new) self.new.hub }
        ensures served { Serves (ProgressesBy Accepts) result
            (snapshot (W.log transport.old) (P.observed observer.old) self.old.hub)
            (snapshot (W.log transport.new) (P.observed observer.new) self.new.hub) }
    {
        if self.hub.track_due.follow_message() {
            return Ok(());
        }
        if !self.accept_some(transport, observer)? {
            return Ok(());
        }
        let refused = reject_pending(transport);
        self.hub.note_refused(refused);
        Ok(())
    }

    /// Accepts pending clients at free indexes. Returns whether all are taken, so that more may be pending.
    fn accept_some<W: Transport, P: Observer>(
        &mut self,
        transport: &mut W,
        observer: &mut P,
    ) -> Result<bool, P::Fault>
        requires turns { has_turns_to_follow (state_of self.old.hub) ≡ false }
        requires ready { IsReady (P.decoder_specs observer.old) self.old.hub }
        ensures ready { IsReadyAfter result (P.decoder_specs observer.new) self.new.hub }
        ensures served { Returns (λ is_full. ProgressesWithoutInput (AcceptsSome is_full)) result
            (snapshot (W.log transport.old) (P.observed observer.old) self.old.hub)
            (snapshot (W.log transport.new) (P.observed observer.new) self.new.hub) }
    {
        for client in 0..CLIENTS {
            if !self.accept_at(client, transport, observer)? {
                return Ok(false);
            }
        }
        Ok(true)
    }

    /// Accepts a pending client at this index, unless one is connected there. Returns false if none is pending.
    fn accept_at<W: Transport, P: Observer>(
        &mut self,
        client: u8,
        transport: &mut W,
        observer: &mut P,
    ) -> Result<bool, P::Fault>
        requires client { client < 8 }
        requires turns { has_turns_to_follow (state_of self.old.hub) ≡ false }
        requires ready { IsReady (P.decoder_specs observer.old) self.old.hub }
        ensures ready { IsReadyAfter result (P.decoder_specs observer.new) self.new.hub }
        ensures seats { Returns (AcceptsAt client) result
            (snapshot (W.log transport.old) (P.observed observer.old) self.old.hub)
            (snapshot (W.log transport.new) (P.observed observer.new) self.new.hub) }
    {
        self.hub.bus.invariant_holds();
        if self.hub.bus.is_connected(client) {
            return Ok(true);
        }
        if !transport.accept(client) {
            return Ok(false);
        }
        self.hub.has_backlog = true;
        self.apply(Event::Connects { client }, observer)?;
        Ok(true)
    }

    /// Closes the connection of a client whose queue has overflowed.
    fn close_overflowed<W: Transport, P: Observer>(
        &mut self,
        client: u8,
        transport: &mut W,
        observer: &mut P,
    ) -> Result<(), P::Fault>
        requires client { client < 8 }
        requires ready { IsReady (P.decoder_specs observer.old) self.old.hub }
        ensures ready { IsReadyAfter result (P.decoder_specs observer.new) self.new.hub }
        ensures served { Serves (ProgressesWithoutInput
            (λ more all. (has_overflowed all client ≡ false) × WritesNone more)) result
            (snapshot (W.log transport.old) (P.observed observer.old) self.old.hub)
            (snapshot (W.log transport.new) (P.observed observer.new) self.new.hub) }
    {
        if !self.hub.has_overflowed(client) {
            return Ok(());
        }
        transport.close(client);
        observer.overflowed(client)?;
        self.apply(Event::Disconnects { client }, observer)?;
        Ok(())
    }

    /// Reads what a client sent, 400 bytes at most, and applies it, unless it waits for turns.
    fn receive<W: Transport, P: Observer>(
        &mut self,
        client: u8,
        transport: &mut W,
        observer: &mut P,
    ) -> Result<(), P::Fault>
        requires client { client < 8 }
        requires ready { IsReady (P.decoder_specs observer.old) self.old.hub }
        ensures ready { IsReadyAfter result (P.decoder_specs observer.new) self.new.hub }
        ensures served { Serves (ProgressesBy (Reads client)) result
            (snapshot (W.log transport.old) (P.observed observer.old) self.old.hub)
            (snapshot (W.log transport.new) (P.observed observer.new) self.new.hub) }
    {
        if self.hub.track_due.must_wait(client) {
            return Ok(());
        }
        for _byte in 0..MAX_READ {
            if !self.receive_byte(client, transport, observer)? {
                return Ok(());
            }
        }
        Ok(())
    }

    /// Reads a byte of a client and applies it. Returns whether the client is to be read on: not if there are no more bytes, it
    /// waits for turns, or a queue is more than a quarter full.
    fn receive_byte<W: Transport, P: Observer>(
        &mut self,
        client: u8,
        transport: &mut W,
        observer: &mut P,
    ) -> Result<bool, P::Fault>
        requires client { client < 8 }
        requires waits { waits (state_of self.old.hub) client ≡ false }
        requires ready { IsReady (P.decoder_specs observer.old) self.old.hub }
        ensures ready { IsReadyAfter result (P.decoder_specs observer.new) self.new.hub }
        ensures served { Returns (ReadsOne client) result
            (snapshot (W.log transport.old) (P.observed observer.old) self.old.hub)
            (snapshot (W.log transport.new) (P.observed observer.new) self.new.hub) }
    {
        let mut buf = [0];
        match transport.read(client, &mut buf) {
            IoOutcome::Bytes(_) => self.receive_one(client, buf[0], observer),
            IoOutcome::WouldBlock => Ok(false),
            IoOutcome::Closed => {
                self.apply(Event::Disconnects { client }, observer)?;
                Ok(false)
            }
        }
    }

    /// Applies a byte of a client. Returns whether the client is to be read on.
    fn receive_one<P: Observer>(
        &mut self,
        client: u8,
        byte: u8,
        observer: &mut P,
    ) -> Result<bool, P::Fault>
        requires client { client < 8 }
        requires waits { waits (state_of self.old.hub) client ≡ false }
        requires ready { IsReady (P.decoder_specs observer.old) self.old.hub }
        ensures ready { IsReadyAfter result (P.decoder_specs observer.new) self.new.hub }
        ensures happened { IfOk result (λ goes_on. IsReadNext client goes_on (Received client byte)
            (state_of self.old.hub) (state_of self.new.hub)
            × IsObserved (λ applied.
            Applies (Received client byte) applied (state_of self.old.hub) (state_of self.new.hub))
            (P.observed observer.old) (P.observed observer.new)) }
        ensures stops { OnErr result
            (IsObserved (λ applied.
            Applies (Received client byte) applied (state_of self.old.hub) (state_of self.new.hub))
            (P.observed observer.old) (P.observed observer.new)) }
    {
        self.hub.has_backlog = true;
        let outcome = self.apply(Event::Receives { client, byte }, observer)?;
        if let Outcome::Nothing = outcome {
            return Ok(true);
        }
        Ok(!self.hub.track_due.must_wait(client) && !self.hub.is_crowded())
    }

    /// Writes to each client, and disconnects those whose queue has overflowed.
    fn write_all<W: Transport, P: Observer>(
        &mut self,
        transport: &mut W,
        observer: &mut P,
    ) -> Result<(), P::Fault>
        requires ready { IsReady (P.decoder_specs observer.old) self.old.hub }
        ensures ready { IsReadyAfter result (P.decoder_specs observer.new) self.new.hub }
        ensures served { Serves (ProgressesWithoutInput
            (λ more all. AllWrittenTo 8 more all × IsFair more)) result
            (snapshot (W.log transport.old) (P.observed observer.old) self.old.hub)
            (snapshot (W.log transport.new) (P.observed observer.new) self.new.hub) }
    {
        for client in 0..CLIENTS {
            self.write(client, transport, observer)?;
            self.close_overflowed(client, transport, observer)?;
        }
        Ok(())
    }

    /// Writes a client's queue, as much as it takes, in four writes at most.
    fn write<W: Transport, P: Observer>(
        &mut self,
        client: u8,
        transport: &mut W,
        observer: &mut P,
    ) -> Result<(), P::Fault>
        requires client { client < 8 }
        requires ready { IsReady (P.decoder_specs observer.old) self.old.hub }
        ensures ready { IsReadyAfter result (P.decoder_specs observer.new) self.new.hub }
        ensures served { Serves (ProgressesWithoutInput (Writes client)) result
            (snapshot (W.log transport.old) (P.observed observer.old) self.old.hub)
            (snapshot (W.log transport.new) (P.observed observer.new) self.new.hub) }
    {
        for _piece in 0..MAX_WRITES {
            match self.hub.write(client, transport) {
                IoOutcome::Bytes(_) => {}
                IoOutcome::WouldBlock => return Ok(()),
                IoOutcome::Closed => {
                    self.apply(Event::Disconnects { client }, observer)?;
                    return Ok(());
                }
            }
        }
        Ok(())
    }

    /// Applies an event of a client, with what devices report. Returns its outcome.
    fn apply<P: Observer>(&mut self, event: Event, observer: &mut P) -> Result<Outcome, P::Fault>
        requires event { IsTrue (is_event event) }
        requires clients { is_time event ≡ false }
        requires place { IsTrue (is_accepted (state_of self.old.hub) event) }
        requires ready { IsReady (P.decoder_specs observer.old) self.old.hub }
        ensures ready { IsReadyAfter result (P.decoder_specs observer.new) self.new.hub }
        ensures outcome { IfOk result
            (λ outcome. outcome ≡ outcome_in (state_of self.old.hub) event) }
        ensures happened { IsObserved (λ applied.
            RunsEventWithReports event applied (state_of self.old.hub) (state_of self.new.hub))
            (P.observed observer.old) (P.observed observer.new) }
    {
        let outcome = self.hub.step(&event);
        self.observe(&outcome, observer)?;
        Ok(outcome)
    }

    /// Observes an outcome, and then reports what is due and observes that.
    pub(crate) fn observe<P: Observer>(
        &mut self,
        outcome: &Outcome,
        observer: &mut P,
    ) -> Result<(), P::Fault>
        requires observes { ObservesLayout (P.decoder_specs observer.old) self.old.hub }
        ensures ready { IsReadyAfter result (P.decoder_specs observer.new) self.new.hub }
        ensures log { ObservesReports outcome.now (P.observed observer.old)
            (P.observed observer.new) (state_of self.old.hub) (state_of self.new.hub) }
    {
        let hub = &self.hub;
        observer.observe(outcome, hub.bus.world(), hub.railway())?;
        while let Some(report) = self.hub.report() {
            let hub = &self.hub;
            observer.observe(&report, hub.bus.world(), hub.railway())?;
        }
        Ok(())
    }
}

/// Rejects pending clients, eight at most, so that the others are served on. Returns how many.
fn reject_pending<W: Transport>(transport: &mut W) -> u8
    ensures { Extends (W.log transport.old) (W.log transport.new) (refusals result) }
{
    for refused in 0..CLIENTS {
        if !transport.reject() {
            return refused;
        }
    }
    8
}
