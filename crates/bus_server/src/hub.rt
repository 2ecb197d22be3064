//! The bus, with a railway and a programming track beside it and a send queue for each client.
ghost use Rattle.std.specs.Prelude.{◌≡◌, ◌<◌, ◌≤◌, ◌&&◌, ◌++◌, IfNone, IfSome, IsTrue, OnSome, is_some, length, slice_index_or, slice_set, drop, take, map, option_copied, None, Some, true};
ghost use Rattle.std.specs.List.{list_all};
ghost use Rattle.bus_server.specs.SendQueue.{is_within_capacity, queued};
ghost use Rattle.layout_core.specs.Nodes.{spec_of};
ghost use Rattle.bus_server.specs.Answers.{lines_of, next_line};
ghost use Rattle.bus_server.specs.ServerState.{disconnected_after, first_after};
ghost use Rattle.bus_server.specs.SendQueues.{names_client, enqueued_all, enqueued_from, queues_after};
ghost use Rattle.bus_server.specs.TrackDue.{due_to, turns_answer};
ghost use Rattle.bus_server.specs.NamedNodes.{names_of, specs_of};
ghost use Rattle.bus_server.specs.Pace.{is_pace};

use crate::CLIENTS;
use crate::answers::Answers;
use crate::losses::Losses;
use crate::pace::Pace;
use crate::send_queues::SendQueues;
use crate::sensors::Sensors;
use crate::track_due::TrackDue;
use crate::transport::{IoOutcome, Transport};
use bus::{Bus, Event, Outcome};
use layout_core::World;
use loconet_tcp::{Text, push_turns_ok};
use railway::Railway;

/// The bus, with a railway and a programming track beside it and a send queue for each client.
#[derive(Drop)]
pub(crate) struct Hub {
    pub(crate) bus: Bus,
    pub(crate) sensors: Sensors,
    pub(crate) queues: SendQueues,
    pub(crate) answers: Answers,
    pub(crate) track_due: TrackDue,
    /// Draws the packets that decoders miss.
    pub(crate) losses: Losses,
    /// What turns follow.
    pub(crate) pace: Pace,
    /// The client that is read first in the next round.
    pub(crate) first_client: u8,
    /// How many clients have disconnected.
    pub(crate) disconnected: u64,
    /// Something was read, accepted or refused since the last wait, so there may be more.
    pub(crate) has_backlog: bool,
    ghost eight: { length queues ≡ 8 },
    ghost first: { first_client < 8 },
    ghost within_capacity: { list_all is_within_capacity queues ≡ true },
    ghost paced: { is_pace pace ≡ true },
    ghost named: { specs_of answers.nodes.items ≡ map spec_of bus.world.nodes },
}

impl Hub {
    ghost use Rattle.std.specs.Prelude.{ℕ};
    ghost use Rattle.bus_server.specs.Losses.{IsDraw};
    ghost use Rattle.bus.specs.Bus.{is_event};
    ghost use Rattle.bus.specs.State.{bus_state};
    ghost use Rattle.bus_server.specs.Observations.{Observed};
    ghost use Rattle.bus.specs.declared.event.Event.{Event as BusEvent};
    ghost use Rattle.bus.specs.declared.event.Event.TheVariants.{Elapses, Turn};
    ghost use Rattle.bus_server.specs.DeviceReports.{queue_of};
    ghost use Rattle.bus_server.specs.Sensors.{is_report};
    ghost use Rattle.bus_server.specs.Rounds.{accepts_first, backlog_after};
    ghost use Rattle.bus_server.specs.Snapshots.{HasReported, WritesFront, state_of};
    ghost use Rattle.bus_server.specs.Hub.{RunsOnBus, with_trains_run};
    ghost use Rattle.bus_server.specs.ServerState.{RunsEvent, IsDrawn, has_overflowed, is_crowded, outcome_in, round_start};

    /// Runs one event, and enqueues its text for each client. What decoders miss of it is drawn
    /// already, and trains have run in its time.
    pub(crate) fn step(&mut self, event: &Event) -> Outcome
        requires { IsTrue (is_event event.now) }
        ensures outcome { result ≡ outcome_in (state_of self.old) event.now }
        ensures specs { map spec_of self.new.bus.world.nodes
            ≡ map spec_of self.old.bus.world.nodes }
        ensures runs { RunsOnBus event.now
            (Observed result self.new.bus.world.nodes self.new.sensors.railway)
            (state_of self.old) (state_of self.new) }
    {
        let outcome = self.bus.step(event);
        self.answers.update(&outcome);
        self.track_due.update(&outcome, self.pace);
        self.first_client = first_after(&outcome, self.first_client);
        self.disconnected = disconnected_after(&outcome, self.disconnected);
        let outcome = self.sensors.answer(outcome, &self.answers.nodes);
        enqueue(&mut self.queues, &outcome);
        outcome
    }

    /// Runs the track and the trains for `micros` microseconds, which the turn under way lasts.
    pub(crate) fn elapse(&mut self, micros: u16) -> Outcome
        requires short { micros ≤ 5796 }
        requires piece { micros ≤ (bus_state self.old.bus).remaining }
        requires reported { HasReported self.old }
        ensures specs { map spec_of self.new.bus.world.nodes
            ≡ map spec_of self.old.bus.world.nodes }
        ensures happens { (missed : ℕ)
            × RunsEvent (Elapses micros missed)
            (Observed result self.new.bus.world.nodes self.new.sensors.railway)
            (state_of self.old) (state_of self.new) }
    {
        let missed = self.draw_within(micros);
        self.run_trains(u32::from(micros));
        self.step(&Event::Elapses { micros, missed })
    }

    /// Begins a turn, and runs the trains for as long as it lasts.
    pub(crate) fn turn(&mut self) -> Outcome
        requires reported { HasReported self.old }
        ensures specs { map spec_of self.new.bus.world.nodes
            ≡ map spec_of self.old.bus.world.nodes }
        ensures happens { (missed : ℕ)
            × RunsEvent (Turn missed)
            (Observed result self.new.bus.world.nodes self.new.sensors.railway)
            (state_of self.old) (state_of self.new) }
    {
        let missed = self.draw();
        let outcome = self.step(&Event::Turn { missed });
        let lasts = self.bus.remaining();
        self.run_trains(lasts);
        outcome
    }

    /// Reports what is due next. Returns `None`, and changes nothing, if nothing is.
    pub(crate) fn report(&mut self) -> Option<Outcome>
        ensures specs { map spec_of self.new.bus.world.nodes
            ≡ map spec_of self.old.bus.world.nodes }
        ensures none { IfNone result
            (HasReported self.new × (state_of self.new ≡ state_of self.old)) }
        ensures fewer { OnSome result
            (length (queue_of self.new.sensors.unreported)
            < length (queue_of self.old.sensors.unreported)) }
        ensures happens { IfSome result (λ outcome. (event : BusEvent) × (is_report event ≡ true)
            × RunsEvent event
            (Observed outcome self.new.bus.world.nodes self.new.sensors.railway)
            (state_of self.old) (state_of self.new)) }
    {
        let event = self.sensors.unreported.next()?.event();
        Some(self.step(&event))
    }

    /// The railway, if there is one.
    pub(crate) fn railway(&self) -> Option<&Railway>
        ensures { option_copied result ≡ self.now.sensors.railway }
    {
        self.sensors.railway.as_ref()
    }

    /// Runs the trains for `micros` microseconds, as the decoders do now, and the programming track.
    /// Without power trains stand.
    fn run_trains(&mut self, micros: u32)
        requires short { micros ≤ 10740 }
        ensures { state_of self.new ≡ with_trains_run micros (state_of self.old) }
    {
        self.sensors.elapse(micros, self.bus.world());
    }

    /// Draws the decoders that miss the turn that begins within `micros` microseconds; draws nothing if none begins.
    fn draw_within(&mut self, micros: u16) -> u64
        ensures kept { state_of self.new ≡ record (state_of self.old) { losses = self.new.losses } }
        ensures drawn { IsDrawn (Elapses micros result) (bus_state self.old.bus)
            (length self.old.bus.world.nodes) self.old.losses self.new.losses }
    {
        if self.bus.remaining() <= u32::from(micros) {
            self.draw()
        } else {
            0
        }
    }

    /// Draws the decoders that miss the turn that begins.
    fn draw(&mut self) -> u64
        ensures kept { state_of self.new ≡ record (state_of self.old) { losses = self.new.losses } }
        ensures drawn { IsDraw (length self.old.bus.world.nodes) result self.old.losses
            self.new.losses }
    {
        let nodes = self.bus.world().nodes();
        self.losses.draw(nodes)
    }

    /// Starts a round, after its wait: no more input was found yet, the next line of each answer under
    /// way is enqueued, and clients are told that the turns have passed that they requested.
    pub(crate) fn start_round(&mut self)
        ensures state { state_of self.new ≡ round_start (state_of self.old) }
        ensures bus { self.new.bus ≡ self.old.bus }
        ensures unreported { queue_of self.new.sensors.unreported
            ≡ queue_of self.old.sensors.unreported }
    {
        self.has_backlog = false;
        enqueue_lines(
            &mut self.queues,
            &self.answers,
            &self.track_due,
            self.bus.world(),
            &self.sensors,
        );
        self.answers.advance(
            self.sensors.railway.as_ref(),
            self.sensors.programming.as_ref(),
        );
        self.track_due.advance();
    }

    /// Notes that `refused` pending clients were refused: after any, there may be more.
    pub(crate) fn note_refused(&mut self, refused: u8)
        ensures state { state_of self.new ≡ backlog_after refused (state_of self.old) }
        ensures specs { map spec_of self.new.bus.world.nodes
            ≡ map spec_of self.old.bus.world.nodes }
        ensures unreported { queue_of self.new.sensors.unreported
            ≡ queue_of self.old.sensors.unreported }
    {
        if refused > 0 {
            self.has_backlog = true;
        }
    }

    /// Writes the front of a client's queue, unless it is empty.
    pub(crate) fn write<W: Transport>(&mut self, client: u8, transport: &mut W) -> IoOutcome
        requires { client < 8 }
        ensures wrote { WritesFront client result (W.log transport.old) (W.log transport.new)
            (state_of self.old) (state_of self.new) }
        ensures bus { self.new.bus ≡ self.old.bus }
        ensures unreported { queue_of self.new.sensors.unreported
            ≡ queue_of self.old.sensors.unreported }
    {
        let piece = front(&self.queues, client);
        if piece.is_empty() {
            return IoOutcome::WouldBlock;
        }
        let wrote = transport.write(client, piece);
        if let IoOutcome::Bytes(count) = wrote {
            consume(&mut self.queues, client, count);
        }
        wrote
    }

    /// Whether pending clients are accepted before others are read.
    pub(crate) fn accepts_first(&self) -> bool
        ensures { result ≡ accepts_first (state_of self.now) }
    {
        self.pace.follows_messages() && !self.track_due.follow_message()
    }

    /// Whether a queue is more than a quarter full.
    pub(crate) fn is_crowded(&self) -> bool
        ensures { result ≡ is_crowded (state_of self.now) }
    {
        self.queues
            .iter()
            .any(|queue| queue.is_more_than_quarter_full())
    }

    /// Whether a client, 0 to 7, is connected and its queue has overflowed.
    pub(crate) fn has_overflowed(&self, client: u8) -> bool
        requires { client < 8 }
        ensures { result ≡ has_overflowed (state_of self.now) client }
    {
        self.bus.is_connected(client) && !self.queues[usize::from(client)].is_open()
    }
}

/// The first bytes of a client's queue: some unless it is empty.
fn front(queues: &SendQueues, client: u8) -> &[u8]
    requires { client < 8 }
    ensures front { result.now
        ≡ take (length result.now) (queued (slice_index_or queues.now client None)) }
    ensures some { 0 < length (queued (slice_index_or queues.now client None))
        → 0 < length result.now }
{
    queues[usize::from(client)].front()
}

/// Removes `count` bytes from the front of a client's queue.
fn consume(queues: &mut SendQueues, client: u8, count: usize)
    requires client { client < 8 }
    requires open { is_some (slice_index_or queues.old client None) ≡ true }
    requires some { count ≤ length (queued (slice_index_or queues.old client None)) }
    ensures { queues.new
        ≡ slice_set queues.old client
        (Some (drop count (queued (slice_index_or queues.old client None)))) }
{
    queues[usize::from(client)].consume(count);
}

/// The client that is read first after this outcome: that behind the last which sent a message.
fn first_after(outcome: &Outcome, first: u8) -> u8
    requires client { IsTrue (names_client outcome.now) }
    requires first { first < 8 }
    ensures first { result ≡ first_after outcome.now first }
    ensures client { result < 8 }
{
    match outcome {
        Outcome::Sent { client, .. } => (*client + 1) % CLIENTS,
        _ => first,
    }
}

/// How many clients have disconnected after this outcome.
fn disconnected_after(outcome: &Outcome, disconnected: u64) -> u64
    ensures { result ≡ disconnected_after outcome.now disconnected }
{
    match outcome {
        Outcome::Disconnected { .. } => disconnected.saturating_add(1),
        _ => disconnected,
    }
}

/// Opens and closes queues as clients connect and disconnect, and enqueues the text of an outcome.
fn enqueue(queues: &mut SendQueues, outcome: &Outcome)
    requires { IsTrue (names_client outcome.now) }
    ensures { queues.new ≡ queues_after outcome.now queues.old }
{
    match outcome {
        Outcome::Nothing
        | Outcome::TurnBegan { .. }
        | Outcome::Programmed { .. }
        | Outcome::StatesRequested { .. }
        | Outcome::PlaceRequested { .. }
        | Outcome::DeviceRequested { .. } => {}
        Outcome::Disconnected { client } => queues[usize::from(*client)].close(),
        Outcome::Connected { client } => {
            queues[usize::from(*client)].open();
            enqueue_all(queues, outcome);
        }
        Outcome::Rejected { .. }
        | Outcome::Sent { .. }
        | Outcome::Reported { .. }
        | Outcome::TurnsRequested { .. }
        | Outcome::Placed { .. }
        | Outcome::DeviceAnswered { .. } => enqueue_all(queues, outcome),
    }
}

/// Enqueues for each client its own text of an outcome.
fn enqueue_all(queues: &mut SendQueues, outcome: &Outcome)
    ensures { queues.new ≡ enqueued_all outcome.now queues.old }
{
    for place in 0..CLIENTS {
        let mut text = Text::new();
        outcome.push_text_for(place, &mut text);
        queues[usize::from(place)].enqueue(text.as_slice());
    }
}

/// Enqueues for each client the next line of the answer under way to it, and that its turns have
/// passed.
fn enqueue_lines(
    queues: &mut SendQueues,
    answers: &Answers,
    track_due: &TrackDue,
    world: &World,
    sensors: &Sensors,
)
    requires { specs_of answers.now.nodes.items ≡ map spec_of world.now.nodes }
    ensures { queues.new
        ≡ enqueued_from 0 (λ client.
        next_line (lines_of (names_of answers.now.nodes.items) world.now.nodes
        sensors.now.railway) sensors.now.programming
        (slice_index_or answers.now.under_way client None)
        ++ turns_answer (due_to track_due.now.turns client)) queues.old }
{
    for client in 0..CLIENTS {
        let text = answer_to(client, answers, track_due, world, sensors);
        queues[usize::from(client)].enqueue(text.as_slice());
    }
}

/// What a client receives next: a line of the answer under way to it, and that its turns have
/// passed.
fn answer_to(
    client: u8,
    answers: &Answers,
    track_due: &TrackDue,
    world: &World,
    sensors: &Sensors,
) -> Text
    requires client { client < 8 }
    requires specs { specs_of answers.now.nodes.items ≡ map spec_of world.now.nodes }
    ensures { result.items
        ≡ next_line (lines_of (names_of answers.now.nodes.items) world.now.nodes
        sensors.now.railway) sensors.now.programming
        (slice_index_or answers.now.under_way client None)
        ++ turns_answer (due_to track_due.now.turns client) }
{
    let railway = sensors.railway.as_ref();
    let programming = sensors.programming.as_ref();
    let mut text = answers.next_line(client, world, railway, programming);
    if track_due.have_passed(client) {
        push_turns_ok(&mut text);
    }
    text
}
