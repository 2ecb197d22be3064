//! Printing the outcomes of a bus.
ghost use Rattle.std.specs.Prelude.{◌≡◌, ◌/◌, None, List, [], ◌∷◌, length, map, not, option_copied};
ghost use Rattle.dcc_packet.specs.Sent.{idle_bytes};
ghost use Rattle.layout_core.specs.Nodes.{spec_of};
ghost use Rattle.layout_core.specs.DecoderStates.{decoder_state_of};
ghost use Rattle.roster.specs.Decoders.{entries_of, names_of, specs_of};
ghost use Rattle.roster.specs.Entry.{spec_of as entry_spec};
ghost use Rattle.bus_server.specs.NamedNodes.{names_of as named_names, specs_of as named_specs};
ghost use Rattle.bus_log.specs.LogQueues.{after_lines};
ghost use Rattle.bus_log.specs.Times.{times_after};
ghost use Rattle.bus_log.specs.RailwayLines.{trains_of};
ghost use Rattle.bus_log.specs.Lines.{changed_lines, client_line, lines_unless, overflow_line, saturating_successor, packet_lines, skipped_line};

use crate::exchanges::print_exchange;
use crate::log_queue::LogQueue;
use crate::messages::print_message;
use crate::programming_lines::print_programming;
use crate::railway_lines::{Trains, keep_trains, print_railway, trains_of};
use crate::times::{first_times, time_stamp, times_after};
use crate::turn_times::TurnTimes;
use crate::verbosity::Verbosity;
use arrayvec::ArrayVec;
use bus::Outcome;
use bus_server::{NamedNode, NamedNodes, Observer};
use dcc_packet::{Packet, idle};
use decoder_node::{MAX_NODES, NodeSpec};
use layout_core::{DecoderState, World};
use railway::Railway;
use roster::Roster;
use show_text::track_line;
use std::convert::Infallible;

/// The states of the decoders, in the order of their roster.
type DecoderStates = ArrayVec<DecoderState, MAX_NODES>;

/// Prints the outcomes of a bus to a log, one line each.
#[derive(Drop)]
pub struct Printer<'a> {
    pub(crate) log: LogQueue,
    pub(crate) roster: Option<&'a Roster>,
    pub(crate) verbosity: Verbosity,
    /// The state of each decoder when it was last printed, or at the start.
    pub(crate) decoder_states: DecoderStates,
    /// The turns since the start.
    pub(crate) turns: u64,
    /// The times of the turn under way.
    pub(crate) times: TurnTimes,
    /// The trains at the last outcome, or at the start.
    pub(crate) trains: Trains,
    ghost as_many: { length decoder_states.items ≡ length (entries_of roster) },
}

impl<'a> Printer<'a> {
    ghost use Rattle.bus_log.specs.Verbosities.{is_quiet};
    ghost use Rattle.bus_log.specs.Printers.{log_at, observed_lines, outcome_lines, printer_state, decoder_states_of};
    ghost use Rattle.bus_log.specs.RailwayLines.{railway_lines};
    ghost use Rattle.bus_log.specs.Lines.{initial_printer_state, printer_state_after};
    ghost use Rattle.bus.specs.declared.outcome.Outcome.TheVariants.{TurnBegan};

    /// Creates a printer for a layout with the decoders of this roster, or none, and for the
    /// railway beside it, if there is one.
    ///
    /// The present states of the decoders and the railway are not printed.
    pub fn new(
        log: LogQueue,
        roster: Option<&'a Roster>,
        verbosity: Verbosity,
        world: &World,
        railway: Option<&Railway>,
    ) -> Printer<'a>
        requires { map spec_of world.now.nodes ≡ specs_of (entries_of roster) }
        ensures log { result.log ≡ log }
        ensures roster { result.roster ≡ roster.entry }
        ensures verbosity { result.verbosity ≡ verbosity }
        ensures printer_state { printer_state result
            ≡ initial_printer_state (decoder_states_of world.now.nodes)
            (trains_of (option_copied railway.entry)) }
    {
        Printer {
            log,
            roster,
            verbosity,
            decoder_states: decoder_states(world),
            turns: 0,
            times: first_times(),
            trains: trains_of(railway),
        }
    }

    /// The log.
    pub fn log(&self) -> &LogQueue
        ensures { result.now ≡ self.now.log }
    {
        &self.log
    }

    /// The roster of the decoders, if there is one.
    pub fn roster(&self) -> Option<&'a Roster>
        ensures { result ≡ self.now.roster }
    {
        self.roster
    }

    /// Prints an outcome.
    fn print(&mut self, outcome: &Outcome, world: &World)
        requires { map spec_of world.now.nodes ≡ specs_of (entries_of self.old.roster) }
        ensures printed { self.new.log
            ≡ after_lines self.old.log (outcome_lines self.old outcome.now world.now.nodes) }
        ensures printer_state { printer_state self.new ≡ printer_state self.old }
        ensures roster { self.new.roster ≡ self.old.roster }
        ensures verbosity { self.new.verbosity ≡ self.old.verbosity }
    {
        match outcome {
            Outcome::Nothing
            | Outcome::Rejected { .. }
            | Outcome::TurnsRequested { .. }
            | Outcome::StatesRequested { .. }
            | Outcome::PlaceRequested { .. }
            | Outcome::Placed { .. }
            | Outcome::DeviceRequested { .. }
            | Outcome::DeviceAnswered { .. } => {}
            Outcome::Connected { client } => print_client(&mut self.log, *client, " joins"),
            Outcome::Disconnected { client } => print_client(&mut self.log, *client, " leaves"),
            Outcome::Sent { message, reply, .. } => print_exchange(&mut self.log, message, reply),
            Outcome::Reported { message } => print_message(&mut self.log, message),
            Outcome::Programmed { packet, change } => {
                let track = self.verbosity.prints_packets();
                print_programming(&mut self.log, track, self.turns, packet, change);
            }
            Outcome::TurnBegan { packet } => self.print_turn(packet, world),
        }
    }

    /// Prints a turn.
    fn print_turn(&mut self, packet: &Option<Packet>, world: &World)
        requires { map spec_of world.now.nodes ≡ specs_of (entries_of self.old.roster) }
        ensures printed { self.new.log
            ≡ after_lines self.old.log
            (outcome_lines self.old (TurnBegan packet.now) world.now.nodes) }
        ensures printer_state { printer_state self.new ≡ printer_state self.old }
        ensures roster { self.new.roster ≡ self.old.roster }
        ensures verbosity { self.new.verbosity ≡ self.old.verbosity }
    {
        let turn = self.turns.saturating_add(1);
        print_packet(&mut self.log, self.verbosity.prints_packets(), turn, packet);
        if let Some(roster) = self.roster {
            print_changed(&mut self.log, roster, self.decoder_states.as_slice(), world);
        }
    }

    /// Prints an outcome, and then what has changed on the railway.
    fn print_observed(&mut self, outcome: &Outcome, world: &World, railway: Option<&Railway>)
        requires { map spec_of world.now.nodes ≡ specs_of (entries_of self.old.roster) }
        ensures printed { self.new.log
            ≡ after_lines self.old.log
            (observed_lines self.old outcome.now world.now.nodes (option_copied railway.entry)) }
        ensures printer_state { printer_state self.new ≡ printer_state self.old }
        ensures roster { self.new.roster ≡ self.old.roster }
        ensures verbosity { self.new.verbosity ≡ self.old.verbosity }
    {
        self.print(outcome, world);
        self.print_railway(railway);
    }

    /// Prints what has changed on the railway since the last outcome.
    fn print_railway(&mut self, railway: Option<&Railway>)
        ensures printed { self.new.log
            ≡ after_lines self.old.log
            (railway_lines (entries_of self.old.roster) self.old.trains.items
            (option_copied railway.entry)) }
        ensures printer_state { printer_state self.new ≡ printer_state self.old }
        ensures roster { self.new.roster ≡ self.old.roster }
        ensures verbosity { self.new.verbosity ≡ self.old.verbosity }
    {
        print_railway(&mut self.log, self.roster, self.trains.as_slice(), railway);
    }

    /// Lets each line that follows begin with the time at which this turn began, if lines have times.
    /// Returns whether lines are printed: a quiet log has none.
    fn begin_lines(&mut self, times: TurnTimes) -> bool
        ensures printed { result ≡ not (is_quiet self.old.verbosity) }
        ensures log { self.new.log ≡ log_at self.old.verbosity times self.old.log }
        ensures printer_state { printer_state self.new ≡ printer_state self.old }
        ensures roster { self.new.roster ≡ self.old.roster }
        ensures verbosity { self.new.verbosity ≡ self.old.verbosity }
    {
        if self.verbosity.has_times() {
            self.log.begin_with(time_stamp(times.began / 1_000));
        }
        !self.verbosity.is_quiet()
    }

    /// Counts a turn, and keeps the states of the decoders after it, and the trains.
    fn update(&mut self, outcome: &Outcome, world: &World, railway: Option<&Railway>)
        requires { map spec_of world.now.nodes ≡ specs_of (entries_of self.old.roster) }
        ensures log { self.new.log ≡ self.old.log }
        ensures printer_state { printer_state self.new
            ≡ printer_state_after (printer_state self.old) outcome.now
            (decoder_states_of world.now.nodes) (trains_of (option_copied railway.entry)) }
        ensures roster { self.new.roster ≡ self.old.roster }
        ensures verbosity { self.new.verbosity ≡ self.old.verbosity }
    {
        if let Outcome::TurnBegan { .. } = outcome {
            self.turns = self.turns.saturating_add(1);
            self.times = times_after(self.times, outcome);
            self.decoder_states = decoder_states(world);
        }
        keep_trains(&mut self.trains, railway);
    }
}

impl Observer for Printer<'_> {
    ghost use Rattle.bus_log.specs.Verbosities.{is_quiet};
    ghost use Rattle.bus_log.specs.Printers.{decoder_specs_of, log_at, printer_state, decoder_states_of, observed_lines};
    ghost use Rattle.bus_log.specs.Lines.{printer_state_after};

    type Fault = Infallible;

    ghost decoder_specs = { decoder_specs_of };

    ghost observed = { λ _. None };

    /// Prints an outcome and what has changed on the railway, unless the log is quiet, and records
    /// both. A line that has a time has that at which the turn under way began, of the track.
    fn observe(
        &mut self,
        outcome: &Outcome,
        world: &World,
        railway: Option<&Railway>,
    ) -> Result<(), Infallible>
        requires { map spec_of world.now.nodes ≡ specs_of (entries_of self.old.roster) }
        ensures printed { self.new.log
            ≡ after_lines
            (log_at self.old.verbosity (times_after self.old.times outcome.now) self.old.log)
            (lines_unless (is_quiet self.old.verbosity)
            (observed_lines self.old outcome.now world.now.nodes (option_copied railway.entry))) }
        ensures printer_state { printer_state self.new
            ≡ printer_state_after (printer_state self.old) outcome.now
            (decoder_states_of world.now.nodes) (trains_of (option_copied railway.entry)) }
        ensures decoder_specs { decoder_specs_of self.new ≡ decoder_specs_of self.old }
        ensures roster { self.new.roster ≡ self.old.roster }
        ensures verbosity { self.new.verbosity ≡ self.old.verbosity }
    {
        if self.begin_lines(times_after(self.times, outcome)) {
            self.print_observed(outcome, world, railway);
        }
        self.update(outcome, world, railway);
        Ok(())
    }

    /// Prints that the queue of a client has overflowed, unless the log is quiet.
    fn overflowed(&mut self, client: u8) -> Result<(), Infallible>
        ensures printed { self.new.log
            ≡ after_lines (log_at self.old.verbosity self.old.times self.old.log)
            (lines_unless (is_quiet self.old.verbosity) (overflow_line client ∷ [])) }
        ensures printer_state { printer_state self.new ≡ printer_state self.old }
        ensures decoder_specs { decoder_specs_of self.new ≡ decoder_specs_of self.old }
        ensures roster { self.new.roster ≡ self.old.roster }
        ensures verbosity { self.new.verbosity ≡ self.old.verbosity }
    {
        if self.begin_lines(self.times) {
            print_client(&mut self.log, client, " is too slow");
        }
        Ok(())
    }

    /// Prints that the machine was asleep, unless the log is quiet.
    fn skipped(&mut self, micros: u64) -> Result<(), Infallible>
        ensures printed { self.new.log
            ≡ after_lines (log_at self.old.verbosity self.old.times self.old.log)
            (lines_unless (is_quiet self.old.verbosity) (skipped_line (micros / 1000) ∷ [])) }
        ensures printer_state { printer_state self.new ≡ printer_state self.old }
        ensures decoder_specs { decoder_specs_of self.new ≡ decoder_specs_of self.old }
        ensures roster { self.new.roster ≡ self.old.roster }
        ensures verbosity { self.new.verbosity ≡ self.old.verbosity }
    {
        if self.begin_lines(self.times) {
            self.log
                .print_count("slept ", micros / 1000, " ms, left out");
        }
        Ok(())
    }
}

/// The decoders of a roster under their names; none without one.
pub fn decoders(roster: Option<&Roster>) -> NamedNodes
    ensures specs { named_specs result.items ≡ specs_of (entries_of roster.entry) }
    ensures names { named_names result.items ≡ names_of (entries_of roster.entry) }
{
    match roster {
        Some(roster) => named(roster),
        None => NamedNodes::new(),
    }
}

/// The decoders of a roster under their names.
fn named(roster: &Roster) -> NamedNodes
    ensures specs { named_specs result.items ≡ specs_of roster.now }
    ensures names { named_names result.items ≡ names_of roster.now }
{
    let mut decoders = NamedNodes::new();
    for (i, spec) in roster.nodes().as_slice().iter().enumerate() {
        decoders.push(NamedNode::new(roster.name(i), *spec));
    }
    decoders
}

/// The states of the decoders of a layout.
fn decoder_states(world: &World) -> DecoderStates
    ensures { result.items ≡ map decoder_state_of world.now.nodes }
{
    let mut decoder_states = DecoderStates::new();
    for i in 0..world.nodes() {
        decoder_states.push(world.decoder_state(i));
    }
    decoder_states
}

/// Prints the action of a client, 0 to 7; the log counts clients from 1.
fn print_client(log: &mut LogQueue, client: u8, does: &str)
    ensures { log.new ≡ after_lines log.old (client_line client does.now ∷ []) }
{
    log.print_count("client ", u64::from(client) + 1, does);
}

/// Prints the packet of a turn, if packets are printed; idle packets are not.
fn print_packet(log: &mut LogQueue, track: bool, turn: u64, packet: &Option<Packet>)
    ensures { log.new ≡ after_lines log.old (packet_lines track turn packet.now) }
{
    let Some(packet) = packet else {
        return;
    };
    if track && packet.bytes() != idle().bytes() {
        log.print_line(&track_line(turn, packet));
    }
}

/// Prints each decoder whose state has changed.
fn print_changed(log: &mut LogQueue, roster: &Roster, before: &[DecoderState], world: &World)
    requires decoders { map spec_of world.now.nodes ≡ map entry_spec roster.now }
    requires as_many { length before.now ≡ length roster.now }
    ensures { log.new
        ≡ after_lines log.old
        (changed_lines roster.now before.now (map decoder_state_of world.now.nodes)) }
{
    for (i, spec) in roster.nodes().as_slice().iter().enumerate() {
        let now = world.decoder_state(i);
        if !before[i].is_same(&now) {
            log.print_line(&now.line(roster.name(i), spec));
        }
    }
}
