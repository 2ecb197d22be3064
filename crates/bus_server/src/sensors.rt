//! The railway and the programming track beside a bus, and what they are still to report.
ghost use Rattle.std.specs.Prelude.{◌≡◌, ◌≤◌, ℕ, [], IsTrue, if◌then◌else◌, option_map, true};
ghost use Rattle.std.specs.List.{list_all};
ghost use Rattle.ln_ops.specs.Sensor.{begins_interrogation};
ghost use Rattle.programming_track.specs.Time.{is_legal_end};
ghost use Rattle.programming_track.specs.Bench.{bench_requested};
ghost use Rattle.railway.specs.Reports.{is_report};
ghost use Rattle.bus.specs.declared.outcome.Outcome.TheVariants.{PlaceRequested};
ghost use Rattle.bus_server.specs.NamedNodes.{names_of};
ghost use Rattle.bus_server.specs.Failures.{happened_to, happening_by};
ghost use Rattle.bus_server.specs.Placement.{answered, place_answer};
ghost use Rattle.bus_server.specs.Programming.{arranged, decoder_on, device_answer, device_reply, ends_elapsed, programmed, programming_elapsed, programming_requested, reply_by, railway_reply};
ghost use Rattle.bus_server.specs.Sensors.{due_of, full_report, full_reports, movements_elapsed, railway_elapsed, railway_requested, reports_due, reports_elapsed, reports_of_time, turnout_report};

use crate::arranging::mount;
use crate::device_reports::DeviceReports;
use crate::named_node::NamedNodes;
use crate::placement::place;
use bus::Outcome;
use layout_core::World;
use ln_frame::Msg;
use ln_ops::begins_interrogation;
use loconet_tcp::{DeviceAnswer, DeviceRequest, PlaceError, Placement};
use programming_track::{DecoderName, PacketEnds, ProgrammingBench};
use railway::{Railway, Reports, TimeReports, TurnoutReports};

/// The devices beside the station, trains with their sensors and a programming track, if there are
/// any, and what they are still to report.
#[derive(Drop)]
pub(crate) struct Sensors {
    pub(crate) railway: Option<Railway>,
    pub(crate) programming: Option<ProgrammingBench>,
    pub(crate) unreported: DeviceReports,
}

impl Sensors {
    ghost use Rattle.bus_server.specs.DeviceReports.{queue_of};

    /// The devices beside a station. Nothing is due.
    pub(crate) fn new(railway: Option<Railway>, programming: Option<ProgrammingBench>) -> Sensors
        ensures railway { result.railway ≡ railway }
        ensures programming { result.programming ≡ programming }
        ensures unreported { queue_of result.unreported ≡ [] }
    {
        Sensors {
            railway,
            programming,
            unreported: DeviceReports::none(),
        }
    }

    /// Lets `micros` microseconds pass: trains run as the decoders do now, without track power they
    /// stand, and packets of the programming track are sent. What is reported of it is due.
    pub(crate) fn elapse(&mut self, micros: u32, world: &World)
        requires short { micros ≤ 10740 }
        ensures railway { self.new.railway
            ≡ railway_elapsed self.old.railway micros world.now.station.powered.power
            world.now.nodes }
        ensures programming { self.new.programming
            ≡ programming_elapsed self.old.programming micros }
        ensures unreported { queue_of self.new.unreported
            ≡ reports_of_time self.old.railway self.old.programming micros
            world.now.station.powered.power world.now.nodes }
    {
        let reports = run_trains(&mut self.railway, micros, world);
        let decoder = decoder_on(&self.programming);
        let ends = send_packets(&mut self.programming, micros);
        self.unreported = DeviceReports::new(reports, ends, decoder);
    }

    /// Does what an outcome of the bus asks of the devices: reports of all sensors and turnouts with
    /// feedback, to put a train on the track, to arrange the devices, or something of the programmer.
    /// What they report of it is due. Returns the outcome, with the answer to a client that asks to
    /// put a train or to arrange, and the reply of the programmer or of a turnout.
    pub(crate) fn answer(&mut self, outcome: Outcome, nodes: &NamedNodes) -> Outcome
        ensures railway { self.new.railway
            ≡ railway_requested (names_of nodes.now.items) outcome self.old.railway }
        ensures programming { self.new.programming
            ≡ programming_requested outcome self.old.programming }
        ensures unreported { queue_of self.new.unreported
            ≡ reports_due (names_of nodes.now.items) outcome self.old.railway
            (queue_of self.old.unreported) }
        ensures answered { result
            ≡ programmed self.old.programming self.old.railway
            (answered (names_of nodes.now.items) self.old.railway outcome) }
    {
        match outcome {
            Outcome::PlaceRequested { client, placement } => Outcome::Placed {
                client,
                answer: self.place(&placement, nodes),
            },
            Outcome::Sent {
                client,
                message,
                reply,
            } => {
                self.report_if_asked(&message);
                let reply = self.reply(&message, reply);
                Outcome::Sent {
                    client,
                    message,
                    reply,
                }
            }
            Outcome::DeviceRequested { client, request } => Outcome::DeviceAnswered {
                client,
                answer: self.arrange(&request),
            },
            outcome => outcome,
        }
    }

    /// Arranges the devices as a client asks for. Returns the answer.
    fn arrange(&mut self, request: &DeviceRequest) -> DeviceAnswer
        ensures railway { self.new.railway
            ≡ happened_to (happening_by request.now) self.old.railway }
        ensures programming { self.new.programming
            ≡ option_map (arranged request.now) self.old.programming }
        ensures unreported { queue_of self.new.unreported
            ≡ due_of (happening_by request.now) self.old.railway (queue_of self.old.unreported) }
        ensures answer { result
            ≡ device_answer self.old.programming self.old.railway request.now }
    {
        match request {
            DeviceRequest::Mount(decoder) => {
                DeviceAnswer::Mount(mount(&mut self.programming, decoder))
            }
            DeviceRequest::Fail(failure) => DeviceAnswer::Fail(self.fail_as_asked(failure)),
        }
    }

    /// Makes a report of each sensor and turnout due, if a message asks for it.
    fn report_if_asked(&mut self, message: &Msg)
        ensures railway { self.new.railway ≡ self.old.railway }
        ensures programming { self.new.programming ≡ self.old.programming }
        ensures unreported { queue_of self.new.unreported
            ≡ (if begins_interrogation message.now then full_reports self.old.railway
            else queue_of self.old.unreported) }
    {
        if begins_interrogation(message) {
            self.unreported = DeviceReports::of_railway(full_reports(&self.railway));
        }
    }

    /// Lets the programmer do what a message asks for. Returns the reply of a turnout with feedback, if
    /// the message requests its state, or that of the programmer, if it is for slot 124, or else that of
    /// the station.
    fn reply(&mut self, message: &Msg, station: Option<Msg>) -> Option<Msg>
        ensures railway { self.new.railway ≡ self.old.railway }
        ensures programming { self.new.programming
            ≡ option_map (λ bench. bench_requested bench message.now) self.old.programming }
        ensures unreported { queue_of self.new.unreported ≡ queue_of self.old.unreported }
        ensures reply { result
            ≡ device_reply self.old.programming self.old.railway message.now station }
    {
        let other = self.reply_of_programmer(message, station);
        railway_reply(&self.railway, message).or(other)
    }

    /// Lets the programmer do what a message asks for. Returns its reply, or that of the station if
    /// the message is not for slot 124.
    fn reply_of_programmer(&mut self, message: &Msg, station: Option<Msg>) -> Option<Msg>
        ensures railway { self.new.railway ≡ self.old.railway }
        ensures programming { self.new.programming
            ≡ option_map (λ bench. bench_requested bench message.now) self.old.programming }
        ensures unreported { queue_of self.new.unreported ≡ queue_of self.old.unreported }
        ensures reply { result ≡ reply_by self.old.programming message.now station }
    {
        let Some(bench) = &mut self.programming else {
            return station;
        };
        match bench.request(message) {
            Some(own) => Some(own.message()),
            None => station,
        }
    }

    /// Puts a train where a client asks for, if the line says where. Returns the answer.
    fn place(
        &mut self,
        placement: &Result<Placement, PlaceError>,
        nodes: &NamedNodes,
    ) -> Result<(), PlaceError>
        ensures railway { (client : ℕ) → self.new.railway
            ≡ railway_requested (names_of nodes.now.items) (PlaceRequested client placement.now)
            self.old.railway }
        ensures programming { self.new.programming ≡ self.old.programming }
        ensures unreported { (client : ℕ) → queue_of self.new.unreported
            ≡ reports_due (names_of nodes.now.items) (PlaceRequested client placement.now)
            self.old.railway (queue_of self.old.unreported) }
        ensures answer { result
            ≡ place_answer (names_of nodes.now.items) self.old.railway placement.now }
    {
        match &mut self.railway {
            None => Err(PlaceError::NoPlan),
            Some(railway) => match placement {
                Err(error) => Err(*error),
                Ok(placement) => {
                    let (reports, answer) = place(railway, nodes, placement);
                    self.unreported = DeviceReports::of_sensors(reports);
                    answer
                }
            },
        }
    }
}

/// Returns the reply of a turnout with feedback, if a message requests its state.
fn railway_reply(railway: &Option<Railway>, message: &Msg) -> Option<Msg>
    ensures { result ≡ railway_reply railway.now message.now }
{
    match railway {
        Some(railway) => railway.answer_state(message),
        None => None,
    }
}

/// Lets the trains run, if there are any. Returns what sensors and turnouts report.
fn run_trains(railway: &mut Option<Railway>, micros: u32, world: &World) -> TimeReports
    ensures railway { railway.new
        ≡ railway_elapsed railway.old micros world.now.station.powered.power world.now.nodes }
    ensures reports { result.sensors.items
        ≡ reports_elapsed railway.old micros world.now.station.powered.power world.now.nodes }
    ensures turnouts { result.turnouts.items
        ≡ movements_elapsed railway.old micros world.now.station.powered.power world.now.nodes }
    ensures valid { list_all is_report result.sensors.items ≡ true }
{
    match railway {
        Some(railway) => railway.elapse(micros, world),
        None => no_reports(),
    }
}

/// Nothing is reported.
fn no_reports() -> TimeReports
    ensures sensors { result.sensors.items ≡ [] }
    ensures turnouts { result.turnouts.items ≡ [] }
{
    TimeReports {
        sensors: Reports::new(),
        turnouts: TurnoutReports::new(),
    }
}

/// Sends the packets of the programming track, if there is one. Returns those that ended.
fn send_packets(programming: &mut Option<ProgrammingBench>, micros: u32) -> PacketEnds
    requires short { micros ≤ 10740 }
    ensures programming { programming.new ≡ programming_elapsed programming.old micros }
    ensures ends { result.items ≡ ends_elapsed programming.old micros }
    ensures legal { list_all is_legal_end result.items ≡ true }
{
    match programming {
        Some(bench) => bench.elapse(micros),
        None => PacketEnds::new(),
    }
}

/// The decoder on the programming track, if one stands there.
fn decoder_on(programming: &Option<ProgrammingBench>) -> Option<DecoderName>
    ensures { result ≡ decoder_on programming.now }
{
    match programming {
        Some(bench) => bench.mounted_name(),
        None => None,
    }
}

/// Returns a report of each sensor, and of each turnout with feedback that lies.
fn full_reports(railway: &Option<Railway>) -> TimeReports
    ensures sensors { result.sensors.items ≡ full_report railway.now }
    ensures turnouts { result.turnouts.items ≡ turnout_report railway.now }
    ensures valid { list_all is_report result.sensors.items ≡ true }
{
    match railway {
        Some(railway) => TimeReports {
            sensors: railway.report_all(),
            turnouts: railway.report_turnouts(),
        },
        None => no_reports(),
    }
}
