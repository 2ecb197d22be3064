//! What devices beside the station are still to report, in order.
ghost use Rattle.std.specs.Prelude.{◌≡◌, ◌∷◌, ◌++◌, [], IfSome, IsTrue, MatchOption, true};
ghost use Rattle.std.specs.List.{list_all};
ghost use Rattle.programming_track.specs.Time.{is_legal_end, is_legal_some};
ghost use Rattle.railway.specs.Reports.{is_report};
ghost use Rattle.bus_server.specs.Programming.{named};

use crate::device_report::DeviceReport;
use cv_memory::CvChange;
use programmer::TaskResult;
use programming_track::{DecoderName, NamedChange, PacketEnds};
use railway::{Reports, TimeReports, TurnoutReports};

/// What devices beside the station are still to report, in order.
#[derive(Drop)]
pub(crate) struct DeviceReports {
    /// What sensors report.
    pub(crate) reports: Reports,
    /// What turnouts report after them.
    pub(crate) turnouts: TurnoutReports,
    /// The result of a task whose last packet has been reported.
    pub(crate) ended: Option<TaskResult>,
    /// The packets of the programming track after it.
    pub(crate) ends: PacketEnds,
    /// The decoder to which they were sent.
    pub(crate) decoder: Option<DecoderName>,
    ghost sensors: { list_all is_report reports.items ≡ true },
    ghost result: { is_legal_some ended ≡ true },
    ghost packets: { list_all is_legal_end ends.items ≡ true },
}

impl DeviceReports {
    ghost use Rattle.bus_server.specs.DeviceReports.{queue_of, of_ends, of_sensors, of_turnouts, is_legal_report};

    /// What sensors report, then turnouts, and then the programming track, on which this decoder stands,
    /// or none.
    pub(crate) fn new(
        reports: TimeReports,
        ends: PacketEnds,
        decoder: Option<DecoderName>,
    ) -> DeviceReports
        requires sensors { IsTrue (list_all is_report reports.sensors.items) }
        requires packets { IsTrue (list_all is_legal_end ends.items) }
        ensures { queue_of result ≡ of_sensors reports.sensors.items
            ++ (of_turnouts reports.turnouts.items ++ of_ends decoder ends.items) }
    {
        DeviceReports {
            reports: reports.sensors,
            turnouts: reports.turnouts,
            ended: None,
            ends,
            decoder,
        }
    }

    /// Nothing.
    pub(crate) fn none() -> DeviceReports
        ensures { queue_of result ≡ [] }
    {
        DeviceReports::of_sensors(Reports::new())
    }

    /// What sensors report.
    pub(crate) fn of_sensors(reports: Reports) -> DeviceReports
        requires sensors { IsTrue (list_all is_report reports.items) }
        ensures { queue_of result ≡ of_sensors reports.items }
    {
        DeviceReports::of_railway(TimeReports {
            sensors: reports,
            turnouts: TurnoutReports::new(),
        })
    }

    /// What sensors report, and then turnouts.
    pub(crate) fn of_railway(reports: TimeReports) -> DeviceReports
        requires sensors { IsTrue (list_all is_report reports.sensors.items) }
        ensures { queue_of result
            ≡ of_sensors reports.sensors.items ++ of_turnouts reports.turnouts.items }
    {
        DeviceReports::new(reports, PacketEnds::new(), None)
    }

    /// Takes what is reported next.
    pub(crate) fn next(&mut self) -> Option<DeviceReport>
        ensures first { MatchOption result
            ((queue_of self.old ≡ []) × (queue_of self.new ≡ []))
            (λ report. queue_of self.old ≡ report ∷ queue_of self.new) }
        ensures legal { IfSome result (λ report. IsTrue (is_legal_report report)) }
    {
        if let Some(report) = self.reports.pop_at(0) {
            return Some(DeviceReport::Sensor(report));
        }
        if let Some(report) = self.turnouts.pop_at(0) {
            return Some(DeviceReport::Turnout(report));
        }
        self.next_of_programming()
    }

    /// Takes what the programming track reports next.
    fn next_of_programming(&mut self) -> Option<DeviceReport>
        requires sensors { self.old.reports.items ≡ [] }
        requires turnouts { self.old.turnouts.items ≡ [] }
        ensures first { MatchOption result
            ((queue_of self.old ≡ []) × (queue_of self.new ≡ []))
            (λ report. queue_of self.old ≡ report ∷ queue_of self.new) }
        ensures legal { IfSome result (λ report. IsTrue (is_legal_report report)) }
    {
        if let Some(ended) = self.ended.take() {
            return Some(DeviceReport::Ended(ended));
        }
        let end = self.ends.pop_at(0)?;
        self.ended = end.result;
        Some(DeviceReport::Packet {
            packet: end.packet,
            change: named(self.decoder, end.change),
        })
    }
}

/// A change of a decoder with its name, if there are both.
fn named(decoder: Option<DecoderName>, change: Option<CvChange>) -> Option<NamedChange>
    ensures { result ≡ named decoder change }
{
    Some(NamedChange {
        name: decoder?,
        change: change?,
    })
}
