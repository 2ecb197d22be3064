//! What devices beside the station are still to report.
ghost use Rattle.std.specs.Prelude.{◌≡◌, IsTrue};
ghost use Rattle.bus.specs.Bus.{is_event};

use bus::Event;
use ln_ops::SensorReport;
use programmer::TaskResult;
use programming_track::NamedChange;
use railway::TurnoutReport;
use service_mode::ServicePacket;

/// What a device beside the station reports.
#[derive(Clone, Copy)]
pub(crate) enum DeviceReport {
    /// The block of a sensor became occupied or free.
    Sensor(SensorReport),
    /// A turnout came to lie.
    Turnout(TurnoutReport),
    /// A packet has been sent on the programming track, and may have changed the decoder's variables.
    Packet {
        packet: ServicePacket,
        change: Option<NamedChange>,
    },
    /// The task of the programming track has ended.
    Ended(TaskResult),
}

impl DeviceReport {
    ghost use Rattle.bus_server.specs.DeviceReports.{event_of, is_legal_report};

    /// The event of the bus.
    pub(crate) fn event(self) -> Event
        requires { IsTrue (is_legal_report self) }
        ensures value { result ≡ event_of self }
        ensures legal { IsTrue (is_event result) }
    {
        match self {
            DeviceReport::Sensor(report) => Event::Reports {
                message: report.message(),
            },
            DeviceReport::Turnout(report) => Event::Reports {
                message: report.message(),
            },
            DeviceReport::Packet { packet, change } => Event::Programs { packet, change },
            DeviceReport::Ended(result) => Event::Reports {
                message: result.message(),
            },
        }
    }
}
