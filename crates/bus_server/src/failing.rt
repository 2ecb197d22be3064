//! Letting devices fail for clients.
ghost use Rattle.std.specs.Prelude.{◌≡◌, Ok, Some, option_map};
ghost use Rattle.railway.specs.Course.Happening.{FailuresEnd, SensorFails, TurnoutFails};
ghost use Rattle.bus_server.specs.DeviceReports.{queue_of};
ghost use Rattle.bus_server.specs.Failures.{happened_to, happening_by, happening_of, sensor_answer, turnout_answer};
ghost use Rattle.bus_server.specs.Programming.{arranged, fail_answer, failing, programming_answer};
ghost use Rattle.bus_server.specs.Sensors.{due_of};
ghost use Rattle.loconet_tcp.specs.declared.request.DeviceRequest.TheVariants.{Fail};

use crate::arranging::fail_acknowledgments;
use crate::device_reports::DeviceReports;
use crate::sensors::Sensors;
use loconet_tcp::{FailError, Failure};

impl Sensors {
    /// Lets a device fail, or ends all failures, if the line says so. What sensors report of it is due.
    /// Returns the answer.
    pub(crate) fn fail_as_asked(
        &mut self,
        failure: &Result<Option<Failure>, FailError>,
    ) -> Result<(), FailError>
        ensures railway { self.new.railway
            ≡ happened_to (happening_by (Fail failure.now)) self.old.railway }
        ensures programming { self.new.programming
            ≡ option_map (arranged (Fail failure.now)) self.old.programming }
        ensures unreported { queue_of self.new.unreported
            ≡ due_of (happening_by (Fail failure.now)) self.old.railway
            (queue_of self.old.unreported) }
        ensures answer { result ≡ fail_answer self.old.programming self.old.railway failure.now }
    {
        match failure {
            Err(error) => Err(*error),
            Ok(failure) => self.fail(*failure),
        }
    }

    /// Lets a device fail, or ends all failures. What sensors report of it is due. Returns the answer.
    fn fail(&mut self, failure: Option<Failure>) -> Result<(), FailError>
        ensures railway { self.new.railway ≡ happened_to (happening_of failure) self.old.railway }
        ensures programming { self.new.programming
            ≡ option_map (failing (Ok failure)) self.old.programming }
        ensures unreported { queue_of self.new.unreported
            ≡ due_of (happening_of failure) self.old.railway (queue_of self.old.unreported) }
        ensures answer { result
            ≡ fail_answer self.old.programming self.old.railway (Ok failure) }
    {
        fail_acknowledgments(&mut self.programming, failure);
        match failure {
            None => {
                self.end_failures();
                Ok(())
            }
            Some(Failure::Programming) => self.programming_answer(),
            Some(Failure::Sensor { sensor, occupied }) => self.fail_sensor(sensor, occupied),
            Some(Failure::Turnout { switch }) => self.fail_turnout(switch),
        }
    }

    /// Whether there is a programming track that can fail.
    fn programming_answer(&self) -> Result<(), FailError>
        ensures { result ≡ programming_answer self.now.programming }
    {
        match self.programming {
            Some(_) => Ok(()),
            None => Err(FailError::NoTrack),
        }
    }

    /// Lets a sensor fail. Returns the answer.
    fn fail_sensor(&mut self, sensor: u16, occupied: bool) -> Result<(), FailError>
        ensures railway { self.new.railway
            ≡ happened_to (Some (SensorFails sensor occupied)) self.old.railway }
        ensures programming { self.new.programming ≡ self.old.programming }
        ensures unreported { queue_of self.new.unreported
            ≡ due_of (Some (SensorFails sensor occupied)) self.old.railway
            (queue_of self.old.unreported) }
        ensures answer { result ≡ sensor_answer self.old.railway sensor }
    {
        match &mut self.railway {
            None => Err(FailError::NoPlan),
            Some(railway) => match railway.fail_sensor(sensor, occupied) {
                Some(reports) => {
                    self.unreported = DeviceReports::of_sensors(reports);
                    Ok(())
                }
                None => {
                    self.unreported = DeviceReports::none();
                    Err(FailError::UnknownSensor)
                }
            },
        }
    }

    /// Lets a turnout fail. Returns the answer.
    fn fail_turnout(&mut self, switch: u16) -> Result<(), FailError>
        ensures railway { self.new.railway
            ≡ happened_to (Some (TurnoutFails switch)) self.old.railway }
        ensures programming { self.new.programming ≡ self.old.programming }
        ensures unreported { queue_of self.new.unreported
            ≡ due_of (Some (TurnoutFails switch)) self.old.railway
            (queue_of self.old.unreported) }
        ensures answer { result ≡ turnout_answer self.old.railway switch }
    {
        match &mut self.railway {
            None => Err(FailError::NoPlan),
            Some(railway) => {
                self.unreported = DeviceReports::none();
                if railway.fail_turnout(switch) {
                    Ok(())
                } else {
                    Err(FailError::UnknownTurnout)
                }
            }
        }
    }

    /// Ends all failures of sensors and turnouts.
    fn end_failures(&mut self)
        ensures railway { self.new.railway ≡ happened_to (Some FailuresEnd) self.old.railway }
        ensures programming { self.new.programming ≡ self.old.programming }
        ensures unreported { queue_of self.new.unreported
            ≡ due_of (Some FailuresEnd) self.old.railway (queue_of self.old.unreported) }
    {
        if let Some(railway) = &mut self.railway {
            self.unreported = DeviceReports::of_sensors(railway.end_failures());
        }
    }
}
