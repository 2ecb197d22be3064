//! What turnouts with feedback report, and the answers to requests for their state (LocoNet Personal
//! Use Edition 1.0, OPC_SW_REP and OPC_SW_STATE).
ghost use Rattle.std.specs.Prelude.{◌≡◌};
ghost use Rattle.ln_frame.specs.Message.{IsWhole};
ghost use Rattle.railway.specs.Feedback.{feedback_reply, full_turnouts, is_with_feedback, movement_of, movements_within, report_at, turnout_report_bytes, requested_switch, side_report, state_bytes, state_answer};
ghost use Rattle.railway.specs.Turnouts.{moved_on_under, observed, same_bool};

use crate::joint::TurnoutState;
use crate::plan::MAX_TURNOUTS;
use crate::railway::Railway;
use crate::reading::observed;
use crate::report::Reports;
use crate::track::Track;
use crate::turnout_report::TurnoutReport;
use arrayvec::ArrayVec;
use layout_core::World;
use ln_frame::Msg;
use ln_ops::{Reply, to_msg};
use station_core::Power;

/// A turnout reports the side at which it lies.
const OPC_SW_REP: u8 = 0xB1;

/// A request for the state of a turnout.
const OPC_SW_STATE: u8 = 0xBC;

/// The code of a long acknowledge for a turnout that lies closed.
const CLOSED: u8 = 0x20;

/// What turnouts report at once: at most one report each.
pub type TurnoutReports = ArrayVec<TurnoutReport, MAX_TURNOUTS>;

/// What sensors and turnouts report of a time.
#[derive(Drop)]
pub struct TimeReports {
    /// What sensors report.
    pub sensors: Reports,
    /// The turnouts with feedback that have come to lie.
    pub turnouts: TurnoutReports,
}

impl TurnoutReport {
    /// Returns the message of this report: that of a contact, in the form for inputs.
    pub fn message(self) -> Msg
        ensures whole { IsWhole result }
        ensures bytes { result ≡ turnout_report_bytes self }
    {
        let address = self.switch.saturating_sub(1);
        let low = (address % 128) as u8;
        let level = u8::from(!self.is_thrown) * 16;
        let high = 64 + 32 + level + (address / 128 % 16) as u8;
        Msg::sealed(&[OPC_SW_REP, low, high])
    }
}

impl TurnoutState {
    /// Returns the report of a turnout that lies.
    fn report(&self) -> TurnoutReport
        ensures { result ≡ report_at self.now }
    {
        TurnoutReport {
            switch: self.turnout.switch,
            is_thrown: self.is_thrown,
        }
    }

    /// Returns the report of the turnout, which was another before, if it has come to lie.
    fn movement(&self, before: &TurnoutState) -> Option<TurnoutReport>
        ensures { result ≡ movement_of before.now self.now }
    {
        let has_moved = before.is_moving() || self.is_thrown != before.is_thrown;
        if self.turnout.has_feedback && !self.is_moving() && has_moved {
            Some(self.report())
        } else {
            None
        }
    }

    /// Returns the report of the turnout, if it has feedback and lies.
    fn side_report(&self) -> Option<TurnoutReport>
        ensures { result ≡ side_report self.now }
    {
        if self.turnout.has_feedback && !self.is_moving() {
            Some(self.report())
        } else {
            None
        }
    }

    /// Returns the turnout after `micros` microseconds in which its decoder does what it does now.
    fn later(&self, micros: u32, world: &World) -> TurnoutState
        ensures { result ≡ moved_on_under world.now.station.powered.power micros
            (observed world.now.nodes self.now) }
    {
        let asked = observed(world, self);
        match world.station().power() {
            Power::Off => asked,
            Power::Running | Power::Paused => asked.moved_on(micros),
        }
    }

    /// Whether it has this switch, and feedback.
    fn is_with_feedback(&self, switch: u16) -> bool
        ensures { result ≡ is_with_feedback switch self.now }
    {
        self.turnout.has_feedback && self.turnout.switch == switch
    }

    /// Returns the answer to a request for its state: the side that it was asked for last.
    fn reply(&self) -> Msg
        ensures { result ≡ state_bytes self.now }
    {
        let ack = if self.is_thrown { 0 } else { CLOSED };
        to_msg(&Reply::LongAck {
            opc: OPC_SW_STATE % 128,
            ack,
        })
    }
}

impl Track {
    /// Returns what turnouts report of the next `micros` microseconds.
    pub(crate) fn movements(&self, micros: u32, world: &World) -> TurnoutReports
        ensures { result.items ≡ movements_within world.now.station.powered.power micros
            world.now.nodes self.now.turnouts }
    {
        let mut reports = ArrayVec::new();
        for turnout in self.turnouts.as_slice() {
            if let Some(report) = turnout.later(micros, world).movement(turnout) {
                reports.push(report);
            }
        }
        reports
    }

    /// Returns a full report of the turnouts.
    fn side_reports(&self) -> TurnoutReports
        ensures { result.items ≡ full_turnouts self.now.turnouts }
    {
        let mut reports = ArrayVec::new();
        for turnout in self.turnouts.as_slice() {
            if let Some(report) = turnout.side_report() {
                reports.push(report);
            }
        }
        reports
    }
}

impl Railway {
    /// Returns a full report of the turnouts: each with feedback, as it lies. One that moves reports
    /// when it has come to lie.
    pub fn report_turnouts(&self) -> TurnoutReports
        ensures reports { result.items ≡ full_turnouts self.now.network.turnouts }
    {
        self.track.side_reports()
    }

    /// Returns the answer to a message that requests the state of a turnout with feedback, or `None`
    /// for any other. While the turnout moves, that is the side which it moves from.
    pub fn answer_state(&self, message: &Msg) -> Option<Msg>
        ensures answer { result ≡ feedback_reply self.now.network.turnouts message.now }
    {
        let switch = requested_switch(message)?;
        state_answer(self.turnouts(), switch)
    }
}

/// Returns the answer of the first turnout with feedback of a switch.
fn state_answer(turnouts: &[TurnoutState], switch: u16) -> Option<Msg>
    ensures { result ≡ state_answer turnouts.now switch }
{
    turnouts
        .iter()
        .find(|state| state.is_with_feedback(switch))
        .map(|state| state.reply())
}

/// Returns the switch whose state a message requests, if it does.
fn requested_switch(message: &Msg) -> Option<u16>
    ensures { result ≡ requested_switch message.now }
{
    match message.bytes() {
        [OPC_SW_STATE, sw1, sw2, _] => Some(1 + u16::from(*sw2 % 16) * 128 + u16::from(*sw1)),
        _ => None,
    }
}
