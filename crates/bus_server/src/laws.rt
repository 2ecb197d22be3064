//! The laws of runs, each as a function that does nothing and ensures it: a call hands the law to a proof.
ghost use Rattle.bus_server.specs.Fronts.{FrontsAreWritten};
ghost use Rattle.bus_server.specs.KeepUp.{StaysConnected};
ghost use Rattle.bus_server.specs.Known.{BecomesKnown, StaysKnown};
ghost use Rattle.bus_server.specs.KnownTurnouts.{TurnoutBecomesKnown, TurnoutStaysKnown};
ghost use Rattle.bus_server.specs.MainTrack.{MainTrackIsApart};
ghost use Rattle.bus_server.specs.Repeats.{OrderDecides, RunsRepeat, TurnsFollowMessages};
ghost use Rattle.bus_server.specs.Running.{NoneMisses, RoundsAreARun, TimeIsRead};
ghost use Rattle.bus_server.specs.SliderToRail.{RoundsReachRail, SliderReachesRail};

/// Whatever rounds a run has had, also one that goes on: their events, in order, are what the bus ran, and the headline in time
/// holds of them.
pub fn rounds_are_a_run()
    ensures { RoundsAreARun }
{
    bus::laws::events_are_the_layout();
    layout_core::laws::events_add_up();
    bus::laws::headline();
}

/// From slider to rail: after a cycle as the headline in time says it, while the slot says the same
/// and turnouts on the way stay, a train has run as the slot asks for exactly the time since then:
/// whatever the server does between the events of the layout, and whatever rounds a run has.
pub fn slider_reaches_rail()
    ensures events { SliderReachesRail }
    ensures rounds { RoundsReachRail }
{
    bus::laws::events_are_the_layout();
    layout_core::laws::events_add_up();
    bus::laws::headline();
    railway::laws::trains_run_as_driven();
}

/// If turns follow time, the track time of a run, with what is still due, is the sum of the clock's readings, each a second at
/// most, times the rate.
pub fn time_is_read()
    ensures { TimeIsRead }
{}

/// While a client's queue is open, what was written to it and what is queued are together its text since it connected.
pub fn fronts_are_written()
    ensures { FrontsAreWritten }
{}

/// A server does not close the connection of a client that keeps up, however much devices report.
pub fn stays_connected()
    ensures { StaysConnected }
{
    railway::laws::railways_are_small();
    railway::laws::railways_are_kept();
    bus::laws::turns_are_bounded();
    programming_track::laws::ends_are_few();
    loconet_tcp::laws::requested_message_is_whole();
    loconet_tcp::laws::received_lines_are_short();
}

/// What a client knows of a sensor by the messages that it receives is whether its block is occupied:
/// after a message that asks all sensors to report, whatever the client knew, and from then on, if
/// no client sends a report of its own.
pub fn clients_know()
    ensures becomes { BecomesKnown }
    ensures stays { StaysKnown }
{
    ln_ops::laws::reports_are_read();
    railway::laws::observers_know();
    railway::laws::railways_are_kept();
}

/// What a client knows of a turnout with feedback by the messages that it receives is the side at which it
/// lies, whenever it lies: after an interrogation, whatever the client knew, and from then on, if no
/// client sends a report of its own and no other turnout with feedback has its switch.
pub fn clients_know_turnouts()
    ensures becomes { TurnoutBecomesKnown }
    ensures stays { TurnoutStaysKnown }
{
    railway::laws::observers_know_turnouts();
    railway::laws::railways_are_kept();
    railway::laws::turnout_reports_are_read_back();
    railway::laws::turnouts_report_movements();
}

/// Where turns follow messages, all those of one pass before a client sends a byte or connects.
pub fn turns_follow_messages()
    ensures { TurnsFollowMessages }
{}

/// Runs repeat: if the same comes from outside to two servers that are alike, in the same order and with the same turns between, the
/// outcomes are the same, and the servers are alike after it. Turns that follow messages need not be compared.
pub fn runs_repeat()
    ensures repeat { RunsRepeat }
    ensures in_order { OrderDecides }
{}

/// If no decoder is to miss anything, none misses a turn.
pub fn none_misses()
    ensures { NoneMisses }
{}

/// Nothing of a programming track has an effect on the main track: what comes from outside decides it, with a programming track and
/// without, and messages for slot 124 among it.
pub fn main_track_is_apart()
    ensures { MainTrackIsApart }
{}
