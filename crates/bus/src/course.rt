//! Events of a bus, one after another.
ghost use Rattle.std.specs.Prelude.{◌≡◌, length};
ghost use Rattle.layout_core.specs.Cycle.{RunsAsWanted};
ghost use Rattle.layout_core.specs.Played.{after_events as played};
ghost use Rattle.layout_core.specs.World.{HaveHeard, IsSameLayout};
ghost use Rattle.station_core.specs.Seen.{known_of};
ghost use Rattle.bus.specs.Bus.{AreEvents, after_events, outcomes_of};
ghost use Rattle.bus.specs.Course.{micros_in, turn_durations};
ghost use Rattle.bus.specs.Layout.{layout_events};
ghost use Rattle.bus.specs.State.{bus_state};
ghost use Rattle.bus.specs.Cycle.{RunsInTime};
ghost use Rattle.bus.specs.Time.{IsTimeAccount};

use crate::{Bus, Event, Outcome, laws};

/// Runs the events in order and writes each outcome at the same index of `outcome`. A list of
/// events may be divided into calls anywhere.
pub fn run(bus: &mut Bus, events: &[Event], outcome: &mut [Outcome])
    requires places { length events.now ≡ length outcome.old }
    requires events { AreEvents events.now }
    ensures bus { bus_state bus.new ≡ after_events (bus_state bus.old) events.now }
    ensures outcome { outcome.new ≡ outcomes_of (bus_state bus.old) events.now }
    ensures nodes { HaveHeard bus.old.world.station (layout_events (bus_state bus.old) events.now)
        bus.old.world.nodes bus.new.world.nodes }
    ensures same { IsSameLayout bus.old.world bus.new.world }
    // The layout is that after the layout's events for these.
    ensures layout { bus.new.world.station
        ≡ played bus.old.world.station (layout_events (bus_state bus.old) events.now) }
    // The turns are those of the time that elapsed.
    ensures turns { IsTimeAccount (bus_state bus.old).remaining
        (micros_in (bus_state bus.old) events.now) (turn_durations outcome.new)
        (bus_state bus.new).remaining }
    // A locomotive that hears a full refresh cycle runs as its slot says.
    ensures headline { RunsAsWanted (known_of bus.old.world.station)
        (layout_events (bus_state bus.old) events.now) bus.old.world.nodes bus.new.world.nodes }
    // The same holds if it hears everything for 171,840 microseconds for each slot that is
    // refreshed.
    ensures in_time { RunsInTime (bus_state bus.old) events.now bus.old.world.nodes
        bus.new.world.nodes }
{
    laws::events_are_the_layout();
    laws::headline();
    laws::turns_of_the_time();
    layout_core::laws::events_add_up();
    bus.invariant_holds();
    for (i, event) in events.iter().enumerate() {
        outcome[i] = bus.step(event);
    }
}
