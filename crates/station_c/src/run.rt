//! Running a list of events.
ghost use Rattle.std.specs.Prelude.{◌≡◌, IsTrue, length, map};
ghost use Rattle.std.specs.List.{list_all};
ghost use Rattle.station_core.specs.Seen.{known_of};
ghost use Rattle.layout_core.specs.Cycle.{RunsAfterNoise, RunsAsWanted};
ghost use Rattle.layout_core.specs.Played.{after_events, answers_to};
ghost use Rattle.layout_core.specs.World.{HaveHeard, IsSameLayout};
ghost use Rattle.station_c.specs.Answer.{answered};
ghost use Rattle.station_c.specs.Event.{event_of, is_one};

use crate::answer::{Answer, answered};
use crate::event::{EventFields, read};
use layout_core::{World, headline};

/// Runs the events in order, and writes each answer at the same index.
pub(crate) fn run(world: &mut World, events: &[EventFields], answers: &mut [Answer])
    requires places { length events.now ≡ length answers.old }
    requires events { IsTrue
        (list_all (is_one (length world.old.station.lines) (length world.old.nodes)) events.now) }
    ensures station { world.new.station ≡ after_events world.old.station (map event_of events.now) }
    ensures answers { answers.new
        ≡ map answered (answers_to world.old.station (map event_of events.now)) }
    ensures nodes { HaveHeard world.old.station (map event_of events.now) world.old.nodes
        world.new.nodes }
    ensures same { IsSameLayout world.old world.new }
    ensures headline { RunsAsWanted (known_of world.old.station) (map event_of events.now)
        world.old.nodes world.new.nodes }
    ensures after_noise { RunsAfterNoise (known_of world.old.station) (map event_of events.now)
        world.old.nodes world.new.nodes }
{
    layout_core::laws::events_add_up();
    headline();
    world.station().always_legal();
    for (i, fields) in events.iter().enumerate() {
        let step = world.step(read(fields));
        answers[i] = answered(&step);
    }
}
