//! The laws of a bus and of its lists of events. Each is a function without code that ensures it: a
//! call gives the law to a proof.
ghost use Rattle.std.specs.Prelude.{◌≡◌, List, ◌++◌, IsTrue, ℕ, ◌+◌, ◌*◌, ◌≤◌, ◌<◌, if◌then◌else◌, All, [], ◌∷◌, Bool, Option, None, IsFalse, is_some, length, slice_index, true};
ghost use Rattle.std.specs.List.{flat_map, list_all};
ghost use Rattle.layout_core.specs.declared.node.Node.{Node};
ghost use Rattle.layout_core.specs.World.{HaveHeard};
ghost use Rattle.layout_core.specs.Played.{after_events as played};
ghost use Rattle.station_core.specs.Powered.{HasDesk};
ghost use Rattle.station_core.specs.Seen.{known_of};
ghost use Rattle.layout_core.specs.Cycle.{RunsAsWanted};
ghost use Rattle.loconet_tcp.specs.Reading.{requests_of};
ghost use Rattle.loconet_tcp.specs.ClientLines.{receive_text, version_text};
ghost use Rattle.bus.specs.declared.outcome.Outcome.{Outcome};
ghost use Rattle.bus.specs.declared.outcome.Outcome.TheVariants.{Connected, Disconnected};
ghost use Rattle.bus.specs.Outcome.{text_for};
ghost use Rattle.bus.specs.declared.event.Event.{Event};
ghost use Rattle.bus.specs.declared.options.BusOptions.{BusOptions};
ghost use Rattle.bus.specs.Below.{StationMoves, TurnsAreBounded};
ghost use Rattle.bus.specs.Bus.{AreEvents, BusState, after_event, after_events, is_event, client_of, first_bus, outcomes_of};
ghost use Rattle.bus.specs.Invariant.{IsInvariant};
ghost use Rattle.bus.specs.Layout.{layout_event, layout_events};
ghost use Rattle.bus.specs.declared.event.Event.TheVariants.{Connects, Disconnects};
ghost use Rattle.bus.specs.Course.{is_time, micros_in, turn_durations};
ghost use Rattle.bus.specs.Cycle.{Assignment, IsHeard, RunsInTime, RunsOnInTime};
ghost use Rattle.bus.specs.Own.{stays_connected_in, messages_on, own_requests, messages_to_send, text_from};
ghost use Rattle.bus.specs.Since.{text_since, requests_nothing, has_connected, changes_connection, stays_connected, traffic};
ghost use Rattle.bus.specs.Time.{IsTimeAccount};

use ln_frame::whole_message;

/// The duration of a turn of the station: 5,796 to 10,740 microseconds.
pub fn turns_are_bounded()
    ensures { TurnsAreBounded }
{
    station_core::laws::packets_are_short();
    half_bits::laws::durations_are_bounded();
}

/// The effect of bytes, whole messages and turns on a station, and that clients send whole messages.
pub(crate) fn station_moves()
    ensures { StationMoves }
{
    station_core::laws::calls_are_moves();
    whole_message();
    loconet_tcp::laws::requested_message_is_whole();
}

/// The effect of events on a bus: its invariant holds, and its station is that of the layout's
/// events.
pub fn events_are_the_layout()
    ensures kept { (bus : BusState) (events : List Event) → IsInvariant bus → AreEvents events
        → IsInvariant (after_events bus events) }
    ensures one { (bus : BusState) (event : Event) → IsInvariant bus → IsTrue (is_event event)
        → played bus.station (layout_event bus event) ≡ (after_event bus event).station }
    ensures station { (bus : BusState) (events : List Event) → IsInvariant bus → AreEvents events
        → played bus.station (layout_events bus events) ≡ (after_events bus events).station }
    // However a list is divided, the effect on the layout is the same, and the decoders heard the
    // same.
    ensures cut { (bus : BusState) (events later : List Event)
        → layout_events bus (events ++ later)
        ≡ layout_events bus events ++ layout_events (after_events bus events) later }
    ensures more { (bus : BusState) (events later : List Event) (old mid new : List Node)
        → IsInvariant bus → AreEvents events
        → HaveHeard bus.station (layout_events bus events) old mid
        → HaveHeard (after_events bus events).station
        (layout_events (after_events bus events) later) mid new
        → HaveHeard bus.station (layout_events bus (events ++ later)) old new }
{
    station_moves();
    turns_are_bounded();
    layout_core::laws::events_add_up();
}

/// The turns that begin in events are those of the time that elapsed.
pub fn turns_of_the_time()
    ensures { (bus : BusState) (events : List Event) → IsInvariant bus → AreEvents events
        → IsTimeAccount bus.remaining (micros_in bus events)
        (turn_durations (outcomes_of bus events)) (after_events bus events).remaining }
{
    events_are_the_layout();
    turns_are_bounded();
}

/// The same turns begin in a time, however it is divided into events.
pub fn however_cut()
    ensures { (bus : BusState) (these those : List Event) → IsInvariant bus → AreEvents these
        → AreEvents those
        → list_all is_time these ≡ true → list_all is_time those ≡ true
        → micros_in bus these ≡ micros_in bus those
        → (after_events bus these ≡ after_events bus those)
        × (turn_durations (outcomes_of bus these) ≡ turn_durations (outcomes_of bus those)) }
{
    turns_of_the_time();
}

/// The headline, by turns and by time, of the decoders of a bus after its events.
pub fn headline()
    // A locomotive that hears a full refresh cycle of its address runs as its slot says.
    ensures headline { (start : BusState) (events : List Event) (old new : List Node)
        → HasDesk start.station.powered
        → HaveHeard start.station (layout_events start events) old new
        → RunsAsWanted (known_of start.station) (layout_events start events) old new }
    // The same holds if it hears everything for 171,840 microseconds for each slot that is
    // refreshed.
    ensures in_time { (start : BusState) (events : List Event) (old new : List Node)
        → IsInvariant start → AreEvents events → HasDesk start.station.powered
        → HaveHeard start.station (layout_events start events) old new
        → RunsInTime start events old new }
    // It goes on as long as the slot says the same, and so at each moment of that time.
    ensures goes_on { (start : BusState) (events : List Event) (old new : List Node)
        → IsInvariant start → AreEvents events → HasDesk start.station.powered
        → HaveHeard start.station (layout_events start events) old new
        → RunsOnInTime start events old new }
    ensures so_far { (asked : Assignment) (start : BusState) (before cycle later more : List Event)
        → IsHeard asked start before cycle (later ++ more)
        → IsHeard asked start before cycle later }
{
    station_core::laws::desk_of_messages();
    events_are_the_layout();
    turns_are_bounded();
    turns_of_the_time();
    layout_core::laws::headline();
}

/// The text of each client since it connected, event by event, and the text of a client that only
/// listens.
pub fn text_since_connecting()
    ensures joins { (i : ℕ) (outcomes : List Outcome)
        → text_since i (outcomes ++ Connected i ∷ []) ≡ version_text }
    ensures leaves { (i : ℕ) (outcomes : List Outcome)
        → text_since i (outcomes ++ Disconnected i ∷ []) ≡ [] }
    ensures goes_on { (i : ℕ) (outcomes : List Outcome) (outcome : Outcome)
        → IsFalse (changes_connection i outcome) →
        text_since i (outcomes ++ outcome ∷ [])
        ≡ (if has_connected i outcomes then text_since i outcomes ++ text_for i outcome else []) }
    ensures connected { (i : ℕ) (outcomes : List Outcome)
        → IsTrue (has_connected i (outcomes ++ Connected i ∷ [])) }
    ensures disconnected { (i : ℕ) (outcomes : List Outcome)
        → IsFalse (has_connected i (outcomes ++ Disconnected i ∷ [])) }
    ensures stayed { (i : ℕ) (outcomes : List Outcome) (outcome : Outcome)
        → IsFalse (changes_connection i outcome)
        → has_connected i (outcomes ++ outcome ∷ []) ≡ has_connected i outcomes }
    // The connected clients are those that the bus holds a reader for.
    ensures there { (options : BusOptions) (i : ℕ) (events : List Event) → AreEvents events
        → has_connected i (outcomes_of (first_bus options) events)
        ≡ is_some (client_of (after_events (first_bus options) events) i) }
    // A client that makes no request receives all messages of the bus, in order, and nothing else.
    ensures bystander { (i : ℕ) (outcomes : List Outcome) → IsTrue (stays_connected i outcomes)
        → IsTrue (requests_nothing i outcomes) →
        flat_map (text_for i) outcomes ≡ flat_map receive_text (traffic outcomes) }
{}

/// A line carries the messages of its own client only: those that the client's text requests to
/// send, in order, and no others.
pub fn own_lines()
    ensures lines { (bus : BusState) (i : ℕ) (events : List Event) → AreEvents events
        → length bus.clients ≡ 8 →
        messages_on i (outcomes_of bus events)
        ≡ messages_to_send (own_requests i (client_of bus i) events) }
    // The requests of a client are those of the lines received since it connected, whatever was
    // kept of its predecessor.
    ensures so_far { (i : ℕ) (kept : Option (List ℕ)) (events : List Event)
        → IsTrue (stays_connected_in i events) →
        own_requests i kept (Connects i ∷ events) ≡ requests_of (text_from i events) }
    // When it disconnects, an unfinished line makes no request.
    ensures visit { (i : ℕ) (kept : Option (List ℕ)) (events rest : List Event)
        → IsTrue (stays_connected_in i events) →
        own_requests i kept (Connects i ∷ (events ++ Disconnects i ∷ rest))
        ≡ requests_of (text_from i events) ++ own_requests i None rest }
{
    loconet_tcp::laws::any_cut();
}

/// However a time is divided, the same turns begin in it, and no others, as many as their durations
/// allow.
pub fn time_adds_up()
    // Consecutive times are one time.
    ensures adds_up { (remaining first mid second last : ℕ) (these those : List ℕ) →
        IsTimeAccount remaining first these mid → IsTimeAccount mid second those last
        → IsTimeAccount remaining (first + second) (these ++ those) last }
    // No further turn begins.
    ensures only { (remaining micros last later next : ℕ) (turns more : List ℕ) →
        IsTimeAccount remaining micros turns last
        → IsTimeAccount remaining micros (turns ++ next ∷ more) later → ⊥ }
    // If the turns of two accounts agree index by index, they are equal in number, and the same
    // time is left.
    ensures same { (remaining micros last later : ℕ) (these those : List ℕ) →
        ((i : ℕ) → i < length these → i < length those → slice_index these i ≡ slice_index those i)
        →
        IsTimeAccount remaining micros these last → IsTimeAccount remaining micros those later
        → (these ≡ those) × (last ≡ later) }
    // The time left is at most the longest duration of a turn.
    ensures within { (remaining micros last longest : ℕ) (turns : List ℕ) →
        IsTimeAccount remaining micros turns last → remaining ≤ longest
        → All (λ turn. turn ≤ longest) turns → last ≤ longest }
    // In the time of n longest turns at least n begin, and in that of n shortest turns at most n.
    ensures enough { (remaining micros last longest : ℕ) (turns : List ℕ) →
        IsTimeAccount remaining micros turns last → remaining ≤ longest
        → All (λ turn. turn ≤ longest) turns →
        (count : ℕ) → longest * count ≤ micros → count ≤ length turns }
    ensures few { (remaining micros last shortest : ℕ) (turns : List ℕ) →
        IsTimeAccount remaining micros turns last → 0 < remaining
        → All (λ turn. shortest ≤ turn) turns →
        (count : ℕ) → micros ≤ shortest * count → length turns ≤ count }
{}
