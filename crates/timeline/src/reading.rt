//! Parsing a line of `station`, or of the log of `lbserver`.
ghost use Rattle.std.specs.Prelude.{◌≡◌, Option, Some, true, Ok, IfOk, MatchResult};
ghost use Rattle.timeline.specs.declared.event.Event.{Event};
ghost use Rattle.trace.specs.Traffic.{is_of_turn};
ghost use Rattle.timeline.specs.Run.{Shows, is_of_message};

use crate::event::Event;
use trace::{BadLine, is_gap, is_of_node, is_of_turn, node_in, turn_of};

/// Parses the line of a turn.
fn turn_written(line: &[u8]) -> Result<Event, BadLine>
    requires { is_of_turn line.now ≡ true }
    ensures reported { IfOk result (λ event. Shows line.now (Some event)) }
    ensures exact { (reported : Option Event) → Shows line.now reported
        → MatchResult result (λ event. Some event ≡ reported) (λ _. ⊥) }
{
    let Ok(turn) = turn_of(line) else {
        return Err(BadLine);
    };
    Ok(Event::TurnBegan(turn))
}

/// Whether the first word of the line is that of a message in the log of `lbserver`, or that of a
/// reply of `station`.
fn is_of_message(line: &[u8]) -> bool
    ensures { result ≡ is_of_message line.now }
{
    line.starts_with(b"message ".as_slice()) || line.starts_with(b"reply ".as_slice())
}

/// Returns the event of a line, or `None` if it has none.
pub(crate) fn event_in(line: &[u8]) -> Result<Option<Event>, BadLine>
    ensures reported { IfOk result (λ reported. Shows line.now reported) }
    ensures exact { (reported : Option Event) → Shows line.now reported → result ≡ Ok reported }
{
    if is_of_turn(line) {
        return Ok(Some(turn_written(line)?));
    }
    if is_of_node(line) {
        return match node_in(line) {
            Some(seen) => Ok(Some(Event::Shown(seen))),
            None => Err(BadLine),
        };
    }
    if is_of_message(line) {
        return Ok(Some(Event::Message));
    }
    if is_gap(line) {
        return Err(BadLine);
    }
    Ok(None)
}
