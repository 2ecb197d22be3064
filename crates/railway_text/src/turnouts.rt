//! How a turnout lies.
ghost use Rattle.std.specs.Prelude.{◌≡◌, length};
ghost use Rattle.railway_text.specs.Turnouts.{side_of, turnout_line};

use crate::words::StateLine;
use railway::TurnoutState;
use text::push_number;

/// Returns `closed` or `thrown`, as a turnout lies, or `moving`.
pub fn side_of(state: &TurnoutState) -> &'static str
    ensures side { result.now ≡ side_of state.now }
    ensures len { length result.now ≡ 6 }
{
    if state.is_moving() {
        "moving"
    } else if state.is_thrown {
        "thrown"
    } else {
        "closed"
    }
}

/// Returns `TURNOUT`, the number of a turnout, and [`side_of`] it.
pub fn turnout_line(state: &TurnoutState) -> StateLine
    ensures { result.bytes ≡ turnout_line state.now }
{
    let mut line = StateLine::new();
    line.push_str("TURNOUT ");
    push_number(&mut line, u64::from(state.turnout.switch));
    line.push_str(" ");
    line.push_str(side_of(state));
    line
}
