//! What the decoders of a layout do. They are read, and nothing changes them.
ghost use Rattle.std.specs.Prelude.{◌≡◌, ◌<◌};
ghost use Rattle.railway.specs.Trains.{running_in};
ghost use Rattle.railway.specs.Turnouts.{came_on, is_changed, is_moved, is_on, observed, outputs_in, pair_of, side_of};

use crate::joint::TurnoutState;
use layout_core::{Running, World};

/// The microseconds of a millisecond.
const MICROS: u32 = 1_000;

/// Returns how a decoder runs, or `None` unless it is one of a locomotive.
pub(crate) fn running(world: &World, decoder: u8) -> Option<Running>
    ensures { result ≡ running_in world.now.nodes decoder }
{
    if usize::from(decoder) < world.nodes() {
        world.running(usize::from(decoder))
    } else {
        None
    }
}

/// Returns the outputs of a decoder, or `None` unless it is an accessory decoder.
fn outputs(world: &World, decoder: u8) -> Option<u8>
    ensures { result ≡ outputs_in world.now.nodes decoder }
{
    if usize::from(decoder) < world.nodes() {
        world.outputs(usize::from(decoder))
    } else {
        None
    }
}

/// Returns a turnout as its decoder moves it.
pub(crate) fn observed(world: &World, state: &TurnoutState) -> TurnoutState
    ensures { result ≡ observed world.now.nodes state.now }
{
    let outputs = outputs(world, state.decoder);
    let is_thrown = if state.fails {
        state.is_thrown
    } else {
        side(state, outputs)
    };
    TurnoutState {
        is_thrown,
        left: state.left_to(is_thrown),
        outputs: outputs.unwrap_or(state.outputs),
        ..*state
    }
}

/// Whether the outputs of a turnout's decoder are others than those that were seen last.
pub(crate) fn is_changed(world: &World, state: &TurnoutState) -> bool
    ensures { result ≡ is_changed world.now.nodes state.now }
{
    match outputs(world, state.decoder) {
        Some(outputs) => outputs != state.outputs,
        None => false,
    }
}

/// Whether its decoder moves a turnout to its other side.
pub(crate) fn is_moved(world: &World, state: &TurnoutState) -> bool
    ensures { result ≡ is_moved world.now.nodes state.now }
{
    observed(world, state).is_thrown != state.is_thrown
}

impl TurnoutState {
    ghost use Rattle.railway.specs.Network.{is_moving};
    ghost use Rattle.railway.specs.Turnouts.{left_to};

    /// Whether it moves, and lies at neither side.
    pub fn is_moving(&self) -> bool
        ensures moving { result ≡ is_moving self.now }
    {
        self.left != 0
    }

    /// Returns the microseconds until it lies if it is asked for a side.
    fn left_to(&self, thrown: bool) -> u32
        ensures { result ≡ left_to thrown self.now }
    {
        if thrown == self.is_thrown {
            self.left
        } else {
            (u32::from(self.turnout.time) * MICROS).saturating_sub(self.left)
        }
    }
}

/// Returns the side that a turnout is asked for by a decoder with these outputs: whether thrown.
fn side(state: &TurnoutState, outputs: Option<u8>) -> bool
    ensures { result ≡ side_of state.now.outputs outputs (pair_of state.now.turnout.switch)
        state.now.is_thrown }
{
    let Some(outputs) = outputs else {
        return state.is_thrown;
    };
    let pair = (state.turnout.switch.saturating_sub(1) % 4) as u8;
    let thrown = came_on(state.outputs, outputs, 2 * pair);
    let closed = came_on(state.outputs, outputs, 2 * pair + 1);
    if closed == thrown {
        state.is_thrown
    } else {
        thrown
    }
}

/// Whether an output is on that was off.
fn came_on(was: u8, is: u8, output: u8) -> bool
    requires { output < 8 }
    ensures { result ≡ came_on was is output }
{
    is_on(is, output) && !is_on(was, output)
}

/// Whether an output is on.
fn is_on(outputs: u8, output: u8) -> bool
    requires { output < 8 }
    ensures { result ≡ is_on outputs output }
{
    (outputs >> output) & 1 == 1
}
