//! How turnouts move and lie.
ghost use Rattle.std.specs.Prelude.{◌≡◌, ◌<◌, ◌≤◌, IsTrue, length, map};
ghost use Rattle.std.specs.List.{list_any, slice_index_or};
ghost use Rattle.railway.specs.declared.joint.TurnoutState.{TurnoutState as TurnoutValue};
ghost use Rattle.railway.specs.Network.{is_moving};
ghost use Rattle.railway.specs.Railway.{advanced_under, is_piece};
ghost use Rattle.railway.specs.Turnouts.{advanced, calmer, is_calm, is_changed, laid, moved_on, observed};

use crate::joint::TurnoutState;
use crate::plan::MAX_TURNOUTS;
use crate::reading::{is_changed, observed};
use crate::track::Track;
use arrayvec::ArrayVec;
use layout_core::World;
use station_core::Power;

/// The turnouts of a track.
type Turnouts = ArrayVec<TurnoutState, MAX_TURNOUTS>;

impl TurnoutState {
    /// Returns the turnout `micros` microseconds later.
    pub(crate) fn moved_on(&self, micros: u32) -> TurnoutState
        ensures { result ≡ moved_on micros self.now }
    {
        TurnoutState {
            left: self.left.saturating_sub(micros),
            ..*self
        }
    }
}

impl Track {
    /// Whether the outputs of a turnout's decoder are others than those that were seen last.
    pub(crate) fn is_changed(&self, world: &World) -> bool
        ensures { result ≡ list_any (is_changed world.now.nodes) self.now.turnouts }
    {
        self.turnouts
            .iter()
            .any(|turnout| is_changed(world, turnout))
    }

    /// Returns the turnouts as their decoders move them.
    fn observed(&self, world: &World) -> Turnouts
        ensures { result.items ≡ map (observed world.now.nodes) self.now.turnouts }
    {
        let mut turnouts = ArrayVec::new();
        for turnout in self.turnouts.as_slice() {
            turnouts.push(observed(world, turnout));
        }
        turnouts
    }

    /// Lays the turnouts as their decoders move them.
    pub(crate) fn lay(&mut self, world: &World)
        ensures { self.new ≡ laid world.now.nodes self.old }
    {
        self.turnouts = self.observed(world);
    }

    /// Returns how long of a time none of the turnouts comes to lie before its end.
    pub(crate) fn piece(&self, micros: u32, world: &World) -> u32
        requires { 0 < micros }
        ensures goes { 0 < result }
        ensures part { result ≤ micros }
        ensures piece { IsTrue (is_piece world.now.station.powered.power result self.now) }
    {
        match world.station().power() {
            Power::Off => micros,
            Power::Running | Power::Paused => self.calm_time(micros),
        }
    }

    /// The same with track power.
    fn calm_time(&self, micros: u32) -> u32
        requires { 0 < micros }
        ensures goes { 0 < result }
        ensures part { result ≤ micros }
        ensures calm { IsTrue (is_calm result self.now) }
    {
        let turnouts = self.turnouts.as_slice();
        let mut calm = micros;
        for i in 0..turnouts.len() {
            calm = calmer_at(turnouts, i, calm);
        }
        calm
    }

    /// Lets `micros` microseconds pass for the turnouts, which move by track power.
    pub(crate) fn advance(&mut self, micros: u32, world: &World)
        ensures { self.new ≡ advanced_under world.now.station.powered.power micros self.old }
    {
        match world.station().power() {
            Power::Off => {}
            Power::Running | Power::Paused => self.advance_moving(micros),
        }
    }

    /// The same with track power.
    fn advance_moving(&mut self, micros: u32)
        ensures { self.new ≡ advanced micros self.old }
    {
        if self.is_moving() {
            self.turnouts = self.advanced(micros);
        }
    }

    /// Whether one of the turnouts moves.
    fn is_moving(&self) -> bool
        ensures { result ≡ list_any is_moving self.now.turnouts }
    {
        self.turnouts.iter().any(|turnout| turnout.is_moving())
    }

    /// Returns the turnouts `micros` microseconds later.
    fn advanced(&self, micros: u32) -> Turnouts
        ensures { result.items ≡ map (moved_on micros) self.now.turnouts }
    {
        let mut turnouts = ArrayVec::new();
        for turnout in self.turnouts.as_slice() {
            turnouts.push(turnout.moved_on(micros));
        }
        turnouts
    }
}

/// Returns so much of a time, or less if the turnout moves and comes to lie before.
fn calmer(micros: u32, turnout: &TurnoutState) -> u32
    ensures { result ≡ calmer micros turnout.now }
{
    if turnout.is_moving() {
        micros.min(turnout.left)
    } else {
        micros
    }
}

/// The same for the turnout of an index.
fn calmer_at(turnouts: &[TurnoutState], i: usize, micros: u32) -> u32
    requires { i < length turnouts.now }
    ensures { (none : TurnoutValue) → result ≡ calmer micros (slice_index_or turnouts.now i none) }
{
    calmer(micros, &turnouts[i])
}
