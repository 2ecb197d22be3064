//! What a program does between two rounds, as sending decoder states and trains to pages.
ghost use Rattle.std.specs.Prelude.{◌≡◌, ◌∷◌, [], Bool, List, None, Option, map, option_copied};
ghost use Rattle.input_text.specs.Write.{failed_after};
ghost use Rattle.layout_core.specs.Nodes.{spec_of};
ghost use Rattle.bus.specs.Log.{Extends};
ghost use Rattle.bus_server.specs.AfterRound.{Shown};
ghost use Rattle.bus_server.specs.Running.{RunSnapshot};
ghost use Rattle.bus_server.specs.SoFar.{IsSoFar};

use crate::observer::Observer;
use crate::transport::Transport;
use layout_core::World;
use railway::Railway;

/// What a program does between two rounds.
pub trait AfterRound<W: Transport, P: Observer> {
    /// Why it could not continue. The run then stops.
    type Fault;

    /// Whether it has failed.
    ghost failed: { Self → Bool };

    /// What each call so far was given, in order, if it is known.
    ghost shown: { Self → Option (List Shown) } = { λ _. None };

    /// The moment at which the run began that it follows, if that is known.
    ghost begun: { Self → Option RunSnapshot } = { λ _. None };

    /// Does it, for a layout and the railway beside it, if there is one. Nothing is read or written
    /// for the bus, and nothing is observed. It may rely on the whole run so far.
    fn after_round(
        &mut self,
        transport: &mut W,
        observer: &mut P,
        world: &World,
        railway: Option<&Railway>,
    ) -> Result<(), Self::Fault>
        requires observes { map spec_of world.now.nodes ≡ P.decoder_specs observer.old }
        requires so_far { IsSoFar (begun self.old) (W.log transport.old) (P.observed observer.old)
            (record { nodes = world.now.nodes; railway = option_copied railway }) }
        ensures begun { begun self.new ≡ begun self.old }
        ensures decoder_specs { P.decoder_specs observer.new ≡ P.decoder_specs observer.old }
        ensures log { Extends (W.log transport.old) (W.log transport.new) [] }
        ensures observed { Extends (P.observed observer.old) (P.observed observer.new) [] }
        ensures failed { failed self.new ≡ failed_after result (failed self.old) }
        ensures shown { Extends (shown self.old) (shown self.new)
            (record { nodes = world.now.nodes; railway = option_copied railway.entry } ∷ []) };
}
