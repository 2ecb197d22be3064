//! Observers of a server.
ghost use Rattle.std.specs.Prelude.{◌≡◌, ◌<◌, ◌∷◌, [], List, Option, map, option_copied};
ghost use Rattle.decoder_node.specs.declared.node.NodeSpec.{NodeSpec};
ghost use Rattle.layout_core.specs.Nodes.{spec_of};
ghost use Rattle.bus.specs.Log.{Extends};
ghost use Rattle.bus_server.specs.Observations.{Observed, Observation, Skipped, Overflowed};

use bus::Outcome;
use layout_core::World;
use railway::Railway;

/// Observes what happens on a bus, as it happens.
pub trait Observer {
    /// Why it could not continue. The caller then stops at once, even in the middle of a round.
    type Fault;

    /// The decoders of the layout that it observes.
    ghost decoder_specs: { Self → List NodeSpec };

    /// All observations so far, in order, if they are known.
    ghost observed: { Self → Option (List Observation) };

    /// Observes an outcome, with the layout and the railway, if there is one, after it.
    fn observe(
        &mut self,
        outcome: &Outcome,
        world: &World,
        railway: Option<&Railway>,
    ) -> Result<(), Self::Fault>
        requires { map spec_of world.now.nodes ≡ decoder_specs self.old }
        ensures decoder_specs { decoder_specs self.new ≡ decoder_specs self.old }
        ensures observed { Extends (observed self.old) (observed self.new)
            (Observed outcome.now world.now.nodes (option_copied railway.entry) ∷ []) };

    /// Observes that the queue of a client, 0 to 7, overflowed and that its connection is closed.
    fn overflowed(&mut self, client: u8) -> Result<(), Self::Fault>
        requires { client < 8 }
        ensures decoder_specs { decoder_specs self.new ≡ decoder_specs self.old }
        ensures observed { Extends (observed self.old) (observed self.new)
            (Overflowed client ∷ []) };

    /// Observes that `micros` microseconds were skipped.
    fn skipped(&mut self, micros: u64) -> Result<(), Self::Fault>
        ensures decoder_specs { decoder_specs self.new ≡ decoder_specs self.old }
        ensures observed { Extends (observed self.old) (observed self.new) (Skipped micros ∷ []) };
}
