//! A decoder on the track.
ghost use Rattle.std.specs.Prelude.{◌≡◌, ◌∷◌, []};

use dcc_packet::{Instr, Packet};
use decoder_cv::CvSet;
use decoder_node::{Accessory, Loco, NodeSpec, Running};

/// A decoder on the track, which hears packets.
#[derive(Drop)]
pub(crate) enum Node {
    /// A locomotive decoder.
    Loco(Loco),
    /// An accessory decoder.
    Accessory(Accessory),
}

impl Node {
    ghost use Rattle.dcc_packet.specs.Reading.{instruction_of};
    ghost use Rattle.layout_core.specs.Nodes.{node_of, running_of, outputs_of};
    ghost use Rattle.layout_core.specs.Hearing.{HeardHalves, HearsPacket};

    /// Creates a decoder in its first state, which has heard nothing.
    pub(crate) fn new(spec: NodeSpec) -> Node
        ensures { result ≡ node_of spec }
    {
        match spec {
            NodeSpec::Loco(cv) => Node::Loco(Loco::new(cv)),
            NodeSpec::Accessory(module) => Node::Accessory(Accessory::new(module)),
        }
    }

    /// Hears a packet that spells this instruction, or none, as its receiver hears each half-bit of
    /// it.
    #[inline]
    pub(crate) fn hear(&mut self, packet: &Packet, instr: &Option<Instr>)
        requires read { instr.now ≡ instruction_of packet.now }
        ensures hears { HearsPacket packet.now self.old self.new }
    {
        match self {
            Node::Loco(loco) => loco.hear_packet(packet, instr),
            Node::Accessory(accessory) => accessory.hear_packet(packet, instr),
        }
    }

    /// Hears a half-bit of `half` microseconds.
    pub(crate) fn hear_half(&mut self, half: u16)
        ensures { HeardHalves (half ∷ []) self.old self.new }
    {
        match self {
            Node::Loco(loco) => loco.hear(half),
            Node::Accessory(accessory) => accessory.hear(half),
        }
    }

    /// Returns how it runs, or `None` for an accessory decoder.
    pub(crate) fn running(&self) -> Option<Running>
        ensures { result ≡ running_of self.now }
    {
        match self {
            Node::Loco(loco) => Some(loco.running()),
            Node::Accessory(_) => None,
        }
    }

    /// Returns its outputs, bit j for output j, or `None` for a locomotive decoder.
    pub(crate) fn outputs(&self) -> Option<u8>
        ensures { result ≡ outputs_of self.now }
    {
        match self {
            Node::Loco(_) => None,
            Node::Accessory(accessory) => Some(accessory.outputs()),
        }
    }
}

impl Default for Node {
    ghost use Rattle.decoder_cv.specs.Settings.{settings};
    ghost use Rattle.decoder_node.specs.Decoder.{fresh};
    ghost use Rattle.decoder_node.specs.Running.{first_running};
    ghost use Rattle.layout_core.specs.declared.node.Node.TheVariants.{Loco};

    ghost is_default = { λ node. node ≡ Loco (fresh (settings 3 0 0 0) first_running) };

    /// The locomotive decoder of the default settings.
    fn default() -> Node {
        Node::Loco(Loco::new(CvSet::default()))
    }
}
