//! Descriptions of the decoders of a layout.
use arrayvec::ArrayVec;
use dcc_packet::Module;
use decoder_cv::CvSet;

/// The description of one decoder of a layout.
#[derive(Clone, Copy, PartialEq, Eq)]
pub enum NodeSpec {
    /// A locomotive decoder with these settings.
    Loco(CvSet),
    /// The accessory decoder of this module.
    Accessory(Module),
}

/// The most decoders of a layout: one for each bit of a set of those that miss a packet.
pub const MAX_NODES: usize = 64;

/// The decoders of a layout, at most [`MAX_NODES`].
pub type NodeList = ArrayVec<NodeSpec, MAX_NODES>;

impl Default for NodeSpec {
    ghost use Rattle.std.specs.Prelude.{◌≡◌};
    ghost use Rattle.decoder_cv.specs.Settings.{settings};
    ghost use Rattle.decoder_node.specs.declared.node.NodeSpec.TheVariants.{Loco};

    ghost is_default = { λ spec. spec ≡ Loco (settings 3 0 0 0) };

    /// A locomotive with CV1 = 3 and all else 0.
    fn default() -> NodeSpec {
        NodeSpec::Loco(CvSet::default())
    }
}
