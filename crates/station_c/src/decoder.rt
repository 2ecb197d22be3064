//! The decoders, as C describes them.
ghost use Rattle.std.specs.Prelude.{◌≡◌, option_map};
ghost use Rattle.station_c.specs.Decoder.{nodes_of, spec_of};

use dcc_packet::Module;
use decoder_cv::CvSet;
use decoder_node::{NodeList, NodeSpec};

/// The description of a decoder: the accessory decoder of a module, or else a locomotive decoder
/// with these variables.
#[repr(C)]
#[derive(Clone, Copy)]
pub struct Decoder {
    /// The module of an accessory decoder, 1 to 510.
    pub module: u16,
    /// Whether this is an accessory decoder.
    pub accessory: bool,
    /// The short address of a locomotive decoder.
    pub cv1: u8,
    /// The first byte of its long address.
    pub cv17: u8,
    /// The second byte of its long address.
    pub cv18: u8,
    /// Its flags.
    pub cv29: u8,
}

/// Returns the decoder of this description, if it is valid.
fn read(decoder: &Decoder) -> Option<NodeSpec>
    ensures { result ≡ spec_of decoder.now }
{
    if decoder.accessory {
        return match Module::new(decoder.module) {
            Some(module) => Some(NodeSpec::Accessory(module)),
            None => None,
        };
    }
    match CvSet::new(decoder.cv1, decoder.cv17, decoder.cv18, decoder.cv29) {
        Ok(cv) => Some(NodeSpec::Loco(cv)),
        Err(_) => None,
    }
}

/// Returns the decoders of these descriptions, in order, or `None` if one is invalid or there are
/// more than 64.
pub(crate) fn read_all(decoders: &[Decoder]) -> Option<NodeList>
    ensures { option_map (λ list. list.items) result ≡ nodes_of decoders.now }
{
    let mut nodes = NodeList::new();
    if decoders.len() > nodes.capacity() {
        return None;
    }
    for decoder in decoders {
        let Some(node) = read(decoder) else {
            return None;
        };
        nodes.push(node);
    }
    Some(nodes)
}
