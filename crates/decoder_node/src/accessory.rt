//! An accessory decoder.
ghost use Rattle.std.specs.Prelude.{◌≡◌};

use crate::decoder::Decoder;
use dcc_packet::Module;

/// An accessory decoder on the track, with eight outputs in four pairs. It hears the track half by
/// half.
///
/// Contracts see it as an `AccessoryDecoder`: its module, its outputs, and the position of its
/// receiver.
pub type Accessory = Decoder<Module, u8>;

impl Accessory {
    ghost use Rattle.decoder_node.specs.Decoder.{fresh};

    /// Creates the decoder of this module, with all outputs off, which has heard nothing.
    pub fn new(module: Module) -> Accessory
        ensures { result ≡ fresh «module» 0 }
    {
        Decoder::starting(module, 0)
    }

    /// Returns its outputs: bit j is output j, of the pair j / 2, closed if j is odd.
    #[inline]
    pub fn outputs(&self) -> u8
        ensures { result ≡ self.now.state }
    {
        self.state
    }
}
