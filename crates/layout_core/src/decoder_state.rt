//! The state of a decoder, and its line.
ghost use Rattle.std.specs.Prelude.{◌≡◌, ◌≤◌, length};
ghost use Rattle.show_text.specs.Nodes.{IsStateOf};

use decoder_node::{NodeSpec, Running};
use show_text::{Line, node_line};

/// The state of a decoder, as its line shows it.
#[derive(Clone, Copy, Default, PartialEq, Eq)]
pub struct DecoderState {
    /// How it runs, if it is a locomotive decoder.
    pub running: Option<Running>,
    /// Its outputs, bit j for output j, if it is an accessory decoder.
    pub outputs: Option<u8>,
}

impl DecoderState {
    ghost use Rattle.layout_core.specs.DecoderStates.{decoder_line, same_decoder_state};

    /// Returns `node NAME` and this state of the decoder of that name, as `show_text::node_line`
    /// does.
    ///
    /// The name has at most 16 bytes. `running` is set for a locomotive decoder and `outputs` for
    /// an accessory decoder, never both.
    pub fn line(&self, name: &str, spec: &NodeSpec) -> Line
        requires name { length name.now ≤ 16 }
        requires kind { IsStateOf spec.now self.now.running self.now.outputs }
        ensures { result.bytes ≡ decoder_line name.now spec.now self.now }
    {
        node_line(name, spec, self.running, self.outputs)
    }

    /// Whether the two states are the same.
    pub fn is_same(&self, other: &DecoderState) -> bool
        ensures { result ≡ same_decoder_state self.now other.now }
    {
        self == other
    }
}
