//! The decoders of a layout under their names. Specs that name this type are cited from other files
//! only.
ghost use Rattle.std.specs.Prelude.{◌≡◌, ◌≤◌, length};

use arrayvec::{ArrayString, ArrayVec};
use decoder_node::{MAX_NODES, NodeSpec};

/// The name of a decoder, at most 16 bytes.
pub type Name = ArrayString<16>;

/// A decoder of a layout under its name.
#[derive(Default, Drop)]
pub struct NamedNode {
    pub name: Name,
    pub spec: NodeSpec,
}

impl NamedNode {
    /// A decoder under this name, at most 16 bytes.
    pub fn new(name: &str, spec: NodeSpec) -> NamedNode
        requires { length name.now ≤ 16 }
        ensures name { result.name.bytes ≡ name.now }
        ensures spec { result.spec ≡ spec }
    {
        let mut text = Name::new();
        text.push_str(name);
        NamedNode { name: text, spec }
    }
}

/// The decoders of a layout, at most 64, each under its name.
pub type NamedNodes = ArrayVec<NamedNode, MAX_NODES>;
