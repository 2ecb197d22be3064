//! The decoders of a layout.
ghost use Rattle.std.specs.Prelude.{◌≡◌, ◌==◌, ℕ, ◌<◌, ◌≤◌, List, length, map};
ghost use Rattle.std.specs.List.{slice_index_or};
ghost use Rattle.layout_core.specs.declared.node.Node.{Node as NodeValue};
ghost use Rattle.layout_core.specs.Nodes.{node_of, spec_of, running_of, outputs_of, is_missed};
ghost use Rattle.layout_core.specs.Hearing.{AfterPacket};
ghost use Rattle.layout_core.specs.World.{OneHears};

use crate::node::Node;
use arrayvec::ArrayVec;
use dcc_packet::{Packet, read};
use decoder_node::{MAX_NODES, NodeList, Running};
use std::marker::Model;

/// The decoders of a layout, at most 64.
///
/// Contracts see them as the list of its nodes.
#[derive(Drop)]
pub struct Nodes {
    nodes: ArrayVec<Node, MAX_NODES>,
}

impl Model for Nodes {
    ghost use Rattle.std.specs.Prelude.{List};
    ghost use Rattle.layout_core.specs.declared.node.Node.{Node};

    ghost Value = { List Node };

    ghost view = { λ nodes. nodes.nodes.items };
}

impl Nodes {
    /// Creates these decoders, each in its first state, having heard nothing.
    pub fn new(specs: &NodeList) -> Nodes
        ensures made { result ≡ map node_of specs.now.items }
    {
        let mut nodes = ArrayVec::new();
        for spec in specs.as_slice() {
            nodes.push(Node::new(*spec));
        }
        Nodes { nodes }
    }

    /// Passes this packet to each node, except node i if bit i of `missed` is set. Bits past the
    /// last node are ignored.
    ///
    /// The packet is parsed once for all nodes, and not at all if there is none.
    #[inline(always)]
    pub fn hear(&mut self, packet: &Packet, missed: u64)
        ensures count { length self.new ≡ length self.old }
        ensures specs { map spec_of self.new ≡ map spec_of self.old }
        ensures each { (i : ℕ) (none : NodeValue) → i < length self.old
            → AfterPacket (is_missed missed i) packet.now (slice_index_or self.old i none)
            (slice_index_or self.new i none) }
    {
        if self.is_empty() {
            return;
        }
        hear_each(self.nodes.as_mut_slice(), packet, missed);
    }

    /// Passes a half-bit of `half` microseconds that belongs to no packet to node i only.
    pub fn noise(&mut self, i: usize, half: u16)
        requires { i < length self.old }
        ensures noise { OneHears i half self.old self.new }
        ensures specs { map spec_of self.new ≡ map spec_of self.old }
    {
        self.nodes.as_mut_slice()[i].hear_half(half);
    }

    /// Returns the number of decoders, at most 64.
    pub fn len(&self) -> usize
        ensures count { result ≡ length self.now }
        ensures most { result ≤ 64 }
    {
        self.nodes.len()
    }

    /// Whether there are no decoders.
    pub fn is_empty(&self) -> bool
        ensures { result ≡ (length self.now == 0) }
    {
        self.nodes.is_empty()
    }

    /// Returns how node i runs, or `None` for an accessory decoder.
    pub fn running(&self, i: usize) -> Option<Running>
        requires { i < length self.now }
        ensures { (none : NodeValue) → result ≡ running_of (slice_index_or self.now i none) }
    {
        self.nodes.as_slice()[i].running()
    }

    /// Returns the outputs of node i, or `None` for a locomotive decoder.
    pub fn outputs(&self, i: usize) -> Option<u8>
        requires { i < length self.now }
        ensures { (none : NodeValue) → result ≡ outputs_of (slice_index_or self.now i none) }
    {
        self.nodes.as_slice()[i].outputs()
    }
}

/// Parses the packet, and passes it to each of these nodes whose bit is not set. A separate call,
/// so that a turn without decoders saves no registers for it.
#[inline(never)]
fn hear_each(nodes: &mut [Node], packet: &Packet, missed: u64)
    requires { length nodes.old ≤ 64 }
    ensures specs { map spec_of nodes.new ≡ map spec_of nodes.old }
    ensures each { (i : ℕ) (none : NodeValue) → i < length nodes.old
        → AfterPacket (is_missed missed i) packet.now (slice_index_or nodes.old i none)
        (slice_index_or nodes.new i none) }
{
    let instr = read(packet);
    for (i, node) in nodes.iter_mut().enumerate() {
        if !is_missed(missed, i) {
            node.hear(packet, &instr);
        }
    }
}

/// Whether node i misses the packet.
fn is_missed(missed: u64, i: usize) -> bool
    requires { i < 64 }
    ensures { result ≡ is_missed missed i }
{
    (missed >> i) & 1 == 1
}
