//! How a locomotive runs.
use dcc_packet::Motion;

/// How a locomotive runs.
#[derive(Clone, Copy, PartialEq, Eq)]
pub struct Running {
    /// Whether it is stopped, or its speed step.
    pub motion: Motion,
    /// Its direction in its own sense: the direction of the packet, inverted if CV29 bit 0 is set.
    pub forward: bool,
    /// Bit k is function Fk.
    pub functions: u16,
}

/// The initial state of a decoder: stopped, forward, with all functions off.
pub(crate) const FIRST: Running = Running {
    motion: Motion::Stop,
    forward: true,
    functions: 0,
};
