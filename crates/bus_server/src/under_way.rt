//! An answer that is under way.

use loconet_tcp::Things;

/// An answer to a client that asks how the decoders, the trains, the turnouts or the variables of the
/// programming track stand.
#[derive(Clone, Copy)]
pub(crate) struct UnderWay {
    pub(crate) things: Things,
    /// How many lines the client has received, at most 64; of variables, the position from which on
    /// they have not been compared, at most 65,536.
    pub(crate) next: usize,
}
