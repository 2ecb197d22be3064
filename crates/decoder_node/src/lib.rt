//! The DCC decoders of a layout, and how they act on the half-bits that they hear (NMRA S-9.1,
//! S-9.2, S-9.2.1, S-9.2.2).
//!
//! A [`Loco`] obeys by its configuration variables, an [`Accessory`] by its module number. A caller
//! passes each half-bit to `hear` and reads the state by `running` or `outputs`.
//!
//! ```ignore
//! let mut loco = Loco::new(cvs);
//! for micros in halves { loco.hear(micros); }
//! let running = loco.running();
//! ```
//!
//! The tests are in `library_tests/src/test_decoder_node.rt`.
#![tactic(auto)]

mod accessory;
mod decoder;
pub mod laws;
mod loco;
mod node;
mod obey;
mod running;
mod switch;

pub use accessory::Accessory;
pub use decoder::Decoder;
pub use laws::waves_are_obeyed;
pub use loco::Loco;
pub use node::{MAX_NODES, NodeList, NodeSpec};
pub use running::Running;

/// The microseconds of a half of a one.
const ONE: u16 = 58;
