//! A station and the decoders on its track.
//!
//! A [`World`] is the layout. A caller passes each [`Event`] to [`World::step`], or a list to
//! [`World::run`], and reads the decoders by [`World::running`] and [`World::outputs`]. [`serve`]
//! runs a whole connection from a [`Source`] to a [`Sink`].
//!
//! ```ignore
//! let mut world = World::new(alloc, 1, nodes)?;
//! match world.step(Event::Byte { line: 0, byte }) {
//!     Step::Reply(reply) => { /* write it */ }
//!     _ => {}
//! }
//! ```
//!
//! The tests are in `layout_tests/src`: `test_layout_core.rt` and `test_layout_core_serving.rt`, and
//! in `tests/process_checks/layouts.py`.
#![tactic(auto)]

mod decoder_state;
mod device;
mod engine;
mod event;
mod ghost_count;
pub mod laws;
mod node;
mod nodes;
mod port;
mod world;
mod writing;

pub use decoder_state::DecoderState;
pub use device::Source;
pub use engine::{Limits, ServeFault, Summary, serve};
pub use event::Event;
pub use input_text::{Broken, Sink};
pub use laws::{events_add_up, headline, others_leave_it, settling};
pub use nodes::Nodes;
pub use port::Port;
pub use world::World;

// The types of a layout's input and output, so that a program needs no other crate.
pub use dcc_packet::{Motion, Steps};
pub use decoder_cv::CvSet;
pub use decoder_node::{MAX_NODES, NodeList, NodeSpec, Running};
pub use ln_frame::Msg;
pub use ln_ops::Reply;
pub use show_text::{node_line, reply_line, track_line};
pub use station_core::Step;
