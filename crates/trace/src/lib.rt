//! What `station` prints, read back, and programs that draw it.
//!
//! [`turn_in`] and [`node_in`] read one line. A program implements [`Drawing`] (what one line says, and what is drawn of
//! all of them), and [`draw`] reads the input whole, parses each line and writes the drawing. Its tests are those of `track_signal` and `timeline`.
//!
//! ```text
//! if let Ok(Some(turn)) = turn_in(b"track 1 FF 00 FF") { .. }
//! draw(&TrackSignal, alloc, &mut input, &mut output)
//! ```
#![tactic(auto)]

mod drawing;
mod line;
mod node;
mod reading;
mod reported_state;
mod run;
mod standard;
mod turn;
mod words;

pub use drawing::{BadLine, Drawing};
pub use line::{NoTurn, is_gap, is_of_turn, turn_in, turn_of, turns_since};
pub use node::{is_of_node, last_of, node_in};
pub use reading::LONGEST_TEXT;
pub use reported_state::{Name, ReportedState, Seen, Switches};
pub use run::draw;
pub use standard::{DrawingFilter, draw_standard};
pub use turn::Turn;
