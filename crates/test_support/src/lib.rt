//! For the tests of programs: streams that fail, runs on them, the arguments of a system, and a
//! process with little memory. Programs depend on it in their tests only.
//!
//! [`Broken`], [`Uneven`] and [`Rough`] are readers and writers that fail or are interrupted.
//! [`run`] runs a filter on a text and returns its result, [`Ran`]; [`run_as_room_grows`] runs it
//! with more and more memory.
//!
//! ```ignore
//! assert!(rt; run(&Explain, rt.alloc(), b"83 7C\n").is(0, b"83 7C  track power on\n", b""));
//! ```
#![tactic(auto)]

mod devices;
mod memory;
mod runs;
mod trials;
mod words;

pub use devices::{Broken, Rough, Spaces, Stuck, Uneven};
pub use memory::{Scarcity, Taken, take_all_but};
pub use runs::{Ran, run, run_as_room_grows, run_from, run_to, run_unreported};
pub use trials::{first_failure, run_with_little_memory};
pub use words::{Given, has_all};
