//! The command line of `station`.
//!
//! [`order`] parses the arguments of the program into an [`Order`].
//!
//! ```ignore
//! match order(alloc, &arguments) {
//!     Ok(Order::Monitor { file }) => { /* run it */ }
//!     Ok(_) => { /* an order that needs a layout */ }
//!     Err(fault) => status = fault.report("station", &mut faults),
//! }
//! ```
#![tactic(auto)]

mod orders;
mod table;
mod words;

pub use orders::{no_text, order};
pub use words::Order;
