//! Bounded reading and complete writing of bytes, and names of files.
//!
//! An [`Input`] is read to its end or to a limit by [`read_limited`]; [`TrackedReader`] makes one of any
//! reader. An [`Output`] is written by [`put_all`] and flushed; [`TrackedWriter`] makes one of any
//! writer. Both record whether a call of theirs failed. A [`FileName`] is the name of a file.
//!
//! ```ignore
//! let mut input = TrackedReader::new(reader);
//! let bytes = read_limited(alloc, &mut input, 65_536)?;
//! let mut output = TrackedWriter::new(writer);
//! put_all(&mut output, bytes.as_slice())?;
//! output.flush()?;
//! ```
#![tactic(auto)]

mod file_name;
mod input;
pub mod laws;
mod output;
mod reading;
mod tracked_reader;
mod tracked_writer;
mod writing;

pub use file_name::FileName;
pub use input::{Input, ReadFault};
pub use output::{Broken, Output, Sink};
pub use reading::read_limited;
pub use tracked_reader::TrackedReader;
pub use tracked_writer::TrackedWriter;
pub use writing::put_all;
