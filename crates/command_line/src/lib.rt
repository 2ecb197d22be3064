//! Command lines: reading the arguments of a program, and parsing them with `clap`.
//!
//! A [`ProgramText`] says what the command line of a program may hold. [`matches_of`] parses
//! arguments by it, and [`text`], [`repeated`], [`number`], [`address`], [`flag`] and [`file_name`]
//! return the values that they give. The text of an [`OrderFault`] is shown to the user: on standard output if it is a requested
//! text, otherwise on standard error, by [`OrderFault::report`]. [`read_words`] returns the
//! arguments. The orders of each program are in a crate below it.
#![tactic(auto)]

mod arguments;
mod building;
mod fault;
mod opening;
mod parsing;
mod requests;
mod table;
mod values;
mod version;

pub use arguments::{read_words, texts};
pub use fault::OrderFault;
pub use input_text::FileName;
pub use opening::{open_error_words, open_file};
pub use parsing::{matches_of, not_utf8, out_of_range, wrong_value};
pub use table::{Argument, CommandText, Kind, Need, ProgramText, ROSTER};
pub use values::{address, file_name, flag, number, repeated, text};
pub use version::VERSION;
