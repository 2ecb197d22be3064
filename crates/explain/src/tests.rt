//! The output for lines, devices that fail, lack of memory, and arguments.

mod devices;
mod lines;
mod memory;
mod words;
