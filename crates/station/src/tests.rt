//! Runs of the program on streams that fail, and with little memory. What else it does is in
//! `tests/processes`.

mod devices;
mod memory;
mod outputs;
mod served;
