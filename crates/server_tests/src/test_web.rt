//! Tests of what no clause states, and of streams that fail. Requests, and frames from outside, are in
//! `tests/server_checks`.

mod memory;
mod page;
