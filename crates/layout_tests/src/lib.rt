//! The tests of `layout_core` and `railway`, a file `test_CRATE.rt` for each: rows worked out by hand
//! after the standards, and streams that fail. There is no other code here.
#![tactic(auto)]

#[cfg(test)]
mod test_layout_core;
#[cfg(test)]
mod test_layout_core_serving;
#[cfg(test)]
mod test_railway;
