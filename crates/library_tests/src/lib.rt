//! The tests of the libraries below the layout, a file `test_CRATE.rt` for each: the examples of the
//! standards, and rows worked out by hand after them. There is no other code here.
#![tactic(auto)]

#[cfg(test)]
mod test_dcc_packet;
#[cfg(test)]
mod test_dcc_packet_steps;
#[cfg(test)]
mod test_decoder_cv;
#[cfg(test)]
mod test_decoder_node;
#[cfg(test)]
mod test_decoder_rx;
#[cfg(test)]
mod test_describe;
#[cfg(test)]
mod test_half_bits;
#[cfg(test)]
mod test_ln_frame;
#[cfg(test)]
mod test_ln_ops;
#[cfg(test)]
mod test_loconet_tcp;
#[cfg(test)]
mod test_programming_track;
#[cfg(test)]
mod test_refresh_ring;
#[cfg(test)]
mod test_sensor;
#[cfg(test)]
mod test_show_text;
#[cfg(test)]
mod test_slot_table;
#[cfg(test)]
mod test_station_core;
#[cfg(test)]
mod test_text;
