//! What the messages of a LocoNet line say: operations, the bytes of a slot, replies, and the reports
//! of sensors.
//!
//! The tests are in `library_tests/src/test_ln_ops.rt` and `test_sensor.rt`.
#![tactic(auto)]

mod fields;
pub mod laws;
mod op;
mod reply;
mod row;
mod sensor;

pub use fields::SlotFields;
pub use op::{Op, im_bytes, read};
pub use reply::{Reply, read_reply, to_msg};
pub use row::{Row, State};
pub use sensor::{LAST_SENSOR, SensorReport, begins_interrogation, is_interrogation};
