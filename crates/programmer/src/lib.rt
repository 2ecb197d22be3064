//! The programmer of a command station, as a pure machine: a client's message for slot 124 in, one
//! packet after another out, and the result of the task (LocoNet Personal Use Edition 1.0, programmer
//! task; NMRA S-9.2.3, direct mode).
//!
//! The tests are in `library_tests/src/test_programming_track.rt`.
#![tactic(auto)]

pub mod laws;
mod load;
mod programmer;
mod reply;
mod slot_request;
mod task;
mod task_result;
mod task_state;

pub use laws::{results_are_read, tasks_end};
pub use load::Load;
pub use programmer::Programmer;
pub use reply::TaskReply;
pub use slot_request::{SlotRequest, is_for_programmer};
pub use task::Task;
pub use task_result::{Status, TaskResult};
pub use task_state::{Next, Phase, TaskState};
