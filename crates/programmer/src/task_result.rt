//! What a task came to.
ghost use Rattle.std.specs.Prelude.{◌≡◌, ◌<◌, IsTrue};
ghost use Rattle.ln_frame.specs.Message.{IsWhole};
ghost use Rattle.programmer.specs.Requests.{is_legal_result, pstat, result_bytes};

use crate::task::Task;
use ln_frame::Msg;

/// How a task ended (PSTAT).
#[derive(Clone, Copy, Debug, PartialEq, Eq)]
pub enum Status {
    /// It was done.
    Done,
    /// No decoder is on the programming track.
    NoDecoder,
    /// The decoder did not acknowledge the write.
    NoWriteAcknowledge,
    /// The decoder did not acknowledge the value that was read.
    NoReadAcknowledge,
    /// A client ended it.
    Aborted,
}

impl Status {
    /// PSTAT, below 16: bit 0 no decoder, bit 1 no acknowledgment of a write, bit 2 none of a read,
    /// bit 3 ended by a client.
    pub fn pstat(self) -> u8
        ensures value { result ≡ pstat self }
        ensures small { result < 16 }
    {
        match self {
            Status::Done => 0,
            Status::NoDecoder => 1,
            Status::NoWriteAcknowledge => 2,
            Status::NoReadAcknowledge => 4,
            Status::Aborted => 8,
        }
    }
}

/// A task with its status and the value of the variable.
#[derive(Clone, Copy, PartialEq, Eq)]
pub struct TaskResult {
    pub task: Task,
    pub status: Status,
    /// The value that was read; else that of the task.
    pub value: u8,
}

impl TaskResult {
    /// The message: OPC_SL_RD_DATA of slot 124.
    pub fn message(self) -> Msg
        requires { IsTrue (is_legal_result self) }
        ensures whole { IsWhole result }
        ensures bytes { result ≡ result_bytes self }
    {
        let task = self.task;
        let value = self.value;
        let high = (task.address / 256 * 16) as u8
            + value / 128 * 2
            + (task.address / 128 % 2) as u8;
        Msg::sealed(&[
            0xE7,
            0x0E,
            0x7C,
            task.command,
            self.status.pstat(),
            task.hopsa,
            task.lopsa,
            task.trk,
            high,
            (task.address % 128) as u8,
            value % 128,
            0,
            0,
        ])
    }
}
