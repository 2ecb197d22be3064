//! The reply to a client at once.
ghost use Rattle.std.specs.Prelude.{◌≡◌, ◌∷◌, [], IsTrue};
ghost use Rattle.ln_frame.specs.Message.{IsWhole};
ghost use Rattle.programmer.specs.Replies.{is_legal_reply, reply_bytes};

use crate::task_result::TaskResult;
use ln_frame::Msg;

/// The reply to a message for slot 124.
#[derive(Clone, Copy, PartialEq, Eq)]
pub enum TaskReply {
    /// The task begins, and its result follows.
    Accepted,
    /// Another task is under way.
    Busy,
    /// There is no such task.
    NotImplemented,
    /// The data of the slot.
    Data(TaskResult),
}

impl TaskReply {
    /// The message: a long acknowledge, or slot data.
    pub fn message(self) -> Msg
        requires { IsTrue (is_legal_reply self) }
        ensures whole { IsWhole result }
        ensures bytes { result ≡ reply_bytes self }
        ensures accepted { self ≡ TaskReply.Accepted → result ≡ 0xB4 ∷ 0x6F ∷ 0x01 ∷ 0x25 ∷ [] }
        ensures busy { self ≡ TaskReply.Busy → result ≡ 0xB4 ∷ 0x6F ∷ 0x00 ∷ 0x24 ∷ [] }
        ensures other { self ≡ TaskReply.NotImplemented
            → result ≡ 0xB4 ∷ 0x6F ∷ 0x7F ∷ 0x5B ∷ [] }
    {
        match self {
            TaskReply::Accepted => Msg::sealed(&[0xB4, 0x6F, 0x01]),
            TaskReply::Busy => Msg::sealed(&[0xB4, 0x6F, 0x00]),
            TaskReply::NotImplemented => Msg::sealed(&[0xB4, 0x6F, 0x7F]),
            TaskReply::Data(data) => data.message(),
        }
    }
}
