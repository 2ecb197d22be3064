//! What a client asks of slot 124.
ghost use Rattle.std.specs.Prelude.{◌≡◌, ◌<◌, ◌≤◌, ℕ, IfSome, IsTrue, length, slice_index};
ghost use Rattle.programmer.specs.Requests.{is_for_programmer, is_legal_request, is_slot_read, is_task, is_task_message, request_in, request_of, task_of};

use crate::task::Task;
use ln_frame::Msg;

/// What a message asks of slot 124, the programmer's.
#[derive(Clone, Copy)]
pub enum SlotRequest {
    /// OPC_RQ_SL_DATA: returns the data of the slot.
    Read,
    /// OPC_WR_SL_DATA with PCMD 0: ends the task under way.
    Abort,
    /// OPC_WR_SL_DATA: begins a task.
    Begin(Task),
}

impl SlotRequest {
    /// The request of a message, or `None` if it is not for slot 124.
    pub fn of(message: &Msg) -> Option<SlotRequest>
        ensures value { result ≡ request_in message.now }
        ensures legal { IfSome result (λ request. IsTrue (is_legal_request request)) }
    {
        let bytes = message.bytes();
        if is_task_message(bytes) {
            Some(request_of(bytes))
        } else if is_slot_read(bytes) {
            Some(SlotRequest::Read)
        } else {
            None
        }
    }
}

/// Whether a message is for slot 124, the programmer's: a write or a read of its data.
pub fn is_for_programmer(message: &Msg) -> bool
    ensures { result ≡ is_for_programmer message.now }
{
    let bytes = message.bytes();
    is_task_message(bytes) || is_slot_read(bytes)
}

/// Whether the bytes of a message are a write of slot 124.
fn is_task_message(bytes: &[u8]) -> bool
    requires { 2 ≤ length bytes.now }
    ensures { result ≡ is_task_message bytes.now }
{
    bytes.len() == 14 && bytes[0] == 0xEF && bytes[2] == 0x7C
}

/// Whether the bytes of a message are a read of slot 124.
fn is_slot_read(bytes: &[u8]) -> bool
    requires { 2 ≤ length bytes.now }
    ensures { result ≡ is_slot_read bytes.now }
{
    bytes[0] == 0xBB && bytes[1] == 0x7C
}

/// The request of the bytes of a write of slot 124.
fn request_of(bytes: &[u8]) -> SlotRequest
    requires length { length bytes.now ≡ 14 }
    requires data { (i : ℕ) → 1 ≤ i → slice_index bytes.now i < 128 }
    ensures value { result ≡ request_of bytes.now }
    ensures legal { IsTrue (is_legal_request result) }
{
    if bytes[3] == 0 {
        SlotRequest::Abort
    } else {
        SlotRequest::Begin(task_of(bytes))
    }
}

/// The task of the bytes of a write of slot 124.
fn task_of(bytes: &[u8]) -> Task
    requires length { length bytes.now ≡ 14 }
    requires data { (i : ℕ) → 1 ≤ i → slice_index bytes.now i < 128 }
    ensures value { result ≡ task_of bytes.now }
    ensures legal { IsTrue (is_task result) }
{
    let high = bytes[8];
    Task {
        command: bytes[3],
        hopsa: bytes[5],
        lopsa: bytes[6],
        trk: bytes[7],
        address: u16::from(high / 16 % 4) * 256 + u16::from(high % 2) * 128 + u16::from(bytes[9]),
        value: high / 2 % 2 * 128 + bytes[10],
    }
}
