//! The lines of a client's message and the reply to it.
ghost use Rattle.std.specs.Prelude.{◌≡◌, ◌∷◌, [], None, Some};
ghost use Rattle.bus_log.specs.Lines.{exchange_lines, has_no_effect, is_not_implemented, is_operations, is_read, unanswered_line};
ghost use Rattle.bus_log.specs.LogQueues.{after_lines};

use crate::log_queue::LogQueue;
use crate::messages::{print_ignored, print_message, print_not_implemented};
use ln_frame::Msg;
use ln_ops::{Op, read};

/// Prints a message, and then the reply to it; nothing if a slot is read and the reply is its data.
pub(crate) fn print_exchange(log: &mut LogQueue, message: &Msg, reply: &Option<Msg>)
    ensures { log.new ≡ after_lines log.old (exchange_lines message.now reply.now) }
{
    match reply {
        Some(reply) => print_answered(log, message, reply),
        None => print_unanswered(log, message),
    }
}

/// Prints a message and the reply to it; nothing if a slot is read and the reply is its data.
fn print_answered(log: &mut LogQueue, message: &Msg, reply: &Msg)
    ensures { log.new ≡ after_lines log.old (exchange_lines message.now (Some reply.now)) }
{
    if is_read(&read(message), &read(reply)) {
        return;
    }
    print_message(log, message);
    if is_operations(message.bytes()) && is_not_implemented(reply.bytes()) {
        print_not_implemented(log, reply);
    } else {
        print_message(log, reply);
    }
}

/// Whether the bytes of a message ask slot 124 for a task on the main track: bit 2 of PCMD.
fn is_operations(bytes: &[u8]) -> bool
    ensures { result ≡ is_operations bytes.now }
{
    bytes.len() == 14 && bytes[0] == 0xEF && bytes[2] == 0x7C && bytes[3] / 4 % 2 == 1
}

/// Whether the bytes of a reply say that the programmer has no such mode.
fn is_not_implemented(bytes: &[u8]) -> bool
    ensures { result ≡ is_not_implemented bytes.now }
{
    bytes.len() == 4 && bytes[0] == 0xB4 && bytes[1] == 0x6F && bytes[2] == 0x7F
}

/// Prints a message without a reply, and whether the station ignores it.
fn print_unanswered(log: &mut LogQueue, message: &Msg)
    ensures { log.new ≡ after_lines log.old (unanswered_line message.now ∷ []) }
{
    if has_no_effect(&read(message)) {
        print_ignored(log, message);
    } else {
        print_message(log, message);
    }
}

/// Whether a slot is read, and the reply is its data.
fn is_read(op: &Op, reply: &Op) -> bool
    ensures { result ≡ is_read op.now reply.now }
{
    matches!((*op, *reply), (Op::SlotRead { .. }, Op::SlotData(_)))
}

/// Whether a station neither obeys nor answers the operation.
fn has_no_effect(op: &Op) -> bool
    ensures { result ≡ has_no_effect op.now }
{
    matches!(op, Op::LongAck { .. } | Op::SlotData(_) | Op::Other)
}
