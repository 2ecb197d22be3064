//! The line of a message.
ghost use Rattle.std.specs.Prelude.{◌≡◌, ◌+◌, ◌*◌, ◌≤◌, ◌++◌, ◌∷◌, [], codes, length};
ghost use Rattle.arrayvec.specs.ArrayVec.{array_vec_len};
ghost use Rattle.bus_log.specs.Lines.{ignored_line, sent_line, set_off};
ghost use Rattle.bus_log.specs.LogQueues.{after_lines};

use crate::log_queue::LogQueue;
use arrayvec::ArrayVec;
use describe::message_words;
use ln_frame::Msg;
use text::{push_bytes, push_hex_words};

/// The line of a message, at most 7 bytes for its first word, 381 for the bytes of the message, two
/// spaces and 400 bytes of explanation: it always fits into a line of the log.
type MessageLine = ArrayVec<u8, 790>;

/// Prints a message and its explanation.
pub(crate) fn print_message(log: &mut LogQueue, message: &Msg)
    ensures { log.new ≡ after_lines log.old (sent_line message.now ∷ []) }
{
    log.print(message_line(message).as_slice());
    log.print(b"\n");
}

/// Prints a message that the station ignores, its explanation, and that it does.
pub(crate) fn print_ignored(log: &mut LogQueue, message: &Msg)
    ensures { log.new ≡ after_lines log.old (ignored_line message.now ∷ []) }
{
    log.print(message_line(message).as_slice());
    log.print(b", ignored\n");
}

/// Prints a reply that refuses operations mode, its explanation, and that it does.
pub(crate) fn print_not_implemented(log: &mut LogQueue, reply: &Msg)
    ensures { log.new
        ≡ after_lines log.old
        ((sent_line reply.now ++ codes ", operations mode is not implemented") ∷ []) }
{
    log.print(message_line(reply).as_slice());
    log.print(b", operations mode is not implemented\n");
}

/// Returns `message`, the bytes of a message in upper-case hexadecimal digits, two spaces and its
/// explanation.
fn message_line(message: &Msg) -> MessageLine
    ensures { result.items ≡ sent_line message.now }
{
    let mut line = MessageLine::new();
    push_bytes(&mut line, b"message");
    push_hex_words(&mut line, message.bytes());
    push_explanation(&mut line, message_words(message.bytes()).as_slice());
    line
}

/// Appends two spaces and an explanation; nothing if it is empty.
fn push_explanation(line: &mut MessageLine, explanation: &[u8])
    requires { array_vec_len line.old + 2 + length explanation.now ≤ 790 }
    ensures { line.new.items ≡ line.old.items ++ set_off explanation.now }
{
    if explanation.is_empty() {
        return;
    }
    push_bytes(line, b"  ");
    push_bytes(line, explanation);
}
