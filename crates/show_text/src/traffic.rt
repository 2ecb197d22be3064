//! Lines of replies and packets.
ghost use Rattle.std.specs.Prelude.{◌≡◌, ◌≤◌, ◌+◌, ◌++◌, codes};
ghost use Rattle.std.specs.Fmt.{decimal};
ghost use Rattle.arrayvec.specs.ArrayString.{array_string_len};
ghost use Rattle.ln_ops.specs.Reply.{IsSendable};
ghost use Rattle.show_text.specs.Lines.{reply_text, track_text, off_text};

use crate::line::{Line, push_count, push_field};
use dcc_packet::Packet;
use ln_ops::{Reply, to_msg};
use text::push_hex_words;

/// `reply L` and the bytes of the reply, in upper-case hexadecimal digits.
pub fn reply_line(line: u8, reply: &Reply) -> Line
    requires { IsSendable reply.now }
    ensures { result.bytes ≡ reply_text line reply.now }
{
    let message = to_msg(reply);
    let mut text = Line::new();
    push_field(&mut text, "reply ", u16::from(line));
    push_hex_words(&mut text, message.bytes());
    text
}

/// Appends `track T`.
fn push_turn(text: &mut Line, turn: u64)
    requires { array_string_len text.old + 26 ≤ 640 }
    ensures text { text.new.bytes ≡ text.old.bytes ++ (codes "track " ++ decimal turn) }
    ensures len { array_string_len text.new ≤ array_string_len text.old + 26 }
{
    text.push_str("track ");
    push_count(text, turn);
}

/// Appends `track T` and the bytes of the packet that turn T sent, in upper-case hexadecimal
/// digits. There must be room for the longest such text, of 44 bytes.
pub fn push_track(text: &mut Line, turn: u64, packet: &Packet)
    requires { array_string_len text.old + 44 ≤ 640 }
    ensures text { text.new.bytes ≡ text.old.bytes ++ track_text turn packet.now }
    ensures len { array_string_len text.new ≤ array_string_len text.old + 44 }
{
    push_turn(text, turn);
    push_hex_words(text, packet.bytes());
}

/// `track T` and the bytes of the packet that turn T sent, in upper-case hexadecimal digits.
pub fn track_line(turn: u64, packet: &Packet) -> Line
    ensures { result.bytes ≡ track_text turn packet.now }
{
    let mut text = Line::new();
    push_track(&mut text, turn, packet);
    text
}

/// Appends `track T off`: turn T sent nothing, as the power is off. There must be room for the
/// longest such text, of 30 bytes.
pub fn push_off(text: &mut Line, turn: u64)
    requires { array_string_len text.old + 30 ≤ 640 }
    ensures text { text.new.bytes ≡ text.old.bytes ++ off_text turn }
    ensures len { array_string_len text.new ≤ array_string_len text.old + 30 }
{
    push_turn(text, turn);
    text.push_str(" off");
}

/// `track T off`: turn T sent nothing, as the power is off.
pub fn off_line(turn: u64) -> Line
    ensures { result.bytes ≡ off_text turn }
{
    let mut text = Line::new();
    push_off(&mut text, turn);
    text
}
