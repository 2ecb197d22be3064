//! Laws of explanations. They have no code: a call gives the law to its caller's proof.
ghost use Rattle.std.specs.Prelude.{◌≡◌, ℕ, ◌<◌, ◌^◌, List, ◌++◌, length, slice_index, codes};
ghost use Rattle.ln_frame.specs.Message.{IsWhole};
ghost use Rattle.ln_ops.specs.Reply.{reply_bytes};
ghost use Rattle.ln_ops.specs.declared.reply.Reply.{Reply as ReplyOf};
ghost use Rattle.show_text.specs.Lines.{off_text, reply_text, track_text};
ghost use Rattle.show_text.specs.Messages.{message_text};
ghost use Rattle.text.specs.Hex.{hex_words};
ghost use Rattle.describe.specs.Messages.{message_words};
ghost use Rattle.describe.specs.Packets.{packet_words};
ghost use Rattle.explain.specs.LineKinds.{words_about};

/// A line of LocoNet over TCP that reports or sends a message has the explanation of that message.
pub fn messages_are_explained()
    ensures received { (message : List ℕ) → IsWhole message
        → ((i : ℕ) → slice_index message i < 256)
        → words_about (codes "RECEIVE" ++ hex_words message) ≡ message_words message }
    ensures sent { (message : List ℕ) → IsWhole message → ((i : ℕ) → slice_index message i < 256)
        → words_about (codes "SEND" ++ hex_words message) ≡ message_words message }
{
    loconet_tcp::laws::received_is_sendable();
}

/// A line that `station` prints for a message, a reply or a turn has the explanation of its message
/// or packet.
pub fn printed_lines_are_explained()
    ensures message { (message : List ℕ) → IsWhole message
        → ((i : ℕ) → slice_index message i < 256)
        → words_about (message_text message) ≡ message_words message }
    ensures reply { (line : ℕ) (reply : ReplyOf) → line < 2 ^ 64
        → ((i : ℕ) → slice_index (reply_bytes reply) i < 256)
        → words_about (reply_text line reply) ≡ message_words (reply_bytes reply) }
    ensures packet { (turn : ℕ) (packet : List ℕ) → turn < 2 ^ 64 → 0 < length packet
        → ((i : ℕ) → slice_index packet i < 256)
        → words_about (track_text turn packet) ≡ packet_words packet }
    ensures off { (turn : ℕ) → turn < 2 ^ 64
        → words_about (off_text turn) ≡ codes "no power, nothing is sent" }
{
    loconet_tcp::laws::written_bytes_are_read();
}
