//! Laws of the lines received and sent. They have no code: a call gives the law to its caller's
//! proof.
ghost use Rattle.std.specs.Prelude.{◌≡◌, ℕ, ◌<◌, ◌≤◌, List, [], ◌∷◌, ◌++◌, Some, length, slice_index, codes};
ghost use Rattle.text.specs.Words.{words_of};
ghost use Rattle.ln_frame.specs.Message.{IsWhole};
ghost use Rattle.loconet_tcp.specs.declared.request.Request.TheVariants.{Send};
ghost use Rattle.loconet_tcp.specs.ClientLines.{receive_text};
ghost use Rattle.loconet_tcp.specs.Requests.{bytes_of, leading_bytes, request_of};
ghost use Rattle.loconet_tcp.specs.Reading.{request_of_byte, requests_of, requests_along};
ghost use Rattle.text.specs.Hex.{hex_words};

/// A text makes the same requests however it is divided into pieces, down to single bytes.
pub fn any_cut()
    ensures { (text : List ℕ) → requests_along [] text ≡ requests_of text }
{}

/// Every message can be sent: `SEND` and the bytes as `RECEIVE` writes them request that message.
pub fn received_is_sendable()
    ensures { (message : List ℕ) → IsWhole message → ((i : ℕ) → slice_index message i < 256)
        → request_of (codes "SEND" ++ hex_words message) ≡ Some (Send message) }
{}

/// A message that a byte's line requests to send is whole.
pub fn requested_message_is_whole()
    ensures { (kept : List ℕ) → (byte : ℕ) → (message : List ℕ)
        → request_of_byte kept byte ≡ Some (Send message) → IsWhole message }
{}

/// The line of a whole message has at most 390 bytes: of the message's 127 each has three.
pub fn received_lines_are_short()
    ensures { (message : List ℕ) → IsWhole message → length (receive_text message) ≤ 390 }
{}

/// Bytes as `RECEIVE` writes them are read back, alone and before other words.
pub fn written_bytes_are_read()
    ensures alone { (bytes : List ℕ) → ((i : ℕ) → slice_index bytes i < 256)
        → bytes_of (words_of (hex_words bytes)) ≡ Some bytes }
    ensures before { (bytes text : List ℕ) → ((i : ℕ) → slice_index bytes i < 256)
        → leading_bytes (words_of (hex_words bytes ++ 32 ∷ text))
        ≡ bytes ++ leading_bytes (words_of text) }
{}
