//! ASCII text: its lines and words, names, and decimal and hexadecimal numbers, each read and
//! written in one place.
//!
//! [`Lines`] and [`Words`] go through a text; [`cut_line`] and [`cut_piece`] take one line, or one
//! word, from its front. [`read_decimal`], [`read_hex_pair`] and [`read_hex`] read numbers. A text
//! of limited length is [`PushAscii`]: [`push_decimal`] and [`push_hex_words`] append to it.
//!
//! ```ignore
//! let (word, rest) = cut_piece(b"83 7C");    // b"83", b"7C"
//! let byte = read_hex_pair(word);            // Some(0x83)
//! push_hex_words(&mut line, &[0x83, 0x7C]);  // " 83 7C"
//! ```
//!
//! The tests are in `library_tests/src/test_text.rt`.
#![tactic(auto)]

mod decimal;
mod hex;
mod hex_text;
pub mod laws;
mod lines;
mod names;
mod pieces;
mod push_ascii;
mod words;

pub use decimal::{Digits, are_digits, decimal_digits, push_decimal, push_number, read_decimal};
pub use hex::{hex_char, push_hex_words, read_hex_digits, read_hex_pair};
pub use hex_text::{HexFault, HexWhy, LONGEST_TEXT, read_hex};
pub use laws::written_hex_is_read;
pub use lines::{Lines, cut_line};
pub use names::are_name_bytes;
pub use pieces::{cut_piece, is_blank, line_feed_at, space_at, split_at_line_feed};
pub use push_ascii::{PushAscii, push_bytes};
pub use words::{WordError, Words};
