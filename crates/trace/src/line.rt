//! The lines of turns in the output of `station`.
ghost use Rattle.std.specs.Prelude.{ℕ, ◌≡◌, ◌==◌, ◌<◌, ◌≤◌, ◌^◌, ◌∷◌, ◌++◌, ◌/◌, ◌%◌, ◌↔◌, List, Option, Some, Ok, IfOk, IfSome, IsTrue, MatchOption, codes, length, position};
ghost use Rattle.std.specs.Fmt.{decimal};
ghost use Rattle.dcc_packet.specs.Packet.{IsPacket};
ghost use Rattle.text.specs.Hex.{hex_char, hex_word, hex_words};
ghost use Rattle.trace.specs.Traffic.{IsOfTurn, Parses, is_gap, is_of_turn, turns_since};
ghost use Rattle.trace.specs.declared.turn.Turn.{Turn};

use crate::turn::Turn;
use arrayvec::ArrayVec;
use dcc_packet::Packet;
use show_text::{Line, off_line, track_line};
use std::str;
use text::{read_hex_digits, space_at};

/// The fault of a line that begins like the line of a turn and is not one.
#[derive(Clone, Copy, Debug, PartialEq, Eq)]
pub struct NoTurn;

/// Whether the first word of the line, up to a space, is that of a turn.
pub fn is_of_turn(line: &[u8]) -> bool
    ensures { result ≡ is_of_turn line.now }
{
    line == b"track".as_slice() || line.starts_with(b"track ".as_slice())
}

/// Returns the number written by these decimal digits.
fn number_of(digits: &[u8]) -> Option<u64>
    ensures { (n : ℕ) → n < 2 ^ 64 → digits.now ≡ decimal n → result ≡ Some n }
{
    match str::from_utf8(digits) {
        Ok(text) => text.parse().ok(),
        Err(_) => None,
    }
}

/// Splits off the number of a turn; the rest begins with the space after it.
fn cut_turn(line: &[u8]) -> Option<(u64, &[u8])>
    ensures { (turn : ℕ) (rest : List ℕ) → turn < 2 ^ 64
        → line.now ≡ codes "track " ++ decimal turn ++ 32 ∷ rest
        → MatchOption result ⊥ (λ cut. (cut.0 ≡ turn) × (cut.1.now ≡ 32 ∷ rest)) }
{
    let text = line.strip_prefix(b"track ")?;
    let end = space_at(text)?;
    let turn = number_of(&text[..end])?;
    Some((turn, &text[end..]))
}

/// Returns the byte at the beginning of the words, a space and two digits, and the text after it.
fn cut_byte(words: &[u8]) -> Option<(u8, &[u8])>
    ensures byte { (byte : ℕ) (rest : List ℕ) → byte < 256 → words.now ≡ hex_word byte ++ rest
        → MatchOption result ⊥ (λ cut. (cut.0 ≡ byte) × (cut.1.now ≡ rest)) }
    ensures shorter { IfSome result (λ cut. length cut.1.now < length words.now) }
{
    match words {
        [b' ', high, low, rest @ ..] => Some((read_hex_digits(*high, *low)?, rest)),
        _ => None,
    }
}

/// Returns the packet of these words, or of the first six.
fn packet_of(words: &[u8]) -> Option<Packet>
    ensures { (packet : List ℕ) → IsPacket packet → words.now ≡ hex_words packet
        → result ≡ Some packet }
{
    let mut bytes: ArrayVec<u8, 6> = ArrayVec::new();
    let mut rest = words;
    while !rest.is_empty() && !bytes.is_full() {
        let (byte, after) = cut_byte(rest)?;
        bytes.push(byte);
        rest = after;
    }
    Packet::of(bytes.as_slice())
}

fn is_text(line: &[u8], text: &Line) -> bool
    ensures { IsTrue result ↔ (line.now ≡ text.now.bytes) }
{
    line == text.as_str().as_bytes()
}

/// Returns the turn of a line.
///
/// The turn is printed again and compared, so that exactly the lines that `station` prints are
/// accepted.
pub fn turn_of(line: &[u8]) -> Result<Turn, NoTurn>
    ensures turn { IfOk result (IsOfTurn line.now) }
    ensures exact { (turn : Turn) → IsOfTurn line.now turn → result ≡ Ok turn }
{
    let Some((number, rest)) = cut_turn(line) else {
        return Err(NoTurn);
    };
    if is_text(line, &off_line(number)) {
        return Ok(Turn {
            number,
            packet: None,
        });
    }
    let Some(packet) = packet_of(rest) else {
        return Err(NoTurn);
    };
    if !packet.is_checked() || !is_text(line, &track_line(number, &packet)) {
        return Err(NoTurn);
    }
    Ok(Turn {
        number,
        packet: Some(packet),
    })
}

/// Whether the line says that lines of the log of `lbserver` had no room.
pub fn is_gap(line: &[u8]) -> bool
    ensures { result ≡ is_gap line.now }
{
    line.starts_with(b"log: ".as_slice())
}

/// Returns the turn of a line, or `None` if its first word is not `track`.
///
/// A line that says that lines were left out for want of room has neither.
pub fn turn_in(line: &[u8]) -> Result<Option<Turn>, NoTurn>
    ensures item { IfOk result (λ item. Parses line.now item) }
    ensures exact { (item : Option Turn) → Parses line.now item → result ≡ Ok item }
{
    if is_gap(line) {
        return Err(NoTurn);
    }
    if !is_of_turn(line) {
        return Ok(None);
    }
    Ok(Some(turn_of(line)?))
}

/// The most turns between two lines of turns.
const LONGEST_GAP: u64 = 16_777_216;

/// Returns how many turns later a turn is than the one with the number `last`; 0 if there was none.
///
/// `lbserver` does not print turns that sent the idle packet, or nothing. Turns that are numbered
/// anew, or after a gap of more than 16,777,216 turns, follow at once.
pub fn turns_since(last: u64, number: u64) -> u64
    ensures value { result ≡ turns_since last number }
    ensures least { 1 ≤ result }
    ensures most { result ≤ 16777216 }
{
    if last > 0 && last < number && number - last <= LONGEST_GAP {
        number - last
    } else {
        1
    }
}
