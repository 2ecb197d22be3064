//! Hex text.
ghost use Rattle.std.specs.Prelude.{◌≡◌, ◌≢◌, ℕ, ◌+◌, ◌-◌, ◌<◌, ◌≤◌, position, length, IfOk, IfErr, Ok, Err};
ghost use Rattle.std.specs.List.{slice_split};
ghost use Rattle.text.specs.declared.hex_text.HexWhy.TheVariants.{NoMemory};
ghost use Rattle.text.specs.Sequence.{followed_by};
ghost use Rattle.text.specs.HexText.{is_white_space, piece_of, pieces_of, hex_of};

use crate::hex::read_hex_pair;
use std::alloc::{AllocFailed, Global};

/// The longest script or hex text, in bytes.
pub const LONGEST_TEXT: usize = 1_048_576;

/// What is wrong with hex text.
#[derive(Clone, Copy, Debug, PartialEq, Eq)]
pub enum HexWhy {
    /// A word that is not two hexadecimal digits.
    BadHex,
    /// More than 1,048,576 bytes.
    TooLong,
    /// Out of memory.
    NoMemory,
}

/// The first fault of hex text, and the offset of its word in bytes from 0. `TooLong` and
/// `NoMemory` have offset 0.
#[derive(Clone, Copy, Debug, PartialEq, Eq)]
pub struct HexFault {
    pub why: HexWhy,
    pub at: u64,
}

impl<T: Drop> From<AllocFailed<T>> for HexFault {
    ghost from_gives = { λ _ fault. (fault.why ≡ NoMemory) × (fault.at ≡ 0) };

    fn from(_error: AllocFailed<T>) -> HexFault {
        HexFault {
            why: HexWhy::NoMemory,
            at: 0,
        }
    }
}

fn is_white_space(byte: u8) -> bool
    ensures { result ≡ is_white_space byte }
{
    byte == b' ' || byte == b'\t' || byte == b'\r' || byte == b'\n'
}

fn white_space_at(bytes: &[u8]) -> Option<usize>
    ensures { result ≡ position is_white_space bytes.now }
{
    bytes.iter().position(|byte| is_white_space(*byte))
}

/// Splits a text at its first white space: the bytes before it, and the bytes after it.
#[tactic(auto, using(crate::proofs::HexPieces::piece_cuts))]
fn cut_at_white_space(text: &[u8]) -> (&[u8], &[u8])
    requires { 0 < length text.now }
    ensures pieces { (at : ℕ)
        → pieces_of at (slice_split is_white_space text.now)
        ≡ followed_by (piece_of at result.0.now)
        (pieces_of (at + (length text.now - length result.1.now))
        (slice_split is_white_space result.1.now)) }
    ensures shorter { length result.1.now < length text.now }
{
    match white_space_at(text) {
        None => (text, &[]),
        Some(at) => (&text[..at], &text[at + 1..]),
    }
}

/// Returns the bytes of hex text: pairs of hexadecimal digits of either case, separated by one or
/// more spaces, tabs, carriage returns and line feeds, which may also be at both ends.
///
/// The first fault is reported: a text longer than [`LONGEST_TEXT`], and then the first word that
/// is not a pair, with the offset from 0 of its first byte.
pub fn read_hex(alloc: Global, text: &[u8]) -> Result<Vec<u8>, HexFault>
    // The bytes are those of the text.
    ensures bytes { IfOk result (λ v. hex_of text.now ≡ Ok v.items) }
    // The fault is the first of the text, unless memory ran out.
    ensures fault { IfErr result (λ e. e.why ≢ NoMemory → hex_of text.now ≡ Err e) }
    ensures memory { IfErr result (λ e. e.why ≡ NoMemory → e.at ≡ 0) }
{
    if text.len() > LONGEST_TEXT {
        return Err(HexFault {
            why: HexWhy::TooLong,
            at: 0,
        });
    }
    let mut bytes = Vec::new(alloc);
    let mut rest = text;
    while !rest.is_empty() {
        let at = (text.len() - rest.len()) as u64;
        let (piece, after) = cut_at_white_space(rest);
        if !piece.is_empty() {
            let Some(byte) = read_hex_pair(piece) else {
                return Err(HexFault {
                    why: HexWhy::BadHex,
                    at,
                });
            };
            bytes.push(byte)?;
        }
        rest = after;
    }
    Ok(bytes)
}
