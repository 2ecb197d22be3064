//! Parsing a line.
ghost use Rattle.std.specs.Prelude.{◌≡◌, ◌≤◌, ◌∷◌, [], if◌then◌else◌, length, nat_lt, take, None, Some, Err, MatchOption};
ghost use Rattle.text.specs.Decimal.{decimal_of};
ghost use Rattle.text.specs.Words.{with_piece, words_of};
ghost use Rattle.loconet_tcp.specs.Requests.{are_pairs, bytes_of, decoder_in, end_named, facing_of, failure_named, leading_bytes, number_within, parse_fail, parse_mount, parse_place, parse_send, placement_of, request_of, things_of, turns_of};

use crate::request::{
    DeviceRequest, Facing, FailError, Failure, LONGEST_WORD, MountError, PlaceError, Placement,
    Reason, Request, Things, Word,
};
use arrayvec::ArrayVec;
use ln_frame::Msg;
use text::{Words, cut_piece, push_bytes, read_decimal, read_hex_pair};

/// The most characters of a valid `SEND` line.
pub const LONGEST_LINE: usize = 400;

/// The most bytes that are kept of a line: one more than a valid line may have, so that a longer
/// line is detected.
pub const LONGEST_KEPT: usize = LONGEST_LINE + 1;

/// The most turns that a client can request at once: a minute of track time or more.
const MOST_TURNS: u32 = 10_000;

/// The bytes written by the words of a text of at most 400 characters, two characters for each
/// byte: at most 200.
pub type Bytes = ArrayVec<u8, 200>;

/// Returns the request of a line, given without its line end.
pub(crate) fn parse_line(line: &[u8]) -> Option<Request>
    ensures { result ≡ request_of line.now }
{
    let (first, rest) = cut_piece(line);
    if first == b"TURNS".as_slice() {
        return Some(Request::Turns(turns_of(rest)));
    }
    if first == b"PLACE".as_slice() {
        return Some(Request::Place(parse_place_line(line.len(), rest)));
    }
    if first == b"MOUNT".as_slice() {
        let words = words_within(line.len(), rest);
        return Some(Request::Device(DeviceRequest::Mount(parse_mount(words))));
    }
    if first == b"FAIL".as_slice() {
        let words = words_within(line.len(), rest);
        return Some(Request::Device(DeviceRequest::Fail(parse_fail(words))));
    }
    if first != b"SEND".as_slice() {
        return Some(Request::States(things_of(line)?));
    }
    if line.len() > LONGEST_LINE {
        return Some(Request::Invalid(Reason::TooLong));
    }
    Some(parse_send(rest))
}

/// Returns what a line asks the states of.
fn things_of(line: &[u8]) -> Option<Things>
    ensures { result ≡ things_of line.now }
{
    if line == b"NODES".as_slice() {
        Some(Things::Nodes)
    } else if line == b"TRAINS".as_slice() {
        Some(Things::Trains)
    } else if line == b"TURNOUTS".as_slice() {
        Some(Things::Turnouts)
    } else if line == b"CVS".as_slice() {
        Some(Things::Variables)
    } else {
        None
    }
}

/// Returns the words after the first of a line of this length; none of a line that is too long.
#[tactic(auto, using(crate::proofs::Words::no_words))]
fn words_within(len: usize, words: &[u8]) -> &[u8]
    ensures { words_of result.now ≡ (if nat_lt 400 len then [] else words_of words.now) }
{
    if len > LONGEST_LINE { &[] } else { words }
}

/// Returns the decoder that the words after `MOUNT` put on the programming track, or that none is.
fn parse_mount(words: &[u8]) -> Result<Option<Word>, MountError>
    ensures { result ≡ parse_mount (words_of words.now) }
{
    let (word, rest) = next_word(words);
    let (other, _rest) = next_word(rest);
    if word.is_empty() {
        Err(MountError::NoName)
    } else if other.is_empty() {
        Ok(decoder_in(word))
    } else {
        Err(MountError::NoName)
    }
}

/// Returns the name of a decoder, or `None` for `nothing`.
fn decoder_in(word: &[u8]) -> Option<Word>
    ensures { result ≡ decoder_in word.now }
{
    if word == b"nothing".as_slice() {
        None
    } else {
        Some(kept_word(word))
    }
}

/// Returns what the words after `FAIL` let fail, or that nothing does.
fn parse_fail(words: &[u8]) -> Result<Option<Failure>, FailError>
    ensures { result ≡ parse_fail (words_of words.now) }
{
    let (word, rest) = next_word(words);
    let (number, rest) = next_word(rest);
    let (level, rest) = next_word(rest);
    let (other, _rest) = next_word(rest);
    if word.is_empty() || !other.is_empty() {
        Err(FailError::UnknownFailure)
    } else if number.is_empty() {
        failure_named(word)
    } else if level.is_empty() {
        turnout_failure(word, number)
    } else {
        sensor_failure(word, number, level)
    }
}

/// Returns what a word alone lets fail, or `None` for `none`.
fn failure_named(word: &[u8]) -> Result<Option<Failure>, FailError>
    ensures { result ≡ failure_named word.now }
{
    if word == b"programming".as_slice() {
        Ok(Some(Failure::Programming))
    } else if word == b"none".as_slice() {
        Ok(None)
    } else {
        Err(FailError::UnknownFailure)
    }
}

/// Returns the turnout that two words let fail.
fn turnout_failure(word: &[u8], number: &[u8]) -> Result<Option<Failure>, FailError>
    ensures { result ≡ parse_fail (word.now ∷ number.now ∷ []) }
{
    if word != b"turnout".as_slice() {
        return Err(FailError::UnknownFailure);
    }
    match number_of(number) {
        Some(switch) => Ok(Some(Failure::Turnout { switch })),
        None => Err(FailError::UnknownTurnout),
    }
}

/// Returns the sensor that three words let fail.
fn sensor_failure(word: &[u8], number: &[u8], level: &[u8]) -> Result<Option<Failure>, FailError>
    ensures { result ≡ parse_fail (word.now ∷ number.now ∷ level.now ∷ []) }
{
    if word != b"sensor".as_slice() {
        return Err(FailError::UnknownFailure);
    }
    let occupied = level == b"on".as_slice();
    if !occupied && level != b"off".as_slice() {
        return Err(FailError::UnknownFailure);
    }
    match number_of(number) {
        Some(sensor) => Ok(Some(Failure::Sensor { sensor, occupied })),
        None => Err(FailError::UnknownSensor),
    }
}

/// Returns the number of a sensor or a switch that a word writes.
fn number_of(word: &[u8]) -> Option<u16>
    ensures { result ≡ number_within (decimal_of word.now) }
{
    match read_decimal(word) {
        Some(number) if number <= u32::from(u16::MAX) => Some(number as u16),
        _ => None,
    }
}

/// Returns where a `PLACE` line of this length puts a train, by the words after `PLACE`.
fn parse_place_line(len: usize, words: &[u8]) -> Result<Placement, PlaceError>
    ensures { result
        ≡ (if nat_lt 400 len then Err PlaceError.TooLong else parse_place (words_of words.now)) }
{
    if len > LONGEST_LINE {
        return Err(PlaceError::TooLong);
    }
    parse_place(words)
}

/// Returns where the words after `PLACE` put a train.
fn parse_place(words: &[u8]) -> Result<Placement, PlaceError>
    ensures { result ≡ parse_place (words_of words.now) }
{
    let (train, rest) = next_word(words);
    let (block, rest) = next_word(rest);
    let (front, rest) = next_word(rest);
    placement_of(train, block, read_decimal(front), facing_of(rest))
}

/// Returns where a train is put, or the first reason why the line does not say it.
fn placement_of(
    train: &[u8],
    block: &[u8],
    front: Option<u32>,
    facing: Result<Option<Facing>, PlaceError>,
) -> Result<Placement, PlaceError>
    ensures { result ≡ placement_of train.now block.now front facing }
{
    let Some(front) = front else {
        return Err(PlaceError::NoNumber);
    };
    match facing {
        Ok(facing) => Ok(Placement {
            train: kept_word(train),
            block: kept_word(block),
            front,
            facing,
        }),
        Err(error) => Err(error),
    }
}

/// Returns the first 33 bytes of a word.
#[tactic(auto, using(crate::proofs::Words::kept_whole))]
fn kept_word(word: &[u8]) -> Word
    ensures { result.items ≡ take 33 word.now }
{
    if word.len() <= LONGEST_WORD {
        copied(word)
    } else {
        copied(&word[..LONGEST_WORD])
    }
}

fn copied(word: &[u8]) -> Word
    requires { length word.now ≤ 33 }
    ensures { result.items ≡ word.now }
{
    let mut copy = Word::new();
    push_bytes(&mut copy, word);
    copy
}

/// Returns the end that the words after the number name, or `None` if there are none.
fn facing_of(words: &[u8]) -> Result<Option<Facing>, PlaceError>
    ensures { result ≡ facing_of (words_of words.now) }
{
    let (word, rest) = next_word(words);
    let (other, _rest) = next_word(rest);
    if word.is_empty() {
        Ok(None)
    } else if other.is_empty() {
        end_named(word)
    } else {
        Err(PlaceError::NoEnd)
    }
}

/// Returns the end that a word names.
fn end_named(word: &[u8]) -> Result<Option<Facing>, PlaceError>
    ensures { result ≡ end_named word.now }
{
    if word == b"a".as_slice() {
        Ok(Some(Facing::A))
    } else if word == b"b".as_slice() {
        Ok(Some(Facing::B))
    } else {
        Err(PlaceError::NoEnd)
    }
}

/// Returns the first word of a text, empty if it has none, and the text after it.
fn next_word(text: &[u8]) -> (&[u8], &[u8])
    ensures words { words_of text.now ≡ with_piece result.0.now (words_of result.1.now) }
    ensures none { result.0.now ≡ [] → words_of result.1.now ≡ [] }
{
    let mut words = Words(text);
    match words.next_word() {
        Some(word) => (word, words.0),
        None => (&[], &[]),
    }
}

/// Returns the number of turns that a text writes in decimal digits, 1 to 10,000.
fn turns_of(text: &[u8]) -> Option<u16>
    ensures { result ≡ turns_of text.now }
{
    match read_decimal(text) {
        Some(count) if 1 <= count && count <= MOST_TURNS => Some(count as u16),
        _ => None,
    }
}

/// Returns the request of the words after `SEND`.
fn parse_send(words: &[u8]) -> Request
    requires { length words.now ≤ 400 }
    ensures { result ≡ parse_send (bytes_of (words_of words.now)) }
{
    let Some(bytes) = bytes_of(words) else {
        return Request::Invalid(Reason::NotHex);
    };
    match Msg::whole(bytes.as_slice()) {
        Some(message) => Request::Send(message),
        None if Msg::has_form(bytes.as_slice()) => Request::Invalid(Reason::WrongCheck),
        None => Request::Invalid(Reason::NoMessage),
    }
}

/// Returns the bytes written by the words of a text, each a pair of hexadecimal digits. Returns
/// `None` if a word is not such a pair, and no bytes if there is no word.
#[tactic(auto, unfolding(crate::specs::Requests::bytes_of))]
pub fn bytes_of(text: &[u8]) -> Option<Bytes>
    requires { length text.now ≤ 400 }
    ensures { MatchOption result (bytes_of (words_of text.now) ≡ None)
        (λ v. bytes_of (words_of text.now) ≡ Some v.items) }
{
    let (bytes, are_all) = read_pairs(text);
    if are_all { Some(bytes) } else { None }
}

/// Returns the bytes written by the words of a text, up to the first word that is not a pair of
/// hexadecimal digits.
pub fn leading_bytes(text: &[u8]) -> Bytes
    requires { length text.now ≤ 400 }
    ensures { result.items ≡ leading_bytes (words_of text.now) }
{
    read_pairs(text).0
}

/// Returns the bytes of the words up to the first that is not a pair of digits, and whether every
/// word is a pair.
fn read_pairs(text: &[u8]) -> (Bytes, bool)
    requires { length text.now ≤ 400 }
    ensures bytes { result.0.items ≡ leading_bytes (words_of text.now) }
    ensures all { result.1 ≡ are_pairs (words_of text.now) }
{
    let mut bytes = Bytes::new();
    let mut words = Words(text);
    while let Some(word) = words.next_word() {
        let Some(byte) = read_hex_pair(word) else {
            return (bytes, false);
        };
        bytes.push(byte);
    }
    (bytes, true)
}
